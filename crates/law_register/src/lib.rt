//! The register of a desk: what is recorded of acts, what of it is known, and what the text of an act then is.
#![tactic(auto)]

mod answer;
mod desk;
mod law;
pub mod laws;
pub mod preview_laws;
mod register;
pub mod replay_laws;
mod series;

pub use answer::{
    Answer, AnswerNode, AnswerNodes, AskFault, Carrier, Dated, Days, Due, Ids, PastKey, QueryRule,
    Question, Reading, Replayer, Touched, Unapplied, Version, answer_by, answer_dated,
    continue_replay, enact, go_on, known_held,
};
pub use desk::{CommandFault, Damage, Desk, Event, FaultMark, OpenFault};
pub use law::{
    Act, Command, Destination, EntryFormat, Kind, ModSource, Modification, Mods, entry_size,
};
pub use register::{
    Carried, Draft, DraftItem, Drafter, EnterFault, Entry, Known, KnownMod, KnownMods, Register,
    Reply, Rule, Spans, Standing, Verdict, known_after, known_at, known_enacted,
};
pub use series::Series;
