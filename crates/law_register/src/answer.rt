//! What is asked of the law, and what is answered: questions, versions, answers, and who replays.

mod answer;
mod answer_node;
mod answering;
mod carrier;
mod dated;
mod due;
mod ids;
mod past_key;
mod queries;
mod question;
mod replayer;
mod replaying;
mod version;

pub use answer::Answer;
pub use answer_node::{AnswerNode, AnswerNodes};
pub use answering::{answer_by, answer_dated};
pub use carrier::{Carrier, known_held};
pub use dated::Dated;
pub use due::Due;
pub use ids::{Days, Ids, Touched, Unapplied};
pub use past_key::PastKey;
pub use queries::{AskFault, QueryRule};
pub use question::{Question, Reading};
pub use replayer::Replayer;
pub use replaying::{continue_replay, enact, go_on};
pub use version::Version;
