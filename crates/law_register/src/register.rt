//! The register: entries, each judged by the rules behind those before it, and what is known of a work at a viewpoint.

mod carried;
pub(crate) mod contents;
mod draft;
mod drafter;
mod drafting;
mod entering;
mod entry;
mod growing;
pub(crate) mod indexes;
mod judging;
mod knowing;
mod known;
mod limits;
mod marks;
mod register;
mod rules;
mod standing;
mod verdict;

pub use carried::{Carried, Spans};
pub use draft::{Draft, DraftItem};
pub use drafter::Drafter;
pub use entering::EnterFault;
pub use entry::Entry;
pub use growing::{known_after, known_enacted};
pub use knowing::known_at;
pub use known::{Known, KnownMod, KnownMods};
pub use register::Register;
pub use rules::Rule;
pub use standing::Standing;
pub use verdict::{Reply, Verdict};
