//! The textual modifications of an act: each is one change of its tree, or is held back by a cause.
#![tactic(auto)]

mod applying;
mod brought;
mod copying;
mod edit;
mod fitting;
mod held_back;
mod inserting;
mod joining;
pub mod laws;
mod num_changes;
mod occurrences;
mod outcome;
mod pairs;
mod renumbering;
mod sizes;
mod splitting;
mod staying;
mod structure;
mod targets;
mod text;

pub use applying::apply;
pub use edit::{Pos, SplitAt, Spot, TextPos, TextualMod};
pub use fitting::MAX_ITEMS;
pub use outcome::Outcome;
pub use pairs::Pairs;
pub use splitting::Cut;
