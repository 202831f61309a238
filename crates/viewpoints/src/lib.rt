//! Viewpoints: a question is answered by what the register knew at the viewpoint that it names.
#![tactic(auto)]

mod answering;
pub mod laws;
mod past_tables;
mod replayed;

pub use law_register::{PastKey, known_at};
pub use past_tables::{PastTable, PastTables};
pub use replayed::answer_replayed;
