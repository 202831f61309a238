//! The text that a dossier tells: its act and modifications are entered into a register in memory, which is asked for the text on a
//! day.
#![tactic(auto)]

mod entering;
mod input;
mod lines;
mod report;
mod reporting;
mod stop;
mod text_job;
mod texting;

pub use lines::line;
pub use report::Report;
pub use text_job::TextJob;
pub use texting::{text, text_of_words};
