//! The office: a desk whose entries a keeper keeps. It opens what is kept, does one command after another, and finds
//! out after a failure what was kept.
#![tactic(auto)]

mod acting;
mod asked;
mod book;
mod changes;
mod kept_then;
pub mod laws;
mod line;
mod moving;
mod noting;
mod office;
mod opening;
mod ref_rows;
mod references;
mod renewing;
mod sent;
mod sources_then;
mod spelled;
mod tabling;
mod target_rules;
mod targets_after;
mod text_refs;
mod writing;

pub use book::{Book, Changes, KeptWorks, Naming, Pending};
pub use office::{Closed, Office, OpenRefused};
pub use opening::Opened;
