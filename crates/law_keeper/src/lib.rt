//! Keepers: lists of payloads to which one is added at a time, and what is left of them after a failure or a crash.
#![tactic(auto)]

mod journal_keeper;
mod keep_fault;
mod keeper;
pub mod laws;
mod map_keeper;
mod readiness;
#[cfg(test)]
mod tests;
mod walking;

pub use journal_keeper::JournalKeeper;
pub use keep_fault::KeepFault;
pub use keeper::Keeper;
pub use map_keeper::MapKeeper;
pub use readiness::Readiness;
pub use walking::{payloads, settle};
