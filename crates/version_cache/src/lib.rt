//! The versions of a work by day, made anew only from the day that a change touches.
#![tactic(auto)]

mod answering;
mod asking;
mod calendar;
mod dated;
mod kept_version;
pub mod laws;
mod making;
mod revising;
mod revision;
mod row;
mod sharing;
mod table;
mod tabling;
mod work_revision;
mod work_tables;

pub use revision::Revision;
pub use row::Row;
pub use table::Table;
pub use work_revision::WorkRevision;
pub use work_tables::WorkTables;
