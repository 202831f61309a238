//! A keeper over a table of SQLite: a row a payload, numbered from 1; and the move of one keeper's payloads to another.
#![tactic(auto)]

mod file_opener;
mod memory_opener;
mod move_fault;
mod moving;
mod open_refused;
mod opener;
mod sql_keeper;
mod statements;

pub use file_opener::FileOpener;
pub use memory_opener::MemoryOpener;
pub use move_fault::MoveFault;
pub use moving::move_all;
pub use open_refused::OpenRefused;
pub use opener::Opener;
pub use sql_keeper::SqlKeeper;
