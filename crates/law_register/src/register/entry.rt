//! Entries: what the register holds.

use crate::{Command, Drafter};
use desk_base::Day;

/// A command that was accepted.
#[derive(Debug, Drop)]
pub struct Entry {
    /// Who sent it.
    pub drafter: Drafter,
    /// The number that the drafter gave it.
    pub request: u64,
    /// The day on which it came.
    pub day: Day,
    /// Its number among the law entries, from 1. `None`: it is an entry of a draft.
    pub law: Option<u32>,
    /// The command.
    pub command: Command,
}
