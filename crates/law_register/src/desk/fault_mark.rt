//! FaultMark: what is remembered of a command that a fault of the keeper answered.

use crate::Drafter;

/// What is remembered of a command that a fault of the keeper answered.
#[derive(Debug, Drop)]
pub struct FaultMark {
    /// Who sent it.
    pub drafter: Drafter,
    /// The number that the drafter gave it.
    pub request: u64,
    /// How many entries stood when it was answered.
    pub entries: u64,
}
