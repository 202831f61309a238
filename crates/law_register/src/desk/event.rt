//! Event: what happens at a desk.

use crate::{Entry, FaultMark};

/// What happens at a desk, one after another.
#[derive(Debug, Drop)]
pub enum Event {
    /// An entry came to stand behind the others.
    Entered(Entry),
    /// A fault of the keeper answered a command.
    Faulted(FaultMark),
}
