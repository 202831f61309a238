//! View: what a pass knows, which contracts and proofs alone see.

use std::collections::LinkedList;
use std::snapshot::Snapshot;

/// The most callers of some turns.
pub const MOST_CALLERS: u16 = 64;

/// Where a pass stands on the way through its turn.
pub enum Stage<I> {
    /// Between two calls.
    Between,
    /// Another pass was joined into it, which had seen these entries.
    Joined(LinkedList<I>),
    /// It has a ticket.
    Waiting(u64),
    /// The ticket is served. The value is at home, and its history is this.
    Serving(u64, LinkedList<I>),
    /// The ticket is served. The value is out with it, and the history is this.
    Holding(u64, LinkedList<I>),
}

/// What a pass knows. No value of it is made.
pub struct View<I> {
    pub stage: Stage<I>,
    /// The entries that it has seen.
    pub seen: LinkedList<I>,
    pub share: u64,
    /// How many entries were added in its turns.
    pub made: u64,
    /// The origin of the value that the turns began with.
    pub origin: LinkedList<u64>,
    /// How many entries that value had.
    pub start: u64,
}

/// What the turns began with, for the proof alone.
#[derive(Drop)]
pub struct Opening<T> {
    pub value: Snapshot<T>,
    pub callers: u64,
}
