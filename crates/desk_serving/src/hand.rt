//! Hand: what a worker has in hand.

use turn_lock::{Held, Pass};

/// What a worker has in hand: its pass, and what came of its work so far.
#[derive(Drop)]
pub struct Hand<D: Held> {
    pub pass: Pass<D>,
    /// Its gate failed.
    pub failed: bool,
    /// Some connection ended because there was not enough memory.
    pub wanting: bool,
}
