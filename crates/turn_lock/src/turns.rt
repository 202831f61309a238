//! Turns: a value that callers use one after another, in the order of their tickets.

ghost use Rattle.std.specs.Prelude.{◌≡◌};

use crate::Held;
use crate::steps::Ladder;
use crate::view::{Opening, View};
use atomic_table::Table;
use std::alloc::Global;

/// A value of which each caller has the turn alone.
#[derive(Drop)]
pub struct Turns<T: Held> {
    pub(crate) table: Table<Option<T>, View<T::Item>, Opening<T>, Ladder, Global>,
    ghost sized: { (table.shared.table_id.words ≡ 3) × (table.shared.table_id.slots ≡ 1) },
}

/// There was no memory for the turns.
#[derive(Drop)]
pub struct TurnsRefused<T> {
    /// The value that was given.
    pub value: T,
}
