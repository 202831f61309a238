//! The rule of the turns, and the kinds of atomic step that keep it.

ghost use Rattle.std.specs.Prelude.{ℕ};
ghost use Rattle.turn_lock.specs.Ladder as ladder;

use crate::Held;
use crate::view::{Opening, View};
use atomic_table::{Join, Play, Split, TableRule};
use std::marker::{Brand, PhantomData};

/// The word with the next ticket.
pub(crate) const NEXT: usize = 0;

/// The word with the ticket that is served.
pub(crate) const SERVED: usize = 1;

/// The word with the length of the history.
pub(crate) const LENGTH: usize = 2;

/// The slot that is the value's home.
pub(crate) const HOME: usize = 0;

/// The rule of the words, the value's home and the passes.
pub struct Ladder;

impl<T: Held> TableRule<Option<T>, View<T::Item>, Opening<T>> for Ladder {
    ghost holds = { ladder.IsKept T.history T.origin };

    ghost first = { ladder.first_view T.history T.origin };
}

/// How much of a share is split off. Each call picks it.
pub trait Portion {
    ghost portion: { ℕ };
}

impl Portion for Brand {
    ghost portion = { 1 };
}

/// Step 1: a pass gives a part of its share to a new one.
pub struct Cut<P> {
    portion: PhantomData<P>,
}

impl<I, P: Portion> Split<View<I>> for Cut<P> {
    ghost left = { ladder.remaining P.portion };

    ghost right = { ladder.given P.portion };
}

/// Step 2: a pass takes another one in.
pub struct Merge;

impl<I> Join<View<I>> for Merge {
    ghost both = { ladder.merged };

    ghost spent = { ladder.spent };
}

/// Step 2, its end: what both had seen is compared.
pub struct Compare;

impl<T, I> Play<Option<T>, View<I>> for Compare {
    ghost then = { ladder.compares };
}

/// Step 3: a ticket is drawn.
pub struct Draw;

impl<T, I> Play<Option<T>, View<I>> for Draw {
    ghost then = { ladder.draws };
}

/// Step 4: the ticket that is served is read.
pub struct Read;

impl<T, I> Play<Option<T>, View<I>> for Read {
    ghost then = { ladder.reads };
}

/// Step 5: the value is taken out.
pub struct TakeOut;

impl<T: Held> Play<Option<T>, View<T::Item>> for TakeOut {
    ghost then = { ladder.takes_out T.history T.origin };
}

/// Step 6: the length of the history to be left is noted.
pub struct NoteLength;

impl<T: Held> Play<Option<T>, View<T::Item>> for NoteLength {
    ghost then = { ladder.notes_length T.history };
}

/// Step 7: the value is put home.
pub struct PutHome;

impl<T, I> Play<Option<T>, View<I>> for PutHome {
    ghost then = { ladder.puts_home };
}

/// Step 8: the turn is passed on.
pub struct PassOn;

impl<T, I> Play<Option<T>, View<I>> for PassOn {
    ghost then = { ladder.passes_on };
}
