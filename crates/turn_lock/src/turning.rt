//! A turn: a ticket is drawn and waited for, the value is taken out, used and put home, and the turn is passed on.

ghost use Rattle.std.specs.Prelude.{◌≡◌};
ghost use mathlib.Core.List.{IsPrefix};
ghost use Rattle.turn_lock.specs.Passes.{seen_by, share_of, IsPassOf, BeganAs, MayAct, TookTurn};
ghost use Rattle.turn_lock.specs.Turned.{id_of, IsIdle, HasTaken, MayGive, HasGiven};

use crate::steps::{Draw, HOME, LENGTH, NEXT, NoteLength, PassOn, PutHome, Read, SERVED, TakeOut};
use crate::view::View;
use crate::{Held, Pass, Turns};
use atomic_table::Seat;
use std::hint;
use std::sync::Wait;

/// So often a caller pauses, and looks again, before he sleeps.
const MOST_PAUSES: u32 = 300;

impl<T: Held> Turns<T> {
    /// Waits for a turn, and calls `act` at the value in it.
    pub fn with_turn<R, F: FnOnce(&mut T) -> R, H: Wait>(
        &self,
        rt: &H,
        pass: &mut Pass<T>,
        act: F,
    ) -> R
        requires own { IsPassOf (id_of self.now) pass.old }
        requires act { MayAct T.history T.origin F.FnOnce act pass.old }
        ensures own { IsPassOf (id_of self.now) pass.new }
        ensures turn { TookTurn T.history T.origin F.FnOnce act pass.old result pass.new }
        ensures forward { IsPrefix (seen_by pass.old) (seen_by pass.new) }
        ensures share { share_of pass.new ≡ share_of pass.old }
        ensures began { BeganAs pass.new pass.old }
    {
        let mut value = self.take_turn(rt, &mut pass.seat);
        let result = act(&mut value);
        self.give_turn(&mut pass.seat, value);
        result
    }

    // Draws a ticket, waits until it is served, and takes the value out.
    fn take_turn<H: Wait>(&self, rt: &H, seat: &mut Seat<Option<T>, View<T::Item>>) -> T
        requires { IsIdle (id_of self.now) seat.old }
        ensures { HasTaken T.history T.origin seat.old result seat.new }
    {
        let shared = &self.table.shared;
        let ticket = shared.fetch_add::<Draw>(seat, NEXT, 1);
        let mut looks = 0u32;
        for _ in rt.forever() {
            let served = shared.load::<Read>(seat, SERVED);
            if served == ticket {
                shared.load::<TakeOut>(seat, SERVED);
                return shared.exchange(seat, HOME, None).unwrap();
            }
            looks = looks.saturating_add(1);
            self.await_change(rt, served, looks);
        }
        unreachable!()
    }

    // Pauses, or sleeps after many looks while this ticket is served.
    fn await_change<H: Wait>(&self, rt: &H, served: u64, looks: u32) {
        if looks <= MOST_PAUSES {
            hint::spin_loop();
        } else {
            self.table
                .shared
                .park(rt, SERVED, (served % (1 << 32)) as u32);
        }
    }

    // Puts the value home, and passes the turn on.
    fn give_turn(&self, seat: &mut Seat<Option<T>, View<T::Item>>, value: T)
        requires { MayGive T.history T.origin (id_of self.now) seat.old value }
        ensures { HasGiven T.history seat.old value seat.new }
    {
        let shared = &self.table.shared;
        let length = value.count();
        let nothing = shared.exchange(seat, HOME, Some(value));
        let None = nothing else { unreachable!() };
        shared.store::<NoteLength>(seat, LENGTH, length);
        shared.load::<PutHome>(seat, SERVED);
        let served = shared.fetch_add::<PassOn>(seat, SERVED, 1);
        self.wake_behind(served);
    }

    // Wakes those that sleep, if there is a ticket behind the one that was served. Whoever draws one later finds the
    // word changed, and doesn't sleep on the old number.
    fn wake_behind(&self, served: u64) {
        if self.table.shared.peek(NEXT) != served.wrapping_add(1) {
            self.table.shared.wake_all(SERVED);
        }
    }
}
