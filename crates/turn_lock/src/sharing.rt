//! Turns are made, their pass is split and joined, and they are closed. None of these calls waits.

ghost use Rattle.std.specs.Prelude.{◌≡◌, ℕ, ◌+◌, ◌<◌, ◌≤◌, [], ◌∷◌, Some, length, IfOk, IfErr, OnErr};
ghost use mathlib.Core.List.{IsPrefix};
ghost use Rattle.turn_lock.specs.Ladder.{longer};
ghost use Rattle.turn_lock.specs.Passes.{seen_by, share_of, made_by, origin_of, start_of, IsPassOf, BeganAs};
ghost use Rattle.turn_lock.specs.Turned.{id_of, callers_of};

use crate::steps::{Compare, Cut, HOME, Merge, NEXT, Portion};
use crate::view::{MOST_CALLERS, Opening};
use crate::{Held, Pass, Turns, TurnsRefused};
use atomic_table::{Refused, Table};
use desk_base::Memory;
use std::alloc::Global;
use std::marker::Brand;
use std::snapshot::Snapshot;

impl<T: Held> Turns<T> {
    /// The turns of a value for at least one caller, and the pass that stands for all of them. It has seen all entries of
    /// the value.
    pub fn new(
        alloc: Global,
        value: T,
        callers: u16,
    ) -> Result<(Turns<T>, Pass<T>), TurnsRefused<T>>
        requires { (0 < callers) × (callers ≤ MOST_CALLERS) }
        ensures own { IfOk result (λ r. IsPassOf (id_of r.0) r.1) }
        ensures share { IfOk result (λ r. (share_of r.1 ≡ callers) × (callers_of r.0 ≡ callers)) }
        ensures seen { IfOk result (λ r. seen_by r.1 ≡ T.history value) }
        ensures made { IfOk result (λ r. made_by r.1 ≡ 0) }
        ensures origin { IfOk result (λ r. origin_of r.1 ≡ T.origin value) }
        ensures start { IfOk result (λ r. start_of r.1 ≡ length (T.history value)) }
        ensures refused { IfErr result (λ r. r.value ≡ value) }
    {
        let opening = Opening {
            value: Snapshot::of(&value),
            callers: u64::from(callers),
        };
        let words = [0, 0, value.count()];
        let mut slots = Vec::new(alloc);
        if slots.reserve(1).is_err() {
            slots.destroy_empty();
            return Err(TurnsRefused { value });
        }
        slots.push_reserved(Some(value));
        match Table::new(alloc, &words, slots, &opening) {
            Ok((table, seat)) => Ok((
                Turns { table },
                Pass {
                    share: callers,
                    seat,
                },
            )),
            Err(Refused { slots }) => Err(TurnsRefused { value: only(slots) }),
        }
    }

    /// A pass with a part of the share of this one, which keeps the rest. It has seen the same.
    pub fn split(&self, pass: &mut Pass<T>, share: u16) -> Result<Pass<T>, Memory>
        requires own { IsPassOf (id_of self.now) pass.old }
        requires share { (0 < share) × (share < share_of pass.old) }
        ensures own { IsPassOf (id_of self.now) pass.new }
        ensures given { IfOk result (λ given. IsPassOf (id_of self.now) given × BeganAs given pass.old) }
        ensures share { IfOk result (λ given. share_of given ≡ share) }
        ensures rest { IfOk result (λ given. share_of pass.new + share ≡ share_of pass.old) }
        ensures seen { IfOk result (λ given. seen_by given ≡ seen_by pass.old) }
        ensures none_made { IfOk result (λ given. made_by given ≡ 0) }
        ensures kept { (seen_by pass.new ≡ seen_by pass.old) × (made_by pass.new ≡ made_by pass.old) }
        ensures began { BeganAs pass.new pass.old }
        ensures err { OnErr result (pass.new ≡ pass.old) }
    {
        Ok(self.cut::<Brand>(pass, share))
    }

    fn cut<P: Portion>(&self, pass: &mut Pass<T>, share: u16) -> Pass<T>
        requires own { IsPassOf (id_of self.now) pass.old }
        requires share { (0 < share) × (share < share_of pass.old) × (share ≡ P.portion) }
        ensures own { IsPassOf (id_of self.now) pass.new × IsPassOf (id_of self.now) result }
        ensures share { (share_of pass.new + share ≡ share_of pass.old) × (share_of result ≡ share) }
        ensures seen { (seen_by pass.new ≡ seen_by pass.old) × (seen_by result ≡ seen_by pass.old) }
        ensures made { (made_by pass.new ≡ made_by pass.old) × (made_by result ≡ 0) }
        ensures began { BeganAs pass.new pass.old × BeganAs result pass.old }
    {
        let seat = self.table.shared.split_seat::<Cut<P>>(&mut pass.seat);
        pass.share -= share;
        Pass { share, seat }
    }

    /// Takes another pass in: the pass has then seen the longer of what both had, and stands for both.
    pub fn join(&self, pass: &mut Pass<T>, other: Pass<T>)
        requires own { IsPassOf (id_of self.now) pass.old }
        requires other { IsPassOf (id_of self.now) other }
        ensures own { IsPassOf (id_of self.now) pass.new }
        ensures seen { seen_by pass.new ≡ longer (seen_by pass.old) (seen_by other) }
        ensures begins { IsPrefix (seen_by pass.old) (seen_by pass.new) × IsPrefix (seen_by other) (seen_by pass.new) }
        ensures share { share_of pass.new ≡ share_of pass.old + share_of other }
        ensures made { made_by pass.new ≡ made_by pass.old + made_by other }
        ensures began { BeganAs pass.new pass.old }
    {
        let Pass { share, seat } = other;
        let shared = &self.table.shared;
        shared.join_seat::<Merge>(&mut pass.seat, seat);
        shared.load::<Compare>(&mut pass.seat, NEXT);
        pass.share += share;
    }

    /// The value, once every other pass was joined into this one.
    pub fn close(self, pass: Pass<T>) -> T
        requires own { IsPassOf (id_of self) pass }
        requires all { share_of pass ≡ callers_of self }
        ensures seen { IsPrefix (seen_by pass) (T.history result) }
        ensures origin { T.origin result ≡ origin_of pass }
        ensures made { length (T.history result) ≡ start_of pass + made_by pass }
    {
        let Turns { table } = self;
        let Pass { share: _, seat } = pass;
        let mut closed = table.close_with(seat);
        let value = closed.take(HOME).unwrap();
        closed.free();
        value
    }
}

// The one value of a list that a table did not take.
fn only<T>(mut slots: Vec<Option<T>>) -> T
    requires { (value : T) × (slots.items ≡ Some value ∷ []) }
    ensures { slots.items ≡ Some result ∷ [] }
{
    let value = slots.pop().unwrap().unwrap();
    slots.destroy_empty();
    value
}
