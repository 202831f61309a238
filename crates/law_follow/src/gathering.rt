//! Gathering: payloads are judged behind those of a register, and given to its keeper together.

ghost use Rattle.std.specs.Prelude.{◌≡◌, ◌≤◌, ◌<◌, ◌+◌, ◌↔◌, [], None, List, ℕ, IfErr, OnErr, OnOk, length};
ghost use Rattle.law_keeper.specs.Keepers.{IsWithFront, LeavesFront};
ghost use Rattle.law_follow.specs.Batches.{HasHeld, HoldsAhead, StaysAhead, batched};
ghost use Rattle.law_follow.specs.Following.{HasKeeperCause, IsOfKeeper};
ghost use Rattle.law_follow.specs.Replicas.{IsPendingOn, IsRight, payloads_of};
ghost use Rattle.law_follow.specs.Taking.{Fits, Steps};
ghost use Rattle.law_register.specs.Desk.States.{MayFollow};
ghost use Rattle.entry_codec.specs.Entries.{spelling};

use crate::batch::Batch;
use crate::followed::FollowFault;
use crate::judging::next_entry;
use crate::replica::{Pending, Replica};
use crate::taken::{TakeFault, Taken};
use crate::taking::{pending_has_size, recognize};
use desk_base::Memory;
use law_keeper::Keeper;
use law_register::laws::entries_are_few;
use std::alloc::Global;

/// Takes the payload of a number, of which the keeper is told later: where it is added, it stands in the batch.
#[tactic(auto, using(crate::proofs::Stepping::gap_step, crate::proofs::Ahead::stays_still))]
pub(crate) fn judge_payload(
    alloc: Global,
    replica: &mut Replica,
    batch: &mut Batch,
    number: u64,
    payload: Vec<u8>,
) -> Result<Taken, TakeFault>
    requires number { 1 ≤ number }
    requires right { IsRight replica.old }
    requires settled { replica.old.pending ≡ None }
    ensures steps { Steps number payload.items replica.old replica.new result }
    ensures settled { replica.new.pending ≡ None }
    ensures right { IsRight replica.new }
    ensures ahead { StaysAhead replica.old replica.new batch.old batch.new }
{
    entries_are_few(&replica.register);
    let len = replica.register.len() as u64;
    if number <= len {
        recognize(alloc, replica, number, payload)
    } else if number == len + 1 {
        judge_next(alloc, replica, batch, number, payload)
    } else {
        drop(payload);
        Err(TakeFault::Gap {
            expected: len + 1,
            got: number,
        })
    }
}

// Adds a payload that comes next behind the others, if it may stand there.
#[tactic(auto, using(crate::proofs::Ahead::stays_still))]
fn judge_next(
    alloc: Global,
    replica: &mut Replica,
    batch: &mut Batch,
    number: u64,
    payload: Vec<u8>,
) -> Result<Taken, TakeFault>
    requires next { number ≡ length replica.old.register.entries + 1 }
    requires right { IsRight replica.old }
    requires settled { replica.old.pending ≡ None }
    ensures steps { Steps number payload.items replica.old replica.new result }
    ensures settled { replica.new.pending ≡ None }
    ensures right { IsRight replica.new }
    ensures ahead { StaysAhead replica.old replica.new batch.old batch.new }
{
    match next_entry(alloc, &replica.register, replica.like, payload.as_slice()) {
        Ok(entry) => gather_entry(replica, batch, number, Pending { entry, payload }),
        Err(unfit) => {
            drop(payload);
            Err(TakeFault::from(unfit))
        }
    }
}

// Adds the payload that spells an entry which may stand behind the others, once there is room for that.
#[tactic(auto, using(crate::proofs::Ahead::stays_reserved))]
fn gather_entry(
    replica: &mut Replica,
    batch: &mut Batch,
    number: u64,
    pending: Pending,
) -> Result<Taken, TakeFault>
    requires next { number ≡ length replica.old.register.entries + 1 }
    requires right { IsRight replica.old }
    requires settled { replica.old.pending ≡ None }
    requires follows { MayFollow replica.old.register.entries pending.entry }
    requires spelled { spelling pending.entry ≡ pending.payload.items }
    requires fits { Fits replica.old.register.entries pending.entry pending.payload.items }
    ensures steps { Steps number pending.payload.items replica.old replica.new result }
    ensures settled { replica.new.pending ≡ None }
    ensures right { IsRight replica.new }
    ensures ahead { StaysAhead replica.old replica.new batch.old batch.new }
{
    match replica.reserve(&pending.entry) {
        Ok(()) => gather(replica, batch, number, pending),
        Err(Memory) => {
            drop(pending);
            Err(TakeFault::Memory)
        }
    }
}

// Puts a payload into the batch, and then its entry behind the others.
#[tactic(auto, using(crate::proofs::Ahead::stays_unput))]
fn gather(
    replica: &mut Replica,
    batch: &mut Batch,
    number: u64,
    pending: Pending,
) -> Result<Taken, TakeFault>
    requires next { number ≡ length replica.old.register.entries + 1 }
    requires right { IsRight replica.old }
    requires settled { replica.old.pending ≡ None }
    requires follows { IsPendingOn replica.old.register pending }
    ensures steps { Steps number pending.payload.items replica.old replica.new result }
    ensures settled { replica.new.pending ≡ None }
    ensures right { IsRight replica.new }
    ensures ahead { StaysAhead replica.old replica.new batch.old batch.new }
{
    pending_has_size(&replica.register, &pending);
    let Pending { entry, payload } = pending;
    match batch.put(payload) {
        Ok(()) => {
            replica.push(entry);
            Ok(Taken::Added)
        }
        Err(Memory) => {
            drop(entry);
            Err(TakeFault::Memory)
        }
    }
}

/// Gives the payloads of a batch to the keeper where there are enough of them.
#[tactic(auto, using(crate::proofs::Giving::none_given, crate::proofs::Giving::none_left))]
pub(crate) fn commit_full<K: Keeper>(
    alloc: Global,
    keeper: &mut K,
    replica: &mut Replica,
    batch: &mut Batch,
) -> Result<(), FollowFault>
    requires right { IsRight replica.old }
    requires settled { replica.old.pending ≡ None }
    requires held { HoldsAhead (K.holding keeper.old) (K.readiness keeper.old) replica.old batch.old }
    ensures payloads { payloads_of replica.new ≡ payloads_of replica.old }
    ensures settled { replica.new.pending ≡ None }
    ensures right { IsRight replica.new }
    ensures held { OnOk result ((first : List (List ℕ))
        → HasHeld first (K.holding keeper.old) (K.readiness keeper.old) replica.old batch.old
        → HasHeld first (K.holding keeper.new) (K.readiness keeper.new) replica.new batch.new) }
    ensures tells { (K.holding keeper.old).tells ↔ (K.holding keeper.new).tells }
    ensures list { (K.holding keeper.old).tells
        → IsWithFront (K.holding keeper.old).list (batched batch.old) (K.holding keeper.new).list }
    ensures crash { LeavesFront (batched batch.old) (K.holding keeper.old) (K.holding keeper.new) }
    ensures some { OnErr result (1 ≤ length (batched batch.old)) }
    ensures fault { IfErr result IsOfKeeper }
    ensures cause { HasKeeperCause (K.holding keeper.old) (K.faults keeper.old) (K.faults keeper.new) result }
{
    if batch.is_full() {
        commit(alloc, keeper, replica, batch)
    } else {
        Ok(())
    }
}

/// Gives the payloads of a batch to the keeper, if there are any.
#[tactic(auto, using(crate::proofs::Giving::none_given, crate::proofs::Giving::none_left))]
pub(crate) fn commit<K: Keeper>(
    alloc: Global,
    keeper: &mut K,
    replica: &mut Replica,
    batch: &mut Batch,
) -> Result<(), FollowFault>
    requires right { IsRight replica.old }
    requires settled { replica.old.pending ≡ None }
    requires held { HoldsAhead (K.holding keeper.old) (K.readiness keeper.old) replica.old batch.old }
    ensures payloads { payloads_of replica.new ≡ payloads_of replica.old }
    ensures settled { replica.new.pending ≡ None }
    ensures right { IsRight replica.new }
    ensures held { OnOk result ((first : List (List ℕ))
        → HasHeld first (K.holding keeper.old) (K.readiness keeper.old) replica.old batch.old
        → HasHeld first (K.holding keeper.new) (K.readiness keeper.new) replica.new batch.new) }
    ensures whole { OnOk result (batch.new.payloads.items ≡ []) }
    ensures tells { (K.holding keeper.old).tells ↔ (K.holding keeper.new).tells }
    ensures list { (K.holding keeper.old).tells
        → IsWithFront (K.holding keeper.old).list (batched batch.old) (K.holding keeper.new).list }
    ensures crash { LeavesFront (batched batch.old) (K.holding keeper.old) (K.holding keeper.new) }
    ensures some { OnErr result (1 ≤ length (batched batch.old)) }
    ensures fault { IfErr result IsOfKeeper }
    ensures cause { HasKeeperCause (K.holding keeper.old) (K.faults keeper.old) (K.faults keeper.new) result }
{
    if batch.payloads.is_empty() {
        Ok(())
    } else {
        give(alloc, keeper, replica, batch)
    }
}

// Gives the payloads of a batch to the keeper.
fn give<K: Keeper>(
    alloc: Global,
    keeper: &mut K,
    replica: &mut Replica,
    batch: &mut Batch,
) -> Result<(), FollowFault>
    requires right { IsRight replica.old }
    requires settled { replica.old.pending ≡ None }
    requires held { HoldsAhead (K.holding keeper.old) (K.readiness keeper.old) replica.old batch.old }
    requires some { 0 < length batch.old.payloads.items }
    ensures payloads { payloads_of replica.new ≡ payloads_of replica.old }
    ensures settled { replica.new.pending ≡ None }
    ensures right { IsRight replica.new }
    ensures held { OnOk result ((first : List (List ℕ))
        → HasHeld first (K.holding keeper.old) (K.readiness keeper.old) replica.old batch.old
        → HasHeld first (K.holding keeper.new) (K.readiness keeper.new) replica.new batch.new) }
    ensures whole { OnOk result (batch.new.payloads.items ≡ []) }
    ensures tells { (K.holding keeper.old).tells ↔ (K.holding keeper.new).tells }
    ensures list { (K.holding keeper.old).tells
        → IsWithFront (K.holding keeper.old).list (batched batch.old) (K.holding keeper.new).list }
    ensures crash { LeavesFront (batched batch.old) (K.holding keeper.old) (K.holding keeper.new) }
    ensures fault { IfErr result IsOfKeeper }
    ensures cause { HasKeeperCause (K.holding keeper.old) (K.faults keeper.old) (K.faults keeper.new) result }
{
    match keeper.append_all(alloc, batch.payloads.as_slice()) {
        Ok(end) => {
            replica.end = end;
            batch.clear();
            Ok(())
        }
        Err(fault) => Err(FollowFault::from(fault)),
    }
}
