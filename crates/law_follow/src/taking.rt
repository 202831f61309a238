//! Taking: what is pending is settled, and then a payload is added, is known, or is refused.

ghost use Rattle.std.specs.Prelude.{◌≡◌, ◌≤◌, ◌<◌, ◌+◌, ◌↔◌, [], None, IfOk, IsTrue, get_or, length};
ghost use Rattle.law_journal.specs.Grammar.{is_size};
ghost use Rattle.law_keeper.specs.Keepers.{Keeps};
ghost use Rattle.law_follow.specs.Replicas.{HoldsReplica, IsPendingOn, IsRight, standing_of};
ghost use Rattle.law_follow.specs.Taking.{HasTakeCause, LeavesLists, Settles, StandsFor, StandsForEither, Steps, Takes};
ghost use Rattle.law_follow.specs.Taking as spec;
ghost use Rattle.law_follow.specs.Opening.{spellings};
ghost use Rattle.law_register.specs.Desk.States.{MayFollow};
ghost use Rattle.entry_codec.specs.Entries.{spelling};

use crate::judging::next_entry;
use crate::replica::{Pending, Replica};
use crate::taken::{TakeFault, Taken};
use desk_base::{LoadFault, Memory};
use entry_codec::encode;
use entry_codec::laws::spelling_has_its_size;
use law_keeper::{KeepFault, Keeper, settle};
use law_register::Register;
use law_register::laws::{
    accepted_are_small, accepted_can_be_spelled, entries_are_few, entries_are_legal,
    entries_are_well_spelled, entries_can_be_spelled,
};
use std::alloc::Global;

// Gives a replica the payload of a number. What is pending is settled first.
pub(crate) fn take<K: Keeper>(
    alloc: Global,
    keeper: &mut K,
    replica: &mut Replica,
    number: u64,
    payload: Vec<u8>,
) -> Result<Taken, TakeFault>
    requires number { 1 ≤ number }
    requires right { IsRight replica.old }
    requires held { HoldsReplica (K.holding keeper.old) (K.readiness keeper.old) replica.old }
    ensures takes { Takes number payload.items (standing_of replica.old) (standing_of replica.new)
        (K.holding keeper.old).tells (K.holding keeper.old).list (K.holding keeper.new).list result }
    ensures tells { (K.holding keeper.old).tells ↔ (K.holding keeper.new).tells }
    ensures right { IsRight replica.new }
    ensures held { HoldsReplica (K.holding keeper.new) (K.readiness keeper.new) replica.new }
    ensures crash { LeavesLists (StandsForEither replica.old replica.new) (K.holding keeper.old) (K.holding keeper.new) }
    ensures cause { HasTakeCause (K.faults keeper.old) (K.faults keeper.new) result }
{
    match settle_pending(alloc, keeper, replica) {
        Ok(()) => take_settled(alloc, keeper, replica, number, payload),
        Err(fault) => {
            drop(payload);
            Err(TakeFault::from(fault))
        }
    }
}

// Opens the keeper again where a payload is pending, and finds out whether it was kept.
fn settle_pending<K: Keeper>(
    alloc: Global,
    keeper: &mut K,
    replica: &mut Replica,
) -> Result<(), KeepFault>
    requires right { IsRight replica.old }
    requires held { HoldsReplica (K.holding keeper.old) (K.readiness keeper.old) replica.old }
    ensures settles { Settles replica.old replica.new result }
    ensures same { Keeps (K.holding keeper.old) (K.holding keeper.new) }
    ensures right { IsRight replica.new }
    ensures held { HoldsReplica (K.holding keeper.new) (K.readiness keeper.new) replica.new }
    ensures crash { LeavesLists (StandsFor replica.old) (K.holding keeper.old) (K.holding keeper.new) }
    ensures cause { spec.HasSettleCause (K.faults keeper.old) (K.faults keeper.new) result }
{
    let found = match &replica.pending {
        None => return Ok(()),
        Some(pending) => settle(alloc, keeper, replica.end, pending.payload.as_slice()),
    };
    match found {
        Ok(found) => {
            replica.resolve(found);
            Ok(())
        }
        Err(LoadFault::Memory) => Err(KeepFault::Memory),
        Err(_) => Err(KeepFault::Failed),
    }
}

// Gives a replica of which nothing is pending the payload of a number.
#[tactic(auto, using(crate::proofs::Stepping::gap_step))]
fn take_settled<K: Keeper>(
    alloc: Global,
    keeper: &mut K,
    replica: &mut Replica,
    number: u64,
    payload: Vec<u8>,
) -> Result<Taken, TakeFault>
    requires number { 1 ≤ number }
    requires right { IsRight replica.old }
    requires settled { replica.old.pending ≡ None }
    requires held { HoldsReplica (K.holding keeper.old) (K.readiness keeper.old) replica.old }
    ensures steps { Steps number payload.items replica.old replica.new result }
    ensures tells { (K.holding keeper.old).tells ↔ (K.holding keeper.new).tells }
    ensures right { IsRight replica.new }
    ensures held { HoldsReplica (K.holding keeper.new) (K.readiness keeper.new) replica.new }
    ensures crash { LeavesLists (StandsForEither replica.old replica.new) (K.holding keeper.old) (K.holding keeper.new) }
    ensures cause { HasTakeCause (K.faults keeper.old) (K.faults keeper.new) result }
{
    entries_are_few(&replica.register);
    let len = replica.register.len() as u64;
    if number <= len {
        recognize(alloc, replica, number, payload)
    } else if number == len + 1 {
        add(alloc, keeper, replica, number, payload)
    } else {
        drop(payload);
        Err(TakeFault::Gap {
            expected: len + 1,
            got: number,
        })
    }
}

/// The bytes that spell the entry at an index.
pub(crate) fn spelled(alloc: Global, register: &Register, index: usize) -> Result<Vec<u8>, Memory>
    requires { index < length register.now.entries }
    ensures same { IfOk result (λ bytes. bytes.items ≡ get_or (spellings register.now.entries) index []) }
    ensures sized { IfOk result (λ bytes. IsTrue (is_size (length bytes.items))) }
{
    entries_are_legal(register);
    entries_are_well_spelled(register);
    entries_can_be_spelled(register);
    spelling_has_its_size();
    encode(alloc, register.entry(index))
}

// Whether a payload is the one that spells the entry at an index.
fn is_same(alloc: Global, register: &Register, index: usize, payload: &[u8]) -> Result<bool, Memory>
    requires { index < length register.now.entries }
    ensures { IfOk result (λ same. IsTrue same ↔ (get_or (spellings register.now.entries) index [] ≡ payload.now)) }
{
    let bytes = spelled(alloc, register, index)?;
    Ok(bytes.as_slice() == payload)
}

/// Compares a payload with the one that stands at its number.
pub(crate) fn recognize(
    alloc: Global,
    replica: &Replica,
    number: u64,
    payload: Vec<u8>,
) -> Result<Taken, TakeFault>
    requires first { 1 ≤ number }
    requires last { number ≤ length replica.now.register.entries }
    requires settled { replica.now.pending ≡ None }
    ensures { Steps number payload.items replica.now replica.now result }
{
    match is_same(
        alloc,
        &replica.register,
        (number - 1) as usize,
        payload.as_slice(),
    ) {
        Ok(true) => Ok(Taken::Known),
        Ok(false) => Err(TakeFault::Conflict { number }),
        Err(Memory) => Err(TakeFault::Memory),
    }
}

// Adds a payload that comes next behind the others, if it may stand there.
fn add<K: Keeper>(
    alloc: Global,
    keeper: &mut K,
    replica: &mut Replica,
    number: u64,
    payload: Vec<u8>,
) -> Result<Taken, TakeFault>
    requires next { number ≡ length replica.old.register.entries + 1 }
    requires right { IsRight replica.old }
    requires settled { replica.old.pending ≡ None }
    requires held { HoldsReplica (K.holding keeper.old) (K.readiness keeper.old) replica.old }
    ensures steps { Steps number payload.items replica.old replica.new result }
    ensures tells { (K.holding keeper.old).tells ↔ (K.holding keeper.new).tells }
    ensures right { IsRight replica.new }
    ensures held { HoldsReplica (K.holding keeper.new) (K.readiness keeper.new) replica.new }
    ensures crash { LeavesLists (StandsForEither replica.old replica.new) (K.holding keeper.old) (K.holding keeper.new) }
    ensures cause { HasTakeCause (K.faults keeper.old) (K.faults keeper.new) result }
{
    match next_entry(alloc, &replica.register, replica.like, payload.as_slice()) {
        Ok(entry) => add_entry(alloc, keeper, replica, number, Pending { entry, payload }),
        Err(unfit) => {
            drop(payload);
            Err(TakeFault::from(unfit))
        }
    }
}

// Adds the payload that spells an entry which may stand behind the others, once there is room for that.
fn add_entry<K: Keeper>(
    alloc: Global,
    keeper: &mut K,
    replica: &mut Replica,
    number: u64,
    pending: Pending,
) -> Result<Taken, TakeFault>
    requires next { number ≡ length replica.old.register.entries + 1 }
    requires right { IsRight replica.old }
    requires settled { replica.old.pending ≡ None }
    requires held { HoldsReplica (K.holding keeper.old) (K.readiness keeper.old) replica.old }
    requires follows { MayFollow replica.old.register.entries pending.entry }
    requires spelled { spelling pending.entry ≡ pending.payload.items }
    requires fits { spec.Fits replica.old.register.entries pending.entry pending.payload.items }
    ensures steps { Steps number pending.payload.items replica.old replica.new result }
    ensures tells { (K.holding keeper.old).tells ↔ (K.holding keeper.new).tells }
    ensures right { IsRight replica.new }
    ensures held { HoldsReplica (K.holding keeper.new) (K.readiness keeper.new) replica.new }
    ensures crash { LeavesLists (StandsForEither replica.old replica.new) (K.holding keeper.old) (K.holding keeper.new) }
    ensures cause { HasTakeCause (K.faults keeper.old) (K.faults keeper.new) result }
{
    match replica.reserve(&pending.entry) {
        Ok(()) => append(alloc, keeper, replica, number, pending),
        Err(Memory) => {
            drop(pending);
            Err(TakeFault::Memory)
        }
    }
}

/// A payload that is pending has a size that a keeper takes.
pub(crate) fn pending_has_size(register: &Register, pending: &Pending)
    requires { IsPendingOn register.now pending.now }
    ensures { IsTrue (is_size (length pending.now.payload.items)) }
{
    accepted_can_be_spelled(register, &pending.entry);
    accepted_are_small(register, &pending.entry);
    spelling_has_its_size();
}

// Gives a payload to the keeper, and commits it once the keeper has it.
#[tactic(auto, using(crate::proofs::Stepping::added_answer))]
fn append<K: Keeper>(
    alloc: Global,
    keeper: &mut K,
    replica: &mut Replica,
    number: u64,
    pending: Pending,
) -> Result<Taken, TakeFault>
    requires next { number ≡ length replica.old.register.entries + 1 }
    requires right { IsRight replica.old }
    requires settled { replica.old.pending ≡ None }
    requires held { HoldsReplica (K.holding keeper.old) (K.readiness keeper.old) replica.old }
    requires follows { IsPendingOn replica.old.register pending }
    ensures steps { Steps number pending.payload.items replica.old replica.new result }
    ensures tells { (K.holding keeper.old).tells ↔ (K.holding keeper.new).tells }
    ensures right { IsRight replica.new }
    ensures held { HoldsReplica (K.holding keeper.new) (K.readiness keeper.new) replica.new }
    ensures crash { LeavesLists (StandsForEither replica.old replica.new) (K.holding keeper.old) (K.holding keeper.new) }
    ensures cause { HasTakeCause (K.faults keeper.old) (K.faults keeper.new) result }
{
    pending_has_size(&replica.register, &pending);
    match keeper.append(alloc, pending.payload.as_slice()) {
        Ok(end) => {
            replica.commit(pending, end);
            Ok(Taken::Added)
        }
        Err(KeepFault::Failed) => {
            replica.pending = Some(pending);
            Err(TakeFault::KeeperFault)
        }
        Err(KeepFault::Memory) => {
            drop(pending);
            Err(TakeFault::Memory)
        }
    }
}
