//! Opening: what a keeper has is decoded, and each entry is judged behind those before it.

ghost use Rattle.std.specs.Prelude.{◌≡◌, ◌∷◌, ◌++◌, [], None, Ok, IfErr, IfOk, OnOk};
ghost use Rattle.law_keeper.specs.Keepers.{IsSettled, Keeps, LeavesNoMore, LeavesOldOrSame};
ghost use Rattle.law_keeper.specs.declared.readiness.Readiness.TheVariants.{Ready};
ghost use Rattle.law_register.specs.Desk.States.{MayFollow};
ghost use Rattle.law_register.specs.declared.desk.open_fault.OpenFault.TheVariants as fails;
ghost use Rattle.law_follow.specs.Opening as spec;
ghost use Rattle.law_follow.specs.Opening.{HasOpenCause, IsOfPayload, Opens, StaysUnlessFailed, opened_of, with_payload};
ghost use Rattle.law_follow.specs.Replicas.{Holds, HoldsReplica, IsDamageOf, IsRight};

use crate::judging::{last_source, next_entry};
use crate::replica::Replica;
use crate::unfit::Unfit;
use desk_base::Memory;
use entry_codec::CodecFault;
use law_keeper::Keeper;
use law_register::{Damage, Entry, OpenFault, Register, laws};
use std::alloc::Global;

// Why a register is not opened whose next payload is this.
fn damage_of(register: &Register, unfit: Unfit) -> OpenFault
    ensures told { IsDamageOf register.now.entries unfit result }
    ensures refuses { IsOfPayload result }
{
    laws::entries_are_few(register);
    let number = register.len() as u64 + 1;
    match unfit {
        Unfit::NoEntry(CodecFault { place, byte }) => OpenFault::Damaged(Damage::Entry {
            number,
            place,
            byte,
        }),
        Unfit::NotAccepted(rule) => OpenFault::Damaged(Damage::Order { number, rule }),
        Unfit::Memory => OpenFault::Memory,
    }
}

// Appends an entry that may stand behind the others.
fn add_entry(register: &mut Register, entry: Entry) -> Result<(), OpenFault>
    requires { MayFollow register.old.entries entry }
    ensures adds { IfOk result (λ _. register.new.entries ≡ register.old.entries ++ entry ∷ []) }
    ensures refuses { IfErr result (λ fault. fault ≡ fails.Memory) }
{
    match register.reserve(&entry) {
        Ok(()) => {
            register.push(entry);
            Ok(())
        }
        Err(Memory) => {
            drop(entry);
            Err(OpenFault::Memory)
        }
    }
}

// Appends the entry that a payload spells; `like` is the index of the last entry with a source.
fn add_payload(
    alloc: Global,
    register: &mut Register,
    like: usize,
    payload: &[u8],
) -> Result<(), OpenFault>
    ensures adds { Opens (λ _. register.new.entries) result (with_payload register.old.entries payload.now) }
    ensures spelled { OnOk result (spec.spellings register.new.entries
        ≡ spec.spellings register.old.entries ++ payload.now ∷ []) }
    ensures refuses { IfErr result IsOfPayload }
{
    match next_entry(alloc, register, like, payload) {
        Ok(entry) => add_entry(register, entry),
        Err(unfit) => Err(damage_of(register, unfit)),
    }
}

// Loads one payload after another into one buffer, and appends the entry that each spells. It gives the cursor of their
// end.
fn load_entries<K: Keeper>(
    alloc: Global,
    keeper: &mut K,
    register: &mut Register,
) -> Result<u64, OpenFault>
    requires none { register.old.entries ≡ [] }
    requires ready { K.readiness keeper.old ≡ Ready }
    requires settled { IsSettled (K.holding keeper.old) }
    ensures opened { (K.holding keeper.old).tells
        → Opens (λ _. register.new.entries) result (opened_of (K.holding keeper.old).list) }
    ensures opens { OnOk result (spec.opened (spec.spellings register.new.entries) ≡ Ok register.new.entries) }
    ensures held { IfOk result (Holds (K.holding keeper.new) (K.readiness keeper.new)
        (spec.spellings register.new.entries) None) }
    ensures same { Keeps (K.holding keeper.old) (K.holding keeper.new) }
    ensures crash { LeavesNoMore (K.holding keeper.old) (K.holding keeper.new) }
    ensures cause { HasOpenCause (K.faults keeper.old) (K.faults keeper.new) result }
    ensures stays { (K.holding keeper.old).tells
        → IfErr result (StaysUnlessFailed (K.faults keeper.old) (K.faults keeper.new)) }
{
    let mut payload = Vec::new(alloc);
    let mut end = 0;
    let mut like = 0;
    'walk: while let Some(next) = keeper.load(end, &mut payload)? {
        add_payload(alloc, register, like, payload.as_slice())?;
        like = last_source(register, like);
        end = next;
    }
    Ok(end)
}

impl Replica {
    /// Opens a keeper, and the replica of what it has. Damage is that of what holds the payloads, or of the first payload
    /// that is no entry, or that is not accepted behind those before it. No payload changes, and a crash at any moment
    /// leaves a list that it could leave before, or the list itself.
    pub fn open<K: Keeper>(alloc: Global, keeper: &mut K) -> Result<Replica, OpenFault>
        ensures opened { (K.holding keeper.old).tells
            → Opens (λ replica. replica.register.entries) result (opened_of (K.holding keeper.old).list) }
        ensures right { IfOk result IsRight }
        ensures settled { IfOk result (λ replica. replica.pending ≡ None) }
        ensures held { IfOk result (HoldsReplica (K.holding keeper.new) (K.readiness keeper.new)) }
        ensures same { Keeps (K.holding keeper.old) (K.holding keeper.new) }
        ensures crash { LeavesOldOrSame (K.holding keeper.old) (K.holding keeper.new) }
        ensures cause { HasOpenCause (K.faults keeper.old) (K.faults keeper.new) result }
        ensures stays { (K.holding keeper.old).tells
            → IfErr result (StaysUnlessFailed (K.faults keeper.old) (K.faults keeper.new)) }
    {
        keeper.reopen(alloc)?;
        let mut register = Register::new(alloc);
        match load_entries(alloc, keeper, &mut register) {
            Ok(end) => {
                let like = register.len().saturating_sub(1);
                Ok(Replica {
                    register,
                    end,
                    like,
                    pending: None,
                })
            }
            Err(fault) => {
                drop(register);
                Err(fault)
            }
        }
    }
}
