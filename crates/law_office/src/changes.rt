//! Changes: what an entry that is accepted makes of what is kept of works. They are made before the keeper is asked.

ghost use Rattle.std.specs.Prelude.{◌≡◌, ◌+◌, ◌≤◌, [], ◌∷◌, ◌++◌, true, ℕ, List, None, Some, IfOk, IfSome, map, option_map};
ghost use Rattle.indexmap.specs.IndexMap.{spare};
ghost use Rattle.law_register.specs.Answer.Renewing.{entry_cost};
ghost use Rattle.law_register.specs.Answer.Touched.{work_entered};
ghost use Rattle.law_register.specs.Provisions.Touching.{is_concerned};
ghost use Rattle.law_register.specs.Register.Indexes as acts;
ghost use Rattle.law_register.specs.Register.KnownNext.{known_now};
ghost use Rattle.law_register.specs.Register.LawList.{law_of};
ghost use Rattle.law_refs.specs.Handing.{judged_for};
ghost use Rattle.law_refs.specs.OfRegister.{IsIndexOf};
ghost use Rattle.law_office.specs.Movements.{AreMoved, IsAccepted};
ghost use Rattle.law_office.specs.Noting.{AreNoted};
ghost use Rattle.law_office.specs.References.{index_after};
ghost use Rattle.law_office.specs.Tables.{AreChangesOf, AreTablesOf, enacted_view, kept_in, revised_view};

use crate::book::{Changes, KeptWorks, Naming};
use crate::moving::{Moved, move_works};
use crate::references::refs_moved;
use desk_base::{Memory, Steps};
use held_provisions::laws::untouched_works_stay;
use law_refs::laws::what_moves_no_work_leaves_the_index;
use law_refs::{RefIndex, RefRevision};
use law_register::laws::entries_are_legal;
use law_register::{Act, Command, Entry, Known, Register, known_after, known_enacted};
use replay_core::work_entered;
use std::alloc::Global;
use std::sync::ledger::Ledger;

// The act that a command enacts.
fn act_of(command: &Command) -> Option<&Act>
    ensures { option_map (λ act. act.now) result ≡ acts.act_of command.now }
{
    match command {
        Command::Enact { act } => Some(act),
        _ => None,
    }
}

// What is known by itself, with the entry, of the work that it enacts or concerns, if it is known.
fn concerned(
    alloc: Global,
    register: &Register,
    tables: &KeptWorks,
    entry: &Entry,
) -> Result<Option<Known>, Memory>
    requires right { AreTablesOf register.now.entries (kept_in tables.now) }
    requires accepted { IsAccepted register.now.entries entry.now }
    ensures known { IfOk result (λ found. IfSome found (λ known.
        (known_now (register.now.entries ++ entry.now ∷ []) known.act.work ≡ Some known)
        × (is_concerned register.now.entries entry.now known.act.work ≡ true))) }
    ensures none { IfOk result (λ found. found ≡ None
        → work_entered register.now.entries (law_of register.now.entries entry.now) ≡ None) }
{
    entries_are_legal(register);
    if let Some(act) = act_of(&entry.command) {
        return Ok(Some(known_enacted(alloc, register, entry, act)?));
    }
    let Some(work) = work_entered(register, entry) else {
        return Ok(None);
    };
    match tables.get(work) {
        Some(kept) => Ok(Some(known_after(alloc, register, kept.known(), entry)?)),
        None => Ok(None),
    }
}

// The changes of an entry that concerns no work: none.
fn no_changes(
    alloc: Global,
    register: &Register,
    _tables: &KeptWorks,
    _index: &RefIndex,
    _entry: &Entry,
) -> Changes
    requires right { AreTablesOf register.now.entries (kept_in _tables.now) }
    requires index { IsIndexOf register.now.entries _index.now }
    requires accepted { IsAccepted register.now.entries _entry.now }
    requires none { work_entered register.now.entries (law_of register.now.entries _entry.now) ≡ None }
    ensures { AreChangesOf register.now.entries _entry.now (kept_in _tables.now) _index.now result }
{
    entries_are_legal(register);
    untouched_works_stay();
    what_moves_no_work_leaves_the_index();
    Changes {
        enacted: None,
        revised: Vec::new(alloc),
        refs: None,
    }
}

// The changes of works that have moved, with the index as it is to be.
fn refs_noted(
    _register: &Register,
    _tables: &KeptWorks,
    _index: &RefIndex,
    _entry: &Entry,
    moved: Moved,
    refs: Option<RefRevision>,
) -> Changes
    requires moved { AreMoved _register.now.entries _entry.now (kept_in _tables.now)
        (option_map enacted_view moved.enacted) (map revised_view moved.revised.items) }
    requires index { IsIndexOf (_register.now.entries ++ _entry.now ∷ []) (index_after refs _index.now) }
    ensures { AreChangesOf _register.now.entries _entry.now (kept_in _tables.now) _index.now result }
{
    let Moved { enacted, revised } = moved;
    Changes {
        enacted,
        revised,
        refs,
    }
}

// The changes of works that have moved.
fn changes_of<L: Ledger>(
    alloc: Global,
    register: &Register,
    tables: &KeptWorks,
    index: &RefIndex,
    entry: &Entry,
    moved: Moved,
    steps: &mut Steps<L>,
) -> Result<Changes, Memory>
    requires index { IsIndexOf register.now.entries index.now }
    requires accepted { IsAccepted register.now.entries entry.now }
    requires moved { AreMoved register.now.entries entry.now (kept_in tables.now)
        (option_map enacted_view moved.enacted) (map revised_view moved.revised.items) }
    ensures changes { IfOk result (AreChangesOf register.now.entries entry.now (kept_in tables.now) index.now) }
    ensures steps { steps.new ≤ steps.old + judged_for index.now register.now.entries entry.now }
{
    match refs_moved(alloc, register, tables, index, entry, &moved, steps) {
        Ok(refs) => Ok(refs_noted(register, tables, index, entry, moved, refs)),
        Err(Memory) => {
            drop(moved);
            Err(Memory)
        }
    }
}

// The changes of an entry of which this is known with it of the work that it enacts or concerns.
fn changes_known<L: Ledger>(
    alloc: Global,
    register: &Register,
    tables: &mut KeptWorks,
    naming: &Naming,
    index: &RefIndex,
    entry: &Entry,
    known: Known,
    steps: &mut Steps<L>,
) -> Result<Changes, Memory>
    requires right { AreTablesOf register.now.entries (kept_in tables.old) }
    requires named { AreNoted naming.now (kept_in tables.old) }
    requires index { IsIndexOf register.now.entries index.now }
    requires accepted { IsAccepted register.now.entries entry.now }
    requires concerned { is_concerned register.now.entries entry.now known.act.work ≡ true }
    requires known { known_now (register.now.entries ++ entry.now ∷ []) known.act.work ≡ Some known }
    ensures same { (w : List ℕ) → kept_in tables.new w ≡ kept_in tables.old w }
    ensures spare { spare tables.new ≡ spare tables.old }
    ensures changes { IfOk result (AreChangesOf register.now.entries entry.now (kept_in tables.new) index.now) }
    ensures steps { steps.new ≤ steps.old
        + (entry_cost register.now.entries entry.now + judged_for index.now register.now.entries entry.now) }
{
    match move_works(alloc, register, tables, naming, entry, known, steps) {
        Ok(moved) => changes_of(alloc, register, tables, index, entry, moved, steps),
        Err(Memory) => Err(Memory),
    }
}

/// The changes that an entry makes which is accepted behind those of a register: what is kept of the work that it enacts, and the
/// revisions of what is kept of the works that it concerns or touches. An entry of a draft makes none.
pub(crate) fn make_changes<L: Ledger>(
    alloc: Global,
    register: &Register,
    tables: &mut KeptWorks,
    naming: &Naming,
    index: &RefIndex,
    entry: &Entry,
    steps: &mut Steps<L>,
) -> Result<Changes, Memory>
    requires right { AreTablesOf register.now.entries (kept_in tables.old) }
    requires named { AreNoted naming.now (kept_in tables.old) }
    requires index { IsIndexOf register.now.entries index.now }
    requires accepted { IsAccepted register.now.entries entry.now }
    ensures same { (w : List ℕ) → kept_in tables.new w ≡ kept_in tables.old w }
    ensures spare { spare tables.new ≡ spare tables.old }
    ensures changes { IfOk result (AreChangesOf register.now.entries entry.now (kept_in tables.new) index.now) }
    ensures steps { steps.new ≤ steps.old
        + (entry_cost register.now.entries entry.now + judged_for index.now register.now.entries entry.now) }
{
    match concerned(alloc, register, tables, entry)? {
        Some(known) => changes_known(alloc, register, tables, naming, index, entry, known, steps),
        None => Ok(no_changes(alloc, register, tables, index, entry)),
    }
}
