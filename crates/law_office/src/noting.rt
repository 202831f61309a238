//! Noting: the works that may name a provision are noted before the keeper is asked, so that a commit takes no memory.

ghost use Rattle.std.specs.Prelude.{◌≡◌, ◌+◌, ◌≤◌, ℕ, List, IfOk, IfSome, OnOk, map, option_map};
ghost use Rattle.std.specs.List.{AllByRecursion};
ghost use Rattle.indexmap.specs.IndexMap.{spare};
ghost use Rattle.law_register.specs.Answer.Renewing.{entry_cost};
ghost use Rattle.law_refs.specs.Handing.{judged_for};
ghost use Rattle.law_refs.specs.OfRegister.{IsIndexOf};
ghost use Rattle.law_office.specs.Movements.{IsAccepted};
ghost use Rattle.law_office.specs.Noting.{AreMore, AreNoted, IsNoted};
ghost use Rattle.law_office.specs.Tables.{AreChangesOf, AreTablesOf, Kept, applied, enacted_view, kept_in, revised_view};

use crate::book::{Changes, KeptWorks, Naming};
use crate::changes::make_changes;
use desk_base::{Memory, Steps};
use frbr_names::WorkName;
use indexmap::IndexSet;
use law_refs::RefIndex;
use law_register::{Entry, Register};
use std::alloc::Global;
use std::sync::ledger::Ledger;
use version_cache::{WorkRevision, WorkTables};

// Notes a work, if it names a provision.
fn note(naming: &mut Naming, work: &WorkName, names: bool) -> Result<(), Memory>
    ensures more { AreMore naming.old naming.new }
    ensures noted { OnOk result (IsNoted naming.new work.now names) }
{
    if names {
        naming.insert(work.copy()?)?;
    }
    Ok(())
}

// Notes the work that is enacted, if one is and it names a provision.
fn note_enacted(naming: &mut Naming, enacted: Option<&(WorkName, WorkTables)>) -> Result<(), Memory>
    ensures more { AreMore naming.old naming.new }
    ensures noted { OnOk result (IfSome (option_map (λ e. enacted_view e.now) enacted.entry)
        (λ one. IsNoted naming.new one.0 one.1.names)) }
{
    match enacted {
        Some((work, kept)) => note(naming, work, kept.names_any()),
        None => Ok(()),
    }
}

// Notes those of works that are revised which name a provision then.
fn note_revised(naming: &mut Naming, revised: &[(WorkName, WorkRevision)]) -> Result<(), Memory>
    ensures more { AreMore naming.old naming.new }
    ensures noted { OnOk result
        (AllByRecursion (λ one. IsNoted naming.new one.0 one.1.names) (map revised_view revised.now)) }
{
    for (work, revision) in revised {
        note(naming, work, revision.names_any())?;
    }
    Ok(())
}

// Notes the works that name a provision once these changes are made.
fn note_changes(naming: &mut Naming, changes: &Changes) -> Result<(), Memory>
    ensures more { AreMore naming.old naming.new }
    ensures noted { OnOk result
        ((kept : Kept) → AreNoted naming.old kept → AreNoted naming.new (applied changes.now kept)) }
{
    note_enacted(naming, changes.enacted.as_ref())?;
    note_revised(naming, changes.revised.as_slice())
}

// Changes, of which the works are noted that name a provision then.
fn noted(naming: &mut Naming, changes: Changes) -> Result<Changes, Memory>
    ensures more { AreMore naming.old naming.new }
    ensures same { IfOk result (λ made. made ≡ changes) }
    ensures noted { IfOk result
        (λ made. (kept : Kept) → AreNoted naming.old kept → AreNoted naming.new (applied made kept)) }
{
    match note_changes(naming, &changes) {
        Ok(()) => Ok(changes),
        Err(Memory) => {
            drop(changes);
            Err(Memory)
        }
    }
}

/// The changes that an entry makes which is accepted behind those of a register; the works are noted that name a provision once these are
/// made. Where memory is wanting, works may be noted that name none.
pub(crate) fn make_noted<L: Ledger>(
    alloc: Global,
    register: &Register,
    tables: &mut KeptWorks,
    naming: &mut Naming,
    index: &RefIndex,
    entry: &Entry,
    steps: &mut Steps<L>,
) -> Result<Changes, Memory>
    requires right { AreTablesOf register.now.entries (kept_in tables.old) }
    requires index { IsIndexOf register.now.entries index.now }
    requires accepted { IsAccepted register.now.entries entry.now }
    requires named { AreNoted naming.old (kept_in tables.old) }
    ensures same { (w : List ℕ) → kept_in tables.new w ≡ kept_in tables.old w }
    ensures spare { spare tables.new ≡ spare tables.old }
    ensures more { AreMore naming.old naming.new }
    ensures changes { IfOk result (AreChangesOf register.now.entries entry.now (kept_in tables.new) index.now) }
    ensures noted { IfOk result (λ changes. AreNoted naming.new (applied changes (kept_in tables.new))) }
    ensures steps { steps.new ≤ steps.old
        + (entry_cost register.now.entries entry.now + judged_for index.now register.now.entries entry.now) }
{
    match make_changes(alloc, register, tables, naming, index, entry, steps) {
        Ok(changes) => noted(naming, changes),
        Err(Memory) => Err(Memory),
    }
}

/// The works of which what is kept names a provision.
pub(crate) fn naming_of(alloc: Global, tables: &KeptWorks) -> Result<Naming, Memory>
    ensures { IfOk result (λ naming. AreNoted naming (kept_in tables.now)) }
{
    let mut naming = IndexSet::new(alloc);
    for (work, kept) in tables {
        note(&mut naming, work, kept.names_any())?;
    }
    Ok(naming)
}
