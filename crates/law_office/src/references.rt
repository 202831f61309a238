//! The index of references, as an entry or an opening leaves it. It is made before the keeper is asked.

ghost use Rattle.std.specs.Prelude.{◌≡◌, ◌+◌, ◌≤◌, ◌++◌, ◌∷◌, [], false, true, None, IfOk, OnOk, map, option_map};
ghost use Rattle.std.specs.List.{AllByRecursion};
ghost use Rattle.std.specs.Map.{keys_of};
ghost use Rattle.law_register.specs.Provisions.Carrying.{held_now};
ghost use Rattle.law_register.specs.Register.Indexes.{act_of};
ghost use Rattle.law_register.specs.Register.Verdicts.{is_legal};
ghost use Rattle.law_refs.specs.Handing.{judged_at_opening, judged_for, moved_by, rows_enacted, rows_if, rows_of_entry, rows_opened, rows_touched, work_enacted};
ghost use Rattle.law_refs.specs.Names.{is_among};
ghost use Rattle.law_refs.specs.OfRegister.{IsIndexOf};
ghost use Rattle.version_cache.specs.Seen.{work_revision_view};
ghost use Rattle.law_office.specs.Line.{AreInLine};
ghost use Rattle.law_office.specs.Asked.{AreOnce};
ghost use Rattle.law_office.specs.Movements.{AreMoved, IsAccepted, IsMadeIf, IsMove, days_moved};
ghost use Rattle.law_office.specs.References as spec;
ghost use Rattle.law_office.specs.Tables.{enacted_view, kept_in, revised_view};
ghost use Rattle.law_office.specs.Targets.{AreAfter};

use crate::book::KeptWorks;
use crate::moving::Moved;
use crate::ref_rows::{add_made, add_revised};
use crate::targets_after::TargetsAfter;
use desk_base::{Day, Memory, Steps};
use frbr_names::WorkName;
use law_refs::laws::{
    an_entry_hands_in, an_opening_hands_in, an_opening_judges, new_index_is_of_no_entries,
    revision_follows_the_register, what_did_not_move_stays_right,
    what_moves_no_work_leaves_the_index,
};
use law_refs::{RefIndex, RefRevision, RefRows, Works};
use law_register::laws::entries_are_legal;
use law_register::{Entry, Register};
use std::alloc::Global;
use std::sync::ledger::Ledger;
use version_cache::{WorkRevision, WorkTables};

// Adds the name of a work that is revised from a day on, and the rows of the references that it hands in from it; none, where no day is
// touched.
fn gather_one(
    alloc: Global,
    _register: &Register,
    _entry: &Entry,
    tables: &KeptWorks,
    work: &WorkName,
    revision: &WorkRevision,
    works: &mut Works,
    rows: &mut RefRows,
) -> Result<(), Memory>
    requires fresh { AllByRecursion (λ name. is_among name works.old ≡ false)
        (spec.work_moved work.now (work_revision_view revision.now)) }
    requires moved { spec.IsMovedAs (kept_in tables.now work.now)
        (held_now (_register.now.entries ++ _entry.now ∷ []) work.now) (work_revision_view revision.now) }
    ensures works { OnOk result (works.new ≡ works.old ++ spec.work_moved work.now (work_revision_view revision.now)) }
    ensures rows { OnOk result (rows.new ≡ rows.old ++ rows_if
        (λ held. spec.rows_moved work.now held (work_revision_view revision.now))
        (held_now (_register.now.entries ++ _entry.now ∷ []) work.now)) }
{
    let Some(day) = touched_in(revision) else {
        return Ok(());
    };
    match tables.get(work) {
        Some(kept) => {
            works.insert(work.copy()?)?;
            add_revised(alloc, work, kept, revision, day, rows)
        }
        None => Ok(()),
    }
}

// The day from which on a revision makes the tables of a work anew, if it makes any.
fn touched_in(revision: &WorkRevision) -> Option<Day>
    ensures { result ≡ spec.touched_in (work_revision_view revision.now) }
{
    match revision.force() {
        Some(force) => Some(force.touched()),
        None => None,
    }
}

// The same of all works that are revised.
fn gather_revised(
    alloc: Global,
    _register: &Register,
    _entry: &Entry,
    tables: &KeptWorks,
    revised: &[(WorkName, WorkRevision)],
    works: &mut Works,
    rows: &mut RefRows,
) -> Result<(), Memory>
    requires fresh { AllByRecursion (λ t. is_among t.0 works.old ≡ false) (days_moved (map revised_view revised.now)) }
    requires once { AreOnce (map (λ t. t.0) (days_moved (map revised_view revised.now))) }
    requires moves { AllByRecursion (IsMove _register.now.entries _entry.now (kept_in tables.now)) (map revised_view revised.now) }
    ensures works { OnOk result (works.new
        ≡ works.old ++ map (λ t. t.0) (days_moved (map revised_view revised.now))) }
    ensures rows { OnOk result (rows.new ≡ rows.old
        ++ rows_touched (_register.now.entries ++ _entry.now ∷ []) (days_moved (map revised_view revised.now))) }
{
    for (work, revision) in revised {
        gather_one(
            alloc, _register, _entry, tables, work, revision, works, rows,
        )?;
    }
    Ok(())
}

// The same of the work that is enacted, if one is: all its rows.
fn gather_enacted(
    alloc: Global,
    _register: &Register,
    _entry: &Entry,
    enacted: &Option<(WorkName, WorkTables)>,
    works: &mut Works,
    rows: &mut RefRows,
) -> Result<(), Memory>
    requires none { works.old ≡ [] }
    requires made { IsMadeIf (_register.now.entries ++ _entry.now ∷ []) (act_of _entry.now.command) (option_map enacted_view enacted.now) }
    ensures works { OnOk result (works.new ≡ works.old ++ work_enacted (act_of _entry.now.command)) }
    ensures rows { OnOk result (rows.new ≡ rows.old
        ++ rows_enacted (_register.now.entries ++ _entry.now ∷ []) (act_of _entry.now.command)) }
{
    match enacted {
        Some((work, made)) => {
            works.insert(work.copy()?)?;
            add_made(alloc, work, made, rows)
        }
        None => Ok(()),
    }
}

// The revision of the index with an entry that moves these works, and hands in these rows.
fn revise_moved<L: Ledger>(
    alloc: Global,
    register: &Register,
    tables: &KeptWorks,
    index: &RefIndex,
    entry: &Entry,
    moved: &Moved,
    works: &Works,
    rows: &RefRows,
    steps: &mut Steps<L>,
) -> Result<RefRevision, Memory>
    requires legal { is_legal (register.now.entries ++ entry.now ∷ []) ≡ true }
    requires index { IsIndexOf register.now.entries index.now }
    requires moved { AreMoved register.now.entries entry.now (kept_in tables.now)
        (option_map enacted_view moved.now.enacted) (map revised_view moved.now.revised.items) }
    requires works { works.now ≡ moved_by register.now.entries entry.now }
    requires rows { rows.now ≡ rows_of_entry register.now.entries entry.now }
    ensures index { IfOk result (λ revision. IsIndexOf (register.now.entries ++ entry.now ∷ []) revision) }
    ensures steps { steps.new ≤ steps.old + judged_for index.now register.now.entries entry.now }
{
    an_entry_hands_in();
    what_did_not_move_stays_right();
    revision_follows_the_register();
    let targets = TargetsAfter::moving(register, entry, tables, moved);
    index.revise(alloc, rows, works, &targets, steps)
}

/// The revision of the index with an entry that moves works. `None`: it moves none from a day on.
pub(crate) fn refs_moved<L: Ledger>(
    alloc: Global,
    register: &Register,
    tables: &KeptWorks,
    index: &RefIndex,
    entry: &Entry,
    moved: &Moved,
    steps: &mut Steps<L>,
) -> Result<Option<RefRevision>, Memory>
    requires accepted { IsAccepted register.now.entries entry.now }
    requires index { IsIndexOf register.now.entries index.now }
    requires moved { AreMoved register.now.entries entry.now (kept_in tables.now)
        (option_map enacted_view moved.now.enacted) (map revised_view moved.now.revised.items) }
    ensures index { IfOk result (λ refs. IsIndexOf (register.now.entries ++ entry.now ∷ []) (spec.index_after refs index.now)) }
    ensures steps { steps.new ≤ steps.old + judged_for index.now register.now.entries entry.now }
{
    entries_are_legal(register);
    what_moves_no_work_leaves_the_index();
    let mut works = Works::new(alloc);
    let mut rows = RefRows::new(alloc);
    gather_enacted(
        alloc,
        register,
        entry,
        &moved.enacted,
        &mut works,
        &mut rows,
    )?;
    let revised = moved.revised.as_slice();
    gather_revised(
        alloc, register, entry, tables, revised, &mut works, &mut rows,
    )?;
    if works.as_slice().is_empty() {
        return Ok(None);
    }
    let revision = revise_moved(
        alloc, register, tables, index, entry, moved, &works, &rows, steps,
    )?;
    Ok(Some(revision))
}

/// The index of the works of a register, of which this is kept and these are the rows. A new index has no work, so that none of those
/// that it has moved.
pub(crate) fn index_of<L: Ledger>(
    alloc: Global,
    register: &Register,
    tables: &KeptWorks,
    rows: &RefRows,
    steps: &mut Steps<L>,
) -> Result<RefIndex, Memory>
    requires after { AreAfter register.now.entries None [] (kept_in tables.now) }
    requires line { AreInLine register.now.entries (keys_of tables.now.entries) }
    requires rows { rows.now ≡ rows_opened register.now.entries (keys_of tables.now.entries) }
    ensures index { IfOk result (IsIndexOf register.now.entries) }
    ensures steps { steps.new ≤ steps.old + judged_at_opening register.now.entries }
{
    an_opening_hands_in();
    an_opening_judges();
    new_index_is_of_no_entries();
    revision_follows_the_register();
    let mut index = RefIndex::new(alloc);
    let none = Works::new(alloc);
    let targets = TargetsAfter::now(register, tables);
    let revision = index.revise(alloc, rows, &none, &targets, steps)?;
    index.commit(revision);
    Ok(index)
}
