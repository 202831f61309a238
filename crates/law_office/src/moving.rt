//! Moving: the works that an entry moves, each with the revision of what is kept of it, in the order of the line. They are made before the
//! keeper is asked.

ghost use Rattle.std.specs.Prelude.{◌≡◌, ◌≢◌, ◌+◌, ◌≤◌, ◌++◌, ◌∷◌, [], true, false, ℕ, List, None, Some, IfOk, IfSome, OnOk, map, option_map};
ghost use Rattle.std.specs.List.{list_any};
ghost use Rattle.std.specs.Str.{bytes_eq};
ghost use Rattle.indexmap.specs.IndexMap.{spare};
ghost use Rattle.law_register.specs.declared.register.known.Known.{Known as KnownValue};
ghost use Rattle.law_register.specs.Answer.Renewing.{both_costs, entry_cost};
ghost use Rattle.law_register.specs.Answer.Soundness.{IsSound};
ghost use Rattle.law_register.specs.Answer.Standing.{alone};
ghost use Rattle.law_register.specs.Answer.Touched.{day_among, touched_day};
ghost use Rattle.law_register.specs.Provisions.Carrying.{carrying};
ghost use Rattle.law_register.specs.Provisions.Line.{IsLine, line};
ghost use Rattle.law_register.specs.Provisions.Touching.{is_concerned, touched_works};
ghost use Rattle.law_register.specs.Register.Indexes.{act_of};
ghost use Rattle.law_register.specs.Register.KnownNext.{known_now};
ghost use Rattle.law_register.specs.Register.LawList.{laws};
ghost use Rattle.held_provisions.specs.Sources.{AreSources};
ghost use Rattle.version_cache.specs.Seen.{work_revision_view};
ghost use Rattle.version_cache.specs.Works.{AreRightEarly};
ghost use Rattle.law_office.specs.Asked as asked;
ghost use Rattle.law_office.specs.Movements as spec;
ghost use Rattle.law_office.specs.Noting.{AreNoted};
ghost use Rattle.law_office.specs.Tables.{AreTablesOf, enacted_view, kept_in, revised_view};

use crate::asked::{asked_now, asked_then, is_that, names_asked};
use crate::book::{KeptWorks, Naming};
use crate::line::DatedWork;
use crate::sources_then::SourcesThen;
use desk_base::{Day, Memory, Steps};
use frbr_names::WorkName;
use held_provisions::laws::{tables_are_right_until_touched, untouched_works_stay};
use held_provisions::{carry, touched_in_lines};
use law_register::laws::{entries_are_legal, known_works_carry_nothing};
use law_register::replay_laws::bare_acts_stay;
use law_register::{Entry, Known, Reading, Register, Touched, known_after};
use replay_core::{FromEnacted, touched_day_of};
use source_provisions::laws::laws_have_lines;
use std::alloc::Global;
use std::sync::ledger::Ledger;
use version_cache::{WorkRevision, WorkTables};

/// The works that an entry moves: the one that it enacts, and those that it concerns or touches.
#[derive(Drop)]
pub(crate) struct Moved {
    /// The work that it enacts, if it enacts one, and what is to be kept of it.
    pub enacted: Option<(WorkName, WorkTables)>,
    /// The others in line, each with the revision of what is kept of it.
    pub revised: Vec<(WorkName, WorkRevision)>,
}

/// The works that are asked when an entry comes, and those that it touches.
#[derive(Drop)]
struct Asking {
    /// Those that are asked, in line.
    pub names: Vec<DatedWork>,
    /// The touched ones.
    pub touched: Touched,
}

/// What an entry moves works by.
#[derive(Drop)]
struct Movement<'a> {
    /// The register before the entry.
    pub register: &'a Register,
    /// The entry.
    pub entry: &'a Entry,
    /// The touched works.
    pub touched: &'a Touched,
}

// The day from which a work is touched, if it is.
fn day_among(touched: &Touched, work: &WorkName) -> Option<Day>
    ensures { result ≡ day_among touched.now work.now }
{
    for (one, day) in touched.as_slice() {
        if *one == *work {
            return Some(*day);
        }
    }
    None
}

// What is known of a work with the entry, with what it carries by what is kept then of those on which it depends.
fn carried_then(
    alloc: Global,
    tables: &KeptWorks,
    enacted: Option<&(WorkName, WorkTables)>,
    revised: &[(WorkName, WorkRevision)],
    known: Known,
) -> Result<Known, Memory>
    requires fit { spec.FitOnce (map revised_view revised.now) (kept_in tables.now) }
    requires alone { alone known ≡ known }
    ensures { (works : List KnownValue) → IsLine works
        → AreSources works known (spec.then_of (option_map (λ e. enacted_view e.now) enacted.entry)
        (map revised_view revised.now) (kept_in tables.now))
        → IfOk result (λ carried. carried ≡ carrying works known) }
{
    let sources = SourcesThen {
        tables,
        enacted,
        revised,
    };
    carry(alloc, &FromEnacted, &sources, known)
}

// The revision of what is kept of a work by what is known of it, if anything is. All that is kept stays.
fn revise_kept<L: Ledger>(
    alloc: Global,
    tables: &mut KeptWorks,
    work: &WorkName,
    held: Known,
    day: Option<Day>,
    steps: &mut Steps<L>,
) -> Result<Option<WorkRevision>, Memory>
    requires sound { IsSound held }
    requires right { IfSome (kept_in tables.old work.now) (AreRightEarly held day) }
    ensures same { (w : List ℕ) → kept_in tables.new w ≡ kept_in tables.old w }
    ensures spare { spare tables.new ≡ spare tables.old }
    ensures made { IfOk result (λ made. spec.IsRevisedAs held day (kept_in tables.old work.now)
        (option_map work_revision_view made)) }
    ensures steps { steps.new ≤ steps.old + both_costs held day }
{
    match tables.get_mut(work) {
        Some(kept) => {
            let revision = kept.revise(alloc, &FromEnacted, held, day, steps)?;
            Ok(Some(revision))
        }
        None => {
            drop(held);
            Ok(None)
        }
    }
}

// The revision of what is kept of a work by what is known of it with the entry, added behind the others.
fn revise_one<L: Ledger>(
    alloc: Global,
    movement: &Movement<'_>,
    tables: &mut KeptWorks,
    enacted: Option<&(WorkName, WorkTables)>,
    known: Known,
    day: Option<Day>,
    _rest: &[DatedWork],
    revised: &mut Vec<(WorkName, WorkRevision)>,
    steps: &mut Steps<L>,
) -> Result<(), Memory>
    requires right { AreTablesOf movement.now.register.now.entries (kept_in tables.old) }
    requires accepted { spec.IsAccepted movement.now.register.now.entries movement.now.entry.now }
    requires known { known_now (movement.now.register.now.entries ++ movement.now.entry.now ∷ []) known.act.work ≡ Some known }
    requires day { day ≡ day_among (touched_works movement.now.register.now.entries movement.now.entry.now) known.act.work }
    requires once { list_any (λ other. bytes_eq other known.act.work) (map (λ d. d.work) _rest.now) ≡ false }
    requires moving { spec.AreMoving movement.now.register.now.entries movement.now.entry.now (kept_in tables.old)
        (option_map (λ e. enacted_view e.now) enacted) (map revised_view revised.old.items)
        (known.act.work ∷ map (λ d. d.work) _rest.now) }
    requires ahead { spec.StandAhead (line (laws (movement.now.register.now.entries ++ movement.now.entry.now ∷ [])))
        (known.act.work ∷ map (λ d. d.work) _rest.now) }
    ensures same { (w : List ℕ) → kept_in tables.new w ≡ kept_in tables.old w }
    ensures spare { spare tables.new ≡ spare tables.old }
    ensures moving { OnOk result (spec.AreMoving movement.now.register.now.entries movement.now.entry.now (kept_in tables.new)
        (option_map (λ e. enacted_view e.now) enacted.entry) (map revised_view revised.new.items) (map (λ d. d.work) _rest.now)) }
    ensures steps { steps.new ≤ steps.old
        + spec.costs_told (movement.now.register.now.entries ++ movement.now.entry.now ∷ [])
        (touched_works movement.now.register.now.entries movement.now.entry.now) (known.act.work ∷ []) }
{
    entries_are_legal(movement.register);
    known_works_carry_nothing();
    laws_have_lines();
    tables_are_right_until_touched();
    let name = known.act.work.copy()?;
    let carried = carried_then(alloc, tables, enacted, revised.as_slice(), known)?;
    match revise_kept(alloc, tables, &name, carried, day, steps)? {
        Some(revision) => {
            revised.push((name, revision))?;
            Ok(())
        }
        None => {
            drop(name);
            Ok(())
        }
    }
}

// What is known of a work with the entry by itself, if anything is kept of it: found before, where the entry concerns it.
fn known_with(
    alloc: Global,
    movement: &Movement<'_>,
    tables: &KeptWorks,
    concerned: &mut Option<Known>,
    work: &WorkName,
) -> Result<Option<Known>, Memory>
    requires right { AreTablesOf movement.now.register.now.entries (kept_in tables.now) }
    requires accepted { spec.IsAccepted movement.now.register.now.entries movement.now.entry.now }
    requires said { IfSome concerned.old (λ known.
        known_now (movement.now.register.now.entries ++ movement.now.entry.now ∷ []) known.act.work ≡ Some known) }
    ensures known { IfOk result (λ found. (kept_in tables.now work.now ≢ None)
        → found ≡ known_now (movement.now.register.now.entries ++ movement.now.entry.now ∷ []) work.now) }
    ensures named { IfOk result (λ found. IfSome found (λ known. (known.act.work ≡ work.now)
        × (known_now (movement.now.register.now.entries ++ movement.now.entry.now ∷ []) work.now ≡ Some known))) }
    ensures concerned { (to_come : List (List ℕ))
        → spec.IsConcernedThen movement.now.register.now.entries movement.now.entry.now concerned.old (work.now ∷ to_come)
        → list_any (λ other. bytes_eq other work.now) to_come ≡ false
        → OnOk result (spec.IsConcernedThen movement.now.register.now.entries movement.now.entry.now concerned.new to_come) }
{
    entries_are_legal(movement.register);
    if is_that(concerned.as_ref(), work) {
        return Ok(concerned.take());
    }
    match tables.get(work) {
        Some(kept) => {
            let known = kept.known();
            Ok(Some(known_after(alloc, movement.register, known, movement.entry)?))
        }
        None => Ok(None),
    }
}

// Moves a work, if the entry touches or concerns it.
fn move_one<L: Ledger>(
    alloc: Global,
    movement: &Movement<'_>,
    tables: &mut KeptWorks,
    enacted: Option<&(WorkName, WorkTables)>,
    concerned: &mut Option<Known>,
    work: &WorkName,
    rest: &[DatedWork],
    revised: &mut Vec<(WorkName, WorkRevision)>,
    steps: &mut Steps<L>,
) -> Result<(), Memory>
    requires right { AreTablesOf movement.now.register.now.entries (kept_in tables.old) }
    requires accepted { spec.IsAccepted movement.now.register.now.entries movement.now.entry.now }
    requires touched { movement.now.touched.now ≡ touched_works movement.now.register.now.entries movement.now.entry.now }
    requires concerned { spec.IsConcernedThen movement.now.register.now.entries movement.now.entry.now concerned.old (work.now ∷ map (λ d. d.work) rest.now) }
    requires once { list_any (λ other. bytes_eq other work.now) (map (λ d. d.work) rest.now) ≡ false }
    requires moving { spec.AreMoving movement.now.register.now.entries movement.now.entry.now (kept_in tables.old)
        (option_map (λ e. enacted_view e.now) enacted) (map revised_view revised.old.items) (work.now ∷ map (λ d. d.work) rest.now) }
    requires ahead { spec.StandAhead (line (laws (movement.now.register.now.entries ++ movement.now.entry.now ∷ [])))
        (work.now ∷ map (λ d. d.work) rest.now) }
    ensures same { (w : List ℕ) → kept_in tables.new w ≡ kept_in tables.old w }
    ensures spare { spare tables.new ≡ spare tables.old }
    ensures concerned { OnOk result (spec.IsConcernedThen movement.now.register.now.entries movement.now.entry.now concerned.new (map (λ d. d.work) rest.now)) }
    ensures moving { OnOk result (spec.AreMoving movement.now.register.now.entries movement.now.entry.now (kept_in tables.new)
        (option_map (λ e. enacted_view e.now) enacted.entry) (map revised_view revised.new.items) (map (λ d. d.work) rest.now)) }
    ensures steps { steps.new ≤ steps.old
        + spec.costs_told (movement.now.register.now.entries ++ movement.now.entry.now ∷ [])
        (touched_works movement.now.register.now.entries movement.now.entry.now) (work.now ∷ []) }
{
    entries_are_legal(movement.register);
    untouched_works_stay();
    let day = day_among(movement.touched, work);
    if day.is_none() && !is_that(concerned.as_ref(), work) {
        return Ok(());
    }
    match known_with(alloc, movement, tables, concerned, work)? {
        Some(known) => revise_one(
            alloc, movement, tables, enacted, known, day, rest, revised, steps,
        ),
        None => Ok(()),
    }
}

// Moves works in line, one after another.
fn move_all<L: Ledger>(
    alloc: Global,
    movement: &Movement<'_>,
    tables: &mut KeptWorks,
    enacted: Option<&(WorkName, WorkTables)>,
    concerned: &mut Option<Known>,
    names: &[DatedWork],
    revised: &mut Vec<(WorkName, WorkRevision)>,
    steps: &mut Steps<L>,
) -> Result<(), Memory>
    requires right { AreTablesOf movement.now.register.now.entries (kept_in tables.old) }
    requires accepted { spec.IsAccepted movement.now.register.now.entries movement.now.entry.now }
    requires touched { movement.now.touched.now ≡ touched_works movement.now.register.now.entries movement.now.entry.now }
    requires concerned { spec.IsConcernedThen movement.now.register.now.entries movement.now.entry.now concerned.old
        (map (λ d. d.work) names.now) }
    requires once { asked.AreOnce (map (λ d. d.work) names.now) }
    requires moving { spec.AreMoving movement.now.register.now.entries movement.now.entry.now (kept_in tables.old)
        (option_map (λ e. enacted_view e.now) enacted) (map revised_view revised.old.items) (map (λ d. d.work) names.now) }
    requires ahead { spec.StandAhead (line (laws (movement.now.register.now.entries ++ movement.now.entry.now ∷ [])))
        (map (λ d. d.work) names.now) }
    ensures same { (w : List ℕ) → kept_in tables.new w ≡ kept_in tables.old w }
    ensures spare { spare tables.new ≡ spare tables.old }
    ensures moving { OnOk result (spec.AreMoving movement.now.register.now.entries movement.now.entry.now (kept_in tables.new)
        (option_map (λ e. enacted_view e.now) enacted.entry) (map revised_view revised.new.items) []) }
    ensures steps { steps.new ≤ steps.old
        + spec.costs_told (movement.now.register.now.entries ++ movement.now.entry.now ∷ [])
        (touched_works movement.now.register.now.entries movement.now.entry.now) (map (λ d. d.work) names.now) }
{
    for index in 0..names.len() {
        let work = &names[index].work;
        let rest = &names[index + 1..];
        move_one(
            alloc, movement, tables, enacted, concerned, work, rest, revised, steps,
        )?;
    }
    Ok(())
}

// The touched day of an entry by what is kept of the work that it concerns; an entry that enacts its work touches none by itself.
fn own_day(
    alloc: Global,
    register: &Register,
    tables: &KeptWorks,
    entry: &Entry,
    concerned: &Known,
) -> Result<Option<Day>, Memory>
    requires right { AreTablesOf register.now.entries (kept_in tables.now) }
    requires concerned { is_concerned register.now.entries entry.now concerned.now.act.work ≡ true }
    requires known { known_now (register.now.entries ++ entry.now ∷ []) concerned.now.act.work ≡ Some concerned.now }
    ensures { IfOk result (λ day. day ≡ touched_day register.now.entries entry.now) }
{
    entries_are_legal(register);
    match tables.get(&concerned.act.work) {
        Some(kept) => touched_day_of(alloc, register, entry, kept.known()),
        None => Ok(None),
    }
}

// The works that an entry touches, of those that are asked.
fn touched_of(
    alloc: Global,
    register: &Register,
    tables: &KeptWorks,
    entry: &Entry,
    concerned: &Known,
    names: &[DatedWork],
) -> Result<Touched, Memory>
    requires right { AreTablesOf register.now.entries (kept_in tables.now) }
    requires accepted { spec.IsAccepted register.now.entries entry.now }
    requires concerned { is_concerned register.now.entries entry.now concerned.now.act.work ≡ true }
    requires known { known_now (register.now.entries ++ entry.now ∷ []) concerned.now.act.work ≡ Some concerned.now }
    requires names { asked.AreAsked (kept_in tables.now) (Some concerned.now) names.now }
    ensures { IfOk result (λ touched. touched ≡ touched_works register.now.entries entry.now) }
{
    entries_are_legal(register);
    let own = own_day(alloc, register, tables, entry, concerned)?;
    let old = asked_now(alloc, tables, names)?;
    let new = asked_then(alloc, tables, Some(concerned), names)?;
    let before = old.as_slice();
    let after = new.as_slice();
    touched_in_lines(alloc, register, entry, own, before, after)
}

// What is to be kept of the work that is enacted, if it is: nothing is kept of it yet. Nothing modifies it yet, so that it takes no step.
fn enacted_of<L: Ledger>(
    alloc: Global,
    register: &Register,
    tables: &KeptWorks,
    _entry: &Entry,
    concerned: &Known,
    steps: &mut Steps<L>,
) -> Result<Option<(WorkName, WorkTables)>, Memory>
    requires right { AreTablesOf register.now.entries (kept_in tables.now) }
    requires accepted { spec.IsAccepted register.now.entries _entry.now }
    requires concerned { is_concerned register.now.entries _entry.now concerned.now.act.work ≡ true }
    requires known { known_now (register.now.entries ++ _entry.now ∷ []) concerned.now.act.work ≡ Some concerned.now }
    ensures made { IfOk result (λ made. spec.IsMadeIf (register.now.entries ++ _entry.now ∷ []) (act_of _entry.now.command)
        (option_map enacted_view made)) }
    ensures steps { steps.new ≤ steps.old }
{
    entries_are_legal(register);
    if tables.get(&concerned.act.work).is_some() {
        return Ok(None);
    }
    bare_acts_stay(concerned, Reading::Force);
    let name = concerned.act.work.copy()?;
    let kept = WorkTables::make(alloc, &FromEnacted, concerned.copy(alloc)?, steps)?;
    Ok(Some((name, kept)))
}

// The works that are asked when an entry comes, in line, and those that it touches.
fn asking_of(
    alloc: Global,
    register: &Register,
    tables: &KeptWorks,
    naming: &Naming,
    entry: &Entry,
    concerned: &Known,
) -> Result<Asking, Memory>
    requires right { AreTablesOf register.now.entries (kept_in tables.now) }
    requires named { AreNoted naming.now (kept_in tables.now) }
    requires accepted { spec.IsAccepted register.now.entries entry.now }
    requires concerned { is_concerned register.now.entries entry.now concerned.now.act.work ≡ true }
    requires known { known_now (register.now.entries ++ entry.now ∷ []) concerned.now.act.work ≡ Some concerned.now }
    ensures names { IfOk result (λ asking. asked.AreAsked (kept_in tables.now) (Some concerned.now) asking.names.items) }
    ensures touched { IfOk result (λ asking. asking.touched ≡ touched_works register.now.entries entry.now) }
{
    let names = names_asked(alloc, tables, naming, Some(concerned))?;
    match touched_of(alloc, register, tables, entry, concerned, names.as_slice()) {
        Ok(touched) => Ok(Asking { names, touched }),
        Err(Memory) => {
            drop(names);
            Err(Memory)
        }
    }
}

// The revisions of works in line.
fn revised_of<L: Ledger>(
    alloc: Global,
    movement: &Movement<'_>,
    tables: &mut KeptWorks,
    enacted: Option<&(WorkName, WorkTables)>,
    concerned: &mut Option<Known>,
    names: &[DatedWork],
    steps: &mut Steps<L>,
) -> Result<Vec<(WorkName, WorkRevision)>, Memory>
    requires right { AreTablesOf movement.now.register.now.entries (kept_in tables.old) }
    requires accepted { spec.IsAccepted movement.now.register.now.entries movement.now.entry.now }
    requires touched { movement.now.touched.now ≡ touched_works movement.now.register.now.entries movement.now.entry.now }
    requires concerned { spec.IsConcernedThen movement.now.register.now.entries movement.now.entry.now concerned.old
        (map (λ d. d.work) names.now) }
    requires once { asked.AreOnce (map (λ d. d.work) names.now) }
    requires moving { spec.AreMoving movement.now.register.now.entries movement.now.entry.now (kept_in tables.old)
        (option_map (λ e. enacted_view e.now) enacted) [] (map (λ d. d.work) names.now) }
    requires ahead { spec.StandAhead (line (laws (movement.now.register.now.entries ++ movement.now.entry.now ∷ [])))
        (map (λ d. d.work) names.now) }
    ensures same { (w : List ℕ) → kept_in tables.new w ≡ kept_in tables.old w }
    ensures spare { spare tables.new ≡ spare tables.old }
    ensures moving { IfOk result (λ revised. spec.AreMoving movement.now.register.now.entries movement.now.entry.now (kept_in tables.new)
        (option_map (λ e. enacted_view e.now) enacted.entry) (map revised_view revised.items) []) }
    ensures steps { steps.new ≤ steps.old
        + spec.costs_told (movement.now.register.now.entries ++ movement.now.entry.now ∷ [])
        (touched_works movement.now.register.now.entries movement.now.entry.now) (map (λ d. d.work) names.now) }
{
    let mut revised = Vec::new(alloc);
    match move_all(
        alloc,
        movement,
        tables,
        enacted,
        concerned,
        names,
        &mut revised,
        steps,
    ) {
        Ok(()) => Ok(revised),
        Err(Memory) => {
            drop(revised);
            Err(Memory)
        }
    }
}

// The revisions of works that are asked, where this is known with the entry of the one that it enacts or concerns.
fn revised_by<L: Ledger>(
    alloc: Global,
    movement: &Movement<'_>,
    tables: &mut KeptWorks,
    enacted: Option<&(WorkName, WorkTables)>,
    known: Known,
    names: &[DatedWork],
    steps: &mut Steps<L>,
) -> Result<Vec<(WorkName, WorkRevision)>, Memory>
    requires right { AreTablesOf movement.now.register.now.entries (kept_in tables.old) }
    requires accepted { spec.IsAccepted movement.now.register.now.entries movement.now.entry.now }
    requires concerned { is_concerned movement.now.register.now.entries movement.now.entry.now known.act.work ≡ true }
    requires known { known_now (movement.now.register.now.entries ++ movement.now.entry.now ∷ []) known.act.work ≡ Some known }
    requires touched { movement.now.touched.now ≡ touched_works movement.now.register.now.entries movement.now.entry.now }
    requires names { asked.AreAsked (kept_in tables.old) (Some known) names.now }
    requires made { spec.IsMadeIf (movement.now.register.now.entries ++ movement.now.entry.now ∷ []) (act_of movement.now.entry.now.command)
        (option_map (λ e. enacted_view e.now) enacted) }
    ensures same { (w : List ℕ) → kept_in tables.new w ≡ kept_in tables.old w }
    ensures spare { spare tables.new ≡ spare tables.old }
    ensures moved { IfOk result (λ revised. spec.AreMoved movement.now.register.now.entries movement.now.entry.now (kept_in tables.new)
        (option_map (λ e. enacted_view e.now) enacted.entry) (map revised_view revised.items)) }
    ensures steps { steps.new ≤ steps.old + entry_cost movement.now.register.now.entries movement.now.entry.now }
{
    entries_are_legal(movement.register);
    untouched_works_stay();
    let mut concerned = Some(known);
    revised_of(
        alloc,
        movement,
        tables,
        enacted,
        &mut concerned,
        names,
        steps,
    )
}

// The works that an entry moves, where this is what is to be kept of the one that it enacts.
fn moved_with<L: Ledger>(
    alloc: Global,
    movement: &Movement<'_>,
    tables: &mut KeptWorks,
    enacted: Option<(WorkName, WorkTables)>,
    known: Known,
    names: &[DatedWork],
    steps: &mut Steps<L>,
) -> Result<Moved, Memory>
    requires right { AreTablesOf movement.now.register.now.entries (kept_in tables.old) }
    requires accepted { spec.IsAccepted movement.now.register.now.entries movement.now.entry.now }
    requires concerned { is_concerned movement.now.register.now.entries movement.now.entry.now known.act.work ≡ true }
    requires known { known_now (movement.now.register.now.entries ++ movement.now.entry.now ∷ []) known.act.work ≡ Some known }
    requires touched { movement.now.touched.now ≡ touched_works movement.now.register.now.entries movement.now.entry.now }
    requires names { asked.AreAsked (kept_in tables.old) (Some known) names.now }
    requires made { spec.IsMadeIf (movement.now.register.now.entries ++ movement.now.entry.now ∷ []) (act_of movement.now.entry.now.command)
        (option_map enacted_view enacted) }
    ensures same { (w : List ℕ) → kept_in tables.new w ≡ kept_in tables.old w }
    ensures spare { spare tables.new ≡ spare tables.old }
    ensures moved { IfOk result (λ moved. spec.AreMoved movement.now.register.now.entries movement.now.entry.now (kept_in tables.new)
        (option_map enacted_view moved.enacted) (map revised_view moved.revised.items)) }
    ensures steps { steps.new ≤ steps.old + entry_cost movement.now.register.now.entries movement.now.entry.now }
{
    match revised_by(
        alloc,
        movement,
        tables,
        enacted.as_ref(),
        known,
        names,
        steps,
    ) {
        Ok(revised) => Ok(Moved { enacted, revised }),
        Err(Memory) => {
            drop(enacted);
            Err(Memory)
        }
    }
}

// The works that an entry moves, by those that are asked.
fn moved_by<L: Ledger>(
    alloc: Global,
    movement: &Movement<'_>,
    tables: &mut KeptWorks,
    known: Known,
    names: &[DatedWork],
    steps: &mut Steps<L>,
) -> Result<Moved, Memory>
    requires right { AreTablesOf movement.now.register.now.entries (kept_in tables.old) }
    requires accepted { spec.IsAccepted movement.now.register.now.entries movement.now.entry.now }
    requires concerned { is_concerned movement.now.register.now.entries movement.now.entry.now known.act.work ≡ true }
    requires known { known_now (movement.now.register.now.entries ++ movement.now.entry.now ∷ []) known.act.work ≡ Some known }
    requires touched { movement.now.touched.now ≡ touched_works movement.now.register.now.entries movement.now.entry.now }
    requires names { asked.AreAsked (kept_in tables.old) (Some known) names.now }
    ensures same { (w : List ℕ) → kept_in tables.new w ≡ kept_in tables.old w }
    ensures spare { spare tables.new ≡ spare tables.old }
    ensures moved { IfOk result (λ moved. spec.AreMoved movement.now.register.now.entries movement.now.entry.now (kept_in tables.new)
        (option_map enacted_view moved.enacted) (map revised_view moved.revised.items)) }
    ensures steps { steps.new ≤ steps.old + entry_cost movement.now.register.now.entries movement.now.entry.now }
{
    match enacted_of(
        alloc,
        movement.register,
        tables,
        movement.entry,
        &known,
        steps,
    ) {
        Ok(enacted) => moved_with(alloc, movement, tables, enacted, known, names, steps),
        Err(Memory) => {
            drop(known);
            Err(Memory)
        }
    }
}

/// The works that an entry moves which is accepted behind those of a register, where this is known with it of the one that it enacts or
/// concerns: each with what is to be kept of it, in line, by those ahead of it.
pub(crate) fn move_works<L: Ledger>(
    alloc: Global,
    register: &Register,
    tables: &mut KeptWorks,
    naming: &Naming,
    entry: &Entry,
    known: Known,
    steps: &mut Steps<L>,
) -> Result<Moved, Memory>
    requires right { AreTablesOf register.now.entries (kept_in tables.old) }
    requires named { AreNoted naming.now (kept_in tables.old) }
    requires accepted { spec.IsAccepted register.now.entries entry.now }
    requires concerned { is_concerned register.now.entries entry.now known.act.work ≡ true }
    requires known { known_now (register.now.entries ++ entry.now ∷ []) known.act.work ≡ Some known }
    ensures same { (w : List ℕ) → kept_in tables.new w ≡ kept_in tables.old w }
    ensures spare { spare tables.new ≡ spare tables.old }
    ensures moved { IfOk result (λ moved. spec.AreMoved register.now.entries entry.now (kept_in tables.new)
        (option_map enacted_view moved.enacted) (map revised_view moved.revised.items)) }
    ensures steps { steps.new ≤ steps.old + entry_cost register.now.entries entry.now }
{
    match asking_of(alloc, register, tables, naming, entry, &known) {
        Ok(asking) => {
            let movement = Movement {
                register,
                entry,
                touched: &asking.touched,
            };
            moved_by(
                alloc,
                &movement,
                tables,
                known,
                asking.names.as_slice(),
                steps,
            )
        }
        Err(Memory) => {
            drop(known);
            Err(Memory)
        }
    }
}
