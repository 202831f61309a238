//! Tabling: what is kept of each work is made once a keeper is opened, and the index of references.

ghost use Rattle.std.specs.Prelude.{◌≡◌, ◌≢◌, ◌+◌, ◌≤◌, ◌++◌, ◌∷◌, [], ℕ, List, None, Some, Ok, IfErr, IfOk, OnOk, map, option_map};
ghost use Rattle.std.specs.List.{sum_by};
ghost use Rattle.std.specs.Map.{keys_of};
ghost use Rattle.law_register.specs.Answer.Renewing.{costs_from, opening_cost};
ghost use Rattle.law_register.specs.declared.register.known.Known.{Known as KnownValue};
ghost use Rattle.law_register.specs.Provisions.Carrying.{held_now};
ghost use Rattle.indexmap.specs.IndexMap.{spare};
ghost use Rattle.law_refs.specs.Handing.{judged_at_opening, rows_if, rows_made, rows_opened};
ghost use Rattle.law_refs.specs.OfRegister.{IsIndexOf};
ghost use Rattle.version_cache.specs.Seen.{work_view};
ghost use Rattle.version_cache.specs.Works.{work_of};
ghost use Rattle.viewpoints.specs.Right as viewpoints;
ghost use Rattle.law_keeper.specs.Keepers.{Keeps, LeavesOldOrSame};
ghost use Rattle.law_register.specs.declared.desk.open_fault.OpenFault.TheVariants as fails;
ghost use Rattle.law_office.specs.Line.{AreInLine};
ghost use Rattle.law_office.specs.Noting.{AreNoted};
ghost use Rattle.law_office.specs.Offices.{HoldsBook, IsRight};
ghost use Rattle.law_office.specs.Opening as spec;
ghost use Rattle.law_office.specs.Opening.{HasOpenCause, Opens, StaysUnlessFailed, TakesRefused, cost_opened, opened_of};
ghost use Rattle.law_office.specs.Tables.{AddsWork, AreAhead, AreTablesOf, Matches, kept_in, table_on, with_enacted};

use crate::book::{Book, KeptWorks, Naming};
use crate::line::{DatedWork, line_of};
use crate::noting::naming_of;
use crate::opening::Opened;
use crate::ref_rows::add_made;
use crate::references::index_of;
use crate::renewing::add;
use crate::sources_then::SourcesThen;
use desk_base::{Memory, Steps};
use frbr_names::WorkName;
use held_provisions::carry;
use indexmap::IndexMap;
use law_keeper::Keeper;
use law_refs::{RefIndex, RefRows};
use law_register::laws::{entries_are_legal, known_works_carry_nothing};
use law_register::{Known, OpenFault, Register, known_at};
use replay_core::FromEnacted;
use source_provisions::laws::laws_have_lines;
use std::alloc::Global;
use std::sync::ledger::Ledger;
use version_cache::{Table, WorkTables};
use viewpoints::PastTables;

// What is known of a work, with what it carries by what is kept of those on which it depends.
fn held_of(
    alloc: Global,
    register: &Register,
    tables: &KeptWorks,
    work: &WorkName,
) -> Result<Option<Known>, Memory>
    requires ahead { AreAhead register.now.entries work.now (kept_in tables.now) }
    ensures { IfOk result (λ held. held ≡ held_now register.now.entries work.now) }
{
    match known_at(alloc, register, work, register.front())? {
        Some(known) => {
            known_works_carry_nothing();
            laws_have_lines();
            let sources = SourcesThen {
                tables,
                enacted: None,
                revised: &[],
            };
            Ok(Some(carry(alloc, &FromEnacted, &sources, known)?))
        }
        None => Ok(None),
    }
}

// What is to be kept of a work, if it is known.
fn make_work<L: Ledger>(
    alloc: Global,
    register: &Register,
    tables: &KeptWorks,
    work: &WorkName,
    steps: &mut Steps<L>,
) -> Result<Option<WorkTables>, Memory>
    requires ahead { AreAhead register.now.entries work.now (kept_in tables.now) }
    ensures made { IfOk result
        (λ made. Matches (held_now register.now.entries work.now) (option_map work_view made)) }
    ensures is { IfOk result
        (λ made. option_map work_view made ≡ option_map work_of (held_now register.now.entries work.now)) }
    ensures steps { steps.new ≤ steps.old + costs_from (held_now register.now.entries work.now) 0 }
{
    entries_are_legal(register);
    match held_of(alloc, register, tables, work)? {
        Some(held) => Ok(Some(WorkTables::make(alloc, &FromEnacted, held, steps)?)),
        None => Ok(None),
    }
}

// Keeps a work of which this was just made, and adds the rows of its references.
fn add_with_rows(
    alloc: Global,
    tables: &mut KeptWorks,
    rows: &mut RefRows,
    work: WorkName,
    made: WorkTables,
) -> Result<(), Memory>
    requires space { 1 ≤ spare tables.old }
    ensures kept { OnOk result ((w : List ℕ) → kept_in tables.new w
        ≡ with_enacted (Some (work, work_view made)) w (kept_in tables.old w)) }
    ensures key { OnOk result (kept_in tables.old work ≡ None
        → keys_of tables.new.entries ≡ keys_of tables.old.entries ++ work ∷ []) }
    ensures rows { (held : KnownValue) → work_view made ≡ work_of held → OnOk result (rows.new ≡ rows.old ++ rows_made work held) }
{
    match add_made(alloc, &work, &made, rows) {
        Ok(()) => {
            add(tables, work, made);
            Ok(())
        }
        Err(Memory) => {
            drop(work);
            drop(made);
            Err(Memory)
        }
    }
}

// Keeps a work, if it is known, and adds the rows of its references.
fn add_work<L: Ledger>(
    alloc: Global,
    register: &Register,
    work: &WorkName,
    tables: &mut KeptWorks,
    rows: &mut RefRows,
    steps: &mut Steps<L>,
) -> Result<(), Memory>
    requires ahead { AreAhead register.now.entries work.now (kept_in tables.old) }
    ensures kept { OnOk result (AddsWork (held_now register.now.entries work.now) work.now
        (kept_in tables.old) (kept_in tables.new)) }
    ensures key { OnOk result (held_now register.now.entries work.now ≢ None → kept_in tables.old work.now ≡ None
        → keys_of tables.new.entries ≡ keys_of tables.old.entries ++ work.now ∷ []) }
    ensures rows { OnOk result
        (rows.new ≡ rows.old ++ rows_if (rows_made work.now) (held_now register.now.entries work.now)) }
    ensures steps { steps.new ≤ steps.old + costs_from (held_now register.now.entries work.now) 0 }
{
    tables.reserve(1)?;
    let name = work.copy()?;
    match make_work(alloc, register, tables, work, steps)? {
        Some(made) => add_with_rows(alloc, tables, rows, name, made),
        None => {
            drop(name);
            Ok(())
        }
    }
}

// Makes what is kept of works in line, and the rows of their references, of one after another.
fn add_all<L: Ledger>(
    alloc: Global,
    register: &Register,
    line: &[DatedWork],
    tables: &mut KeptWorks,
    rows: &mut RefRows,
    steps: &mut Steps<L>,
) -> Result<(), Memory>
    requires none { tables.old.entries ≡ [] }
    requires no_rows { rows.old ≡ [] }
    requires line { AreInLine register.now.entries (map (λ d. d.work) line.now) }
    ensures right { OnOk result (AreTablesOf register.now.entries (kept_in tables.new)) }
    ensures keys { OnOk result (keys_of tables.new.entries ≡ map (λ d. d.work) line.now) }
    ensures rows { OnOk result (rows.new ≡ rows_opened register.now.entries (map (λ d. d.work) line.now)) }
    ensures steps { steps.new ≤ steps.old
        + sum_by (λ work. costs_from (held_now register.now.entries work) 0) (map (λ d. d.work) line.now) }
{
    entries_are_legal(register);
    for dated in line {
        add_work(alloc, register, &dated.work, tables, rows, steps)?;
    }
    Ok(())
}

// Makes what is kept of all works, in line, and the rows of their references.
#[tactic(auto, unfolding(law_register::specs::Answer::Renewing::opening_cost))]
fn make_tables<L: Ledger>(
    alloc: Global,
    register: &Register,
    steps: &mut Steps<L>,
) -> Result<(KeptWorks, RefRows), Memory>
    ensures right { IfOk result (λ made. AreTablesOf register.now.entries (kept_in made.0)) }
    ensures line { IfOk result (λ made. AreInLine register.now.entries (keys_of made.0.entries)) }
    ensures rows { IfOk result (λ made. made.1 ≡ rows_opened register.now.entries (keys_of made.0.entries)) }
    ensures steps { steps.new ≤ steps.old + opening_cost register.now.entries }
{
    let line = line_of(alloc, register)?;
    let mut tables = IndexMap::new(alloc);
    let mut rows = RefRows::new(alloc);
    add_all(
        alloc,
        register,
        line.as_slice(),
        &mut tables,
        &mut rows,
        steps,
    )?;
    Ok((tables, rows))
}

// What is kept of works, and the index of their references.
fn make_index<L: Ledger>(
    alloc: Global,
    register: &Register,
    steps: &mut Steps<L>,
) -> Result<(KeptWorks, RefIndex), Memory>
    ensures right { IfOk result (λ made. AreTablesOf register.now.entries (kept_in made.0)) }
    ensures line { IfOk result (λ made. AreInLine register.now.entries (keys_of made.0.entries)) }
    ensures index { IfOk result (λ made. IsIndexOf register.now.entries made.1) }
    ensures steps { steps.new ≤ steps.old + (opening_cost register.now.entries + judged_at_opening register.now.entries) }
{
    entries_are_legal(register);
    let (tables, rows) = make_tables(alloc, register, steps)?;
    let index = index_of(alloc, register, &tables, &rows, steps)?;
    Ok((tables, index))
}

// The same, with the works that name a provision.
fn make_named<L: Ledger>(
    alloc: Global,
    register: &Register,
    steps: &mut Steps<L>,
) -> Result<(KeptWorks, Naming, RefIndex), Memory>
    ensures right { IfOk result (λ made. AreTablesOf register.now.entries (kept_in made.0)) }
    ensures line { IfOk result (λ made. AreInLine register.now.entries (keys_of made.0.entries)) }
    ensures named { IfOk result (λ made. AreNoted made.1 (kept_in made.0)) }
    ensures index { IfOk result (λ made. IsIndexOf register.now.entries made.2) }
    ensures steps { steps.new ≤ steps.old + (opening_cost register.now.entries + judged_at_opening register.now.entries) }
{
    let (tables, refs) = make_index(alloc, register, steps)?;
    match naming_of(alloc, &tables) {
        Ok(naming) => Ok((tables, naming, refs)),
        Err(Memory) => {
            drop(tables);
            drop(refs);
            Err(Memory)
        }
    }
}

// What is kept of works, which of them name a provision, and what is kept of past viewpoints and of references.
fn make_kept<L: Ledger>(
    alloc: Global,
    register: &Register,
    steps: &mut Steps<L>,
) -> Result<(KeptWorks, Naming, PastTables<Table>, RefIndex), Memory>
    ensures tables { IfOk result (λ kept. AreTablesOf register.now.entries (kept_in kept.0)) }
    ensures line { IfOk result (λ kept. AreInLine register.now.entries (keys_of kept.0.entries)) }
    ensures named { IfOk result (λ kept. AreNoted kept.1 (kept_in kept.0)) }
    ensures none { IfOk result (λ kept. kept.2 ≡ []) }
    ensures past { IfOk result (λ kept. viewpoints.IsRight table_on register.now.entries kept.2) }
    ensures index { IfOk result (λ kept. IsIndexOf register.now.entries kept.3) }
    ensures steps { steps.new ≤ steps.old + (opening_cost register.now.entries + judged_at_opening register.now.entries) }
{
    let past = PastTables::new(alloc)?;
    let (tables, naming, refs) = make_named(alloc, register, steps)?;
    Ok((tables, naming, past, refs))
}

// The same, where want of memory is told as an opening tells it.
fn book_of<L: Ledger>(
    alloc: Global,
    opened: Opened,
    steps: &mut Steps<L>,
) -> Result<Book, OpenFault>
    requires { spec.opened (spec.spellings opened.register.entries) ≡ Ok opened.register.entries }
    ensures register { IfOk result (λ book. book.register ≡ opened.register) }
    ensures end { IfOk result (λ book. book.end ≡ opened.end) }
    ensures new { IfOk result (λ book. (book.pending ≡ None) × (book.marks.items ≡ []) × (keys_of book.past ≡ [])) }
    ensures right { IfOk result IsRight }
    ensures line { IfOk result (λ book. AreInLine book.register.entries (keys_of book.tables.entries)) }
    ensures memory { IfErr result (λ fault. fault ≡ fails.Memory) }
    ensures steps { steps.new ≤ steps.old
        + (opening_cost opened.register.entries + judged_at_opening opened.register.entries) }
{
    match Book::with_tables(alloc, opened, steps) {
        Ok(book) => Ok(book),
        Err(Memory) => Err(OpenFault::Memory),
    }
}

impl Book {
    /// Opens a keeper, and the book of an office of what it has, as `Opened::open` and `with_tables` do.
    pub fn open<K: Keeper, L: Ledger>(
        alloc: Global,
        keeper: &mut K,
        steps: &mut Steps<L>,
    ) -> Result<Book, OpenFault>
        ensures opened { (K.holding keeper.old).tells
            → Opens (λ book. book.register.entries) result (opened_of (K.holding keeper.old).list) }
        ensures new { IfOk result (λ book. (book.pending ≡ None) × (book.marks.items ≡ []) × (keys_of book.past ≡ [])) }
        ensures right { IfOk result IsRight }
        ensures line { IfOk result (λ book. AreInLine book.register.entries (keys_of book.tables.entries)) }
        ensures held { IfOk result (HoldsBook (K.holding keeper.new) (K.readiness keeper.new)) }
        ensures same { Keeps (K.holding keeper.old) (K.holding keeper.new) }
        ensures crash { LeavesOldOrSame (K.holding keeper.old) (K.holding keeper.new) }
        ensures cause { HasOpenCause (K.faults keeper.old) (K.faults keeper.new) result }
        ensures stays { (K.holding keeper.old).tells
            → IfErr result (StaysUnlessFailed (K.faults keeper.old) (K.faults keeper.new)) }
        ensures steps { (K.holding keeper.old).tells
            → steps.new ≤ steps.old + cost_opened (opened_of (K.holding keeper.old).list) }
        ensures steps_opened { IfOk result (λ book. steps.new ≤ steps.old
            + (opening_cost book.register.entries + judged_at_opening book.register.entries)) }
        ensures steps_refused { IfErr result (TakesRefused (K.holding keeper.old) steps.old steps.new) }
    {
        match Opened::open(alloc, keeper) {
            Ok(opened) => book_of(alloc, opened, steps),
            Err(fault) => Err(fault),
        }
    }

    /// The book of an office, of what was opened: with what is to be kept of each enacted work, made in line, of the latest
    /// act first, and the index of references. It takes one step at most for each id that is applied, and one for each reference
    /// of their texts.
    pub fn with_tables<L: Ledger>(
        alloc: Global,
        opened: Opened,
        steps: &mut Steps<L>,
    ) -> Result<Book, Memory>
        requires { spec.opened (spec.spellings opened.register.entries) ≡ Ok opened.register.entries }
        ensures register { IfOk result (λ book. book.register ≡ opened.register) }
        ensures end { IfOk result (λ book. book.end ≡ opened.end) }
        ensures new { IfOk result (λ book. (book.pending ≡ None) × (book.marks.items ≡ []) × (keys_of book.past ≡ [])) }
        ensures right { IfOk result IsRight }
        ensures line { IfOk result (λ book. AreInLine book.register.entries (keys_of book.tables.entries)) }
        ensures steps { steps.new ≤ steps.old
            + (opening_cost opened.register.entries + judged_at_opening opened.register.entries) }
    {
        match make_kept(alloc, &opened.register, steps) {
            Ok((tables, naming, past, refs)) => {
                let Opened { register, end } = opened;
                Ok(Book {
                    register,
                    end,
                    pending: None,
                    marks: Vec::new(alloc),
                    tables,
                    naming,
                    past,
                    refs,
                })
            }
            Err(Memory) => {
                drop(opened);
                Err(Memory)
            }
        }
    }
}
