//! The rows of references that are handed in: of the act as enacted, of the touched day, and of the rows of the table of force.

ghost use Rattle.std.specs.Prelude.{◌≡◌, ◌++◌, ◌∷◌, [], Some, IfOk, OnOk};
ghost use Rattle.act_tree.specs.Seen.{tree_view};
ghost use Rattle.law_register.specs.declared.register.known.Known.{Known as KnownValue};
ghost use Rattle.law_refs.specs.Handing as handing;
ghost use Rattle.law_refs.specs.Missing as missing;
ghost use Rattle.version_cache.specs.Rows.{row_view, rows_view};
ghost use Rattle.version_cache.specs.Seen.{work_revision_view, work_view};
ghost use Rattle.version_cache.specs.Works.{AreRevisionsOf, IsFor, renewed, work_of, work_revision_of};
ghost use Rattle.law_office.specs.RefRows as spec;

use crate::text_refs::text_refs;
use act_tree::Tree;
use desk_base::{Day, Memory};
use frbr_names::WorkName;
use law_refs::{RefRow, RefRows};
use law_register::{Known, Reading};
use std::alloc::Global;
use version_cache::{Row, WorkRevision, WorkTables};

// The row of a text of a work, which begins on a day, or is the act as enacted.
fn row_of(
    alloc: Global,
    work: &WorkName,
    known: &Known,
    from: Option<Day>,
    tree: &Tree,
) -> Result<RefRow, Memory>
    ensures { IfOk result (λ row. row ≡ record {
      work = work.now;
      act_day = known.now.act.day;
      from = from;
      refs = missing.text_refs (tree_view tree.now);
    }) }
{
    Ok(RefRow {
        work: work.copy()?,
        act_day: known.act.day,
        from,
        refs: text_refs(alloc, tree)?,
    })
}

// Whether a day is after another, if there is another.
fn is_after(day: &Option<Day>, later: Day) -> bool
    ensures { result ≡ spec.is_after day.now later }
{
    match day {
        Some(day) => *day < later,
        None => true,
    }
}

// Adds the row of a row of the table of a work, where that begins after a day.
fn add_row(
    alloc: Global,
    work: &WorkName,
    known: &Known,
    after: &Option<Day>,
    row: &Row,
    found: &mut RefRows,
) -> Result<(), Memory>
    ensures { OnOk result (found.new
        ≡ found.old ++ spec.rows_handed work.now known.now.act.day after.now (row_view row.now ∷ [])) }
{
    if is_after(after, row.day) {
        let tree = &row.version().tree;
        found.push(row_of(alloc, work, known, Some(row.day), tree)?)?;
    }
    Ok(())
}

// Adds the rows of those rows of the table of a work that begin after a day, or of all.
fn add_rows(
    alloc: Global,
    work: &WorkName,
    known: &Known,
    after: &Option<Day>,
    rows: &[Row],
    found: &mut RefRows,
) -> Result<(), Memory>
    ensures { OnOk result (found.new
        ≡ found.old ++ spec.rows_handed work.now known.now.act.day after.now (rows_view rows.now)) }
{
    for row in rows {
        add_row(alloc, work, known, after, row, found)?;
    }
    Ok(())
}

/// Adds the rows of all texts of a work, of which this was just made.
pub(crate) fn add_made(
    alloc: Global,
    work: &WorkName,
    made: &WorkTables,
    found: &mut RefRows,
) -> Result<(), Memory>
    ensures { (held : KnownValue) → work_view made.now ≡ work_of held
        → OnOk result (found.new ≡ found.old ++ handing.rows_made work.now held) }
{
    let known = made.known();
    found.push(row_of(alloc, work, known, None, &made.enacted().tree)?)?;
    let table = made.table(Reading::Force);
    add_rows(alloc, work, known, &None, table.rows(), found)
}

/// Adds the rows of a work from the touched day on, of which what is kept is revised so.
pub(crate) fn add_revised(
    alloc: Global,
    work: &WorkName,
    kept: &WorkTables,
    revision: &WorkRevision,
    touched: Day,
    found: &mut RefRows,
) -> Result<(), Memory>
    requires { AreRevisionsOf (work_view kept.now) (work_revision_view revision.now).tables }
    ensures { (held : KnownValue) → IsFor held (renewed (work_view kept.now) (work_revision_view revision.now))
        → work_revision_view revision.now ≡ work_revision_of (work_view kept.now) held (Some touched)
        → OnOk result (found.new ≡ found.old ++ handing.rows_from work.now touched held) }
{
    let known = revision.known();
    let version = kept.on_after(Some(revision), Reading::Force, touched);
    let row = row_of(alloc, work, known, Some(touched), &version.tree)?;
    found.push(row)?;
    match revision.force() {
        Some(force) => add_rows(alloc, work, known, &Some(touched), force.rows(), found),
        None => Ok(()),
    }
}
