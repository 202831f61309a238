//! Sharing: where both readings give the same on each day, the table of efficacy shares the versions of that of force.

ghost use Rattle.std.specs.Prelude.{◌≡◌, ◌+◌, ◌≤◌, IfOk, vec_capacity, vec_len};
ghost use Rattle.version_cache.specs.Readings as readings;
ghost use Rattle.version_cache.specs.Rows.{rows_view};
ghost use Rattle.version_cache.specs.Seen.{revision_view, table_view};
ghost use Rattle.version_cache.specs.Tables.{revision_like};

use crate::revising::count_rows_before;
use crate::{Revision, Row, Table};
use desk_base::Memory;
use law_register::{Destination, KnownMod, Modification, Reading};
use std::alloc::Global;

// Whether it changes the efficacy of another modification.
fn changes_efficacy(body: &Modification) -> bool
    ensures { result ≡ readings.changes_efficacy body.now }
{
    match body {
        Modification::Efficacy {
            destination: Destination::Modification(_),
            ..
        } => true,
        _ => false,
    }
}

// Whether the readings may differ by it: it hangs on a provision, or changes the efficacy of another.
fn parts_readings(known: &KnownMod) -> bool
    ensures { result ≡ readings.parts_readings known.now }
{
    known.carried.is_some() || changes_efficacy(&known.body)
}

/// Whether one of these stands, and hangs on a provision or changes the efficacy of another: whether the readings may differ.
pub fn has_efficacy(mods: &[KnownMod]) -> bool
    ensures { result ≡ readings.has_efficacy mods.now }
{
    for known in mods {
        if known.live && parts_readings(known) {
            return true;
        }
    }
    false
}

// The same rows, whose versions are shared, with room for so many more.
fn share_rows(alloc: Global, rows: &[Row], room: usize) -> Result<Vec<Row>, Memory>
    ensures rows { IfOk result (λ copies. rows_view copies.items ≡ rows_view rows.now) }
    ensures room { IfOk result (λ copies. vec_len copies + room ≤ vec_capacity copies) }
{
    let mut copies = Vec::with_capacity(alloc, rows.len())?;
    for row in rows {
        copies.push(Row {
            day: row.day,
            kept: row.kept.share()?,
        })?;
    }
    copies.reserve(room)?;
    Ok(copies)
}

impl Table {
    /// The same table in another reading; its versions are shared.
    pub(crate) fn share_in(&self, alloc: Global, reading: Reading) -> Result<Table, Memory>
        ensures { IfOk result (λ shared. table_view shared ≡ record (table_view self.now) { reading = reading }) }
    {
        Ok(Table {
            reading,
            enacted: self.enacted.share()?,
            rows: share_rows(alloc, self.rows.as_slice(), 0)?,
            working: None,
        })
    }

    /// A revision of this table with the rows of another table's; their versions are shared.
    pub(crate) fn revise_like(&self, alloc: Global, other: &Revision) -> Result<Revision, Memory>
        ensures { IfOk result (λ revision. revision_view revision
            ≡ revision_like (table_view self.now) (revision_view other.now)) }
    {
        let kept = count_rows_before(self.rows.as_slice(), other.touched);
        Ok(Revision {
            touched: other.touched,
            kept,
            rows: share_rows(alloc, other.rows.as_slice(), kept)?,
            working: None,
        })
    }
}
