//! Revision: what a table is to have in place of its rows from a day on. A clause sees its day, how many rows stay, and the new ones
//! (`revision_view`).

ghost use Rattle.std.specs.Prelude.{◌≡◌, ◌+◌, ◌≤◌, nat_le, true, vec_capacity, vec_len};
ghost use Rattle.std.specs.List.{list_all};
ghost use Rattle.version_cache.specs.Days.{is_ascending};
ghost use Rattle.version_cache.specs.Rows.{days_in, rows_view};
ghost use Rattle.version_cache.specs.Working.{IsBehind, IsBehind-prop};

use crate::Row;
use desk_base::Day;
use law_register::Version;

/// The rows of a table from a day on, made anew, with room for those before it.
#[derive(Debug, Drop)]
pub struct Revision {
    pub(crate) touched: Day,
    pub(crate) kept: usize,
    pub(crate) rows: Vec<Row>,
    pub(crate) working: Option<Version>,
    ghost ascending: { is_ascending (days_in rows.items) ≡ true },
    ghost late: { list_all (λ day. nat_le touched day) (days_in rows.items) ≡ true },
    ghost room: { vec_len rows + kept ≤ vec_capacity rows },
    ghost goes_on: { IsBehind (rows_view rows.items) working } by { IsBehind-prop (rows_view rows.items) working },
}

impl Revision {
    ghost use Rattle.version_cache.specs.Seen.{revision_view};

    /// The day from which on the table is made anew.
    pub fn touched(&self) -> Day
        ensures { result ≡ (revision_view self.now).touched }
    {
        self.touched
    }

    /// The rows that it brings: those of the table from that day on. It takes no memory.
    pub fn rows(&self) -> &[Row]
        ensures { rows_view result.now ≡ (revision_view self.now).rows }
    {
        self.rows.as_slice()
    }
}
