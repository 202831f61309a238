//! Asking a table: the version of a day, lent or copied.

ghost use Rattle.std.specs.Prelude.{◌≡◌, ◌≤◌, ◌-◌, ◌^◌, IfOk, length, min, nat_le, true};
ghost use Rattle.act_tree.specs.Seen.{tree_view};
ghost use Rattle.law_register.specs.Answer.Versions.{version_view};
ghost use Rattle.version_cache.specs.Days.{is_ascending};
ghost use Rattle.version_cache.specs.Rows.{days_in, kept_view, rows_view};
ghost use Rattle.version_cache.specs.Seen.{revision_view, table_view};
ghost use Rattle.version_cache.specs.Tables.{IsRevisionOf, committed, last_version, rows_until, version_on};

use crate::kept_version::KeptVersion;
use crate::making::last_kept;
use crate::{Revision, Row, Table};
use desk_base::{Day, Memory};
use law_register::{Reading, Version};
use std::alloc::Global;

fn count_until(rows: &[Row], day: Day) -> usize
    requires { is_ascending (days_in rows.now) ≡ true }
    ensures count { result ≡ length (rows_until day (rows_view rows.now)) }
    ensures most { result ≤ length rows.now }
{
    rows.partition_point(
        |row: &Row| -> bool
            ensures { result ≡ nat_le row.now.day day }
        { row.day <= day },
    )
}

// The version of the last of these rows that is not after a day, or the one before them.
fn last_by<'a>(before: &'a KeptVersion, rows: &'a [Row], day: Day) -> &'a KeptVersion
    requires { is_ascending (days_in rows.now) ≡ true }
    ensures { kept_view result.now
        ≡ last_version (kept_view before.now) (rows_until day (rows_view rows.now)) }
{
    let count = count_until(rows, day);
    let parts = rows.split_at(count);
    last_kept(before, parts.0)
}

impl Table {
    /// The reading in which it was made.
    pub fn reading(&self) -> Reading
        ensures { result ≡ (table_view self.now).reading }
    {
        self.reading
    }

    /// Its rows, by ascending days. It takes no memory.
    pub fn rows(&self) -> &[Row]
        ensures { rows_view result.now ≡ (table_view self.now).rows }
    {
        self.rows.as_slice()
    }

    /// How many rows have a day that is not after this one. It takes no memory.
    pub fn breakpoint(&self, day: Day) -> usize
        ensures { result ≡ length (rows_until day (table_view self.now).rows) }
    {
        count_until(self.rows.as_slice(), day)
    }

    pub(crate) fn kept_on(&self, day: Day) -> &KeptVersion
        ensures { kept_view result.now ≡ version_on (table_view self.now) day }
    {
        last_by(&self.enacted, self.rows.as_slice(), day)
    }

    fn kept_after<'a>(&'a self, revision: &'a Revision, day: Day) -> &'a KeptVersion
        requires { IsRevisionOf (table_view self.now) (revision_view revision.now) }
        ensures { kept_view result.now
            ≡ version_on (committed (table_view self.now) (revision_view revision.now)) day }
    {
        let parts = self.rows.as_slice().split_at(revision.kept);
        let before = last_by(&self.enacted, parts.0, day);
        last_by(before, revision.rows.as_slice(), day)
    }

    /// The version of a day. It takes no memory.
    pub fn on(&self, day: Day) -> &Version
        ensures version { version_view result.now ≡ version_on (table_view self.now) day }
        ensures changes { (tree_view result.now.tree).changes ≡ min (length result.now.applied) (2 ^ 64 - 1) }
    {
        self.kept_on(day).version()
    }

    /// The version that `on` gives once a revision of this table is committed. It takes no memory.
    pub fn on_after<'a>(&'a self, revision: &'a Revision, day: Day) -> &'a Version
        requires { IsRevisionOf (table_view self.now) (revision_view revision.now) }
        ensures version { version_view result.now
            ≡ version_on (committed (table_view self.now) (revision_view revision.now)) day }
        ensures changes { (tree_view result.now.tree).changes ≡ min (length result.now.applied) (2 ^ 64 - 1) }
    {
        self.kept_after(revision, day).version()
    }

    /// The version of a day, in memory of its own.
    pub fn at(&self, alloc: Global, day: Day) -> Result<Version, Memory>
        ensures version { IfOk result (λ version. version_view version ≡ version_on (table_view self.now) day) }
        ensures changes { IfOk result
            (λ version. (tree_view version.tree).changes ≡ min (length version.applied) (2 ^ 64 - 1)) }
    {
        self.on(day).copy(alloc)
    }
}
