//! Calendar: a day has a number of 1 at least, so that on the day 0 nothing stands in a table, and nothing begins.

ghost use Rattle.std.specs.Prelude.{◌≡◌, [], false, nat_le, None};
ghost use Rattle.version_cache.specs.Days.{last_until};
ghost use Rattle.version_cache.specs.Seen.{table_view};
ghost use Rattle.version_cache.specs.Tables.{rows_until};

use crate::Table;
use desk_base::Day;
use desk_base::laws::day_is_numbered;

// A day is after the day 0.
fn is_counted(day: Day)
    ensures { nat_le day 0 ≡ false }
{
    day_is_numbered(day);
}

/// None of these days is the day 0.
pub(crate) fn days_are_counted(days: &[Day])
    ensures { last_until 0 days.now ≡ None }
{
    for day in days {
        is_counted(*day);
    }
}

/// No row of a table begins on the day 0.
pub(crate) fn rows_are_counted(table: &Table)
    ensures { rows_until 0 (table_view table.now).rows ≡ [] }
{
    let rows = table.rows.as_slice();
    for row in rows {
        is_counted(row.day);
    }
}
