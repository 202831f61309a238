//! What holds of the days of a work, and of tables. Each law is a function that does nothing, whose clause is the law.

ghost use Rattle.std.specs.Prelude.{◌≡◌, ◌++◌, ◌∷◌, [], ℕ, List, Some, false, true};
ghost use Rattle.law_register.specs.declared.answer.question.Reading.{Reading as ReadingValue};
ghost use Rattle.law_register.specs.declared.answer.question.Reading.TheVariants.{Efficacy, Force};
ghost use Rattle.law_register.specs.declared.register.entry.Entry.{Entry};
ghost use Rattle.law_register.specs.declared.register.known.Known.{Known as KnownValue};
ghost use Rattle.law_register.specs.Answer.Breakpoints.{breakpoints};
ghost use Rattle.law_register.specs.Answer.Order.{order};
ghost use Rattle.law_register.specs.Answer.Touched.{day_among, touched_day, touched_days};
ghost use Rattle.law_register.specs.Register.KnownNext.{known_now};
ghost use Rattle.law_register.specs.Register.Verdicts.{is_legal};
ghost use Rattle.version_cache.specs.Agreement.{Agree};
ghost use Rattle.version_cache.specs.Days.{last_until, order_by};
ghost use Rattle.version_cache.specs.Readings.{has_efficacy};
ghost use Rattle.version_cache.specs.Seen.{table_view, work_view};
ghost use Rattle.version_cache.specs.Steady.{CarrySteadily};
ghost use Rattle.version_cache.specs.Tables.{IsRight, IsRightUntil, table_of};
ghost use Rattle.version_cache.specs.Works.{AreRightIf, IsAlike, IsFor, IsForIf};

use crate::{Table, WorkTables};
use desk_base::Day;
use law_register::{Known, Reading};

/// Between two breakpoints the text stands still: what bears on a day, and in what order, is what bears on the last breakpoint that
/// is not after it; before the first breakpoint nothing bears.
pub fn text_stands_still(_known: &Known, _reading: Reading)
    requires { CarrySteadily _known.now }
    ensures { (day : ℕ) → order _known.now _reading day
        ≡ order_by _known.now _reading (last_until day (breakpoints _known.now)) }
{}

/// Where no modification that stands changes the efficacy of a textual one, and none hangs on a provision, the same modifications bear
/// on each day in both readings, in the same order.
pub fn readings_agree_without_efficacy(_known: &Known)
    requires { has_efficacy _known.now.mods ≡ false }
    ensures { (day : ℕ) → order _known.now Efficacy day ≡ order _known.now Force day }
{}

/// A table with a row for each breakpoint gives on every day what a replay from scratch gives.
pub fn rows_of_breakpoints_suffice(_known: &Known, _reading: Reading)
    requires { CarrySteadily _known.now }
    ensures { IsRight _known.now (table_of _known.now _reading) }
{}

/// A table that is right for what was known is right before a day for what is known now, where both agree before that day; and on all
/// days, where they agree on all.
pub fn agreeing_views_share_tables(
    _old: &Known,
    _new: &Known,
    _touched: Option<Day>,
    _table: &Table,
)
    requires right { IsRight _old.now (table_view _table.now) }
    requires agree { Agree _old.now _new.now (table_view _table.now).reading _touched }
    ensures { IsRightUntil _new.now _touched (table_view _table.now) }
{}

/// Nothing changes before the touched day: of entries that were each accepted behind those before it, and one entry more, what is
/// known of a work without it and with it agrees before the day that it touches, and on all days where it touches none.
pub fn nothing_changes_before_the_touched_day()
    ensures { (entries : List Entry) (entry : Entry) (work : List ℕ) (reading : ReadingValue) (old new : KnownValue)
        → is_legal entries ≡ true
        → known_now entries work ≡ Some old
        → known_now (entries ++ entry ∷ []) work ≡ Some new
        → Agree old new reading (touched_day entries entry) }
{}

/// Nothing changes in a work before its touched day, and in one that an entry does not touch nothing changes on any day.
pub fn works_change_from_their_touched_days()
    ensures { (entries : List Entry) (entry : Entry) (work : List ℕ) (reading : ReadingValue) (old new : KnownValue)
        → is_legal entries ≡ true
        → known_now entries work ≡ Some old
        → known_now (entries ++ entry ∷ []) work ≡ Some new
        → Agree old new reading (day_among (touched_days entries entry) work) }
{}

/// Entries on other works move how many law entries there are, and how many are known: what is kept of a work is for it still.
pub fn other_works_leave_tables(_old: &Known, _new: &Known, _tables: &WorkTables)
    requires alike { IsAlike _old.now _new.now }
    requires was { IsFor _old.now (work_view _tables.now) }
    ensures { IsFor _new.now (work_view _tables.now) }
{}

/// What is kept of a work for what entries, each accepted behind those before it, make known of it: with one entry more the work is
/// known still, and the tables are right before the day that the entry touches; on all days, where it touches none.
pub fn tables_follow_an_entry(_tables: &WorkTables)
    ensures { (entries : List Entry) (entry : Entry) (work : List ℕ)
        → is_legal entries ≡ true
        → IsForIf (known_now entries work) (work_view _tables.now)
        → AreRightIf (known_now (entries ++ entry ∷ []) work) (touched_day entries entry)
        (work_view _tables.now) }
{}
