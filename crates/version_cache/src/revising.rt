//! Revising a table: what stands before the touched day stays, and from that day on each row is made anew.

ghost use Rattle.std.specs.Prelude.{◌≡◌, ◌+◌, ◌≤◌, ◌++◌, ◌∷◌, IfOk, OnOk, drop, length, map, take, true, vec_capacity, vec_len};
ghost use Rattle.act_tree.specs.Seen.{is_own};
ghost use Rattle.law_register.specs.Answer.Breakpoints.{breakpoints};
ghost use Rattle.law_register.specs.Answer.Costs.{revision_cost};
ghost use Rattle.law_register.specs.Answer.Order.{order};
ghost use Rattle.law_register.specs.Answer.Soundness.{IsSound};
ghost use Rattle.law_register.specs.Answer.Versions.{version_view};
ghost use Rattle.version_cache.specs.Days.{days_before, last_day, order_by};
ghost use Rattle.version_cache.specs.Rows.{rows_view};
ghost use Rattle.version_cache.specs.Seen.{revision_view, table_view};
ghost use Rattle.version_cache.specs.Tables.{IsRevisionOf, IsRight, IsRightBefore, breakpoints_from, committed, last_version, revision_of, rows_before, rows_on};
ghost use Rattle.version_cache.specs.Working.{IsBehind, IsOfLast, IsWorking};

use crate::making::{Course, Start, add_rows, last_kept};
use crate::{Revision, Row, Table};
use desk_base::{Day, Memory, Steps};
use law_register::{Ids, Known, Reading, Replayer, Version};
use std::alloc::Global;
use std::mem::replace;
use std::sync::ledger::Ledger;

fn count_days_before(days: &[Day], touched: Day) -> usize
    ensures count { result ≡ length (days_before touched days.now) }
    ensures most { result ≤ length days.now }
{
    let mut count = 0;
    for day in days {
        if *day < touched {
            count += 1;
        }
    }
    count
}

// How many rows have a day before this one.
pub fn count_rows_before(rows: &[Row], touched: Day) -> usize
    ensures count { result ≡ length (rows_before touched (rows_view rows.now)) }
    ensures most { result ≤ length rows.now }
{
    let mut count = 0;
    for row in rows {
        if row.day < touched {
            count += 1;
        }
    }
    count
}

// The first of some orders, and the others.
fn parted(orders: Vec<Ids>) -> (Ids, Vec<Ids>)
    requires { 1 ≤ length orders.items }
    ensures { orders.items ≡ result.0 ∷ result.1.items }
{
    let mut others = orders;
    let first = others.remove(0);
    (first, others)
}

// The ids that bear on the last of the first so many days, none where there are none, and those of each day behind them, found in
// one walk.
fn orders_behind<P: Replayer>(
    alloc: Global,
    replayer: &P,
    known: &Known,
    reading: Reading,
    days: &[Day],
    count: usize,
) -> Result<(Ids, Vec<Ids>), Memory>
    requires sound { IsSound known.now }
    requires within { count ≤ length days.now }
    ensures before { IfOk result (λ both. both.0 ≡ order_by known.now reading (last_day (take count days.now))) }
    ensures behind { IfOk result (λ both. both.1.items ≡ map (order known.now reading) (drop count days.now)) }
{
    if count == 0 {
        let orders = replayer.orders_at(alloc, known, reading, days)?;
        return Ok((Ids::new(alloc), orders));
    }
    let parts = days.split_at(count - 1);
    let orders = replayer.orders_at(alloc, known, reading, parts.1)?;
    Ok(parted(orders))
}

// Puts these rows in place of all but the first ones.
fn put_behind(rows: &mut Vec<Row>, kept: usize, new: Vec<Row>)
    requires room { vec_len new + kept ≤ vec_capacity new }
    ensures { rows.new.items ≡ take kept rows.old.items ++ new.items }
{
    let count = new.len();
    let mut all = new;
    rows.truncate(kept);
    let _moved = all.append(rows);
    all.as_mut_slice().rotate_left(count);
    *rows = all;
}

// The working version of a revision with these rows: none, where there are none.
fn behind(rows: &[Row], working: Version) -> Option<Version>
    requires own { is_own working.tree ≡ true }
    requires last { IsOfLast (rows_view rows.now) (version_view working) }
    ensures { IsBehind (rows_view rows.now) result }
{
    match rows {
        [] => {
            drop(working);
            None
        }
        _ => Some(working),
    }
}

// Puts this in the place of what is there.
fn put_working(place: &mut Option<Version>, working: Option<Version>)
    ensures { place.new ≡ working }
{
    let earlier = replace(place, working);
    drop(earlier);
}

impl Table {
    // A copy of the version of the last row before this day, or of the act as enacted.
    fn copy_last(&self, alloc: Global, touched: Day) -> Result<Version, Memory>
        ensures own { IfOk result (λ copy. is_own copy.tree ≡ true) }
        ensures last { IfOk result (λ copy. version_view copy
            ≡ last_version (table_view self.now).enacted (rows_before touched (table_view self.now).rows)) }
    {
        let kept = count_rows_before(self.rows.as_slice(), touched);
        let stay = self.rows.as_slice().split_at(kept);
        last_kept(&self.enacted, stay.0).version().copy(alloc)
    }

    // Takes the working version out, where all rows are before this day.
    fn take_working(&mut self, touched: Day) -> Option<Version>
        ensures same { table_view self.new ≡ table_view self.old }
        ensures last { IsWorking
            (last_version (table_view self.old).enacted (rows_before touched (table_view self.old).rows)) result }
    {
        if count_rows_before(self.rows.as_slice(), touched) < self.rows.len() {
            return None;
        }
        self.working.take()
    }

    // The version of the last row before this day, in a tree of its own: the working version, where the table has one of it, and a
    // copy else.
    fn start_from(&mut self, alloc: Global, touched: Day) -> Result<Version, Memory>
        ensures same { table_view self.new ≡ table_view self.old }
        ensures own { IfOk result (λ start. is_own start.tree ≡ true) }
        ensures last { IfOk result (λ start. version_view start
            ≡ last_version (table_view self.old).enacted (rows_before touched (table_view self.old).rows)) }
    {
        match self.take_working(touched) {
            Some(working) => Ok(working),
            None => self.copy_last(alloc, touched),
        }
    }

    // The rows from the touched day on, with room for those before it. The working version, which is that of the last of those,
    // goes on to them.
    fn rows_from<P: Replayer, L: Ledger>(
        &self,
        alloc: Global,
        replayer: &P,
        known: &Known,
        days: &[Day],
        touched: Day,
        working: &mut Version,
        steps: &mut Steps<L>,
    ) -> Result<Vec<Row>, Memory>
        requires sound { IsSound known.now }
        requires days { days.now ≡ breakpoints known.now }
        requires right { IsRightBefore known.now touched (table_view self.now) }
        requires own { is_own working.old.tree ≡ true }
        requires last { version_view working.old
            ≡ last_version (table_view self.now).enacted (rows_before touched (table_view self.now).rows) }
        ensures rows { IfOk result (λ rows. rows_view rows.items
            ≡ rows_on known.now (table_view self.now).reading (breakpoints_from known.now touched)) }
        ensures room { IfOk result (λ rows. vec_len rows
            + length (rows_before touched (table_view self.now).rows) ≤ vec_capacity rows) }
        ensures own { OnOk result (is_own working.new.tree ≡ true) }
        ensures last { IfOk result (λ rows. IsOfLast (rows_view rows.items) (version_view working.new)) }
        ensures steps { steps.new
            ≤ steps.old + revision_cost known.now (table_view self.now).reading touched }
    {
        let count = count_days_before(days, touched);
        let parts = days.split_at(count);
        let kept = count_rows_before(self.rows.as_slice(), touched);
        let stay = self.rows.as_slice().split_at(kept);
        let course = Course {
            known,
            reading: self.reading,
            enacted: &self.enacted,
        };
        let (ids, orders) = orders_behind(alloc, replayer, known, self.reading, days, count)?;
        let start = Start {
            ids,
            last: last_kept(&self.enacted, stay.0),
        };
        let mut rows = Vec::new(alloc);
        add_rows(
            alloc, &course, start, parts.1, orders, working, &mut rows, steps,
        )?;
        rows.reserve(kept)?;
        Ok(rows)
    }

    // The revision of this table with these rows, for which there is room, and with the working version that is that of the last of
    // them.
    fn revised(&self, known: &Known, touched: Day, rows: Vec<Row>, working: Version) -> Revision
        requires sound { IsSound known.now }
        requires right { IsRightBefore known.now touched (table_view self.now) }
        requires rows { rows_view rows.items
            ≡ rows_on known.now (table_view self.now).reading (breakpoints_from known.now touched) }
        requires room { vec_len rows + length (rows_before touched (table_view self.now).rows) ≤ vec_capacity rows }
        requires own { is_own working.tree ≡ true }
        requires last { IsOfLast (rows_view rows.items) (version_view working) }
        ensures revision { revision_view result ≡ revision_of (table_view self.now) known.now touched }
        ensures right { IsRight known.now (committed (table_view self.now) (revision_view result)) }
    {
        let _ = known;
        let kept = count_rows_before(self.rows.as_slice(), touched);
        let working = behind(rows.as_slice(), working);
        Revision {
            touched,
            kept,
            rows,
            working,
        }
    }

    // The revision of this table from a day on, by what is known now, whose breakpoints these are.
    pub(crate) fn revise_on<P: Replayer, L: Ledger>(
        &mut self,
        alloc: Global,
        replayer: &P,
        known: &Known,
        days: &[Day],
        touched: Day,
        steps: &mut Steps<L>,
    ) -> Result<Revision, Memory>
        requires sound { IsSound known.now }
        requires days { days.now ≡ breakpoints known.now }
        requires right { IsRightBefore known.now touched (table_view self.old) }
        ensures same { table_view self.new ≡ table_view self.old }
        ensures revision { IfOk result
            (λ revision. revision_view revision ≡ revision_of (table_view self.old) known.now touched) }
        ensures right { IfOk result
            (λ revision. IsRight known.now (committed (table_view self.old) (revision_view revision))) }
        ensures steps { steps.new
            ≤ steps.old + revision_cost known.now (table_view self.old).reading touched }
    {
        let mut working = self.start_from(alloc, touched)?;
        match self.rows_from(alloc, replayer, known, days, touched, &mut working, steps) {
            Ok(rows) => Ok(self.revised(known, touched, rows, working)),
            Err(Memory) => {
                drop(working);
                Err(Memory)
            }
        }
    }

    /// What a table is to have for what is known now, where it is right for that before a day: its rows before that day, and from it on
    /// a row for each breakpoint, made anew. At each only those modifications are applied that were not at the one before, where they
    /// follow those. The table stays; where all its rows are before that day, it gives its working version to the revision, and has
    /// none until one is committed.
    pub fn revise<P: Replayer, L: Ledger>(
        &mut self,
        alloc: Global,
        replayer: &P,
        known: &Known,
        touched: Day,
        steps: &mut Steps<L>,
    ) -> Result<Revision, Memory>
        requires sound { IsSound known.now }
        requires right { IsRightBefore known.now touched (table_view self.old) }
        ensures same { table_view self.new ≡ table_view self.old }
        ensures revision { IfOk result
            (λ revision. revision_view revision ≡ revision_of (table_view self.old) known.now touched) }
        ensures right { IfOk result
            (λ revision. IsRight known.now (committed (table_view self.old) (revision_view revision))) }
        ensures steps { steps.new
            ≤ steps.old + revision_cost known.now (table_view self.old).reading touched }
    {
        let days = replayer.breakpoints(alloc, known)?;
        self.revise_on(alloc, replayer, known, days.as_slice(), touched, steps)
    }

    /// Takes a revision that was made from this table. It takes no memory.
    pub fn commit(&mut self, revision: Revision)
        requires { IsRevisionOf (table_view self.old) (revision_view revision) }
        ensures { table_view self.new ≡ committed (table_view self.old) (revision_view revision) }
    {
        let Revision {
            kept,
            rows,
            working,
            ..
        } = revision;
        put_behind(&mut self.rows, kept, rows);
        put_working(&mut self.working, working);
    }
}
