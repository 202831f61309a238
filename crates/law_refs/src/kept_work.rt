//! KeptWork: what is kept of a work. A clause sees its rows, and not the works that are noted as those which its references name.

ghost use Rattle.std.specs.Prelude.{◌≡◌, ◌+◌, ◌≤◌, ◌∷◌, ◌++◌, [], map, length, true, false, Some, IfOk, IfSome, OnOk};
ghost use Rattle.std.specs.Arc.{arc_value};
ghost use Rattle.std.specs.List.{list_any};
ghost use Rattle.law_refs.specs.Covering as covering;
ghost use Rattle.law_refs.specs.Covering.{are_still};
ghost use Rattle.law_refs.specs.Index.{moved_in_rows};
ghost use Rattle.law_refs.specs.Judging as judging;
ghost use Rattle.law_refs.specs.Names.{is_among};
ghost use Rattle.law_refs.specs.Right.{anew_work};
ghost use Rattle.law_refs.specs.Rows as spec;
ghost use Rattle.law_refs.specs.Rows.{last_refs};

use crate::judging::{are_those, judge_all, judge_all_again};
use crate::{DayRefs, JudgedRef, RefList, RefRow, SharedList, Targets, WorkRefs, Works};
use desk_base::{Day, Memory, Steps};
use frbr_names::WorkName;
use std::alloc::Global;
use std::marker::Model;
use std::sync::Arc;
use std::sync::ledger::Ledger;

/// What is kept of a work, in memory that its copies share.
#[derive(Debug, Drop)]
pub struct KeptWork {
    refs: Arc<WorkRefs>,
    targets: Arc<Works>,
}

impl Model for KeptWork {
    ghost use Rattle.std.specs.Prelude.{◌≡◌, true};
    ghost use Rattle.std.specs.Arc.{arc_value};
    ghost use Rattle.law_refs.specs.Covering.{cover};
    ghost use Rattle.law_refs.specs.declared.ref_row.WorkRefs.{WorkRefs};

    ghost Value = { WorkRefs };

    ghost view = { λ w. arc_value w.refs };

    ghost invariant = { λ w. cover (arc_value w.targets) (arc_value w.refs).rows ≡ true };
}

// Whether a row that begins on the first of these days stands before one that begins on the other.
#[tactic(auto, unfolding(crate::specs::Rows::is_before))]
fn is_before(from: Option<Day>, day: Option<Day>) -> bool
    ensures { result ≡ spec.is_before from day }
{
    match (from, day) {
        (_, None) => false,
        (None, Some(_)) => true,
        (Some(from), Some(day)) => from < day,
    }
}

fn copy_row(row: &DayRefs) -> Result<DayRefs, Memory>
    ensures { IfOk result (λ copied. copied ≡ row.now) }
{
    Ok(DayRefs {
        from: row.from,
        refs: row.refs.copy()?,
    })
}

fn rows_before(
    alloc: Global,
    day: Option<Day>,
    rows: &[DayRefs],
) -> Result<RefList<DayRefs>, Memory>
    ensures { IfOk result (λ before. before ≡ spec.rows_before day rows.now) }
{
    let mut before = RefList::new(alloc);
    for row in rows {
        if is_before(row.from, day) {
            before.push(copy_row(row)?)?;
        }
    }
    Ok(before)
}

fn copy_rows(alloc: Global, rows: &[DayRefs]) -> Result<RefList<DayRefs>, Memory>
    ensures { IfOk result (λ copied. copied ≡ rows.now) }
{
    let mut copied = RefList::new(alloc);
    for row in rows {
        copied.push(copy_row(row)?)?;
    }
    Ok(copied)
}

#[tactic(auto, unfolding(crate::specs::Rows::again_row))]
fn row_again<T: Targets, L: Ledger>(
    alloc: Global,
    targets: &T,
    moved: &Works,
    row: &DayRefs,
    steps: &mut Steps<L>,
) -> Result<DayRefs, Memory>
    ensures row { IfOk result (λ now. now ≡ spec.again_row (T.broken_rule targets.now) moved.now row.now) }
    ensures steps { steps.new ≤ steps.old + moved_in_rows moved.now (row.now ∷ []) }
{
    let refs = judge_all_again(alloc, targets, moved, row.refs.as_slice(), steps)?;
    Ok(DayRefs {
        from: row.from,
        refs,
    })
}

fn rows_again<T: Targets, L: Ledger>(
    alloc: Global,
    targets: &T,
    moved: &Works,
    rows: &[DayRefs],
    steps: &mut Steps<L>,
) -> Result<RefList<DayRefs>, Memory>
    ensures rows { IfOk result
        (λ now. now ≡ map (spec.again_row (T.broken_rule targets.now) moved.now) rows.now) }
    ensures steps { steps.new ≤ steps.old + moved_in_rows moved.now rows.now }
{
    let mut now = RefList::new(alloc);
    for row in rows {
        now.push(row_again(alloc, targets, moved, row, steps)?)?;
    }
    Ok(now)
}

// The same works, in memory of their own.
fn copy_works(alloc: Global, works: &Works) -> Result<Works, Memory>
    ensures { IfOk result (λ copied. copied ≡ covering.with_names [] works.now) }
{
    let mut copied = Works::new(alloc);
    for work in works.as_slice() {
        copied.insert(work.copy()?)?;
    }
    Ok(copied)
}

// Whether one of these works is among those that are noted.
fn has_one(noted: &Works, works: &[WorkName]) -> bool
    ensures { result ≡ list_any (λ work. is_among work noted.now) works.now }
{
    for work in works {
        if noted.has(work.as_str()) {
            return true;
        }
    }
    false
}

// What was judged of the last of these rows, if its references are those of this one.
#[tactic(auto, unfolding(crate::specs::Rows::last_refs))]
fn judged_before<'a>(rows: &'a [DayRefs], row: &RefRow) -> Option<&'a SharedList<JudgedRef>>
    ensures last { IfSome result (λ list. last_refs rows.now ≡ Some list.now) }
    ensures those { IfSome result (λ list. judging.are_those list.now row.now.refs ≡ true) }
{
    let last = rows.last()?;
    if are_those(last.refs.as_slice(), row.refs.as_slice()) {
        Some(&last.refs)
    } else {
        None
    }
}

// These rows and one more behind them, of which these references were judged.
fn with_judged(
    alloc: Global,
    rows: &[DayRefs],
    row: &RefRow,
    judged: SharedList<JudgedRef>,
    noted: Arc<Works>,
) -> Result<KeptWork, Memory>
    requires { covering.cover (arc_value noted) (rows.now ++ record { from = row.now.from; refs = judged } ∷ []) ≡ true }
    ensures { IfOk result (λ kept. kept ≡ record {
      act_day = row.now.act_day;
      rows = rows.now ++ record { from = row.now.from; refs = judged } ∷ [];
    }) }
{
    let mut all = copy_rows(alloc, rows)?;
    all.push(DayRefs {
        from: row.from,
        refs: judged,
    })?;
    let refs = WorkRefs {
        act_day: row.act_day,
        rows: all,
    };
    Ok(KeptWork {
        refs: Arc::new(alloc, refs)?,
        targets: noted,
    })
}

// These rows and one more behind them, which shares what was judged of the last.
#[tactic(auto, using(crate::proofs::Sharing::shared_covers))]
fn shared_behind(
    alloc: Global,
    rows: &[DayRefs],
    named: &Arc<Works>,
    row: &RefRow,
    judged: &SharedList<JudgedRef>,
) -> Result<KeptWork, Memory>
    requires cover { covering.cover (arc_value named.now) rows.now ≡ true }
    requires last { last_refs rows.now ≡ Some judged.now }
    ensures { IfOk result (λ kept. kept ≡ record {
      act_day = row.now.act_day;
      rows = rows.now ++ record { from = row.now.from; refs = judged.now } ∷ [];
    }) }
{
    let shared = judged.copy()?;
    let noted = named.clone()?;
    with_judged(alloc, rows, row, shared, noted)
}

// What is kept of a work with these rows, and one more behind them, all of whose references are judged. The works that they name are
// noted with those that are.
#[tactic(auto, unfolding(crate::specs::Rows::day_row))]
fn judged_behind<T: Targets, L: Ledger>(
    alloc: Global,
    targets: &T,
    rows: &[DayRefs],
    named: &Works,
    row: &RefRow,
    steps: &mut Steps<L>,
) -> Result<KeptWork, Memory>
    requires { covering.cover named.now rows.now ≡ true }
    ensures kept { IfOk result (λ kept. kept ≡ record {
      act_day = row.now.act_day;
      rows = rows.now ++ spec.day_row (T.broken_rule targets.now) row.now ∷ [];
    }) }
    ensures steps { steps.new ≤ steps.old + length row.now.refs }
{
    let mut noted = copy_works(alloc, named)?;
    let judged = judge_all(alloc, targets, row.refs.as_slice(), &mut noted, steps)?;
    let shared = Arc::new(alloc, noted)?;
    with_judged(alloc, rows, row, judged, shared)
}

impl KeptWork {
    /// What is kept of a work with one row, which is judged.
    pub fn begun<T: Targets, L: Ledger>(
        alloc: Global,
        targets: &T,
        row: &RefRow,
        steps: &mut Steps<L>,
    ) -> Result<KeptWork, Memory>
        ensures kept { IfOk result (λ kept. kept ≡ record {
          act_day = row.now.act_day;
          rows = spec.day_row (T.broken_rule targets.now) row.now ∷ [];
        }) }
        ensures steps { steps.new ≤ steps.old + length row.now.refs }
    {
        let none = Works::new(alloc);
        judged_behind(alloc, targets, &[], &none, row, steps)
    }

    /// The same with a row behind the others. Where its references are those of the last row, nothing is judged: they share what is
    /// kept of these.
    pub fn with_row<T: Targets, L: Ledger>(
        &self,
        alloc: Global,
        targets: &T,
        row: &RefRow,
        steps: &mut Steps<L>,
    ) -> Result<KeptWork, Memory>
        requires { anew_work (T.broken_rule targets.now) self.now ≡ self.now }
        ensures kept { IfOk result (λ kept. kept ≡ record {
          act_day = row.now.act_day;
          rows = self.now.rows ++ spec.day_row (T.broken_rule targets.now) row.now ∷ [];
        }) }
        ensures steps { steps.new ≤ steps.old + length row.now.refs }
    {
        let rows = self.refs.rows.as_slice();
        match judged_before(rows, row) {
            Some(judged) => shared_behind(alloc, rows, &self.targets, row, judged),
            None => judged_behind(alloc, targets, rows, &self.targets, row, steps),
        }
    }

    /// The same, shared.
    pub fn copy(&self) -> Result<KeptWork, Memory>
        ensures { IfOk result (λ kept. kept ≡ self.now) }
    {
        Ok(KeptWork {
            refs: self.refs.clone()?,
            targets: self.targets.clone()?,
        })
    }

    /// What is kept.
    pub fn refs(&self) -> &WorkRefs
        ensures { result.now ≡ self.now }
    {
        &self.refs
    }

    /// What of it stands before a day.
    #[tactic(auto, using(crate::proofs::Covered::cover_before))]
    pub fn before(&self, alloc: Global, day: Option<Day>) -> Result<KeptWork, Memory>
        ensures { IfOk result
            (λ kept. kept ≡ record { act_day = self.now.act_day; rows = spec.rows_before day self.now.rows }) }
    {
        let rows = rows_before(alloc, day, self.refs.rows.as_slice())?;
        let refs = WorkRefs {
            act_day: self.refs.act_day,
            rows,
        };
        Ok(KeptWork {
            refs: Arc::new(alloc, refs)?,
            targets: self.targets.clone()?,
        })
    }

    /// Whether one of its references may name one of these works. Where not, none does.
    #[tactic(auto, using(crate::proofs::Covered::still_rows))]
    pub fn may_name(&self, moved: &Works) -> bool
        ensures { result ≡ false → are_still moved.now self.now.rows ≡ true }
    {
        has_one(&self.targets, moved.as_slice())
    }

    /// The same, where those references are judged again whose target is of a work that moved.
    #[tactic(auto, using(crate::proofs::Covered::cover_again), unfolding(crate::specs::Rows::again_work))]
    pub fn again<T: Targets, L: Ledger>(
        &self,
        alloc: Global,
        targets: &T,
        moved: &Works,
        steps: &mut Steps<L>,
    ) -> Result<KeptWork, Memory>
        ensures kept { IfOk result
            (λ kept. kept ≡ spec.again_work (T.broken_rule targets.now) moved.now self.now) }
        ensures steps { steps.new ≤ steps.old + moved_in_rows moved.now self.now.rows }
    {
        let rows = rows_again(alloc, targets, moved, self.refs.rows.as_slice(), steps)?;
        let refs = WorkRefs {
            act_day: self.refs.act_day,
            rows,
        };
        Ok(KeptWork {
            refs: Arc::new(alloc, refs)?,
            targets: self.targets.clone()?,
        })
    }
}
