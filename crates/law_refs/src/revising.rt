//! Revising an index: what is handed in of a work takes the place of what is kept of it from a day on, and of what stays only those
//! references are judged again whose target is of a work that moved.

ghost use Rattle.std.specs.Prelude.{◌≡◌, ◌+◌, ◌≤◌, length, IfOk, IfSome, OnOk};
ghost use Rattle.std.specs.Option.{option_copied};
ghost use Rattle.law_refs.specs.Index as spec;
ghost use Rattle.law_refs.specs.Right.{IsRight, IsRightBut, anew_work};
ghost use Rattle.law_refs.specs.Rows.{again_work, day_row};

use crate::kept_work::KeptWork;
use crate::ref_index::KeptWorks;
use crate::{RefIndex, RefRevision, RefRow, RefRows, Targets, Works};
use desk_base::{Day, Memory, Steps};
use frbr_names::WorkName;
use std::alloc::Global;
use std::collections::BTreeMap;
use std::sync::ledger::Ledger;

// The day of the first row that is handed in for a work, if one is.
fn first_day(work: &WorkName, rows: &[RefRow]) -> Option<Option<Day>>
    ensures { result ≡ spec.first_day work.now rows.now }
{
    for row in rows {
        if row.work == *work {
            return Some(row.from);
        }
    }
    None
}

// What stays of a work.
#[tactic(auto, unfolding(crate::specs::Index::staying))]
fn staying(
    alloc: Global,
    rows: &[RefRow],
    work: &WorkName,
    kept: &KeptWork,
) -> Result<KeptWork, Memory>
    ensures { IfOk result (λ stays. stays ≡ spec.staying rows.now work.now kept.now) }
{
    match first_day(work, rows) {
        Some(day) => kept.before(alloc, day),
        None => kept.copy(),
    }
}

// What is kept of a work, where those references are judged again whose target is of a work that moved.
#[tactic(auto, using(crate::proofs::Covered::still_kept))]
fn again<T: Targets, L: Ledger>(
    alloc: Global,
    targets: &T,
    moved: &Works,
    kept: KeptWork,
    steps: &mut Steps<L>,
) -> Result<KeptWork, Memory>
    ensures kept { IfOk result (λ now. now ≡ again_work (T.broken_rule targets.now) moved.now kept) }
    ensures steps { steps.new ≤ steps.old + spec.moved_in_rows moved.now kept.rows }
{
    if kept.may_name(moved) {
        kept.again(alloc, targets, moved, steps)
    } else {
        Ok(kept)
    }
}

// What is kept of all works, without what is handed in.
fn all_again<T: Targets, L: Ledger>(
    alloc: Global,
    targets: &T,
    moved: &Works,
    rows: &[RefRow],
    old: &KeptWorks,
    steps: &mut Steps<L>,
) -> Result<KeptWorks, Memory>
    ensures works { IfOk result (λ works. works.entries
        ≡ spec.all_again (T.broken_rule targets.now) moved.now (spec.all_staying rows.now old.now.entries)) }
    ensures steps { steps.new ≤ steps.old + spec.moved_in moved.now (spec.all_staying rows.now old.now.entries) }
{
    let mut works = BTreeMap::new(alloc);
    for (work, kept) in old {
        let stays = staying(alloc, rows, work, kept)?;
        let now = again(alloc, targets, moved, stays, steps)?;
        works.insert(work.copy()?, now)?;
    }
    Ok(works)
}

// What is kept of a work with a row behind the others.
fn with_row<T: Targets, L: Ledger>(
    alloc: Global,
    targets: &T,
    kept: Option<&KeptWork>,
    row: &RefRow,
    steps: &mut Steps<L>,
) -> Result<KeptWork, Memory>
    requires { IfSome (option_copied kept) (λ kept. anew_work (T.broken_rule targets.now) kept ≡ kept) }
    ensures kept { IfOk result (λ now. now
        ≡ spec.with_row_behind row.now.act_day (day_row (T.broken_rule targets.now) row.now) (option_copied kept.entry)) }
    ensures steps { steps.new ≤ steps.old + length row.now.refs }
{
    match kept {
        Some(kept) => kept.with_row(alloc, targets, row, steps),
        None => KeptWork::begun(alloc, targets, row, steps),
    }
}

#[tactic(auto, unfolding(crate::specs::Index::put))]
fn put<T: Targets, L: Ledger>(
    alloc: Global,
    targets: &T,
    works: &mut KeptWorks,
    row: &RefRow,
    steps: &mut Steps<L>,
) -> Result<(), Memory>
    requires { IsRight (T.broken_rule targets.now) works.old.entries }
    ensures works { OnOk result (works.new.entries ≡ spec.put (T.broken_rule targets.now) works.old.entries row.now) }
    ensures right { OnOk result (IsRight (T.broken_rule targets.now) works.new.entries) }
    ensures steps { steps.new ≤ steps.old + length row.now.refs }
{
    let now = with_row(alloc, targets, works.get(&row.work), row, steps)?;
    works.insert(row.work.copy()?, now)?;
    Ok(())
}

fn put_all<T: Targets, L: Ledger>(
    alloc: Global,
    targets: &T,
    works: &mut KeptWorks,
    rows: &[RefRow],
    steps: &mut Steps<L>,
) -> Result<(), Memory>
    requires { IsRight (T.broken_rule targets.now) works.old.entries }
    ensures works { OnOk result
        (works.new.entries ≡ spec.put_all (T.broken_rule targets.now) works.old.entries rows.now) }
    ensures steps { steps.new ≤ steps.old + spec.refs_in rows.now }
{
    for row in rows {
        put(alloc, targets, works, row, steps)?;
    }
    Ok(())
}

impl RefIndex {
    /// What the index is to be once these works moved and these rows are handed in.
    #[tactic(auto, using(crate::proofs::Sharing::stays_right), unfolding(crate::specs::Index::revised))]
    pub fn revise<T: Targets, L: Ledger>(
        &self,
        alloc: Global,
        rows: &RefRows,
        moved: &Works,
        targets: &T,
        steps: &mut Steps<L>,
    ) -> Result<RefRevision, Memory>
        requires { IsRightBut (T.broken_rule targets.now) moved.now self.now }
        ensures index { IfOk result
            (λ index. index ≡ spec.revised (T.broken_rule targets.now) moved.now rows.now self.now) }
        ensures steps { steps.new ≤ steps.old + spec.revision_steps moved.now rows.now self.now }
    {
        let rows = rows.as_slice();
        let mut works = all_again(alloc, targets, moved, rows, &self.works, steps)?;
        put_all(alloc, targets, &mut works, rows, steps)?;
        Ok(RefRevision { works })
    }
}
