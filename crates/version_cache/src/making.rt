//! Making: the rows of a table, each continued from the one before where the same modifications come first.

ghost use Rattle.std.specs.Prelude.{◌≡◌, ◌+◌, ◌≤◌, ◌++◌, [], false, true, IfOk, OnOk, length, map};
ghost use Rattle.act_tree.specs.Seen.{is_own};
ghost use Rattle.law_register.specs.Answer.Applied as applied;
ghost use Rattle.law_register.specs.Answer.Costs as costs;
ghost use Rattle.law_register.specs.Answer.Order.{order};
ghost use Rattle.law_register.specs.Answer.Replay.{as_enacted, replayed};
ghost use Rattle.law_register.specs.Answer.Soundness.{IsSound, id_twice};
ghost use Rattle.law_register.specs.Answer.Versions.{version_view};
ghost use Rattle.version_cache.specs.Rows.{kept_view, rows_view};
ghost use Rattle.version_cache.specs.Tables.{last_version, rows_on};

use crate::Row;
use crate::kept_version::KeptVersion;
use desk_base::{Day, Id, Memory, Steps};
use law_register::{Ids, Known, Reading, Version, enact, go_on};
use std::alloc::Global;
use std::sync::ledger::Ledger;

/// What rows are made from.
#[derive(Debug, Drop)]
pub struct Course<'a> {
    /// What is known of the work.
    pub known: &'a Known,
    /// What counts as bearing.
    pub reading: Reading,
    /// The act as enacted.
    pub enacted: &'a KeptVersion,
}

/// Where rows are made on from: the ids that bear before them, and the version that these make.
#[derive(Debug, Drop)]
pub struct Start<'a> {
    /// The ids, in order.
    pub ids: Ids,
    /// Their version.
    pub last: &'a KeptVersion,
}

/// The act as enacted, kept.
pub fn keep_enacted(alloc: Global, known: &Known) -> Result<KeptVersion, Memory>
    requires { IsSound known.now }
    ensures { IfOk result (λ kept. kept_view kept ≡ as_enacted known.now.act) }
{
    KeptVersion::new(alloc, enact(alloc, &known.act)?)
}

fn begins_with(firsts: &[Id], ids: &[Id]) -> bool
    ensures { result ≡ applied.begins_with firsts.now ids.now }
{
    if ids.len() < firsts.len() {
        return false;
    }
    for index in 0..firsts.len() {
        if firsts[index] != ids[index] {
            return false;
        }
    }
    true
}

// A version with these ids applied after it; the same one, shared, where there are none. The working version goes on to it.
fn continued<L: Ledger>(
    alloc: Global,
    known: &Known,
    kept: &KeptVersion,
    working: &mut Version,
    ids: &[Id],
    steps: &mut Steps<L>,
) -> Result<KeptVersion, Memory>
    requires sound { IsSound known.now }
    requires own { is_own working.old.tree ≡ true }
    requires working { version_view working.old ≡ kept_view kept.now }
    requires apart { id_twice ((kept_view kept.now).applied ++ ids.now) ≡ false }
    ensures version { IfOk result (λ k. kept_view k
        ≡ replayed known.now.mods (kept_view kept.now) ids.now) }
    ensures own { is_own working.new.tree ≡ true }
    ensures working { IfOk result (λ k. version_view working.new ≡ kept_view k) }
    ensures steps { steps.new ≤ steps.old + length ids.now }
{
    if ids.is_empty() {
        return kept.share();
    }
    go_on(alloc, &known.mods, working, ids, steps)?;
    KeptVersion::of(alloc, working)
}

// The version of the ids that bear, continued from the last row, or from the act as enacted. The working version, which is
// that of the last row, goes on to it.
fn version_after<L: Ledger>(
    alloc: Global,
    course: &Course<'_>,
    before: &[Id],
    last: &KeptVersion,
    working: &mut Version,
    ids: &[Id],
    steps: &mut Steps<L>,
) -> Result<KeptVersion, Memory>
    requires sound { IsSound course.now.known.now }
    requires enacted { kept_view course.now.enacted.now ≡ as_enacted course.now.known.now.act }
    requires last { kept_view last.now
        ≡ replayed course.now.known.now.mods (as_enacted course.now.known.now.act) before.now }
    requires own { is_own working.old.tree ≡ true }
    requires working { version_view working.old ≡ kept_view last.now }
    requires once { id_twice ids.now ≡ false }
    ensures own { OnOk result (is_own working.new.tree ≡ true) }
    ensures working { IfOk result (λ k. version_view working.new ≡ kept_view k) }
    ensures version { IfOk result (λ kept. kept_view kept
        ≡ replayed course.now.known.now.mods (as_enacted course.now.known.now.act) ids.now) }
    ensures steps { steps.new ≤ steps.old + applied.ids_applied before.now ids.now }
{
    if begins_with(before, ids) {
        let parts = ids.split_at(before.len());
        continued(alloc, course.known, last, working, parts.1, steps)
    } else {
        *working = course.enacted.version().copy(alloc)?;
        continued(alloc, course.known, course.enacted, working, ids, steps)
    }
}

/// The version of the last of these rows, or the one before them.
pub fn last_kept<'a>(last: &'a KeptVersion, rows: &'a [Row]) -> &'a KeptVersion
    ensures { kept_view result.now ≡ last_version (kept_view last.now) (rows_view rows.now) }
{
    match rows.last() {
        Some(row) => &row.kept,
        None => last,
    }
}

/// Adds a row for each of these days, whose orders are these. The working version, which is that before them, goes on from row to row, and each row keeps it
/// beside the row before, so that no tree is copied whole.
pub fn add_rows<L: Ledger>(
    alloc: Global,
    course: &Course<'_>,
    start: Start<'_>,
    days: &[Day],
    orders: Vec<Ids>,
    working: &mut Version,
    rows: &mut Vec<Row>,
    steps: &mut Steps<L>,
) -> Result<(), Memory>
    requires sound { IsSound course.now.known.now }
    requires enacted { kept_view course.now.enacted.now ≡ as_enacted course.now.known.now.act }
    requires last { kept_view start.last.now
        ≡ replayed course.now.known.now.mods (as_enacted course.now.known.now.act) start.ids }
    requires own { is_own working.old.tree ≡ true }
    requires working { version_view working.old ≡ kept_view start.last.now }
    requires orders { orders.items ≡ map (order course.now.known.now course.now.reading) days.now }
    requires none { rows_view rows.old.items ≡ [] }
    ensures rows { OnOk result (rows_view rows.new.items
        ≡ rows_on course.now.known.now course.now.reading days.now) }
    ensures own { OnOk result (is_own working.new.tree ≡ true) }
    ensures working { OnOk result (version_view working.new
        ≡ last_version (kept_view start.entry.last.now) (rows_view rows.new.items)) }
    ensures steps { steps.new
        ≤ steps.old + costs.cost_after course.now.known.now course.now.reading 0 start.entry.ids days.now }
{
    let Start { ids, last } = start;
    let mut before = ids;
    let mut index = 0;
    for ids in orders {
        let so_far = last_kept(last, rows.as_slice());
        let kept = version_after(
            alloc,
            course,
            before.as_slice(),
            so_far,
            working,
            ids.as_slice(),
            steps,
        )?;
        rows.push(Row {
            day: days[index],
            kept,
        })?;
        before = ids;
        index += 1;
    }
    Ok(())
}
