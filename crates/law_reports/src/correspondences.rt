//! Which provision of one day is which of another, as a table: a row for each wId.

ghost use Rattle.std.specs.Prelude.{◌≡◌, ◌+◌, ◌≤◌, ◌++◌, true, IfOk, OnOk, filter, length, map, not};
ghost use Rattle.std.specs.List.{All};
ghost use Rattle.std.specs.Option.{option_or};
ghost use Rattle.act_tree.specs.Branches.{branches_of, heights};
ghost use Rattle.act_tree.specs.Changes.{is_in};
ghost use Rattle.act_tree.specs.Seen.{tree_view, has_node, branch_at};
ghost use Rattle.act_tree.specs.Wids.{all_wids};
ghost use Rattle.act_tree.specs.declared.limits.TheConstants.{MAX_DEPTH};
ghost use Rattle.law_register.specs.Answer.Soundness.{IsSound};
ghost use Rattle.law_reports.specs.Correspondences as spec;
ghost use Rattle.law_reports.specs.Tables.{IsOpen, Tells, row, rows_text, written};

use crate::table::Table;
use act_tree::{NodeId, Tree};
use desk_base::{Day, Memory, Steps, Text};
use frbr_names::WorkName;
use law_register::{AskFault, Carrier, Known, QueryRule, Reading, Register, Replayer, known_held};
use std::alloc::Global;
use std::sync::ledger::Ledger;

// Adds the wIds of nodes and of all beneath them, those right below each by a call of its own.
fn add_wids(tree: &Tree, ids: &[NodeId], wids: &mut Vec<Text>) -> Result<(), Memory>
    requires nodes { All (λ id. has_node tree.now id ≡ true) ids.now }
    requires depth { heights (branches_of (map (branch_at tree.now) ids.now)) ≤ MAX_DEPTH }
    ensures { OnOk result
        (wids.new.items ≡ wids.old.items ++ all_wids (branches_of (map (branch_at tree.now) ids.now))) }
{
    for id in ids {
        wids.push(tree.provision(*id).wid.copy()?)?;
        add_wids(tree, tree.children(*id), wids)?;
    }
    Ok(())
}

// The wIds of a text in its order.
fn wids_of(alloc: Global, tree: &Tree) -> Result<Vec<Text>, Memory>
    ensures { IfOk result (λ wids. wids.items ≡ all_wids (tree_view tree.now).body) }
{
    let mut wids = Vec::new(alloc);
    add_wids(tree, tree.children(tree.root()), &mut wids)?;
    Ok(wids)
}

// The eId that the provision of a wId has in a text, and nothing where it has none.
#[tactic(auto, using(crate::proofs::FoundEids::found_eid, crate::proofs::FoundEids::missing_eid))]
fn eid_in(alloc: Global, tree: &Tree, wid: &Text) -> Result<Text, Memory>
    ensures { IfOk result (λ eid. eid ≡ spec.eid_in (tree_view tree.now) wid.now) }
{
    if wid.as_str() == "body" {
        return Text::copy_of(alloc, "");
    }
    match tree.find(wid.as_str().as_bytes()) {
        Some(id) => tree.eid_of(alloc, id),
        None => Text::copy_of(alloc, ""),
    }
}

fn add_of_both(
    alloc: Global,
    table: &mut Table,
    first: &Tree,
    second: &Tree,
    wid: &Text,
) -> Result<(), Memory>
    requires { IsOpen table.old }
    ensures rows { OnOk result (written table.new
        ≡ written table.old ++ row (spec.row_of_both (tree_view first.now) (tree_view second.now) wid.now)) }
    ensures ready { OnOk result (IsOpen table.new) }
{
    let before = eid_in(alloc, first, wid)?;
    let after = eid_in(alloc, second, wid)?;
    table.add(&[
        wid.as_str().as_bytes(),
        before.as_str().as_bytes(),
        after.as_str().as_bytes(),
    ])
}

fn add_of_second(alloc: Global, table: &mut Table, second: &Tree, wid: &Text) -> Result<(), Memory>
    requires { IsOpen table.old }
    ensures rows { OnOk result
        (written table.new ≡ written table.old ++ row (spec.row_of_second (tree_view second.now) wid.now)) }
    ensures ready { OnOk result (IsOpen table.new) }
{
    let eid = eid_in(alloc, second, wid)?;
    table.add(&[wid.as_str().as_bytes(), b"", eid.as_str().as_bytes()])
}

// Adds the rows of the first text.
fn add_first(alloc: Global, table: &mut Table, first: &Tree, second: &Tree) -> Result<(), Memory>
    requires { IsOpen table.old }
    ensures rows { OnOk result (written table.new ≡ written table.old
        ++ rows_text (map (spec.row_of_both (tree_view first.now) (tree_view second.now))
        (all_wids (tree_view first.now).body))) }
    ensures ready { OnOk result (IsOpen table.new) }
{
    let wids = wids_of(alloc, first)?;
    for wid in &wids {
        add_of_both(alloc, table, first, second, wid)?;
    }
    Ok(())
}

// Adds the rows of what the second text alone has.
fn add_second(alloc: Global, table: &mut Table, first: &Tree, second: &Tree) -> Result<(), Memory>
    requires { IsOpen table.old }
    ensures rows { OnOk result (written table.new ≡ written table.old
        ++ rows_text (map (spec.row_of_second (tree_view second.now))
        (filter (λ wid. not (is_in wid (tree_view first.now).body)) (all_wids (tree_view second.now).body)))) }
    ensures ready { OnOk result (IsOpen table.new) }
{
    let wids = wids_of(alloc, second)?;
    for wid in &wids {
        if first.find(wid.as_str().as_bytes()).is_none() {
            add_of_second(alloc, table, second, wid)?;
        }
    }
    Ok(())
}

// The table of two texts.
fn table_between(alloc: Global, first: &Tree, second: &Tree) -> Result<Vec<u8>, Memory>
    ensures { IfOk result (λ bytes. bytes.items ≡ spec.table_between (tree_view first.now) (tree_view second.now)) }
{
    let mut table = Table::new(alloc);
    table.add(&[b"wId", b"first", b"second"])?;
    add_first(alloc, &mut table, first, second)?;
    add_second(alloc, &mut table, first, second)?;
    table.into_bytes()
}

// The rule that a day before that of the act breaks.
fn day_rule(known: &Known, day: Day) -> Option<QueryRule>
    ensures { result ≡ spec.day_rule known.now day }
{
    if day < known.act.day {
        Some(QueryRule::NotYetEnacted(known.act.day))
    } else {
        None
    }
}

// The rule that the first of two days breaks, or else the second.
fn days_rule(known: &Known, first: Day, second: Day) -> Option<QueryRule>
    ensures { result ≡ option_or (spec.day_rule known.now first) (spec.day_rule known.now second) }
{
    match day_rule(known, first) {
        Some(rule) => Some(rule),
        None => day_rule(known, second),
    }
}

// The table of a work on two days.
fn table_on<P: Replayer, L: Ledger>(
    alloc: Global,
    replayer: &P,
    known: &Known,
    first: Day,
    second: Day,
    steps: &mut Steps<L>,
) -> Result<Vec<u8>, Memory>
    requires { IsSound known.now }
    ensures table { IfOk result
        (λ bytes. bytes.items ≡ spec.table_between (spec.text_on known.now first) (spec.text_on known.now second)) }
    ensures steps { steps.new ≤ steps.old + spec.bearing_on_both known.now first second }
{
    let before = replayer.replay(alloc, known, Reading::Force, first, steps)?;
    let after = replayer.replay(alloc, known, Reading::Force, second, steps)?;
    table_between(alloc, &before.tree, &after.tree)
}

// The table of a work that is known, or the first of the days that is refused.
fn correspondence_of<P: Replayer, L: Ledger>(
    alloc: Global,
    replayer: &P,
    known: &Known,
    first: Day,
    second: Day,
    steps: &mut Steps<L>,
) -> Result<Vec<u8>, AskFault>
    requires { IsSound known.now }
    ensures told { Tells result (spec.correspondence_of first second known.now) }
    ensures steps { steps.new ≤ steps.old + spec.bearing_on_both known.now first second }
{
    match days_rule(known, first, second) {
        Some(rule) => Err(AskFault::Query(rule)),
        None => Ok(table_on(alloc, replayer, known, first, second, steps)?),
    }
}

/// Which provision of a work on the first day is which on the second, as a table: those of the first day in the order of the
/// text, and then those that the second day alone has. Both texts are those in force, by what stands at the front. `Err`: the
/// work is not known, a day is before that of the act, or there was not enough memory. It replays each day once.
#[tactic(auto, unfolding(crate::specs::Correspondences::correspondence, crate::specs::Correspondences::bearing_between))]
pub fn correspondence<P: Replayer, H: Carrier, L: Ledger>(
    alloc: Global,
    replayer: &P,
    carrier: &H,
    register: &Register,
    work: &WorkName,
    first: Day,
    second: Day,
    steps: &mut Steps<L>,
) -> Result<Vec<u8>, AskFault>
    ensures told { Tells result (spec.correspondence register.now.entries work.now first second) }
    ensures steps { steps.new ≤ steps.old + spec.bearing_between register.now.entries work.now first second }
{
    match known_held(alloc, carrier, register, work, register.front(), steps)? {
        Some(known) => correspondence_of(alloc, replayer, &known, first, second, steps),
        None => {
            let work = work.copy()?;
            Err(AskFault::Query(QueryRule::UnknownWork(work)))
        }
    }
}
