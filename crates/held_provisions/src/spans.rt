//! Spans: the periods on whose days a provision stands, by the versions that are kept of its work.

ghost use Rattle.std.specs.Prelude.{◌≡◌, ◌++◌, IfNone, IfOk, IfSome, OnOk, Some, false, option_map, true};
ghost use Rattle.std.specs.Str.{bytes_eq};
ghost use Rattle.act_tree.specs.Changes.{any_holds, root_wid};
ghost use Rattle.act_tree.specs.Seen.{has_node, provision_at, tree_view};
ghost use Rattle.law_register.specs.Answer.Versions.{version_view};
ghost use Rattle.law_register.specs.Provisions.Spans.{spans_of};
ghost use Rattle.held_provisions.specs.Kept as kept;
ghost use Rattle.held_provisions.specs.Walking as walking;
ghost use Rattle.version_cache.specs.Seen.{revision_view, table_view};
ghost use Rattle.version_cache.specs.Tables.{version_on};

use act_tree::{NodeId, Tree};
use desk_base::{Day, Memory, Period, Text};
use law_register::{Known, Reading, Replayer, Spans, Version};
use std::alloc::Global;
use version_cache::{Revision, Table};

// The node of a provision. `None`: the tree has none of this wId; the root is no provision.
fn node_of(tree: &Tree, provision: &Text) -> Option<NodeId>
    ensures none { IfNone result (any_holds provision.now (tree_view tree.now).body ≡ false) }
    ensures node { IfSome result (λ id. has_node tree.now id ≡ true) }
    ensures wid { IfSome result (λ id. (provision_at tree.now id).wid ≡ provision.now) }
    ensures provision { IfSome result (λ id. bytes_eq provision.now root_wid ≡ false) }
{
    let Some(node) = tree.find(provision.as_str().as_bytes()) else {
        return None;
    };
    if node == tree.root() {
        return None;
    }
    Some(node)
}

/// Whether a provision stands in a version on its day: the version has it, and its flag holds. `body` never stands.
pub fn stands_in<P: Replayer>(
    alloc: Global,
    replayer: &P,
    known: &Known,
    reading: Reading,
    day: Day,
    version: &Version,
    provision: &Text,
) -> Result<bool, Memory>
    ensures { IfOk result (λ stands. stands
        ≡ kept.stands_by_version known.now reading day provision.now (version_view version.now)) }
{
    match node_of(&version.tree, provision) {
        Some(node) => replayer.flag_of(alloc, known, reading, day, &version.tree, node),
        None => Ok(false),
    }
}

/// Adds the period that ends on a day, if one does.
pub fn add_ended(
    spans: &mut Spans,
    since: &Option<Day>,
    day: Day,
    holds: bool,
) -> Result<(), Memory>
    ensures { OnOk result (spans.new ≡ spans.old ++ walking.ended_on since.now day holds) }
{
    match since {
        Some(start) if !holds => spans.push(Period {
            start: *start,
            end: Some(day),
        }),
        _ => Ok(()),
    }
}

/// Since when something has held on a day, if it does.
pub fn since_when(since: &Option<Day>, day: Day, holds: bool) -> Option<Day>
    ensures { result ≡ walking.since_when since.now day holds }
{
    if !holds {
        return None;
    }
    match since {
        Some(start) => Some(*start),
        None => Some(day),
    }
}

/// Adds the period that does not end, if there is one.
pub fn add_not_ended(spans: &mut Spans, since: &Option<Day>) -> Result<(), Memory>
    ensures { OnOk result (spans.new ≡ spans.old ++ walking.not_ended since.now) }
{
    match since {
        Some(start) => spans.push(Period {
            start: *start,
            end: None,
        }),
        None => Ok(()),
    }
}

/// The version of a day, once a revision of a table is committed, if there is one. It takes no memory.
pub fn version_by<'a>(table: &'a Table, revision: Option<&'a Revision>, day: Day) -> &'a Version
    requires { kept.IsRevisionIf (table_view table.now) (option_map (λ r. revision_view r.now) revision) }
    ensures { version_view result.now ≡ version_on
        (kept.committed_if (table_view table.now) (option_map (λ r. revision_view r.now) revision.entry)) day }
{
    match revision {
        Some(revision) => table.on_after(revision, day),
        None => table.on(day),
    }
}

/// The version that `Table::at` gives once a revision of the table is committed, in memory of its own.
pub fn version_after(
    alloc: Global,
    table: &Table,
    revision: &Revision,
    day: Day,
) -> Result<Version, Memory>
    requires { kept.IsRevisionIf (table_view table.now) (Some (revision_view revision.now)) }
    ensures { IfOk result (λ version. version_view version
        ≡ version_on (kept.committed_if (table_view table.now) (Some (revision_view revision.now))) day) }
{
    table.on_after(revision, day).copy(alloc)
}

/// The longest periods on whose days a provision stands by the versions of a table, once a revision is committed, if there is one. It
/// is asked on these days alone: where the text may change, and the flags of its provisions.
pub fn spans_in_table<P: Replayer>(
    alloc: Global,
    replayer: &P,
    known: &Known,
    table: &Table,
    revision: Option<&Revision>,
    provision: &Text,
    days: &[Day],
) -> Result<Spans, Memory>
    requires { kept.IsRevisionIf (table_view table.now) (option_map (λ r. revision_view r.now) revision) }
    ensures { IfOk result (λ spans. spans ≡ spans_of (kept.stands_by_table known.now
        (kept.committed_if (table_view table.now) (option_map (λ r. revision_view r.now) revision.entry)) provision.now) days.now) }
{
    let reading = table.reading();
    let mut spans = Spans::new(alloc);
    let mut since = None;
    for day in days {
        let version = version_by(table, revision, *day);
        let holds = stands_in(alloc, replayer, known, reading, *day, version, provision)?;
        add_ended(&mut spans, &since, *day, holds)?;
        since = since_when(&since, *day, holds);
    }
    add_not_ended(&mut spans, &since)?;
    Ok(spans)
}
