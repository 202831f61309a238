//! Walks over the nodes of a tree, each call over those right below one of the nodes that its caller goes over.

ghost use Rattle.std.specs.Prelude.{◌≡◌, ◌≤◌, ◌-◌, ◌^◌, min, true, map, option_map, OnOk};
ghost use Rattle.std.specs.List.{All};
ghost use Rattle.act_tree.specs.Branches.{branches_of, counts, heights};
ghost use Rattle.act_tree.specs.Faults.{all_owns};
ghost use Rattle.act_tree.specs.Seen.{tree_view, has_node, branch_at};
ghost use Rattle.act_tree.specs.Surveys.{seen, all_surveyed};
ghost use Rattle.act_tree.specs.declared.limits.TheConstants.{MAX_DEPTH};

use crate::survey::Survey;
use crate::{NodeId, Tree, eid_below};
use desk_base::Memory;
use std::alloc::Global;

/// How many nodes these are, with all beneath them. The number stands still at 2^32 - 1.
pub fn count(tree: &Tree, ids: &[NodeId]) -> u32
    requires nodes { All (λ id. has_node tree.now id ≡ true) ids.now }
    requires depth { heights (branches_of (map (branch_at tree.now) ids.now)) ≤ MAX_DEPTH }
    ensures { result ≡ min (counts (branches_of (map (branch_at tree.now) ids.now))) (2 ^ 32 - 1) }
{
    let mut total: u32 = 0;
    for id in ids {
        let below = count(tree, tree.children(*id));
        total = total.saturating_add(1).saturating_add(below);
    }
    total
}

/// Surveys nodes below the one of the eId `above`, or right below the root where that is `None`, under so many levels.
pub fn survey(
    alloc: Global,
    survey_so_far: &mut Survey,
    tree: &Tree,
    above: Option<&str>,
    levels: u32,
    ids: &[NodeId],
) -> Result<(), Memory>
    requires nodes { All (λ id. has_node tree.now id ≡ true) ids.now }
    requires depth { heights (branches_of (map (branch_at tree.now) ids.now)) ≤ MAX_DEPTH }
    ensures { let bs = all_owns (branches_of (map (branch_at tree.now) ids.now)) in
        let eid = option_map (λ s. s.now) above.entry in OnOk result (seen survey_so_far.new
        ≡ all_surveyed (tree_view tree.now).numbering eid levels bs (seen survey_so_far.old)) }
{
    let depth = levels.saturating_add(1);
    for id in ids {
        let slot = tree.slot(*id);
        let eid = eid_below(alloc, tree.numbering(), above, slot.element, &slot.num)?;
        survey_so_far.note(eid.copy()?, &slot.heading, &slot.content, depth)?;
        let children = tree.children(*id);
        survey(
            alloc,
            survey_so_far,
            tree,
            Some(eid.as_str()),
            depth,
            children,
        )?;
    }
    Ok(())
}
