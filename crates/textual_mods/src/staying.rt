//! What is left of a tree where a node goes, or none: its levels and its number of nodes. Nothing is taken
//! away for it, and no eId is spelled.

ghost use Rattle.std.specs.Prelude.{◌≡◌, ◌≤◌, ◌+◌, ◌-◌, ◌^◌, ◌&&◌, map, min, not, nat_lt, true, IfSome, if◌then◌else◌};
ghost use Rattle.std.specs.List.{All};
ghost use Rattle.std.specs.Str.{bytes_eq};
ghost use Rattle.act_tree.specs.Branches.{branches_of, counts, heights, no_branches};
ghost use Rattle.act_tree.specs.EidLevels.{all_beginning, levels_on, own_level};
ghost use Rattle.act_tree.specs.Faults.{all_owns};
ghost use Rattle.act_tree.specs.NodeLimits.{most_nodes};
ghost use Rattle.act_tree.specs.Seen.{tree_view, has_node, provision_at, branch_at, below_at};
ghost use Rattle.act_tree.specs.Wids.{is_among};
ghost use Rattle.act_tree.specs.declared.limits.TheConstants.{MAX_DEPTH};
ghost use Rattle.eid_paths.specs.Elements.{is_throughout};
ghost use Rattle.eid_paths.specs.Levels.{level_text};
ghost use Rattle.textual_mods.specs.Substitutions.{goes, left, left_below, text_left, wid_of};

use crate::num_changes::is_level;
use act_tree::{NodeId, Tree};
use eid_paths::{Element, Num};

// Whether a node is the one that goes.
fn is_gone(tree: &Tree, gone: &Option<NodeId>, id: NodeId) -> bool
    requires gone { IfSome gone.now (λ other. has_node tree.now other ≡ true) }
    requires node { has_node tree.now id ≡ true }
    ensures { result ≡ goes (wid_of tree.now gone.now) (provision_at tree.now id).wid }
{
    let _ = tree;
    match gone {
        Some(other) => *other == id,
        None => false,
    }
}

// The nodes right below one, or none where it goes.
fn children_left<'a>(tree: &'a Tree, gone: &Option<NodeId>, id: NodeId) -> &'a [NodeId]
    requires gone { IfSome gone.now (λ other. has_node tree.now other ≡ true) }
    requires node { has_node tree.now id ≡ true }
    ensures nodes { All (λ child. has_node tree.now child ≡ true) result.now }
    ensures depth { heights (branches_of (map (branch_at tree.now) result.now)) ≤ MAX_DEPTH }
    ensures branches { branches_of (map (branch_at tree.now) result.now)
        ≡ (if goes (wid_of tree.now gone.now) (provision_at tree.now id).wid then no_branches else below_at tree.now id) }
{
    if is_gone(tree, gone, id) {
        &[]
    } else {
        tree.children(id)
    }
}

/// Whether a node that is left begins an eId by this level.
pub fn has_level_left(tree: &Tree, gone: &Option<NodeId>, element: Element, num: &Num) -> bool
    requires { IfSome gone.now (λ other. has_node tree.now other ≡ true) }
    ensures { result ≡ is_among (level_text element num.now)
        (all_beginning (tree_view tree.now).numbering true (all_owns (text_left tree.now gone.now))) }
{
    match gone {
        Some(id) => tree.has_level_without(*id, element, num),
        None => tree.has_level(element, num),
    }
}

// Whether a node is left, begins no eId and has this level, where it is no child of the root.
fn goes_on_there(
    tree: &Tree,
    gone: &Option<NodeId>,
    element: Element,
    num: &Num,
    id: NodeId,
) -> bool
    requires gone { IfSome gone.now (λ other. has_node tree.now other ≡ true) }
    requires node { has_node tree.now id ≡ true }
    ensures { let p = provision_at tree.now id in result ≡ (not (goes (wid_of tree.now gone.now) p.wid)
        && (not (is_throughout (tree_view tree.now).numbering p.own.element)
        && bytes_eq (level_text element num.now) (own_level p.own))) }
{
    if is_gone(tree, gone, id) {
        return false;
    }
    let provision = tree.provision(id);
    if tree.numbering().has(provision.element) {
        false
    } else {
        is_level(element, num, provision.element, provision.num)
    }
}

// Whether one of these nodes, which are no children of the root, is left, begins no eId and has this level.
fn go_on_left(
    tree: &Tree,
    gone: &Option<NodeId>,
    element: Element,
    num: &Num,
    ids: &[NodeId],
) -> bool
    requires gone { IfSome gone.now (λ other. has_node tree.now other ≡ true) }
    requires ids { All (λ id. has_node tree.now id ≡ true) ids.now }
    ensures { result ≡ is_among (level_text element num.now) (levels_on (tree_view tree.now).numbering
        (left (wid_of tree.now gone.now) (branches_of (map (branch_at tree.now) ids.now)))) }
{
    for id in ids {
        if goes_on_there(tree, gone, element, num, *id) {
            return true;
        }
    }
    false
}

/// Whether a child of a node that is not the root is left, has this level, and begins no eId by it.
pub fn has_child_level_left(
    tree: &Tree,
    gone: &Option<NodeId>,
    parent: NodeId,
    element: Element,
    num: &Num,
) -> bool
    requires gone { IfSome gone.now (λ other. has_node tree.now other ≡ true) }
    requires node { has_node tree.now parent ≡ true }
    ensures { result ≡ is_among (level_text element num.now)
        (levels_on (tree_view tree.now).numbering (left_below tree.now gone.now parent)) }
{
    go_on_left(tree, gone, element, num, tree.children(parent))
}

// One for a node that is left, and none for the one that goes.
fn own_count(tree: &Tree, gone: &Option<NodeId>, id: NodeId) -> u32
    requires gone { IfSome gone.now (λ other. has_node tree.now other ≡ true) }
    requires node { has_node tree.now id ≡ true }
    ensures { result ≡ (if goes (wid_of tree.now gone.now) (provision_at tree.now id).wid then 0 else 1) }
{
    if is_gone(tree, gone, id) { 0 } else { 1 }
}

// How many of these nodes are left, with all beneath them. The number stands still at 2^32 - 1.
fn count_of_left(tree: &Tree, gone: &Option<NodeId>, ids: &[NodeId]) -> u32
    requires gone { IfSome gone.now (λ other. has_node tree.now other ≡ true) }
    requires ids { All (λ id. has_node tree.now id ≡ true) ids.now }
    requires depth { heights (branches_of (map (branch_at tree.now) ids.now)) ≤ MAX_DEPTH }
    ensures { result ≡ min (counts (left (wid_of tree.now gone.now) (branches_of (map (branch_at tree.now) ids.now))))
        (2 ^ 32 - 1) }
{
    let mut total: u32 = 0;
    for id in ids {
        let own = own_count(tree, gone, *id);
        let children = children_left(tree, gone, *id);
        let beneath = count_of_left(tree, gone, children);
        total = total.saturating_add(own).saturating_add(beneath);
    }
    total
}

// How many nodes are left. The number stands still at 2^32 - 1.
fn count_left(tree: &Tree, gone: &Option<NodeId>) -> u32
    requires { IfSome gone.now (λ other. has_node tree.now other ≡ true) }
    ensures { result ≡ min (counts (text_left tree.now gone.now)) (2 ^ 32 - 1) }
{
    match gone {
        Some(_) => count_of_left(tree, gone, tree.children(tree.root())),
        None => tree.count(),
    }
}

/// Whether those that are left and so many others are more nodes than the limit of the tree says. They are counted only where so
/// many were laid down that they might be.
pub fn are_too_many(tree: &Tree, gone: &Option<NodeId>, others: u32) -> bool
    requires { IfSome gone.now (λ other. has_node tree.now other ≡ true) }
    ensures { result
        ≡ nat_lt (most_nodes (tree_view tree.now).limit) (counts (text_left tree.now gone.now) + others) }
{
    let most = tree.limit().most();
    if tree.laid_down().saturating_add(others as usize) <= most as usize {
        return false;
    }
    count_left(tree, gone).saturating_add(others) > most
}
