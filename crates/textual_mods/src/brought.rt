//! What an insertion brings: how high and how many its nodes are, and whether their levels are taken.

ghost use Rattle.std.specs.Prelude.{◌≡◌, ◌≤◌, ◌-◌, ◌^◌, min, true, false, IfSome};
ghost use Rattle.act_tree.specs.Branches.{branches_of, count, counts, height, heights};
ghost use Rattle.act_tree.specs.EidLevels.{all_beginning, levels_on};
ghost use Rattle.act_tree.specs.Faults.{all_owns};
ghost use Rattle.act_tree.specs.Seen.{tree_view, has_node};
ghost use Rattle.act_tree.specs.Specs.{own_of, spec_view};
ghost use Rattle.act_tree.specs.declared.limits.TheConstants.{MAX_NESTED};
ghost use Rattle.eid_paths.specs.Nums.{is_num};
ghost use Rattle.textual_mods.specs.Insertions.{all_begun_among, begun_among, have_nums, on_among};
ghost use Rattle.textual_mods.specs.Substitutions.{left_below, text_left};

use crate::staying::{has_child_level_left, has_level_left};
use act_tree::{NodeId, NodeSpec, Nodes, Tree};

// The num of a node, and those beneath it, keep the rule of nums: each num carries it.
#[cycle(nums)]
fn num_is_kept(node: &NodeSpec)
    ensures num { is_num (own_of node.now).num ≡ true }
    ensures beneath { have_nums (branches_of node.now.children) ≡ true }
{
    let _kept = node.num.copy();
    nums_are_kept(&node.children);
}

/// The nums of nodes, and of all beneath them, keep the rule of nums: each num carries it.
#[cycle(nums)]
#[tactic(auto, using(act_tree::proofs::LowSpecs::heights_listed))]
pub fn nums_are_kept(nodes: &Nodes)
    ensures depth { heights (branches_of nodes.now) ≤ MAX_NESTED }
    ensures nums { have_nums (branches_of nodes.now) ≡ true }
{
    for node in &nodes.items {
        num_is_kept(node);
    }
}

// How many nodes a node nests, itself included. The number stands still at 2^32 - 1.
#[cycle(heights)]
fn height_of(node: &NodeSpec) -> u32
    ensures { result ≡ min (height (spec_view node.now)) (2 ^ 32 - 1) }
{
    height_of_all(&node.children).saturating_add(1)
}

/// How many nodes the tallest of some nests, itself included. The number stands still at 2^32 - 1.
#[cycle(heights)]
#[tactic(auto, using(act_tree::proofs::LowSpecs::heights_listed))]
pub fn height_of_all(nodes: &Nodes) -> u32
    ensures depth { heights (branches_of nodes.now) ≤ MAX_NESTED }
    ensures height { result ≡ min (heights (branches_of nodes.now)) (2 ^ 32 - 1) }
{
    let mut tallest: u32 = 0;
    for node in &nodes.items {
        tallest = tallest.max(height_of(node));
    }
    tallest
}

// How many nodes a node is, with all beneath it. The number stands still at 2^32 - 1.
#[cycle(counts)]
fn count_of(node: &NodeSpec) -> u32
    ensures { result ≡ min (count (spec_view node.now)) (2 ^ 32 - 1) }
{
    count_of_all(&node.children).saturating_add(1)
}

/// How many nodes these are, with all beneath them. The number stands still at 2^32 - 1.
#[cycle(counts)]
#[tactic(auto, using(act_tree::proofs::LowSpecs::heights_listed))]
pub fn count_of_all(nodes: &Nodes) -> u32
    ensures depth { heights (branches_of nodes.now) ≤ MAX_NESTED }
    ensures count { result ≡ min (counts (branches_of nodes.now)) (2 ^ 32 - 1) }
{
    let mut total: u32 = 0;
    for node in &nodes.items {
        total = total.saturating_add(count_of(node));
    }
    total
}

// Whether a node, or one beneath it, begins an eId by a level by which one that is left of the tree begins one; `top`
// says that the node comes to stand right below the root.
#[cycle(begins)]
fn begins_again(tree: &Tree, gone: &Option<NodeId>, top: bool, node: &NodeSpec) -> bool
    requires { IfSome gone.now (λ other. has_node tree.now other ≡ true) }
    ensures { let n = (tree_view tree.now).numbering in result
        ≡ begun_among (all_beginning n true (all_owns (text_left tree.now gone.now))) n top (spec_view node.now) }
{
    let begins = top || tree.numbering().has(node.element);
    if begins && has_level_left(tree, gone, node.element, &node.num) {
        return true;
    }
    begin_again(tree, gone, false, &node.children)
}

/// Whether one of these nodes, or of those beneath them, begins an eId by a level by which one that is left of the tree
/// begins one; `top` says that they come to stand right below the root.
#[cycle(begins)]
#[tactic(auto, using(act_tree::proofs::LowSpecs::heights_listed))]
pub fn begin_again(tree: &Tree, gone: &Option<NodeId>, top: bool, nodes: &Nodes) -> bool
    requires { IfSome gone.now (λ other. has_node tree.now other ≡ true) }
    ensures depth { heights (branches_of nodes.now) ≤ MAX_NESTED }
    ensures again { let n = (tree_view tree.now).numbering in result
        ≡ all_begun_among (all_beginning n true (all_owns (text_left tree.now gone.now))) n top (branches_of nodes.now) }
{
    for node in &nodes.items {
        if begins_again(tree, gone, top, node) {
            return true;
        }
    }
    false
}

/// Whether one of these nodes begins no eId, below a node that is not the root, and has the level of a child of that
/// node that is left and begins none.
pub fn go_on_again(tree: &Tree, gone: &Option<NodeId>, parent: NodeId, nodes: &Nodes) -> bool
    requires gone { IfSome gone.now (λ other. has_node tree.now other ≡ true) }
    requires node { has_node tree.now parent ≡ true }
    ensures { result ≡ on_among (levels_on (tree_view tree.now).numbering (left_below tree.now gone.now parent))
        (tree_view tree.now).numbering (branches_of nodes.now) }
{
    for node in &nodes.items {
        let on = !tree.numbering().has(node.element);
        if on && has_child_level_left(tree, gone, parent, node.element, &node.num) {
            return true;
        }
    }
    false
}
