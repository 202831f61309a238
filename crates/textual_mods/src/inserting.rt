//! Inserting: whether nodes may stand among the children of a node, which is known before they are put there.

ghost use Rattle.std.specs.Prelude.{◌≡◌, ◌+◌, ◌≤◌, ◌||◌, length, nat_lt, true, false, None, Ok, IfOk, IfSome, OnOk, OnErr};
ghost use Rattle.act_tree.specs.Branches.{branches_of, heights};
ghost use Rattle.act_tree.specs.Brought.{brought, has_brought};
ghost use Rattle.act_tree.specs.Changes.{is_in};
ghost use Rattle.act_tree.specs.Faults.{all_eids, all_owns, first_cause, first_fault};
ghost use Rattle.act_tree.specs.Seen.{is_own, tree_view, has_node, provision_at, children_at, grafted_at};
ghost use Rattle.act_tree.specs.Wids.{one_twice};
ghost use Rattle.act_tree.specs.declared.limits.NodeLimit.TheVariants.{Plain};
ghost use Rattle.act_tree.specs.declared.surveying.TheConstants.{NONE_THROUGHOUT};
ghost use Rattle.eid_paths.specs.Elements.{is_throughout};
ghost use Rattle.textual_mods.specs.Edits.{answer_to, settled};
ghost use Rattle.textual_mods.specs.Insertions as spec;
ghost use Rattle.textual_mods.specs.Insertions.{goes_on_again, have_nums, is_root, number_taken, one_alone, split_fault, taken_among};
ghost use Rattle.textual_mods.specs.Substitutions.{bringing_fault, left_below, text_left};

use crate::Outcome;
use crate::brought::{begin_again, count_of_all, go_on_again, height_of_all, nums_are_kept};
use crate::held_back::{held_back, or_step};
use crate::staying::are_too_many;
use act_tree::{BuildFault, MAX_DEPTH, NodeId, Nodes, Tree, fault_of};
use desk_base::{Id, Memory, Steps};
use eid_paths::{Element, Num};
use std::alloc::Global;
use std::sync::ledger::Ledger;

// Whether what is left of a tree is too deep with nodes among the children of a node that is left.
#[tactic(auto, using(crate::proofs::HeightsOver::deep_told))]
fn is_too_deep(tree: &Tree, gone: &Option<NodeId>, parent: NodeId, new: &Nodes) -> bool
    requires fits { first_cause (tree_view tree.now) ≡ None }
    requires node { has_node tree.now parent ≡ true }
    requires left { is_in (provision_at tree.now parent).wid (text_left tree.now gone.now) ≡ true }
    requires payload { first_fault NONE_THROUGHOUT Plain (branches_of new.now) ≡ None }
    ensures { result ≡ nat_lt MAX_DEPTH (spec.height_with (provision_at tree.now parent).wid
        (heights (branches_of new.now)) (text_left tree.now gone.now)) }
{
    let _ = gone;
    tree.depth(parent).saturating_add(height_of_all(new)) > MAX_DEPTH
}

// Whether two nodes would have one eId right below the root of the tree.
fn has_eid_twice(alloc: Global, tree: &Tree, nodes: &Nodes) -> Result<bool, Memory>
    ensures { IfOk result (λ twice. twice
        ≡ one_twice (all_eids (tree_view tree.now).numbering None (branches_of nodes.now))) }
{
    match fault_of(alloc, tree.numbering(), tree.limit(), nodes)? {
        Some(BuildFault::EidTwice) => Ok(true),
        _ => Ok(false),
    }
}

// Whether one of some nodes, among the children of a node, has the level of a child that is left and begins no eId, as
// that child.
fn goes_on_taken(tree: &Tree, gone: &Option<NodeId>, parent: NodeId, new: &Nodes) -> bool
    requires gone { IfSome gone.now (λ other. has_node tree.now other ≡ true) }
    requires node { has_node tree.now parent ≡ true }
    ensures { result ≡ goes_on_again (tree_view tree.now).numbering (is_root tree.now parent)
        (branches_of new.now) (all_owns (left_below tree.now gone.now parent)) }
{
    if parent == tree.root() {
        return false;
    }
    go_on_again(tree, gone, parent, new)
}

// Whether a number of nodes is taken, among the children of a node, by what is left of the tree.
fn is_number_taken(
    alloc: Global,
    tree: &Tree,
    gone: &Option<NodeId>,
    parent: NodeId,
    new: &Nodes,
) -> Result<bool, Memory>
    requires fits { first_cause (tree_view tree.now) ≡ None }
    requires gone { IfSome gone.now (λ other. has_node tree.now other ≡ true) }
    requires node { has_node tree.now parent ≡ true }
    requires payload { first_fault NONE_THROUGHOUT Plain (branches_of new.now) ≡ None }
    requires nums { have_nums (branches_of new.now) ≡ true }
    ensures { IfOk result (λ taken. taken ≡ taken_among (tree_view tree.now).numbering (is_root tree.now parent)
        (branches_of new.now) (all_owns (text_left tree.now gone.now)) (all_owns (left_below tree.now gone.now parent))) }
{
    let top = parent == tree.root();
    if begin_again(tree, gone, top, new) {
        return Ok(true);
    }
    if goes_on_taken(tree, gone, parent, new) {
        return Ok(true);
    }
    let twice = has_eid_twice(alloc, tree, new)?;
    Ok(twice)
}

// Whether a node of this element begins an eId, among the children of a node.
fn begins_below(tree: &Tree, parent: NodeId, element: Element) -> bool
    requires { has_node tree.now parent ≡ true }
    ensures { result ≡ (is_root tree.now parent || is_throughout (tree_view tree.now).numbering element) }
{
    if parent == tree.root() {
        return true;
    }
    tree.numbering().has(element)
}

// Whether the number of one node is taken, among the children of a node.
fn is_level_taken(tree: &Tree, parent: NodeId, element: Element, num: &Num) -> bool
    requires { has_node tree.now parent ≡ true }
    ensures { result ≡ number_taken tree.now parent (one_alone element num.now) }
{
    if begins_below(tree, parent, element) {
        tree.has_level(element, num)
    } else {
        tree.has_child_level(parent, element, num)
    }
}

/// The first fault of a tree with a split, if it would have one: a second part of this element and num stands below the
/// parent, too; `long` says that a text which is written is too long.
pub fn fault_of_split(
    tree: &Tree,
    parent: NodeId,
    element: Element,
    num: &Num,
    long: bool,
) -> Option<BuildFault>
    requires { has_node tree.now parent ≡ true }
    ensures { result ≡ split_fault tree.now parent element num.now long }
{
    if is_level_taken(tree, parent, element, num) {
        return Some(BuildFault::EidTwice);
    }
    if are_too_many(tree, &None, 1) {
        return Some(BuildFault::TooManyNodes);
    }
    if long {
        return Some(BuildFault::TextTooLong);
    }
    None
}

/// The first fault of a tree with nodes among the children of a node, if it would have one; `gone`: that node goes for
/// them, and the other is left. The index of the tree is asked for the levels that are brought, and how deep they
/// come to stand is told by the way up from the node; nothing of the tree is copied, and none of its eIds is spelled.
pub fn fault_of_bringing(
    alloc: Global,
    tree: &Tree,
    gone: &Option<NodeId>,
    parent: NodeId,
    new: &Nodes,
) -> Result<Option<BuildFault>, Memory>
    requires fits { first_cause (tree_view tree.now) ≡ None }
    requires gone { IfSome gone.now (λ other. has_node tree.now other ≡ true) }
    requires node { has_node tree.now parent ≡ true }
    requires left { is_in (provision_at tree.now parent).wid (text_left tree.now gone.now) ≡ true }
    requires payload { first_fault NONE_THROUGHOUT Plain (branches_of new.now) ≡ None }
    requires nums { have_nums (branches_of new.now) ≡ true }
    ensures { IfOk result (λ fault. fault ≡ bringing_fault tree.now gone.now parent (branches_of new.now)) }
{
    let taken = is_number_taken(alloc, tree, gone, parent, new)?;
    if taken {
        return Ok(Some(BuildFault::EidTwice));
    }
    if is_too_deep(tree, gone, parent, new) {
        return Ok(Some(BuildFault::TooDeep));
    }
    if are_too_many(tree, gone, count_of_all(new)) {
        return Ok(Some(BuildFault::TooManyNodes));
    }
    Ok(None)
}

/// Puts nodes among the children of a node, behind the first so many, unless the tree would not be well-formed with them.
pub fn insert_at<L: Ledger>(
    alloc: Global,
    tree: &mut Tree,
    by: Id,
    parent: NodeId,
    place: usize,
    new: &Nodes,
    steps: &mut Steps<L>,
) -> Result<Outcome, Memory>
    requires own { is_own tree.old ≡ true }
    requires fits { first_cause (tree_view tree.old) ≡ None }
    requires node { has_node tree.old parent ≡ true }
    requires place { place ≤ length (children_at tree.old parent) }
    requires payload { first_fault NONE_THROUGHOUT Plain (branches_of new.now) ≡ None }
    requires fresh { has_brought by (tree_view tree.old).body ≡ false }
    ensures own { is_own tree.new ≡ true }
    ensures outcome { IfOk result (λ o. o
        ≡ answer_to tree.old (λ _. Ok (grafted_at tree.old parent place (brought by (branches_of new.now))))) }
    ensures tree { OnOk result (tree_view tree.new
        ≡ settled tree.old (λ _. Ok (grafted_at tree.old parent place (brought by (branches_of new.now))))) }
    ensures kept { OnErr result (tree_view tree.new ≡ tree_view tree.old) }
    ensures step { steps.new ≡ steps.old + 1 }
{
    nums_are_kept(new);
    let none = None;
    let fault = or_step(fault_of_bringing(alloc, tree, &none, parent, new), steps)?;
    match fault {
        Some(fault) => Ok(held_back(fault.cause(), steps)),
        None => {
            tree.graft(alloc, parent, place, new, by, steps)?;
            Ok(Outcome::Done)
        }
    }
}
