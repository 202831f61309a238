//! Edits of structure: repeal, and substitution and insertion of provisions.

ghost use Rattle.std.specs.Prelude.{◌≡◌, ◌+◌, ◌≤◌, None, Ok, false, true, length, is_some, IfOk, IfSome, OnOk, OnErr};
ghost use Rattle.act_tree.specs.Branches.{Branches, branches_of};
ghost use Rattle.act_tree.specs.Brought.{brought, has_brought};
ghost use Rattle.act_tree.specs.Changes.{after};
ghost use Rattle.act_tree.specs.Faults.{first_cause, first_fault};
ghost use Rattle.act_tree.specs.Provisions.{Provision};
ghost use Rattle.act_tree.specs.Seen.{is_own, tree_view, has_node, children_at, grafted_at, changed_at, substituted_at};
ghost use Rattle.act_tree.specs.declared.limits.NodeLimit.TheVariants.{Plain};
ghost use Rattle.act_tree.specs.declared.surveying.TheConstants.{NONE_THROUGHOUT};
ghost use Rattle.textual_mods.specs.Edits.{answer_to, settled};
ghost use Rattle.textual_mods.specs.StructureEdits.{repealed, nodes_substituted, nodes_inserted, is_anchor, placed};

use crate::brought::nums_are_kept;
use crate::held_back::{held_back, or_step};
use crate::inserting::{fault_of_bringing, insert_at};
use crate::targets::provision_named;
use crate::{Outcome, Pos};
use act_tree::{Cause, NodeId, Nodes, Tree, fault_of};
use desk_base::{Id, Memory, Steps};
use std::alloc::Global;
use std::sync::ledger::Ledger;

/// Takes the target away with all that stands beneath it, or all provisions where the target is the root. No limit can
/// be passed by that, so it is done in place.
pub fn repeal<L: Ledger>(tree: &mut Tree, wid: &str, steps: &mut Steps<L>) -> Outcome
    requires own { is_own tree.old ≡ true }
    requires fits { first_cause (tree_view tree.old) ≡ None }
    ensures own { is_own tree.new ≡ true }
    ensures outcome { result ≡ answer_to tree.old (repealed wid.now) }
    ensures tree { tree_view tree.new ≡ settled tree.old (repealed wid.now) }
    ensures step { steps.new ≡ steps.old + 1 }
{
    match tree.find(wid.as_bytes()) {
        Some(id) => {
            tree.remove(id, steps);
            Outcome::Done
        }
        None => held_back(Cause::TargetMissing, steps),
    }
}

/// Puts nodes in the place of the target and of all that stands beneath it.
pub fn substitute_nodes<L: Ledger>(
    alloc: Global,
    tree: &mut Tree,
    by: Id,
    wid: &str,
    new: &Nodes,
    steps: &mut Steps<L>,
) -> Result<Outcome, Memory>
    requires own { is_own tree.old ≡ true }
    requires fits { first_cause (tree_view tree.old) ≡ None }
    requires payload { first_fault NONE_THROUGHOUT Plain (branches_of new.now) ≡ None }
    requires fresh { has_brought by (tree_view tree.old).body ≡ false }
    ensures own { is_own tree.new ≡ true }
    ensures outcome { IfOk result (λ o. o ≡ answer_to tree.old (nodes_substituted by wid.now (branches_of new.now))) }
    ensures tree { OnOk result (tree_view tree.new
        ≡ settled tree.old (nodes_substituted by wid.now (branches_of new.now))) }
    ensures kept { OnErr result (tree_view tree.new ≡ tree_view tree.old) }
    ensures step { steps.new ≡ steps.old + 1 }
{
    let Some(id) = tree.find(wid.as_bytes()) else {
        return Ok(held_back(Cause::TargetMissing, steps));
    };
    if id == tree.root() {
        return substitute_all(alloc, tree, by, new, steps);
    }
    substitute_node(alloc, tree, by, id, new, steps)
}

// Puts nodes in the place of a node that is not the root, unless the tree would not be well-formed with them.
fn substitute_node<L: Ledger>(
    alloc: Global,
    tree: &mut Tree,
    by: Id,
    id: NodeId,
    new: &Nodes,
    steps: &mut Steps<L>,
) -> Result<Outcome, Memory>
    requires own { is_own tree.old ≡ true }
    requires fits { first_cause (tree_view tree.old) ≡ None }
    requires node { has_node tree.old id ≡ true }
    requires provision { id ≡ 0 → ⊥ }
    requires payload { first_fault NONE_THROUGHOUT Plain (branches_of new.now) ≡ None }
    requires fresh { has_brought by (tree_view tree.old).body ≡ false }
    ensures own { is_own tree.new ≡ true }
    ensures outcome { IfOk result (λ o. o
        ≡ answer_to tree.old (λ _. Ok (substituted_at tree.old id (brought by (branches_of new.now))))) }
    ensures tree { OnOk result (tree_view tree.new
        ≡ settled tree.old (λ _. Ok (substituted_at tree.old id (brought by (branches_of new.now))))) }
    ensures kept { OnErr result (tree_view tree.new ≡ tree_view tree.old) }
    ensures step { steps.new ≡ steps.old + 1 }
{
    nums_are_kept(new);
    let parent = tree.parent(id);
    let gone = Some(id);
    let fault = or_step(fault_of_bringing(alloc, tree, &gone, parent, new), steps)?;
    match fault {
        Some(fault) => Ok(held_back(fault.cause(), steps)),
        None => {
            tree.replace(alloc, id, new, by, steps)?;
            Ok(Outcome::Done)
        }
    }
}

// Puts nodes in the place of all provisions, unless they make no tree of this numbering and limit: nothing of the text stays.
fn substitute_all<L: Ledger>(
    alloc: Global,
    tree: &mut Tree,
    by: Id,
    new: &Nodes,
    steps: &mut Steps<L>,
) -> Result<Outcome, Memory>
    requires own { is_own tree.old ≡ true }
    requires payload { first_fault NONE_THROUGHOUT Plain (branches_of new.now) ≡ None }
    requires fresh { has_brought by (tree_view tree.old).body ≡ false }
    ensures own { is_own tree.new ≡ true }
    ensures outcome { IfOk result (λ o. o ≡ answer_to tree.old (λ _. Ok (brought by (branches_of new.now)))) }
    ensures tree { OnOk result (tree_view tree.new ≡ settled tree.old (λ _. Ok (brought by (branches_of new.now)))) }
    ensures kept { OnErr result (tree_view tree.new ≡ tree_view tree.old) }
    ensures step { steps.new ≡ steps.old + 1 }
{
    let fault = or_step(fault_of(alloc, tree.numbering(), tree.limit(), new), steps)?;
    match fault {
        Some(fault) => Ok(held_back(fault.cause(), steps)),
        None => {
            let root = tree.root();
            tree.replace(alloc, root, new, by, steps)?;
            Ok(Outcome::Done)
        }
    }
}

/// Puts nodes beside a provision, or among its children.
pub fn insert_nodes<L: Ledger>(
    alloc: Global,
    tree: &mut Tree,
    by: Id,
    wid: &str,
    pos: Pos,
    new: &Nodes,
    steps: &mut Steps<L>,
) -> Result<Outcome, Memory>
    requires own { is_own tree.old ≡ true }
    requires fits { first_cause (tree_view tree.old) ≡ None }
    requires payload { first_fault NONE_THROUGHOUT Plain (branches_of new.now) ≡ None }
    requires fresh { has_brought by (tree_view tree.old).body ≡ false }
    ensures own { is_own tree.new ≡ true }
    ensures outcome { IfOk result (λ o. o ≡ answer_to tree.old (nodes_inserted by wid.now pos (branches_of new.now))) }
    ensures tree { OnOk result (tree_view tree.new
        ≡ settled tree.old (nodes_inserted by wid.now pos (branches_of new.now))) }
    ensures kept { OnErr result (tree_view tree.new ≡ tree_view tree.old) }
    ensures step { steps.new ≡ steps.old + 1 }
{
    let Some((parent, place)) = place_for(tree, wid, pos) else {
        return Ok(held_back(Cause::AnchorMissing, steps));
    };
    insert_at(alloc, tree, by, parent, place, new, steps)
}

// Among whose children nodes stand that are inserted, and behind how many of them. `None`: the place is not there.
fn place_for(tree: &Tree, wid: &str, pos: Pos) -> Option<(NodeId, usize)>
    ensures anchor { is_some result ≡ is_anchor pos wid.now (tree_view tree.now).body }
    ensures node { IfSome result (λ at. has_node tree.now at.0 ≡ true) }
    ensures place { IfSome result (λ at. at.1 ≤ length (children_at tree.now at.0)) }
    ensures gives { IfSome result (λ at. (new : Branches Provision)
        → grafted_at tree.now at.0 at.1 new ≡ placed pos wid.now new (tree_view tree.now).body) }
{
    match pos {
        Pos::Before => Some(tree.place_of(provision_named(tree, wid)?)),
        Pos::After => Some(place_behind(tree, provision_named(tree, wid)?)),
        Pos::Start => Some((tree.find(wid.as_bytes())?, 0)),
        Pos::End => {
            let id = tree.find(wid.as_bytes())?;
            Some((id, tree.children(id).len()))
        }
    }
}

// The node right above a provision, and how many of its children stand before what is right behind the provision.
fn place_behind(tree: &Tree, id: NodeId) -> (NodeId, usize)
    requires node { has_node tree.now id ≡ true }
    requires provision { id ≡ 0 → ⊥ }
    ensures node { has_node tree.now result.0 ≡ true }
    ensures place { result.1 ≤ length (children_at tree.now result.0) }
    ensures gives { (new : Branches Provision)
        → grafted_at tree.now result.0 result.1 new ≡ changed_at tree.now id (after new) }
{
    let (parent, place) = tree.place_of(id);
    let siblings = tree.children(parent).len();
    prove!(place < siblings);
    (parent, place + 1)
}
