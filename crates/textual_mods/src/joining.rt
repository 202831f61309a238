//! Join: a provision takes in its next sibling.

ghost use Rattle.std.specs.Prelude.{◌≡◌, ◌==◌, ◌+◌, ◌++◌, true, None, Some, Ok, option_map, IfOk, IfSome, OnOk, OnErr};
ghost use Rattle.act_tree.specs.Branches.{branch};
ghost use Rattle.act_tree.specs.Changes.{merged};
ghost use Rattle.act_tree.specs.Faults.{first_cause};
ghost use Rattle.act_tree.specs.Seen.{is_own, tree_view, has_node, provision_at, below_at, next_at};
ghost use Rattle.eid_paths.specs.Elements.{element_place};
ghost use Rattle.textual_mods.specs.Edits.{answer_to, settled};
ghost use Rattle.textual_mods.specs.EditsOfNodes.{join_next_at, join_both_at, step_at};
ghost use Rattle.textual_mods.specs.Joins.{joined_with};

use crate::Outcome;
use crate::held_back::{held_back, or_step};
use crate::targets::provision_named;
use act_tree::{Cause, MAX_TEXT_BYTES, NodeId, Tree};
use desk_base::{Memory, Steps, Text};
use eid_paths::Element;
use std::alloc::Global;
use std::sync::ledger::Ledger;

/// Joins the first target with the second, which is its next sibling.
pub fn join<L: Ledger>(
    alloc: Global,
    tree: &mut Tree,
    wid: &str,
    second: &str,
    separator: &str,
    steps: &mut Steps<L>,
) -> Result<Outcome, Memory>
    requires own { is_own tree.old ≡ true }
    requires fits { first_cause (tree_view tree.old) ≡ None }
    ensures own { is_own tree.new ≡ true }
    ensures outcome { IfOk result (λ o. o ≡ answer_to tree.old (joined_with wid.now second.now separator.now)) }
    ensures tree { OnOk result (tree_view tree.new ≡ settled tree.old (joined_with wid.now second.now separator.now)) }
    ensures kept { OnErr result (tree_view tree.new ≡ tree_view tree.old) }
    ensures step { steps.new ≡ steps.old + 1 }
{
    let Some(id) = provision_named(tree, wid) else {
        return Ok(held_back(Cause::TargetMissing, steps));
    };
    if provision_named(tree, second).is_none() {
        return Ok(held_back(Cause::TargetMissing, steps));
    }
    join_next(alloc, tree, id, second, separator, steps)
}

// Joins a provision with its next sibling, which has to be the one of the wId.
fn join_next<L: Ledger>(
    alloc: Global,
    tree: &mut Tree,
    id: NodeId,
    second: &str,
    separator: &str,
    steps: &mut Steps<L>,
) -> Result<Outcome, Memory>
    requires own { is_own tree.old ≡ true }
    requires fits { first_cause (tree_view tree.old) ≡ None }
    requires node { has_node tree.old id ≡ true }
    requires provision { id ≡ 0 → ⊥ }
    ensures own { is_own tree.new ≡ true }
    ensures outcome { IfOk result (λ o. o ≡ answer_to tree.old (join_next_at tree.old id second.now separator.now)) }
    ensures tree { OnOk result (tree_view tree.new
        ≡ settled tree.old (join_next_at tree.old id second.now separator.now)) }
    ensures kept { OnErr result (tree_view tree.new ≡ tree_view tree.old) }
    ensures step { steps.new ≡ steps.old + 1 }
{
    let Some(next) = next_provision(tree, id) else {
        return Ok(held_back(Cause::AnchorMissing, steps));
    };
    if tree.provision(next).wid.as_str() != second {
        return Ok(held_back(Cause::AnchorMissing, steps));
    }
    join_both(alloc, tree, id, next, separator, steps)
}

// Joins a provision with its next sibling, if both are of one element.
fn join_both<L: Ledger>(
    alloc: Global,
    tree: &mut Tree,
    id: NodeId,
    next: NodeId,
    separator: &str,
    steps: &mut Steps<L>,
) -> Result<Outcome, Memory>
    requires own { is_own tree.old ≡ true }
    requires fits { first_cause (tree_view tree.old) ≡ None }
    requires node { has_node tree.old id ≡ true }
    requires provision { id ≡ 0 → ⊥ }
    requires other { has_node tree.old next ≡ true }
    requires next { next_at tree.old id ≡ Some (branch (provision_at tree.old next) (below_at tree.old next)) }
    ensures own { is_own tree.new ≡ true }
    ensures outcome { IfOk result (λ o. o ≡ answer_to tree.old (join_both_at tree.old id next separator.now)) }
    ensures tree { OnOk result (tree_view tree.new ≡ settled tree.old (join_both_at tree.old id next separator.now)) }
    ensures kept { OnErr result (tree_view tree.new ≡ tree_view tree.old) }
    ensures step { steps.new ≡ steps.old + 1 }
{
    let first = tree.provision(id);
    let second = tree.provision(next);
    if !is_of_kind(first.element, second.element) {
        return Ok(held_back(Cause::KindsDiffer, steps));
    }
    let content = joined(
        alloc,
        first.content.as_str(),
        separator,
        second.content.as_str(),
    );
    let content = or_step(content, steps)?;
    take_in(alloc, tree, id, next, content, steps)
}

// Takes the next sibling of a provision into it. Only the levels of both parts' children, and the content, can pass a
// limit by that, and both are known before.
fn take_in<L: Ledger>(
    alloc: Global,
    tree: &mut Tree,
    id: NodeId,
    next: NodeId,
    content: Text,
    steps: &mut Steps<L>,
) -> Result<Outcome, Memory>
    requires own { is_own tree.old ≡ true }
    requires fits { first_cause (tree_view tree.old) ≡ None }
    requires node { has_node tree.old id ≡ true }
    requires provision { id ≡ 0 → ⊥ }
    requires other { has_node tree.old next ≡ true }
    requires next { next_at tree.old id ≡ Some (branch (provision_at tree.old next) (below_at tree.old next)) }
    ensures own { is_own tree.new ≡ true }
    ensures outcome { IfOk result (λ o. o ≡ answer_to tree.old (step_at tree.old id (merged content))) }
    ensures tree { OnOk result (tree_view tree.new ≡ settled tree.old (step_at tree.old id (merged content))) }
    ensures kept { OnErr result (tree_view tree.new ≡ tree_view tree.old) }
    ensures step { steps.new ≡ steps.old + 1 }
{
    let alike = or_step(tree.children_alike(alloc, id, next), steps)?;
    if alike {
        return Ok(held_back(Cause::NumberTaken, steps));
    }
    if content.as_str().len() > MAX_TEXT_BYTES {
        return Ok(held_back(Cause::TextTooLong, steps));
    }
    tree.merge_next(alloc, id, content, steps)?;
    Ok(Outcome::Done)
}

// Whether two elements are the same.
fn is_of_kind(first: Element, second: Element) -> bool
    ensures { result ≡ (element_place first == element_place second) }
{
    first == second
}

// The provision that stands right behind one among its siblings.
fn next_provision(tree: &Tree, id: NodeId) -> Option<NodeId>
    requires node { has_node tree.now id ≡ true }
    requires provision { id ≡ 0 → ⊥ }
    ensures next { option_map (λ next. branch (provision_at tree.now next) (below_at tree.now next)) result
        ≡ next_at tree.now id }
    ensures node { IfSome result (λ next. has_node tree.now next ≡ true) }
{
    tree.next(id)
}

// Three texts, one behind another.
fn joined(alloc: Global, first: &str, separator: &str, second: &str) -> Result<Text, Memory>
    ensures { IfOk result (λ text. text ≡ first.now ++ (separator.now ++ second.now)) }
{
    let mut text = String::new(alloc);
    text.push_str(first)?;
    text.push_str(separator)?;
    text.push_str(second)?;
    Text::from_string(text)
}
