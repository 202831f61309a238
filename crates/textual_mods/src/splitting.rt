//! Split: a provision keeps its first part, and right behind it stands a new one with the second.

ghost use Rattle.std.specs.Prelude.{◌≡◌, ◌+◌, ◌≤◌, ◌||◌, false, true, None, length, nat_lt, map, IfOk, IfSome, OnOk, OnErr};
ghost use Rattle.std.specs.List.{All};
ghost use Rattle.act_tree.specs.Branches.{branches_of};
ghost use Rattle.act_tree.specs.Brought.{has_brought};
ghost use Rattle.act_tree.specs.Faults.{first_cause};
ghost use Rattle.act_tree.specs.Seen.{is_own, tree_view, has_node, provision_at, children_at, branch_at, below_at};
ghost use Rattle.eid_paths.specs.Nums.{is_num};
ghost use Rattle.textual_mods.specs.Edits.{answer_to, settled};
ghost use Rattle.textual_mods.specs.EditsOfNodes as at_node;
ghost use Rattle.textual_mods.specs.EditsOfNodes.{split_with};
ghost use Rattle.textual_mods.specs.Occurrences.{parted_at};
ghost use Rattle.textual_mods.specs.Splits as spec;
ghost use Rattle.textual_mods.specs.Splits.{split_at_cut};

use crate::held_back::{held_back, or_step};
use crate::inserting::fault_of_split;
use crate::targets::provision_named;
use crate::text::both;
use crate::{Outcome, SplitAt, Spot, occurrences};
use act_tree::{Cause, MAX_TEXT_BYTES, NodeId, Tree};
use desk_base::{Id, Memory, Steps, Text};
use eid_paths::Num;
use std::alloc::Global;
use std::sync::ledger::Ledger;

/// How a provision is split, as definitions name it; no public call takes or gives one.
#[derive(Drop)]
pub struct Cut {
    /// How many of its children stay.
    pub children: usize,
    /// The content that stays.
    pub head: Text,
    /// The content of the second part.
    pub tail: Text,
}

/// Splits the target: a new provision with the num and the heading stands right behind it.
pub fn split<L: Ledger>(
    alloc: Global,
    tree: &mut Tree,
    by: Id,
    wid: &str,
    at: &SplitAt,
    num: &Num,
    heading: &Text,
    steps: &mut Steps<L>,
) -> Result<Outcome, Memory>
    requires own { is_own tree.old ≡ true }
    requires fresh { has_brought by (tree_view tree.old).body ≡ false }
    requires fits { first_cause (tree_view tree.old) ≡ None }
    ensures own { is_own tree.new ≡ true }
    ensures outcome { IfOk result (λ o. o ≡ answer_to tree.old (split_at_cut by wid.now at.now num.now heading.now)) }
    ensures tree { OnOk result (tree_view tree.new
        ≡ settled tree.old (split_at_cut by wid.now at.now num.now heading.now)) }
    ensures kept { OnErr result (tree_view tree.new ≡ tree_view tree.old) }
    ensures step { steps.new ≡ steps.old + 1 }
{
    let Some(id) = provision_named(tree, wid) else {
        return Ok(held_back(Cause::TargetMissing, steps));
    };
    split_node(alloc, tree, by, id, at, num, heading, steps)
}

// Splits a provision.
fn split_node<L: Ledger>(
    alloc: Global,
    tree: &mut Tree,
    by: Id,
    id: NodeId,
    at: &SplitAt,
    num: &Num,
    heading: &Text,
    steps: &mut Steps<L>,
) -> Result<Outcome, Memory>
    requires own { is_own tree.old ≡ true }
    requires fresh { has_brought by (tree_view tree.old).body ≡ false }
    requires node { has_node tree.old id ≡ true }
    requires provision { id ≡ 0 → ⊥ }
    requires fits { first_cause (tree_view tree.old) ≡ None }
    ensures own { is_own tree.new ≡ true }
    ensures outcome { IfOk result (λ o. o ≡ answer_to tree.old
        (split_with tree.old by id (at_node.cut_at tree.old id at.now) num.now heading.now)) }
    ensures tree { OnOk result (tree_view tree.new ≡ settled tree.old
        (split_with tree.old by id (at_node.cut_at tree.old id at.now) num.now heading.now)) }
    ensures kept { OnErr result (tree_view tree.new ≡ tree_view tree.old) }
    ensures step { steps.new ≡ steps.old + 1 }
{
    match or_step(cut_of(alloc, tree, id, at), steps)? {
        Ok(cut) => split_along(alloc, tree, by, id, cut, num, heading, steps),
        Err(cause) => Ok(held_back(cause, steps)),
    }
}

// Splits a provision at a cut.
fn split_along<L: Ledger>(
    alloc: Global,
    tree: &mut Tree,
    by: Id,
    id: NodeId,
    cut: Cut,
    num: &Num,
    heading: &Text,
    steps: &mut Steps<L>,
) -> Result<Outcome, Memory>
    requires own { is_own tree.old ≡ true }
    requires fresh { has_brought by (tree_view tree.old).body ≡ false }
    requires node { has_node tree.old id ≡ true }
    requires provision { id ≡ 0 → ⊥ }
    requires place { cut.children ≤ length (children_at tree.old id) }
    requires fits { first_cause (tree_view tree.old) ≡ None }
    ensures own { is_own tree.new ≡ true }
    ensures outcome { IfOk result (λ o. o ≡ answer_to tree.old
        (split_with tree.old by id (Ok cut) num.now heading.now)) }
    ensures tree { OnOk result (tree_view tree.new ≡ settled tree.old
        (split_with tree.old by id (Ok cut) num.now heading.now)) }
    ensures kept { OnErr result (tree_view tree.new ≡ tree_view tree.old) }
    ensures step { steps.new ≡ steps.old + 1 }
{
    let heading = or_step(heading.copy(), steps)?;
    part_along(alloc, tree, by, id, cut, num.copy(), heading, steps)
}

// Whether one of the texts that a split writes is too long.
fn is_long(head: &Text, heading: &Text, tail: &Text) -> bool
    ensures { result ≡ (nat_lt MAX_TEXT_BYTES (length head.now)
        || (nat_lt MAX_TEXT_BYTES (length heading.now) || nat_lt MAX_TEXT_BYTES (length tail.now))) }
{
    head.as_str().len() > MAX_TEXT_BYTES
        || heading.as_str().len() > MAX_TEXT_BYTES
        || tail.as_str().len() > MAX_TEXT_BYTES
}

// The same, with a num and a heading of its own.
fn part_along<L: Ledger>(
    alloc: Global,
    tree: &mut Tree,
    by: Id,
    id: NodeId,
    cut: Cut,
    num: Num,
    heading: Text,
    steps: &mut Steps<L>,
) -> Result<Outcome, Memory>
    requires own { is_own tree.old ≡ true }
    requires fresh { has_brought by (tree_view tree.old).body ≡ false }
    requires node { has_node tree.old id ≡ true }
    requires provision { id ≡ 0 → ⊥ }
    requires place { cut.children ≤ length (children_at tree.old id) }
    requires fits { first_cause (tree_view tree.old) ≡ None }
    requires num { is_num num ≡ true }
    ensures own { is_own tree.new ≡ true }
    ensures outcome { IfOk result (λ o. o ≡ answer_to tree.old (split_with tree.old by id (Ok cut) num heading)) }
    ensures tree { OnOk result (tree_view tree.new
        ≡ settled tree.old (split_with tree.old by id (Ok cut) num heading)) }
    ensures kept { OnErr result (tree_view tree.new ≡ tree_view tree.old) }
    ensures step { steps.new ≡ steps.old + 1 }
{
    let Cut {
        children,
        head,
        tail,
    } = cut;
    let (parent, _place) = tree.place_of(id);
    let element = tree.provision(id).element;
    let long = is_long(&head, &heading, &tail);
    match fault_of_split(tree, parent, element, &num, long) {
        Some(fault) => Ok(held_back(fault.cause(), steps)),
        None => {
            tree.cut_node(alloc, id, children, head, tail, num, heading, by, steps)?;
            Ok(Outcome::Done)
        }
    }
}

// How the provision of a node is split. `Err`: the cause that holds the split back.
fn cut_of(
    alloc: Global,
    tree: &Tree,
    id: NodeId,
    at: &SplitAt,
) -> Result<Result<Cut, Cause>, Memory>
    requires { has_node tree.now id ≡ true }
    ensures cut { IfOk result (λ r. r ≡ at_node.cut_at tree.now id at.now) }
    ensures place { IfOk result (λ r. IfOk r (λ cut. cut.children ≤ length (children_at tree.now id))) }
{
    let content = tree.provision(id).content;
    match at {
        SplitAt::Text(spot) => cut_at_text(alloc, spot, content.as_str()),
        SplitAt::Child(child) => {
            let place = place_among(tree, tree.children(id), child.as_str());
            cut_at_child(alloc, content, place)
        }
    }
}

// The cut before an occurrence.
fn cut_at_text(alloc: Global, spot: &Spot, content: &str) -> Result<Result<Cut, Cause>, Memory>
    ensures cut { IfOk result (λ r. r
        ≡ spec.cut_at_text spot.now.old (parted_at spot.now.old spot.now.occurrence content.now)) }
    ensures place { IfOk result (λ r. IfOk r (λ cut. cut.children ≡ 0)) }
{
    let old = spot.old.as_str();
    match occurrences::parted_at(alloc, old, spot.occurrence, content)? {
        Some((front, behind)) => Ok(Ok(Cut {
            children: 0,
            head: Text::from_string(front)?,
            tail: Text::from_string(both(alloc, old, behind)?)?,
        })),
        None => Ok(Err(Cause::OldTextMissing)),
    }
}

// The cut before a child.
fn cut_at_child(
    alloc: Global,
    content: &Text,
    place: Option<usize>,
) -> Result<Result<Cut, Cause>, Memory>
    ensures { IfOk result (λ r. r ≡ spec.cut_at_child content.now place) }
{
    match place {
        Some(children) => Ok(Ok(Cut {
            children,
            head: content.copy()?,
            tail: Text::copy_of(alloc, "")?,
        })),
        None => Ok(Err(Cause::AnchorMissing)),
    }
}

// How many of these nodes stand before the one of a wId. `None`: none of them has it.
fn place_among(tree: &Tree, nodes: &[NodeId], wid: &str) -> Option<usize>
    requires { All (λ id. has_node tree.now id ≡ true) nodes.now }
    ensures place { result ≡ spec.place_among wid.now (branches_of (map (branch_at tree.now) nodes.now)) }
    ensures within { IfSome result (λ place. place ≤ length nodes.now) }
{
    for (place, id) in nodes.iter().enumerate() {
        if tree.provision(*id).wid.as_str() == wid {
            return Some(place);
        }
    }
    None
}
