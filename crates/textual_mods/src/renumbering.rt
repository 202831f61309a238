//! Renumbering: provisions get other nums, all at once.

ghost use Rattle.std.specs.Prelude.{◌≡◌, ◌+◌, true, None, Ok, is_some, map, IfOk, IfSome, OnOk, OnErr};
ghost use Rattle.std.specs.List.{All, list_all};
ghost use Rattle.act_tree.specs.Changes.{renumbered};
ghost use Rattle.act_tree.specs.Faults.{first_cause};
ghost use Rattle.act_tree.specs.Seen.{is_own, tree_view, has_node, nums_by_wid};
ghost use Rattle.eid_paths.specs.Nums.{is_num};
ghost use Rattle.textual_mods.specs.Edits.{answer_to, settled};
ghost use Rattle.textual_mods.specs.Renumberings.{nums_given};
ghost use Rattle.textual_mods.specs.Targets as spec;

use crate::held_back::{held_back, or_step};
use crate::num_changes::one_taken;
use crate::targets::provision_named;
use crate::{Outcome, Pairs};
use act_tree::{Cause, NodeId, Tree};
use desk_base::{Memory, Steps};
use eid_paths::Num;
use std::alloc::Global;
use std::sync::ledger::Ledger;

/// Gives each provision that a pair names the num of the pair. Only a num that is taken can hold that back, and whether
/// one is, is known before.
pub fn renumber<L: Ledger>(
    alloc: Global,
    tree: &mut Tree,
    pairs: &Pairs,
    steps: &mut Steps<L>,
) -> Result<Outcome, Memory>
    requires own { is_own tree.old ≡ true }
    requires fits { first_cause (tree_view tree.old) ≡ None }
    ensures own { is_own tree.new ≡ true }
    ensures outcome { IfOk result (λ o. o ≡ answer_to tree.old (nums_given pairs.now)) }
    ensures tree { OnOk result (tree_view tree.new ≡ settled tree.old (nums_given pairs.now)) }
    ensures kept { OnErr result (tree_view tree.new ≡ tree_view tree.old) }
    ensures step { steps.new ≡ steps.old + 1 }
{
    let Some(named) = or_step(nodes_named(alloc, tree, pairs), steps)? else {
        return Ok(held_back(Cause::TargetMissing, steps));
    };
    give_nums(alloc, tree, named.as_slice(), steps)
}

// Gives nodes other nums, unless one is taken.
fn give_nums<L: Ledger>(
    alloc: Global,
    tree: &mut Tree,
    named: &[(NodeId, Num)],
    steps: &mut Steps<L>,
) -> Result<Outcome, Memory>
    requires own { is_own tree.old ≡ true }
    requires fits { first_cause (tree_view tree.old) ≡ None }
    requires nodes { All (λ pair. has_node tree.old pair.0 ≡ true) named.now }
    requires provisions { All (λ pair. pair.0 ≡ 0 → ⊥) named.now }
    requires nums { All (λ pair. is_num pair.1 ≡ true) named.now }
    ensures own { is_own tree.new ≡ true }
    ensures outcome { IfOk result (λ o. o ≡ answer_to tree.old (λ body.
        Ok (renumbered (nums_by_wid tree.old named.now) body))) }
    ensures tree { OnOk result (tree_view tree.new ≡ settled tree.old (λ body.
        Ok (renumbered (nums_by_wid tree.old named.now) body))) }
    ensures kept { OnErr result (tree_view tree.new ≡ tree_view tree.old) }
    ensures step { steps.new ≡ steps.old + 1 }
{
    let taken = or_step(one_taken(alloc, tree, named), steps)?;
    if taken {
        return Ok(held_back(Cause::NumberTaken, steps));
    }
    tree.set_nums(named, steps);
    Ok(Outcome::Done)
}

// The nodes that pairs name, each with the num that it gets. `None`: one names no provision.
fn nodes_named(
    alloc: Global,
    tree: &Tree,
    pairs: &Pairs,
) -> Result<Option<Vec<(NodeId, Num)>>, Memory>
    ensures found { IfOk result (λ r. is_some r
        ≡ list_all (λ pair. is_some (spec.provision_named pair.0 (tree_view tree.now).body)) pairs.now) }
    ensures nodes { IfOk result (λ r. IfSome r (λ named. All (λ pair. has_node tree.now pair.0 ≡ true) named.items)) }
    ensures provisions { IfOk result (λ r. IfSome r (λ named. All (λ pair. pair.0 ≡ 0 → ⊥) named.items)) }
    ensures nums { IfOk result (λ r. IfSome r (λ named. All (λ pair. is_num pair.1 ≡ true) named.items)) }
    ensures wids { IfOk result (λ r. IfSome r (λ named. nums_by_wid tree.now named.items ≡ pairs.now)) }
{
    let mut named = Vec::new(alloc);
    for (wid, num) in pairs.as_slice() {
        match provision_named(tree, wid.as_str()) {
            Some(id) => named.push((id, num.copy()))?,
            None => return Ok(None),
        }
    }
    Ok(Some(named))
}
