//! Applying a textual modification: one step, which changes the tree once or leaves it.

ghost use Rattle.std.specs.Prelude.{◌≡◌, true, ◌+◌, ◌<◌, ◌^◌, None, false, IfOk, OnOk, OnErr};
ghost use Rattle.act_tree.specs.Brought.{has_brought};
ghost use Rattle.act_tree.specs.Faults.{first_cause};
ghost use Rattle.act_tree.specs.Seen.{is_own, tree_view};
ghost use Rattle.textual_mods.specs.Edits.{IsSound, applied, outcome_of, tree_with};

use crate::joining::join;
use crate::renumbering::renumber;
use crate::splitting::split;
use crate::structure::{insert_nodes, repeal, substitute_nodes};
use crate::text::{insert_text, substitute_text};
use crate::{Outcome, TextualMod};
use act_tree::Tree;
use desk_base::{Id, Memory, Steps};
use std::alloc::Global;
use std::sync::ledger::Ledger;

/// Applies the edit of the modification of the id `by` to a tree that is well-formed and has no wId of that
/// modification yet. `Unapplied`: the tree is as it was. It is one step, whatever is answered. `Err`: there was not
/// enough memory, and the tree is as it was.
pub fn apply<L: Ledger>(
    alloc: Global,
    tree: &mut Tree,
    by: Id,
    edit: &TextualMod,
    steps: &mut Steps<L>,
) -> Result<Outcome, Memory>
    requires own { is_own tree.old ≡ true }
    requires fits { first_cause (tree_view tree.old) ≡ None }
    requires fresh { has_brought by (tree_view tree.old).body ≡ false }
    requires sound { IsSound edit.now }
    ensures own { is_own tree.new ≡ true }
    ensures outcome { IfOk result (λ o. o ≡ outcome_of (applied (tree_view tree.old) by edit.now)) }
    ensures tree { OnOk result (tree_view tree.new ≡ tree_with (tree_view tree.old) by edit.now) }
    ensures kept { OnErr result (tree_view tree.new ≡ tree_view tree.old) }
    ensures step { steps.new ≡ steps.old + 1 }
    ensures fits { first_cause (tree_view tree.new) ≡ None }
    ensures others { (other : Id) → other.law < 2 ^ 32 → other.item < 2 ^ 16 → (other ≡ by → ⊥)
        → has_brought other (tree_view tree.old).body ≡ false → has_brought other (tree_view tree.new).body ≡ false }
{
    // The parts are named so that the proof knows that they fit their types.
    let Id { law, item } = by;
    edit_tree(alloc, tree, Id { law, item }, edit, steps)
}

// The same, by the kind of the edit.
fn edit_tree<L: Ledger>(
    alloc: Global,
    tree: &mut Tree,
    by: Id,
    edit: &TextualMod,
    steps: &mut Steps<L>,
) -> Result<Outcome, Memory>
    requires own { is_own tree.old ≡ true }
    requires fits { first_cause (tree_view tree.old) ≡ None }
    requires fresh { has_brought by (tree_view tree.old).body ≡ false }
    requires sound { IsSound edit.now }
    ensures own { is_own tree.new ≡ true }
    ensures outcome { IfOk result (λ o. o ≡ outcome_of (applied (tree_view tree.old) by edit.now)) }
    ensures tree { OnOk result (tree_view tree.new ≡ tree_with (tree_view tree.old) by edit.now) }
    ensures kept { OnErr result (tree_view tree.new ≡ tree_view tree.old) }
    ensures step { steps.new ≡ steps.old + 1 }
{
    match edit {
        TextualMod::Repeal { wid } => Ok(repeal(tree, wid.as_str(), steps)),
        TextualMod::SubstituteNodes { wid, new } => {
            substitute_nodes(alloc, tree, by, wid.as_str(), new, steps)
        }
        TextualMod::SubstituteText { wid, spot, new } => {
            substitute_text(alloc, tree, wid.as_str(), spot, new.as_str(), steps)
        }
        TextualMod::InsertNodes { wid, pos, new } => {
            insert_nodes(alloc, tree, by, wid.as_str(), *pos, new, steps)
        }
        TextualMod::InsertText { wid, at, new } => {
            insert_text(alloc, tree, wid.as_str(), at, new.as_str(), steps)
        }
        TextualMod::Renumber { pairs } => renumber(alloc, tree, pairs, steps),
        TextualMod::Split {
            wid,
            at,
            num,
            heading,
        } => split(alloc, tree, by, wid.as_str(), at, num, heading, steps),
        TextualMod::Join {
            wid,
            second,
            separator,
        } => join(
            alloc,
            tree,
            wid.as_str(),
            second.as_str(),
            separator.as_str(),
            steps,
        ),
    }
}
