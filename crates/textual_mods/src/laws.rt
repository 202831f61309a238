//! What holds of every edit. Each law is a function that does nothing, whose clause is the law.

ghost use Rattle.std.specs.Prelude.{◌≡◌, ◌↔◌, ℕ, IsTrue, List, None, Some, false, true, option_map, slice_get};
ghost use Rattle.std.specs.List.{list_all};
ghost use Rattle.act_tree.specs.Branches.{branches_of};
ghost use Rattle.act_tree.specs.Brought.{brought, has_brought};
ghost use Rattle.act_tree.specs.Changes.{renumbered};
ghost use Rattle.act_tree.specs.Eids.{all_enacted};
ghost use Rattle.act_tree.specs.Faults.{fault_cause, first_cause, first_fault};
ghost use Rattle.act_tree.specs.Seen.{tree_view, has_node, children_at, grafted_at, substituted_at, with_body};
ghost use Rattle.act_tree.specs.declared.limits.NodeLimit.TheVariants.{Plain};
ghost use Rattle.act_tree.specs.declared.surveying.TheConstants.{NONE_THROUGHOUT};
ghost use Rattle.act_tree.specs.Trees.{unchanged};
ghost use Rattle.act_tree.specs.Wids.{all_wids, one_twice};
ghost use Rattle.eid_paths.specs.Nums.{is_num};
ghost use Rattle.textual_mods.specs.Insertions.{have_nums, insertion_fault};
ghost use Rattle.textual_mods.specs.NumChanges.{renumbering_fault};
ghost use Rattle.textual_mods.specs.Substitutions.{substitution_fault};
ghost use Rattle.textual_mods.specs.declared.edit.TextualMod.{TextualMod as EditValue};
ghost use Rattle.textual_mods.specs.declared.fitting.TheConstants as limit;

use crate::{Pairs, TextualMod};
use act_tree::{NodeId, NodeLimit, Nodes, Tree};
use desk_base::Id;
use eid_paths::Numbering;

/// The limit of what an edit brings and names, in a number: of nodes side by side, and of pairs of a renumbering.
pub fn limits_in_numbers()
    ensures items { limit.MAX_ITEMS ≡ 64 }
{}

/// The tree of an act as enacted is well-formed, if the nodes make a tree: an edit may be applied to it.
pub fn enacted_is_well_formed(nodes: &Nodes, numbering: Numbering, limit: NodeLimit)
    requires { first_fault numbering limit (branches_of nodes.now) ≡ None }
    ensures { first_cause (unchanged numbering limit (all_enacted numbering None (branches_of nodes.now))) ≡ None }
{}

/// An act as enacted has no wId of a modification.
pub fn enacted_brings_nothing(nodes: &Nodes, numbering: Numbering, by: Id)
    ensures { has_brought by (all_enacted numbering None (branches_of nodes.now)) ≡ false }
{}

/// No two provisions of a tree have one wId, whatever was done to it.
pub fn wids_are_distinct(tree: &Tree)
    ensures { one_twice (all_wids (tree_view tree.now).body) ≡ false }
{}

/// What can be held against an insertion is told before it is made, by what is brought: a level of it that begins an eId
/// begins one already, or stands in it twice; a level of it that begins none is that of a sibling; the text would be too
/// deep, or would have too many provisions.
pub fn faults_of_insertions_are_told_before(tree: &Tree, parent: NodeId, by: Id, nodes: &Nodes)
    requires fits { first_cause (tree_view tree.now) ≡ None }
    requires node { has_node tree.now parent ≡ true }
    requires payload { first_fault NONE_THROUGHOUT Plain (branches_of nodes.now) ≡ None }
    requires nums { have_nums (branches_of nodes.now) ≡ true }
    ensures { (place : ℕ) → first_cause (with_body tree.now (grafted_at tree.now parent place
        (brought by (branches_of nodes.now))))
        ≡ option_map fault_cause (insertion_fault tree.now parent (branches_of nodes.now)) }
{}

/// What can be held against a substitution of a provision is told before it is made: others in its place are an
/// insertion, among the children of the node right above it, into the text that is left without it. So a level of what
/// goes may come again, and what goes makes room in height and number.
pub fn faults_of_substitutions_are_told_before(
    tree: &Tree,
    id: NodeId,
    parent: NodeId,
    place: usize,
    by: Id,
    nodes: &Nodes,
)
    requires fits { first_cause (tree_view tree.now) ≡ None }
    requires node { has_node tree.now id ≡ true }
    requires provision { id ≡ 0 → ⊥ }
    requires parent { has_node tree.now parent ≡ true }
    requires child { slice_get (children_at tree.now parent) place ≡ Some id }
    requires payload { first_fault NONE_THROUGHOUT Plain (branches_of nodes.now) ≡ None }
    requires nums { have_nums (branches_of nodes.now) ≡ true }
    ensures { first_cause (with_body tree.now (substituted_at tree.now id (brought by (branches_of nodes.now))))
        ≡ option_map fault_cause (substitution_fault tree.now id parent (branches_of nodes.now)) }
{}

/// What can be held against a renumbering is told before it is made: a provision that gets a num has then the level of
/// another, where both begin an eId, or are siblings that begin none.
pub fn faults_of_renumberings_are_told_before(tree: &Tree, pairs: &Pairs)
    requires fits { first_cause (tree_view tree.now) ≡ None }
    requires nums { list_all (λ pair. is_num pair.1) pairs.now ≡ true }
    ensures { first_cause (with_body tree.now (renumbered pairs.now (tree_view tree.now).body))
        ≡ option_map fault_cause (renumbering_fault (tree_view tree.now) pairs.now) }
{}

/// `==` holds of edits, and of pairs, exactly where they are equal.
#[tactic(auto, using(crate::proofs::Equality::edits_decide, crate::specs::SamePairs::pairs_decide))]
pub fn equality_is_decided()
    ensures edits { (a b : EditValue) → IsTrue (⟦<TextualMod as PartialEq>⟧.eq a b) ↔ (a ≡ b) }
    ensures pairs { (a b : List (List ℕ × List ℕ)) → IsTrue (⟦<Pairs as PartialEq>⟧.eq a b) ↔ (a ≡ b) }
{}
