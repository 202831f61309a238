//! What holds of every tree and every change. Each law is a function that does nothing, whose clause is the law.

ghost use Rattle.std.specs.Prelude.{◌≡◌, ◌||◌, ◌↔◌, IsTrue, false, true, None, Some, ℕ, List, map};
ghost use Rattle.act_tree.specs.Branches.{Branch, listed, branches_of};
ghost use Rattle.act_tree.specs.Changes.{any_holds, changed, renumbered, with_content, without};
ghost use Rattle.act_tree.specs.EidLevels.{has_beginning_twice, has_siblings_alike};
ghost use Rattle.act_tree.specs.EidsOfNodes.{IsNodeOf};
ghost use Rattle.act_tree.specs.EidsOfWids.{eid_of_wid};
ghost use Rattle.act_tree.specs.Faults.{first_cause, eids_of};
ghost use Rattle.act_tree.specs.NodesStay.{NodesStay};
ghost use Rattle.act_tree.specs.Provisions.{Own};
ghost use Rattle.act_tree.specs.Seen.{tree_view, has_node, provision_at};
ghost use Rattle.act_tree.specs.Wids.{all_wids, is_among, one_twice};
ghost use Rattle.act_tree.specs.declared.limits.TheConstants as limit;
ghost use Rattle.act_tree.specs.declared.surveying.TheConstants.{NONE_THROUGHOUT};
ghost use Rattle.eid_paths.specs.Elements.{is_throughout};
ghost use Rattle.eid_paths.specs.declared.element.Element.{Element};

use crate::{NodeId, Nodes, Refs, Tree};

/// The limits that act and edit have to keep, in numbers: how deep a text is, how deep what is brought may nest before it is
/// judged, how many provisions a text has, the bytes of a heading, a content or a text of an edit, the bytes of a wId, and the refs of a node.
pub fn limits_in_numbers()
    ensures depth { limit.MAX_DEPTH ≡ 12 }
    ensures nested { limit.MAX_NESTED ≡ 64 }
    ensures nodes { limit.MAX_NODES ≡ 4096 }
    ensures wide_nodes { limit.MAX_WIDE_NODES ≡ 8192 }
    ensures text_bytes { limit.MAX_TEXT_BYTES ≡ 16384 }
    ensures wid_bytes { limit.MAX_WID_BYTES ≡ 512 }
    ensures refs { limit.MAX_REFS ≡ 16 }
{}

/// The numbering of acts that number nothing throughout is one by which no element is numbered throughout.
pub fn none_is_throughout()
    ensures { (element : Element) → is_throughout NONE_THROUGHOUT element ≡ false }
{}

/// Of a wId that is taken away no provision is left, at any depth.
pub fn none_is_left(tree: &Tree, wid: &str)
    ensures { any_holds wid.now (without wid.now (tree_view tree.now).body) ≡ false }
{}

/// To take away a wId that is not in a tree leaves its text as it is.
pub fn missing_changes_nothing(tree: &Tree, wid: &str)
    requires { any_holds wid.now (tree_view tree.now).body ≡ false }
    ensures { without wid.now (tree_view tree.now).body ≡ (tree_view tree.now).body }
{}

/// Other nums leave the wIds of a text as they are, in order.
pub fn nums_keep_wids(tree: &Tree)
    ensures { let body = (tree_view tree.now).body in
        (pairs : List (List ℕ × List ℕ)) → all_wids (renumbered pairs body) ≡ all_wids body }
{}

/// So does another content of a provision.
pub fn contents_keep_wids(tree: &Tree, wid: &str, content: &str)
    ensures { let body = (tree_view tree.now).body in
        all_wids (changed (with_content content.now) wid.now body) ≡ all_wids body }
{}

/// Two nodes of one wId are one node.
pub fn nodes_are_told_by_wids(tree: &Tree, one: NodeId, other: NodeId)
    requires one { has_node tree.now one ≡ true }
    requires other { has_node tree.now other ≡ true }
    requires same { (provision_at tree.now one).wid ≡ (provision_at tree.now other).wid }
    ensures { one ≡ other }
{}

/// A number stays good through each change (`stay` of each, which is this premise): the node that has the wId of a node
/// after it is the same number, so that a search for the wId finds again what it found.
pub fn nodes_keep_numbers(earlier: &Tree, later: &Tree, before: NodeId, after: NodeId)
    requires stay { NodesStay earlier.now later.now }
    requires before { has_node earlier.now before ≡ true }
    requires after { has_node later.now after ≡ true }
    requires same { (provision_at later.now after).wid ≡ (provision_at earlier.now before).wid }
    ensures { after ≡ before }
{}

/// After an `Err` of a change the text is as it was and nodes stay (`kept` and `stay` of each): so the same numbers are
/// nodes, and each says what it said.
pub fn failed_change_leaves_nodes(earlier: &Tree, later: &Tree, id: NodeId)
    requires stay { NodesStay earlier.now later.now }
    requires text { tree_view later.now ≡ tree_view earlier.now }
    ensures nodes { has_node later.now id ≡ has_node earlier.now id }
    ensures says { has_node earlier.now id ≡ true → provision_at later.now id ≡ provision_at earlier.now id }
{}

/// A change that leaves all nodes and their wIds, as that of a content or of nums, is one through which nodes stay.
pub fn nodes_left_stay(earlier: &Tree, later: &Tree)
    requires nodes { (k : ℕ) → has_node later.now k ≡ has_node earlier.now k }
    requires wids { (k : ℕ) → (provision_at later.now k).wid ≡ (provision_at earlier.now k).wid }
    ensures { NodesStay earlier.now later.now }
{}

/// The eIds of a well-formed tree are distinct: two nodes of one eId are one node.
pub fn eids_are_distinct(tree: &Tree, eid: &str, one: NodeId, other: NodeId)
    requires well_formed { first_cause (tree_view tree.now) ≡ None }
    requires one { IsNodeOf tree.now eid.now one }
    requires other { IsNodeOf tree.now eid.now other }
    ensures { one ≡ other }
{}

/// The eId of a node is among those of the text, so that a search for it finds a node: by the law above, in a
/// well-formed tree that node.
pub fn eid_of_a_node_is_found(tree: &Tree, eid: &str, id: NodeId)
    requires { IsNodeOf tree.now eid.now id }
    ensures { is_among eid.now (eids_of (tree_view tree.now)) ≡ true }
{}

/// The eIds of the wIds of a text, one after another, are those of its provisions in the order of the text.
pub fn eids_are_those_of_wids(tree: &Tree)
    ensures { map (eid_of_wid (tree_view tree.now)) (all_wids (tree_view tree.now).body)
        ≡ map (λ eid. Some eid) (eids_of (tree_view tree.now)) }
{}

/// The eIds of a text are distinct exactly where the levels that begin one are distinct in the whole text, and those
/// that begin none among siblings. (An eId is the list of levels from the nearest provision that begins one, and no
/// level has `__` in it, so equal texts are equal lists.)
pub fn eids_differ_where_levels_do(tree: &Tree)
    ensures { one_twice (eids_of (tree_view tree.now))
        ≡ (has_beginning_twice (tree_view tree.now) || has_siblings_alike (tree_view tree.now)) }
{}

/// The provisions of a tree, told as a list, are again its provisions.
pub fn listed_is_whole(tree: &Tree)
    ensures { branches_of (listed (tree_view tree.now).body) ≡ (tree_view tree.now).body }
{}

/// Nodes, told as branches, are again the nodes.
pub fn nodes_are_whole(nodes: &Nodes)
    ensures { listed (branches_of nodes.now) ≡ nodes.now }
{}

/// `==` holds of nodes and of refs exactly where they are equal.
#[tactic(auto, using(crate::specs::SameNodes::nodes_decide, crate::specs::SameNodes::refs_decide))]
pub fn equality_is_decided()
    ensures nodes { (a b : List (Branch Own)) → IsTrue (⟦<Nodes as PartialEq>⟧.eq a b) ↔ (a ≡ b) }
    ensures refs { (a b : List (List ℕ)) → IsTrue (⟦<Refs as PartialEq>⟧.eq a b) ↔ (a ≡ b) }
{}
