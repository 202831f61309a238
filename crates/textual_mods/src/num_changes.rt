//! Nums that provisions get: whether one is taken, which is known before any is given.

ghost use Rattle.std.specs.Prelude.{◌≡◌, ◌==◌, ◌&&◌, ◌||◌, map, not, true, None, IfOk};
ghost use Rattle.std.specs.List.{All, list_any};
ghost use Rattle.std.specs.Str.{bytes_eq};
ghost use Rattle.act_tree.specs.Faults.{first_cause};
ghost use Rattle.act_tree.specs.Seen.{tree_view, has_node, provision_at, nums_by_wid};
ghost use Rattle.act_tree.specs.Wids.{is_among};
ghost use Rattle.eid_paths.specs.Levels.{level_text};
ghost use Rattle.textual_mods.specs.NumChanges.{IsChange, IsUnder, gets_too, gives_up, is_taken, level_given, levels_under, num_by_node, num_taken};

use act_tree::{NodeId, Tree};
use desk_base::Memory;
use eid_paths::{Element, Num};
use std::alloc::Global;

// How the num of a node changes. `under` is the node beneath which no other may have its level: the root, where it
// begins an eId, or else the one right above it.
#[derive(Drop)]
struct NumChange {
    id: NodeId,
    under: NodeId,
    element: Element,
    before: Num,
    num: Num,
}

// The num that a node gets, by the first pair that names it, or else the one that it had.
fn num_for(named: &[(NodeId, Num)], id: NodeId, before: &Num) -> Num
    ensures { result ≡ num_by_node named.now id before.now }
{
    for (node, num) in named {
        if *node == id {
            return num.copy();
        }
    }
    before.copy()
}

// The node beneath which no other may have the level of this one.
fn node_above(tree: &Tree, id: NodeId) -> NodeId
    requires node { has_node tree.now id ≡ true }
    requires provision { id ≡ 0 → ⊥ }
    ensures { IsUnder tree.now id result }
{
    if tree.numbering().has(tree.provision(id).element) {
        return tree.root();
    }
    tree.parent(id)
}

fn change_of(tree: &Tree, named: &[(NodeId, Num)], id: NodeId) -> NumChange
    requires node { has_node tree.now id ≡ true }
    requires provision { id ≡ 0 → ⊥ }
    ensures id { result.id ≡ id }
    ensures change { IsChange tree.now named.now result }
{
    let provision = tree.provision(id);
    let before = provision.num.copy();
    let num = num_for(named, id, &before);
    NumChange {
        id,
        under: node_above(tree, id),
        element: provision.element,
        before,
        num,
    }
}

// How the nums of the nodes change that pairs name.
fn changes_of(alloc: Global, tree: &Tree, named: &[(NodeId, Num)]) -> Result<Vec<NumChange>, Memory>
    requires nodes { All (λ pair. has_node tree.now pair.0 ≡ true) named.now }
    requires provisions { All (λ pair. pair.0 ≡ 0 → ⊥) named.now }
    ensures each { IfOk result (λ changes. All (IsChange tree.now named.now) changes.items) }
    ensures nodes { IfOk result (λ changes.
        map (λ change. change.id) changes.items ≡ map (λ pair. pair.0) named.now) }
{
    let mut changes = Vec::new(alloc);
    for (id, _) in named {
        changes.push(change_of(tree, named, *id))?;
    }
    Ok(changes)
}

/// Whether two levels are one. (The copies carry the rule of nums, by which equal levels have equal parts.)
pub fn is_level(element: Element, num: &Num, other: Element, other_num: &Num) -> bool
    ensures { result ≡ bytes_eq (level_text element num.now) (level_text other other_num.now) }
{
    let num = num.copy();
    let other_num = other_num.copy();
    let same = other_num == num;
    other == element && same
}

// Whether another node gets the level that a node gets, where both may not have it.
fn gets_too(change: &NumChange, other: &NumChange) -> bool
    ensures { result ≡ gets_too change.now other.now }
{
    if other.id == change.id || other.under != change.under {
        return false;
    }
    is_level(change.element, &change.num, other.element, &other.num)
}

// Whether a node gives up the level that a node gets.
fn gives_up(change: &NumChange, other: &NumChange) -> bool
    ensures { result ≡ gives_up change.now other.now }
{
    if other.under != change.under {
        return false;
    }
    is_level(change.element, &change.num, other.element, &other.before)
}

// Whether one of these gets the level that a node gets, too.
fn is_given_twice(changes: &[NumChange], change: &NumChange) -> bool
    ensures { result ≡ list_any (gets_too change.now) changes.now }
{
    for other in changes {
        if gets_too(change, other) {
            return true;
        }
    }
    false
}

// Whether one of these gives up the level that a node gets.
fn is_given_up(changes: &[NumChange], change: &NumChange) -> bool
    ensures { result ≡ list_any (gives_up change.now) changes.now }
{
    for other in changes {
        if gives_up(change, other) {
            return true;
        }
    }
    false
}

// Whether the level that a node gets stands in the tree, where the node may not have it, too.
fn stands(tree: &Tree, change: &NumChange) -> bool
    requires { has_node tree.now change.now.under ≡ true }
    ensures { result ≡ is_among (level_given change.now) (levels_under tree.now change.now.under) }
{
    if change.under == tree.root() {
        tree.has_level(change.element, &change.num)
    } else {
        tree.has_child_level(change.under, change.element, &change.num)
    }
}

// Whether the num that a node gets is taken.
fn is_taken(tree: &Tree, changes: &[NumChange], change: &NumChange) -> bool
    requires { has_node tree.now change.now.under ≡ true }
    ensures { result ≡ is_taken tree.now changes.now change.now }
{
    if is_given_twice(changes, change) {
        return true;
    }
    stands(tree, change) && !is_given_up(changes, change)
}

// Whether one of the nums that nodes get is taken.
fn are_taken(tree: &Tree, changes: &[NumChange]) -> bool
    requires { All (λ change. has_node tree.now change.under ≡ true) changes.now }
    ensures { result ≡ list_any (is_taken tree.now changes.now) changes.now }
{
    for change in changes {
        if is_taken(tree, changes, change) {
            return true;
        }
    }
    false
}

/// Whether one of the nums that nodes get is taken. The tree is asked for the levels that are given, once for each node
/// that is named, and what the nodes that are named get and give up is compared; none of its eIds is spelled.
pub fn one_taken(alloc: Global, tree: &Tree, named: &[(NodeId, Num)]) -> Result<bool, Memory>
    requires fits { first_cause (tree_view tree.now) ≡ None }
    requires nodes { All (λ pair. has_node tree.now pair.0 ≡ true) named.now }
    requires provisions { All (λ pair. pair.0 ≡ 0 → ⊥) named.now }
    ensures { IfOk result (λ taken. taken ≡ num_taken (tree_view tree.now) (nums_by_wid tree.now named.now)) }
{
    let changes = changes_of(alloc, tree, named)?;
    Ok(are_taken(tree, changes.as_slice()))
}
