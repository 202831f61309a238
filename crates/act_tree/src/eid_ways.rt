//! The way down to the node of an eId: from a provision that begins one, by the levels with which it goes on.

ghost use Rattle.std.specs.Prelude.{◌≡◌, ◌<◌, ◌≤◌, ◌+◌, is_some, length, take, drop, IfSome};
ghost use Rattle.eid_paths.specs.Eids.{eid_text};
ghost use Rattle.act_tree.specs.Branches.{heights};
ghost use Rattle.act_tree.specs.EidsOfNodes.{IsNodeOf};
ghost use Rattle.act_tree.specs.Seen.{tree_view, below_at};
ghost use Rattle.act_tree.specs.WaysDown.{has_way};
ghost use Rattle.act_tree.specs.declared.limits.TheConstants.{MAX_DEPTH};

use crate::levels::goes_on_at;
use crate::{NodeId, Tree};
use eid_paths::Eid;

/// The node of an eId, at or beneath one that has the eId of its first so many levels; where more have it, one of them.
/// Each call goes to a child.
pub fn go_on(tree: &Tree, levels: &Eid<'_>, named: usize, id: NodeId) -> Option<NodeId>
    requires node { IsNodeOf tree.now (eid_text (take named levels.now)) id }
    requires some { 0 < named }
    requires within { named ≤ length levels.now }
    requires depth { heights (below_at tree.now id) ≤ MAX_DEPTH }
    ensures found { is_some result
        ≡ has_way (tree_view tree.now).numbering (drop named levels.now) (below_at tree.now id) }
    ensures node { IfSome result (IsNodeOf tree.now (eid_text levels.now)) }
{
    if named == levels.len() {
        return Some(id);
    }
    let level = levels.level(named);
    let children = tree.children(id);
    for child in children {
        if !goes_on_at(tree, level.element, &level.num, *child) {
            continue;
        }
        let found = go_on(tree, levels, named + 1, *child);
        if found.is_some() {
            return found;
        }
    }
    None
}
