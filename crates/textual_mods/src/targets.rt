//! The provisions that an edit names.

ghost use Rattle.std.specs.Prelude.{◌≡◌, IfSome, option_map, true};
ghost use Rattle.act_tree.specs.Branches.{branch};
ghost use Rattle.act_tree.specs.Changes.{any_holds};
ghost use Rattle.act_tree.specs.Seen.{tree_view, has_node, provision_at, below_at};
ghost use Rattle.textual_mods.specs.Targets as spec;

use act_tree::{NodeId, Tree};

/// The provision of a wId. `None`: no provision has it; the root is none.
pub fn provision_named(tree: &Tree, wid: &str) -> Option<NodeId>
    ensures named { option_map (λ id. branch (provision_at tree.now id) (below_at tree.now id)) result
        ≡ spec.provision_named wid.now (tree_view tree.now).body }
    ensures node { IfSome result (λ id. has_node tree.now id ≡ true) }
    ensures provision { IfSome result (λ id. id ≡ 0 → ⊥) }
    ensures held { IfSome result (λ id. any_holds wid.now (tree_view tree.now).body ≡ true) }
    ensures wid { IfSome result (λ id. (provision_at tree.now id).wid ≡ wid.now) }
{
    let id = tree.find(wid.as_bytes())?;
    if id == tree.root() {
        return None;
    }
    Some(id)
}
