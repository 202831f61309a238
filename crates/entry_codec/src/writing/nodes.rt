//! Nodes, which nest at most 12 deep, each level by a call of its own with one level less.

ghost use Rattle.std.specs.Prelude.{◌≡◌, ◌≤◌, ◌<◌, ◌++◌, map, OnOk, All};
ghost use Rattle.std.specs.List.{flat_map};
ghost use Rattle.act_tree.specs.Specs.{own_of, spec_view, specs_view};
ghost use Rattle.act_tree.specs.declared.limits.TheConstants.{MAX_DEPTH};
ghost use Rattle.entry_codec.specs.Nodes as spec;
ghost use Rattle.entry_codec.specs.Typed as typed;

use super::numbers::{put_count, put_number16};
use super::texts::{put_num, put_refs, put_text};
use act_tree::{NodeSpec, Nodes};
use desk_base::Memory;

// What a node says of itself.
#[tactic(auto, unfolding(crate::specs::Nodes::own, crate::specs::Nodes::element))]
fn put_own(out: &mut Vec<u8>, node: &NodeSpec) -> Result<(), Memory>
    ensures bytes { OnOk result (out.new.items ≡ out.old.items ++ spec.own.spell (own_of node.now)) }
    ensures typed { OnOk result (typed.IsOwn (own_of node.now)) }
{
    out.push(node.element.place() as u8)?;
    put_num(out, &node.num)?;
    put_text(out, node.heading.as_str())?;
    put_text(out, node.content.as_str())?;
    put_refs(out, &node.refs)?;
    Ok(())
}

// A node, beneath which nodes nest so deep at most.
#[cycle(putting)]
fn put_node(out: &mut Vec<u8>, depth: u8, node: &NodeSpec) -> Result<(), Memory>
    requires depth { depth < MAX_DEPTH }
    ensures bytes { OnOk result (out.new.items ≡ out.old.items ++ (spec.node depth).spell (spec_view node.now)) }
    ensures typed { OnOk result (typed.IsNodeTo depth (spec_view node.now)) }
{
    put_own(out, node)?;
    put_nodes(out, depth, &node.children)?;
    Ok(())
}

#[cycle(putting)]
fn put_each_node(out: &mut Vec<u8>, depth: u8, nodes: &[NodeSpec]) -> Result<(), Memory>
    requires depth { depth < MAX_DEPTH }
    ensures bytes { OnOk result (out.new.items ≡ out.old.items ++ flat_map (spec.node depth).spell (specs_view nodes.now)) }
    ensures typed { OnOk result (All (λ n. typed.IsNodeTo depth (spec_view n)) nodes.now) }
{
    for node in nodes {
        put_node(out, depth, node)?;
    }
    Ok(())
}

// Nodes that nest so deep at most. No others have an entry that can be spelled.
#[cycle(putting)]
fn put_nodes(out: &mut Vec<u8>, depth: u8, nodes: &Nodes) -> Result<(), Memory>
    requires depth { depth ≤ MAX_DEPTH }
    ensures bytes { OnOk result (out.new.items ≡ out.old.items ++ (spec.nodes depth).spell nodes.now) }
    ensures typed { OnOk result (typed.AreNodesTo depth nodes.now) }
{
    if depth == 0 {
        return put_number16(out, 0);
    }
    put_count(out, nodes.items.len())?;
    put_each_node(out, depth - 1, nodes.items.as_slice())?;
    Ok(())
}

/// The nodes that an act or an edit brings.
#[tactic(auto, unfolding(crate::specs::Nodes::payload))]
pub(super) fn put_payload(out: &mut Vec<u8>, nodes: &Nodes) -> Result<(), Memory>
    ensures bytes { OnOk result (out.new.items ≡ out.old.items ++ spec.payload.spell nodes.now) }
    ensures typed { OnOk result (typed.IsPayload nodes.now) }
{
    put_nodes(out, 12, nodes)
}
