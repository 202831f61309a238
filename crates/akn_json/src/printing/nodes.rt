//! The nodes that a modification brings, nested. Every key stands, whatever its value.

ghost use Rattle.std.specs.Prelude.{◌≡◌, ◌≤◌, ◌++◌, OnOk};
ghost use Rattle.json.specs.Tree.{json_tokens};
ghost use Rattle.serde_json.specs.Written.{outline};
ghost use Rattle.act_tree.specs.Branches.{branches_of, heights};
ghost use Rattle.act_tree.specs.Specs.{spec_view};
ghost use Rattle.act_tree.specs.declared.limits.TheConstants.{MAX_NESTED};
ghost use Rattle.akn_json.specs.Printing.Nodes.{brought_data, payload_data};

use super::lists::put_texts;
use super::members::put_text;
use act_tree::{NodeSpec, Nodes};
use desk_base::Memory;
use json::Writer;

// A node, with all beneath it.
#[cycle(brought)]
fn put_node(out: &mut Writer, node: &NodeSpec) -> Result<(), Memory>
    ensures tokens { OnOk result (out.new.tokens
        ≡ out.old.tokens ++ json_tokens (outline (brought_data (spec_view node.now)))) }
    ensures before { OnOk result (out.new.before ≡ out.old.before) }
{
    out.begin_object()?;
    out.key("children")?;
    put_nodes(out, &node.children)?;
    put_text(out, "content", node.content.as_str())?;
    put_text(out, "element", node.element.name())?;
    put_text(out, "heading", node.heading.as_str())?;
    put_text(out, "num", node.num.as_str())?;
    out.key("refs")?;
    put_texts(out, node.refs.as_slice())?;
    out.end_object()?;
    Ok(())
}

/// Nodes side by side, each with all beneath it.
#[cycle(brought)]
#[tactic(auto, using(act_tree::proofs::LowSpecs::heights_listed))]
pub fn put_nodes(out: &mut Writer, nodes: &Nodes) -> Result<(), Memory>
    ensures depth { heights (branches_of nodes.now) ≤ MAX_NESTED }
    ensures tokens { OnOk result (out.new.tokens ≡ out.old.tokens ++ json_tokens (outline (payload_data nodes.now))) }
    ensures before { OnOk result (out.new.before ≡ out.old.before) }
{
    let items = &nodes.items;
    out.begin_array()?;
    for node in items {
        put_node(out, node)?;
    }
    out.end_array()?;
    Ok(())
}
