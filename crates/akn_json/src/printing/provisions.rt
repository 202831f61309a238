//! The provisions of an answer, nested.

ghost use Rattle.std.specs.Prelude.{◌≡◌, ◌≤◌, ◌++◌, OnOk};
ghost use Rattle.json.specs.Tree.{json_tokens, items_tokens, members_tokens};
ghost use Rattle.serde_json.specs.Data.{array};
ghost use Rattle.serde_json.specs.Written.{outline, items_outline, members_outline};
ghost use Rattle.act_tree.specs.Branches.{branches_of, heights};
ghost use Rattle.act_tree.specs.declared.limits.TheConstants.{MAX_DEPTH};
ghost use Rattle.akn_json.specs.Printing.Answers.{node_data, nodes_data, wid_data};
ghost use Rattle.law_register.specs.Answer.ShownNodes.{shown_view};

use super::lists::put_texts;
use super::members::{put_flag, put_text};
use desk_base::Memory;
use json::Writer;
use law_register::{AnswerNode, AnswerNodes};

// The wId, exactly where it differs from the eId, and the end of the provision.
fn put_wid(out: &mut Writer, wid: &str, eid: &str) -> Result<(), Memory>
    ensures tokens { OnOk result (out.new.tokens
        ≡ out.old.tokens ++ members_tokens (members_outline (wid_data wid.now eid.now))) }
    ensures before { OnOk result (out.new.before ≡ out.old.before) }
{
    if wid != eid {
        put_text(out, "wId", wid)?;
    }
    out.end_object()?;
    Ok(())
}

// A provision, with all beneath it.
#[cycle(provision)]
fn put_node(out: &mut Writer, node: &AnswerNode) -> Result<(), Memory>
    ensures tokens { OnOk result (out.new.tokens
        ≡ out.old.tokens ++ json_tokens (outline (node_data (shown_view node.now)))) }
    ensures before { OnOk result (out.new.before ≡ out.old.before) }
{
    let eid = node.eid.as_str();
    out.begin_object()?;
    put_flag(out, "bears", node.bears)?;
    out.key("children")?;
    put_nodes(out, &node.children)?;
    put_text(out, "content", node.content.as_str())?;
    put_text(out, "eId", eid)?;
    put_text(out, "element", node.element.name())?;
    put_text(out, "heading", node.heading.as_str())?;
    put_text(out, "num", node.num.as_str())?;
    out.key("refs")?;
    put_texts(out, node.refs.as_slice())?;
    put_wid(out, node.wid.as_str(), eid)?;
    Ok(())
}

/// Provisions side by side, each with all beneath it.
#[cycle(provision)]
#[tactic(auto, using(act_tree::proofs::LowSpecs::heights_listed))]
pub fn put_nodes(out: &mut Writer, nodes: &AnswerNodes) -> Result<(), Memory>
    ensures depth { heights (branches_of nodes.now) ≤ MAX_DEPTH }
    ensures tokens { OnOk result (out.new.tokens
        ≡ out.old.tokens ++ json_tokens (outline (array (nodes_data (branches_of nodes.now))))) }
    ensures before { OnOk result (out.new.before ≡ out.old.before) }
{
    let items = &nodes.items;
    out.begin_array()?;
    for node in items {
        put_node(out, node)?;
    }
    out.end_array()?;
    Ok(())
}

// About as many bytes as a provision takes in the text, with all beneath it.
#[cycle(room)]
fn room_of_node(node: &AnswerNode) -> usize {
    let names = node
        .eid
        .as_str()
        .len()
        .saturating_mul(2)
        .saturating_add(192);
    let texts = node
        .heading
        .as_str()
        .len()
        .saturating_add(node.content.as_str().len());
    names
        .saturating_add(texts)
        .saturating_add(room_of(&node.children))
}

/// About as many bytes as the provisions take in the text, so that it can be written without being moved.
#[cycle(room)]
#[tactic(auto, using(act_tree::proofs::LowSpecs::heights_listed))]
pub fn room_of(nodes: &AnswerNodes) -> usize
    ensures depth { heights (branches_of nodes.now) ≤ MAX_DEPTH }
{
    let mut room: usize = 0;
    for node in &nodes.items {
        room = room.saturating_add(room_of_node(node));
    }
    room
}
