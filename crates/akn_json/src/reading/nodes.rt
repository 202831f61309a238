//! The form of nodes: each says something of itself, and has the nodes beneath it as its children.

ghost use Rattle.std.specs.Prelude.{◌≡◌, ◌≤◌, []};
ghost use Rattle.serde_json.specs.Data.{depth, items_depth};
ghost use Rattle.serde_json.specs.Read.{max_depth};
ghost use Rattle.act_tree.specs.Specs.{own_of, spec_view};
ghost use Rattle.akn_json.specs.Reading.Reads.{Gives};
ghost use Rattle.akn_json.specs.Reading.Fields.{each, read_or, text_in};
ghost use Rattle.akn_json.specs.Reading.Names.{expression_in};
ghost use Rattle.akn_json.specs.Reading.Nodes as spec;
ghost use Rattle.akn_json.specs.Reading.Parts.{own_of_parts, shown};
ghost use Rattle.akn_json.specs.Reading.Values.{seen, items_seen};

use super::faults::{BAD_ELEMENT, WRONG_SHAPE};
use super::fields::{items, text};
use super::names::expression;
use super::node_parts::{Parts, parts_of};
use crate::ReadFail;
use act_tree::{NodeSpec, Nodes, Refs};
use desk_base::Text;
use eid_paths::{Element, Num};
use json::Value;
use std::alloc::Global;

#[tactic(auto, unfolding(crate::specs::Reading::Nodes::element_in))]
pub(super) fn element(value: &Value) -> Result<Element, ReadFail>
    ensures { Gives (λ e. e) result (spec.element_in (seen value.now)) }
{
    match Element::from_name(text(value)?) {
        Some(element) => Ok(element),
        None => Err(BAD_ELEMENT),
    }
}

#[tactic(auto, unfolding(crate::specs::Reading::Nodes::num_in))]
pub(super) fn num(value: &Value) -> Result<Num, ReadFail>
    ensures { Gives (λ n. n) result (spec.num_in (seen value.now)) }
{
    match Num::from_text(text(value)?) {
        Some(num) => Ok(num),
        None => Err(BAD_ELEMENT),
    }
}

fn each_expression(alloc: Global, values: &[Value]) -> Result<Refs, ReadFail>
    ensures { Gives (λ r. r) result (each expression_in (items_seen values.now)) }
{
    let mut refs = Refs::new(alloc);
    for value in values {
        refs.push(expression(alloc, value)?)?;
    }
    Ok(refs)
}

// The refs of a node, and none where it states none.
#[tactic(auto, unfolding(crate::specs::Reading::Nodes::refs_in))]
fn refs(alloc: Global, found: Option<&Value>) -> Result<Refs, ReadFail>
    ensures { Gives (λ r. r) result (read_or [] spec.refs_in (shown found.entry)) }
{
    match found {
        Some(value) => each_expression(alloc, items(value)?),
        None => Ok(Refs::new(alloc)),
    }
}

// The text that was found, and the empty one where none was.
fn text_or_none<'a>(found: Option<&Value<'a>>) -> Result<&'a str, ReadFail>
    ensures { Gives (λ s. s.now) result (read_or [] text_in (shown found.entry)) }
{
    match found {
        Some(value) => text(value),
        None => Ok(""),
    }
}

// What a node says of itself, with no nodes beneath it yet.
#[tactic(auto, unfolding(crate::specs::Reading::Parts::own_with))]
fn own(alloc: Global, parts: Parts) -> Result<NodeSpec, ReadFail>
    ensures { Gives own_of result (own_of_parts parts.entry) }
{
    let element = element(parts.element)?;
    let num = num(parts.num)?;
    let heading = text_or_none(parts.heading)?;
    let content = text_or_none(parts.content)?;
    let refs = refs(alloc, parts.refs)?;
    Ok(NodeSpec {
        element,
        num,
        heading: Text::copy_of(alloc, heading)?,
        content: Text::copy_of(alloc, content)?,
        refs,
        children: Nodes::new(alloc),
    })
}

// A node, with all beneath it: the nodes beneath it are a list, of which each is read by a call of its own.
#[cycle(node)]
fn node(alloc: Global, value: &Value) -> Result<NodeSpec, ReadFail>
    requires depth { depth (seen value.now) ≤ max_depth }
    ensures { Gives spec_view result (spec.node_in (seen value.now)) }
{
    let parts = parts_of(value)?;
    let mut node = own(alloc, parts)?;
    match parts.children {
        Some(found) => {
            node.children = nodes(alloc, found)?;
            Ok(node)
        }
        None => {
            node.children = Nodes::new(alloc);
            Ok(node)
        }
    }
}

#[cycle(node)]
pub(super) fn nodes(alloc: Global, value: &Value) -> Result<Nodes, ReadFail>
    requires depth { depth (seen value.now) ≤ max_depth }
    ensures { Gives (λ n. n) result (spec.nodes_in (seen value.now)) }
{
    match value {
        Value::Array(values) => each_node(alloc, values),
        _ => Err(WRONG_SHAPE),
    }
}

#[cycle(node)]
fn each_node(alloc: Global, values: &Vec<Value>) -> Result<Nodes, ReadFail>
    requires depth { items_depth (items_seen values.now.items) ≤ max_depth }
    ensures { Gives (λ n. n) result (spec.each_node (items_seen values.now.items)) }
{
    let mut nodes = Nodes::new(alloc);
    for value in values {
        nodes.push(node(alloc, value)?)?;
    }
    Ok(nodes)
}
