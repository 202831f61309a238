//! An answer as a value of serde_json, built part by part: the plain program beside the one that
//! prints token by token.

ghost use Rattle.std.specs.Prelude.{◌≡◌, ◌≤◌, OnOk, IfOk, codes, if◌then◌else◌};
ghost use Rattle.std.specs.Str.{bytes_eq};
ghost use Rattle.serde_json.specs.Data.{array, string, put as with_member};
ghost use Rattle.serde_json.specs.View.{view, members_view};
ghost use Rattle.act_tree.specs.Branches.{branches_of, heights};
ghost use Rattle.act_tree.specs.declared.limits.TheConstants.{MAX_DEPTH};
ghost use Rattle.law_register.specs.Answer.ShownNodes.{shown_view};
ghost use Rattle.akn_json.specs.Printing.Answers as spec;

use super::answers::expression;
use act_tree::Cause;
use desk_base::{Id, Memory, Text};
use law_register::{Answer, AnswerNode, AnswerNodes};
use serde_json::{Map, Value, json, put};
use std::alloc::Global;

fn texts_value(alloc: Global, texts: &[Text]) -> Result<Value, Memory>
    ensures { IfOk result (λ v. view v ≡ array (spec.texts_data texts.now)) }
{
    let mut list = Vec::new(alloc);
    for text in texts {
        list.push(Value::try_from_str(alloc, text.as_str())?)?;
    }
    Ok(Value::Array(list))
}

fn ids_value(alloc: Global, ids: &[Id]) -> Result<Value, Memory>
    ensures { IfOk result (λ v. view v ≡ array (spec.ids_data ids.now)) }
{
    let mut list = Vec::new(alloc);
    for id in ids {
        list.push(Value::try_from_str(alloc, id.spelled(alloc)?.as_str())?)?;
    }
    Ok(Value::Array(list))
}

fn missed_value(alloc: Global, missed: &(Id, Cause)) -> Result<Value, Memory>
    ensures { IfOk result (λ v. view v ≡ spec.missed_data missed.now) }
{
    let id = missed.0.spelled(alloc)?;
    Ok(json!(in alloc; { "cause": missed.1.name(), "id": &id })?)
}

// The modifications that could not be applied.
fn unapplied_value(alloc: Global, unapplied: &[(Id, Cause)]) -> Result<Value, Memory>
    ensures { IfOk result (λ v. view v ≡ array (spec.unapplied_data unapplied.now)) }
{
    let mut list = Vec::new(alloc);
    for missed in unapplied {
        list.push(missed_value(alloc, missed)?)?;
    }
    Ok(Value::Array(list))
}

fn add_text(
    map: &mut Map<String, Value>,
    alloc: Global,
    key: &str,
    text: &str,
) -> Result<(), Memory>
    ensures { OnOk result (members_view map.new.entries
        ≡ with_member key.now (string text.now) (members_view map.old.entries)) }
{
    put(map, alloc, key, Value::try_from_str(alloc, text)?)?;
    Ok(())
}

// Adds the wId, exactly where it differs from the eId.
fn add_wid(map: &mut Map<String, Value>, alloc: Global, wid: &str, eid: &str) -> Result<(), Memory>
    ensures { OnOk result (members_view map.new.entries ≡ (if bytes_eq wid.now eid.now
        then members_view map.old.entries
        else with_member (codes "wId") (string wid.now) (members_view map.old.entries))) }
{
    if wid != eid {
        add_text(map, alloc, "wId", wid)?;
    }
    Ok(())
}

// A provision, with all beneath it.
#[cycle(value)]
fn node_value(alloc: Global, node: &AnswerNode) -> Result<Value, Memory>
    ensures { IfOk result (λ v. view v ≡ spec.node_data (shown_view node.now)) }
{
    let children = nodes_value(alloc, &node.children)?;
    let refs = texts_value(alloc, node.refs.as_slice())?;
    let mut map = Map::new(alloc);
    put(&mut map, alloc, "bears", Value::Bool(node.bears))?;
    put(&mut map, alloc, "children", children)?;
    add_text(&mut map, alloc, "content", node.content.as_str())?;
    add_text(&mut map, alloc, "eId", node.eid.as_str())?;
    add_text(&mut map, alloc, "element", node.element.name())?;
    add_text(&mut map, alloc, "heading", node.heading.as_str())?;
    add_text(&mut map, alloc, "num", node.num.as_str())?;
    put(&mut map, alloc, "refs", refs)?;
    add_wid(&mut map, alloc, node.wid.as_str(), node.eid.as_str())?;
    Ok(Value::Object(map))
}

#[cycle(value)]
#[tactic(auto, using(act_tree::proofs::LowSpecs::heights_listed))]
fn nodes_value(alloc: Global, nodes: &AnswerNodes) -> Result<Value, Memory>
    ensures depth { heights (branches_of nodes.now) ≤ MAX_DEPTH }
    ensures value { IfOk result (λ v. view v ≡ array (spec.nodes_data (branches_of nodes.now))) }
{
    let mut list = Vec::new(alloc);
    for node in &nodes.items {
        list.push(node_value(alloc, node)?)?;
    }
    Ok(Value::Array(list))
}

/// An answer as a value of serde_json. Its compact text is what is printed.
#[tactic(auto, unfolding(crate::specs::Printing::Answers::answer_data))]
pub fn answer_value(alloc: Global, answer: &Answer) -> Result<Value, Memory>
    ensures { IfOk result (λ v. view v ≡ spec.answer_data answer.now) }
{
    let iri = expression(alloc, &answer.question)?;
    let applied = ids_value(alloc, answer.applied.as_slice())?;
    let body = nodes_value(alloc, &answer.nodes)?;
    let unapplied = unapplied_value(alloc, answer.unapplied.as_slice())?;
    let viewpoint = Value::from(answer.question.viewpoint);
    let mut map = Map::new(alloc);
    put(&mut map, alloc, "applied", applied)?;
    put(&mut map, alloc, "bears", Value::Bool(answer.bears))?;
    put(&mut map, alloc, "body", body)?;
    put(&mut map, alloc, "expression", Value::String(iri))?;
    add_text(&mut map, alloc, "reading", answer.question.reading.name())?;
    put(&mut map, alloc, "unapplied", unapplied)?;
    put(&mut map, alloc, "viewpoint", viewpoint)?;
    Ok(Value::Object(map))
}
