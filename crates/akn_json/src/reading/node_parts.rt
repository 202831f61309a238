//! The values at the keys of a node, found by one pass over its members.

ghost use Rattle.std.specs.Prelude.{◌≡◌, ◌||◌, ℕ, List, Some, IfOk, IfErr, IfSome, is_some};
ghost use Rattle.std.specs.Borrow.{Bor};
ghost use Rattle.std.specs.declared.alloc.Global.{Global};
ghost use Rattle.json.specs.Value.{members_view};
ghost use Rattle.json.specs.declared.value.Value.{Value as JsonValue};
ghost use Rattle.serde_json.specs.Data.{Data, Members as DataMembers, no_members, put};
ghost use Rattle.serde_json.specs.Find.{get};
ghost use Rattle.akn_json.specs.Reading.Fields.{is_named};
ghost use Rattle.akn_json.specs.Reading.Keys.{key_name};
ghost use Rattle.akn_json.specs.Reading.Nodes.{node_in};
ghost use Rattle.akn_json.specs.Reading.Parts.{ArePlacesOf, node_of_parts, shown, shown_at};
ghost use Rattle.akn_json.specs.Reading.Reads.{Fails};
ghost use Rattle.akn_json.specs.Reading.Values.{seen, members_seen, are_known};
ghost use Rattle.akn_json.specs.declared.reading.key.Key.TheVariants.{Children};
ghost use Rattle.akn_json.specs.declared.reading.tables.TheConstants.{NODE};

use super::faults::WRONG_SHAPE;
use super::values::{Members, as_object};
use crate::ReadFail;
use json::Value;

/// The values at the keys of a node. Of a repeated key the last value counts.
#[derive(Clone, Copy)]
pub(super) struct Parts<'v, 'a> {
    pub element: &'v Value<'a>,
    pub num: &'v Value<'a>,
    pub heading: Option<&'v Value<'a>>,
    pub content: Option<&'v Value<'a>>,
    pub refs: Option<&'v Value<'a>>,
    pub children: Option<&'v Value<'a>>,
}

/// Where they stand among the members of an object.
#[derive(Clone, Copy)]
struct Places {
    element: Option<usize>,
    num: Option<usize>,
    heading: Option<usize>,
    content: Option<usize>,
    refs: Option<usize>,
    children: Option<usize>,
}

// No place of any key.
fn nowhere() -> Places
    ensures { (all : List (Bor (List ℕ) × JsonValue Global)) → ArePlacesOf all result no_members }
{
    Places {
        element: None,
        num: None,
        heading: None,
        content: None,
        refs: None,
        children: None,
    }
}

// These places, and then one more of a key. `None`: no node has the key.
fn with_place(places: Places, name: &str, at: usize) -> Option<Places>
    ensures known { is_some result ≡ (is_named name.now NODE.required || is_named name.now NODE.optional) }
    ensures put { (all : List (Bor (List ℕ) × JsonValue Global)) (ms : DataMembers) (d : Data)
        → shown_at all (Some at) ≡ Some d → ArePlacesOf all places ms
        → IfSome result (λ p. ArePlacesOf all p (put name.now d ms)) }
{
    let at = Some(at);
    if name == "element" {
        Some(Places {
            element: at,
            ..places
        })
    } else if name == "num" {
        Some(Places { num: at, ..places })
    } else if name == "content" {
        Some(Places {
            content: at,
            ..places
        })
    } else if name == "heading" {
        Some(Places {
            heading: at,
            ..places
        })
    } else if name == "children" {
        Some(Places {
            children: at,
            ..places
        })
    } else if name == "refs" {
        Some(Places { refs: at, ..places })
    } else {
        None
    }
}

// Where the values at the keys of a node stand. `None`: a member is at another key.
fn places_in(members: &[(&str, Value)]) -> Option<Places>
    ensures known { is_some result ≡ are_known NODE.required NODE.optional (members_view members.now) }
    ensures places { IfSome result (λ p. ArePlacesOf members.now p (members_seen members.now)) }
{
    let mut places = nowhere();
    for (at, member) in members.iter().enumerate() {
        match with_place(places, member.0, at) {
            Some(next) => places = next,
            None => return None,
        }
    }
    Some(places)
}

// The value at a place.
fn value_at<'v, 'a>(members: &'v Members<'a>, place: Option<usize>) -> Option<&'v Value<'a>>
    ensures { shown result ≡ shown_at members.now.items place }
{
    match place {
        Some(at) => match members.get(at) {
            Some(member) => Some(&member.1),
            None => None,
        },
        None => None,
    }
}

/// The values at the keys of a node, which has an element and a num. What is an object of other keys is no node.
#[tactic(auto, using(crate::proofs::Parts::no_object, crate::proofs::Parts::unknown_key, crate::proofs::Parts::no_element, crate::proofs::Parts::no_num, crate::proofs::Parts::whole_node, crate::proofs::Parts::children_there))]
pub(super) fn parts_of<'v, 'a>(value: &'v Value<'a>) -> Result<Parts<'v, 'a>, ReadFail>
    ensures none { IfErr result (λ fail. Fails fail (node_in (seen value.now))) }
    ensures node { IfOk result (λ p. node_in (seen value.now) ≡ node_of_parts p) }
    ensures children { IfOk result (λ p. shown p.children ≡ get (key_name Children) (seen value.now)) }
{
    let Some(members) = as_object(value) else {
        return Err(WRONG_SHAPE);
    };
    let Some(places) = places_in(members) else {
        return Err(WRONG_SHAPE);
    };
    let Some(element) = value_at(members, places.element) else {
        return Err(WRONG_SHAPE);
    };
    let Some(num) = value_at(members, places.num) else {
        return Err(WRONG_SHAPE);
    };
    let heading = value_at(members, places.heading);
    let content = value_at(members, places.content);
    let refs = value_at(members, places.refs);
    let children = value_at(members, places.children);
    Ok(Parts {
        element,
        num,
        heading,
        content,
        refs,
        children,
    })
}
