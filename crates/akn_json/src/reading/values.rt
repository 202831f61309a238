//! JSON values that borrow their texts: their parts, and what they are beside the values that serde_json reads.

ghost use Rattle.std.specs.Prelude.{◌≡◌, ◌≤◌, ◌<◌, option_map};
ghost use Rattle.json.specs.Tree.{depth, items_depth, members_depth};
ghost use Rattle.json.specs.Value.{value_view, items_view, members_view};
ghost use Rattle.serde_json.specs.Find.{get, as_array, as_object, as_str};
ghost use Rattle.serde_json.specs.Read.{max_depth};
ghost use Rattle.akn_json.specs.Reading.Keys.{key_name};
ghost use Rattle.akn_json.specs.Reading.Values.{seen, items_seen, members_seen, is_in_range, are_items_in_range, are_members_in_range};

use super::key::Key;
use super::numbers::number_in;
use json::Value;

/// The members of an object, in the order of its text.
pub(super) type Members<'a> = Vec<(&'a str, Value<'a>)>;

/// Whether each number of a value is in range. Each list and each object is gone over by a call of its own.
#[cycle(range)]
pub(super) fn is_in_range(value: &Value) -> bool
    requires depth { depth (value_view value.now) ≤ max_depth }
    ensures { result ≡ is_in_range (value_view value.now) }
{
    match value {
        Value::Number(text) => number_in(text).is_some(),
        Value::Array(items) => are_items_in_range(items),
        Value::Object(members) => are_members_in_range(members),
        _ => true,
    }
}

#[cycle(range)]
fn are_items_in_range(items: &Vec<Value>) -> bool
    requires depth { items_depth (items_view items.now.items) < max_depth }
    ensures { result ≡ are_items_in_range (items_view items.now.items) }
{
    for item in items {
        if !is_in_range(item) {
            return false;
        }
    }
    true
}

#[cycle(range)]
fn are_members_in_range(members: &Members) -> bool
    requires depth { members_depth (members_view members.now.items) < max_depth }
    ensures { result ≡ are_members_in_range (members_view members.now.items) }
{
    for member in members {
        if !is_in_range(&member.1) {
            return false;
        }
    }
    true
}

/// The value at a key of an object. Of a repeated key the last value counts.
pub(super) fn at_key<'v, 'a>(value: &'v Value<'a>, key: Key) -> Option<&'v Value<'a>>
    ensures { option_map (λ v. seen v.now) result ≡ get (key_name key) (seen value.now) }
{
    value.get(key.name())
}

/// The members of an object.
pub(super) fn as_object<'v, 'a>(value: &'v Value<'a>) -> Option<&'v Members<'a>>
    ensures { option_map (λ ms. members_seen ms.now.items) result ≡ as_object (seen value.now) }
{
    match value {
        Value::Object(members) => Some(members),
        _ => None,
    }
}

/// The items of a list.
pub(super) fn as_array<'v, 'a>(value: &'v Value<'a>) -> Option<&'v Vec<Value<'a>>>
    ensures { option_map (λ vs. items_seen vs.now.items) result ≡ as_array (seen value.now) }
{
    match value {
        Value::Array(items) => Some(items),
        _ => None,
    }
}

/// The text that a value is.
pub(super) fn as_str<'a>(value: &Value<'a>) -> Option<&'a str>
    ensures { option_map (λ s. s.now) result ≡ as_str (seen value.now) }
{
    value.as_str()
}
