//! The parts that forms are made of: objects of known keys, and the values that stand at them.

ghost use Rattle.std.specs.Prelude.{◌≡◌, ◌≤◌, [], None, IfOk};
ghost use Rattle.json.specs.Value.{members_view};
ghost use Rattle.akn_json.specs.Reading.Reads.{Gives};
ghost use Rattle.akn_json.specs.Reading.Fields as spec;
ghost use Rattle.akn_json.specs.Reading.Values.{seen, items_seen, are_known};
ghost use Rattle.akn_json.specs.declared.reading.key.Key.TheVariants.{Until};

use super::faults::{BAD_DAY, BAD_NUMBER, WRONG_SHAPE};
use super::key::Key;
use super::numbers::number_in;
use super::tables::{Keys, PERIOD};
use super::values::{Members, as_array, as_object, as_str, at_key};
use crate::ReadFail;
use desk_base::{Day, Period, Text};
use json::Value;
use std::alloc::Global;

fn is_named(name: &str, keys: &[Key]) -> bool
    ensures { result ≡ spec.is_named name.now keys.now }
{
    keys.iter().any(|key| name == key.name())
}

fn has_only(object: &Members, required: &[Key], optional: &[Key]) -> bool
    ensures { result ≡ are_known required.now optional.now (members_view object.now.items) }
{
    for (name, _) in object {
        if !is_named(name, required) && !is_named(name, optional) {
            return false;
        }
    }
    true
}

fn has_all(value: &Value, keys: &[Key]) -> bool
    ensures { result ≡ spec.has_all keys.now (seen value.now) }
{
    keys.iter().all(|key| at_key(value, *key).is_some())
}

#[tactic(auto, using(crate::proofs::Values::has_only_known), unfolding(crate::specs::Reading::Fields::has_members))]
fn has_members<const R: usize, const O: usize>(value: &Value, keys: &Keys<R, O>) -> bool
    ensures { result ≡ spec.has_members keys.now (seen value.now) }
{
    match as_object(value) {
        Some(object) => {
            has_only(object, &keys.required, &keys.optional) && has_all(value, &keys.required)
        }
        None => false,
    }
}

// An object with members at the required keys, and at no others than the optional ones.
#[tactic(auto, unfolding(crate::specs::Reading::Fields::members_in))]
pub(super) fn members<const R: usize, const O: usize>(
    value: &Value,
    keys: &Keys<R, O>,
) -> Result<(), ReadFail>
    ensures { Gives (λ u. u) result (spec.members_in keys.now (seen value.now)) }
{
    if !has_members(value, keys) {
        return Err(WRONG_SHAPE);
    }
    Ok(())
}

/// An object with the members of the one table or of the other.
#[tactic(auto, unfolding(crate::specs::Reading::Fields::either_in))]
pub(super) fn either<const R: usize, const O: usize, const P: usize, const Q: usize>(
    value: &Value,
    one: &Keys<R, O>,
    other: &Keys<P, Q>,
) -> Result<(), ReadFail>
    ensures { Gives (λ u. u) result (spec.either_in one.now other.now (seen value.now)) }
{
    if !has_members(value, one) && !has_members(value, other) {
        return Err(WRONG_SHAPE);
    }
    Ok(())
}

#[tactic(auto, unfolding(crate::specs::Reading::Fields::field_in))]
pub(super) fn field<'v, 'a>(value: &'v Value<'a>, key: Key) -> Result<&'v Value<'a>, ReadFail>
    ensures { Gives (λ v. seen v.now) result (spec.field_in key (seen value.now)) }
{
    match at_key(value, key) {
        Some(found) => Ok(found),
        None => Err(WRONG_SHAPE),
    }
}

#[tactic(auto, unfolding(crate::specs::Reading::Fields::items_in))]
pub(super) fn items<'v, 'a>(value: &'v Value<'a>) -> Result<&'v Vec<Value<'a>>, ReadFail>
    ensures { Gives (λ v. items_seen v.now.items) result (spec.items_in (seen value.now)) }
{
    match as_array(value) {
        Some(items) => Ok(items),
        None => Err(WRONG_SHAPE),
    }
}

#[tactic(auto, unfolding(crate::specs::Reading::Fields::text_in))]
pub(super) fn text<'a>(value: &Value<'a>) -> Result<&'a str, ReadFail>
    ensures { Gives (λ s. s.now) result (spec.text_in (seen value.now)) }
{
    match as_str(value) {
        Some(text) => Ok(text),
        None => Err(WRONG_SHAPE),
    }
}

pub(super) fn copied(alloc: Global, value: &Value) -> Result<Text, ReadFail>
    ensures { Gives (λ t. t) result (spec.text_in (seen value.now)) }
{
    Ok(Text::copy_of(alloc, text(value)?)?)
}

// The text at a key, and the empty one where the object has no such key.
#[tactic(auto, unfolding(crate::specs::Reading::Fields::optional_in))]
pub(super) fn optional_text<'a>(value: &Value<'a>, key: Key) -> Result<&'a str, ReadFail>
    ensures { Gives (λ s. s.now) result (spec.optional_in key [] spec.text_in (seen value.now)) }
{
    match at_key(value, key) {
        Some(found) => text(found),
        None => Ok(""),
    }
}

#[tactic(auto, unfolding(crate::specs::Reading::Fields::number_in))]
pub(super) fn number(value: &Value, most: u64) -> Result<u64, ReadFail>
    ensures value { Gives (λ n. n) result (spec.number_in most (seen value.now)) }
    ensures bound { IfOk result (λ n. n ≤ most) }
{
    let Value::Number(text) = value else {
        return Err(WRONG_SHAPE);
    };
    match number_in(text) {
        Some(Some(n)) if n <= most => Ok(n),
        _ => Err(BAD_NUMBER),
    }
}

#[tactic(auto, unfolding(crate::specs::Reading::Fields::day_in))]
pub(super) fn day(value: &Value) -> Result<Day, ReadFail>
    ensures { Gives (λ d. d) result (spec.day_in (seen value.now)) }
{
    match Day::from_text(text(value)?) {
        Some(day) => Ok(day),
        None => Err(BAD_DAY),
    }
}

// The end of a period, where one is stated.
#[tactic(auto, unfolding(crate::specs::Reading::Fields::optional_in, crate::specs::Reading::Fields::end_in))]
fn end(value: &Value) -> Result<Option<Day>, ReadFail>
    ensures { Gives (λ d. d) result (spec.optional_in Until None spec.end_in (seen value.now)) }
{
    match at_key(value, Key::Until) {
        Some(found) => Ok(Some(day(found)?)),
        None => Ok(None),
    }
}

// A period, which may have no end.
#[tactic(auto, unfolding(crate::specs::Reading::Fields::period_in))]
pub(super) fn period(value: &Value) -> Result<Period, ReadFail>
    ensures { Gives (λ p. p) result (spec.period_in (seen value.now)) }
{
    members(value, &PERIOD)?;
    let start = day(field(value, Key::From)?)?;
    let end = end(value)?;
    Ok(Period { start, end })
}
