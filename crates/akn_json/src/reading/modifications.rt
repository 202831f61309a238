//! The form of modifications: each is a textual one, a change of force or one of efficacy.

ghost use Rattle.std.specs.Prelude.{◌≡◌, ◌≤◌, length};
ghost use Rattle.json.specs.Value.{members_view};
ghost use Rattle.serde_json.specs.Data.{depth, items_depth};
ghost use Rattle.serde_json.specs.Read.{max_depth};
ghost use Rattle.akn_json.specs.Reading.Reads.{Gives, inside};
ghost use Rattle.akn_json.specs.Reading.Widths.{width};
ghost use Rattle.akn_json.specs.Reading.Bytes.{most_bytes};
ghost use Rattle.akn_json.specs.Reading.Modifications as spec;
ghost use Rattle.akn_json.specs.Reading.Values.{seen, items_seen, are_named, has_one_key};

mod bearing_kinds;
mod bearings;
mod edit_kinds;
mod edits;
mod insertions;
mod renumberings;
mod splits;
mod substitutions;
mod targets;

use super::faults::WRONG_SHAPE;
use super::fields::{field, items, members, period};
use super::key::Key;
use super::names::source;
use super::tables::MODIFICATION;
use super::values::{Members, as_object, at_key};
use crate::{FormFault, ReadFail};
pub(crate) use bearing_kinds::{EfficacyKind, ForceKind};
use bearings::{efficacy, force};
pub(crate) use edit_kinds::EditKind;
use edits::{EditForm, kind};
use json::Value;
use law_register::{Modification, Mods};
use std::alloc::Global;

// The form is chosen before the keys are judged, and the values are read in the order of its table.
#[tactic(auto, unfolding(crate::specs::Reading::Modifications::textual_in))]
fn textual(alloc: Global, value: &Value) -> Result<Modification, ReadFail>
    requires depth { depth (seen value.now) ≤ max_depth }
    ensures { Gives (λ m. m) result (spec.textual_in (seen value.now)) }
{
    let form = EditForm::of(kind(value)?, value)?;
    form.keys(value)?;
    let source = source(alloc, field(value, Key::Source)?)?;
    let force = period(field(value, Key::Force)?)?;
    let edit = form.edit(alloc, value)?;
    Ok(Modification::Textual {
        source,
        force,
        edit,
    })
}

fn are_named(members: &Members, key: &str) -> bool
    ensures { result ≡ are_named key.now (members_view members.now.items) }
{
    for (name, _) in members {
        if *name != key {
            return false;
        }
    }
    true
}

// Members at one key alone: each takes the place of the one before it.
fn has_one_key(members: &Members) -> bool
    ensures { result ≡ has_one_key (members_view members.now.items) }
{
    match members.first() {
        Some(first) => are_named(members, first.0),
        None => false,
    }
}

#[tactic(auto, using(crate::proofs::Values::single_seen), unfolding(crate::specs::Reading::Modifications::single_in))]
fn single(value: &Value) -> Result<(), ReadFail>
    ensures { Gives (λ u. u) result (spec.single_in (seen value.now)) }
{
    let Some(members) = as_object(value) else {
        return Err(WRONG_SHAPE);
    };
    if !has_one_key(members) {
        return Err(WRONG_SHAPE);
    }
    Ok(())
}

// A change of force, where one is stated, and else a change of efficacy.
#[tactic(auto, unfolding(crate::specs::Reading::Modifications::bearing_in))]
fn bearing(alloc: Global, value: &Value) -> Result<Modification, ReadFail>
    ensures { Gives (λ m. m) result (spec.bearing_in (seen value.now)) }
{
    match at_key(value, Key::ForceMod) {
        Some(found) => force(alloc, found),
        None => efficacy(alloc, field(value, Key::EfficacyMod)?),
    }
}

// A modification, named by its one key.
#[tactic(auto, unfolding(crate::specs::Reading::Modifications::modification_in))]
fn modification(alloc: Global, value: &Value) -> Result<Modification, ReadFail>
    requires depth { depth (seen value.now) ≤ max_depth }
    ensures { Gives (λ m. m) result (spec.modification_in (seen value.now)) }
{
    members(value, &MODIFICATION)?;
    single(value)?;
    match at_key(value, Key::TextualMod) {
        Some(found) => textual(alloc, found),
        None => bearing(alloc, value),
    }
}

/// The modification at a place, where its fault then is.
pub(super) fn modification_at(
    alloc: Global,
    place: u32,
    value: &Value,
) -> Result<Modification, ReadFail>
    requires depth { depth (seen value.now) ≤ max_depth }
    ensures { Gives (λ m. m) result (inside place (spec.modification_in (seen value.now))) }
{
    match modification(alloc, value) {
        Ok(modification) => Ok(modification),
        Err(ReadFail::Form(fault)) => Err(ReadFail::Form(FormFault {
            rule: fault.rule,
            place,
        })),
        Err(ReadFail::Memory) => Err(ReadFail::Memory),
    }
}

// Each of these modifications, in order, with places from 1.
fn each_modification(alloc: Global, values: &[Value]) -> Result<Mods, ReadFail>
    requires lists { length values.now ≤ most_bytes }
    requires depth { items_depth (items_seen values.now) ≤ max_depth }
    ensures { Gives (λ m. m) result (spec.each_from 1 (items_seen values.now)) }
{
    let mut mods = Mods::new(alloc);
    for (index, value) in values.iter().enumerate() {
        mods.push(modification_at(alloc, index as u32 + 1, value)?)?;
    }
    Ok(mods)
}

#[tactic(auto, unfolding(crate::specs::Reading::Modifications::mods_in))]
pub(super) fn mods(alloc: Global, value: &Value) -> Result<Mods, ReadFail>
    requires lists { width (seen value.now) ≤ most_bytes }
    requires depth { depth (seen value.now) ≤ max_depth }
    ensures { Gives (λ m. m) result (spec.mods_in (seen value.now)) }
{
    each_modification(alloc, items(value)?)
}
