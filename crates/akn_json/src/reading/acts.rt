//! The form of an act: its work, its day, its language, its numbering, how many nodes it may have, its force, and the nodes of
//! its body.

ghost use Rattle.std.specs.Prelude.{◌≡◌, ◌≤◌};
ghost use Rattle.std.specs.List.{list_all};
ghost use Rattle.std.specs.Char.{is_ascii_lowercase};
ghost use Rattle.act_tree.specs.declared.limits.NodeLimit.TheVariants.{Plain};
ghost use Rattle.eid_paths.specs.declared.numbering.TheConstants.Numbering.{DEFAULT};
ghost use Rattle.serde_json.specs.Data.{depth};
ghost use Rattle.serde_json.specs.Read.{max_depth};
ghost use Rattle.akn_json.specs.Reading.Reads.{Gives};
ghost use Rattle.akn_json.specs.Reading.Fields.{each, optional_in};
ghost use Rattle.akn_json.specs.Reading.Nodes.{element_in};
ghost use Rattle.akn_json.specs.Reading.Acts as spec;
ghost use Rattle.akn_json.specs.declared.reading.key.Key.TheVariants as key;
ghost use Rattle.akn_json.specs.Reading.Values.{seen, items_seen};

use super::faults::{BAD_NAME, BAD_NUMBER, DATE_DIFFERS};
use super::fields::{day, field, items, members, number, period, text};
use super::key::Key;
use super::names::work;
use super::nodes::{element, nodes};
use super::tables::ACT;
use super::values::at_key;
use crate::ReadFail;
use act_tree::{NodeLimit, SharedNodes};
use desk_base::Day;
use eid_paths::{Element, Numbering};
use frbr_names::WorkName;
use json::Value;
use law_register::Act;
use std::alloc::Global;

fn are_lowercase(bytes: &[u8]) -> bool
    ensures { result ≡ list_all is_ascii_lowercase bytes.now }
{
    bytes.iter().all(|byte| byte.is_ascii_lowercase())
}

// The day of an act, which agrees with the date in the IRI of its work.
#[tactic(auto, unfolding(crate::specs::Reading::Acts::act_day_in))]
fn act_day(work: &WorkName, value: &Value) -> Result<Day, ReadFail>
    ensures { Gives (λ d. d) result (spec.act_day_in work.now (seen value.now)) }
{
    let day = day(value)?;
    if !work.date().agrees_with(day) {
        return Err(DATE_DIFFERS);
    }
    Ok(day)
}

// The language of an act: three lower-case letters.
#[tactic(auto, unfolding(crate::specs::Reading::Acts::language_in, frbr_names::specs::Expressions::is_language))]
fn language(value: &Value) -> Result<[u8; 3], ReadFail>
    ensures { Gives (λ l. l) result (spec.language_in (seen value.now)) }
{
    let bytes = text(value)?.as_bytes();
    if bytes.len() != 3 || !are_lowercase(bytes) {
        return Err(BAD_NAME);
    }
    let mut language = [0; 3];
    language.copy_from_slice(bytes);
    Ok(language)
}

fn each_element(alloc: Global, values: &[Value]) -> Result<Vec<Element>, ReadFail>
    ensures { Gives (λ v. v.items) result (each element_in (items_seen values.now)) }
{
    let mut elements = Vec::new(alloc);
    for value in values {
        elements.push(element(value)?)?;
    }
    Ok(elements)
}

// The numbering of an act, and that of articles and sections where it states none.
#[tactic(auto, unfolding(crate::specs::Reading::Fields::optional_in, crate::specs::Reading::Acts::numbering_in))]
fn numbering(alloc: Global, value: &Value) -> Result<Numbering, ReadFail>
    ensures { Gives (λ n. n) result (optional_in key.Numbering DEFAULT spec.numbering_in (seen value.now)) }
{
    match at_key(value, Key::Numbering) {
        Some(found) => {
            let elements = each_element(alloc, items(found)?)?;
            Ok(Numbering::of(&elements))
        }
        None => Ok(Numbering::DEFAULT),
    }
}

// The limit that allows this many nodes. `None`: none does.
fn limit_of(most: u64) -> Option<NodeLimit>
    ensures { result ≡ spec.limit_of most }
{
    if most == u64::from(NodeLimit::Plain.most()) {
        Some(NodeLimit::Plain)
    } else if most == u64::from(NodeLimit::Wide.most()) {
        Some(NodeLimit::Wide)
    } else {
        None
    }
}

// How many nodes an act may have, and as many as a plain one where it states no number.
#[tactic(auto, unfolding(crate::specs::Reading::Fields::optional_in, crate::specs::Reading::Acts::node_limit_in))]
fn node_limit(value: &Value) -> Result<NodeLimit, ReadFail>
    ensures { Gives (λ l. l) result (optional_in key.NodeLimit Plain spec.node_limit_in (seen value.now)) }
{
    let Some(found) = at_key(value, Key::NodeLimit) else {
        return Ok(NodeLimit::Plain);
    };
    match limit_of(number(found, u64::from(NodeLimit::Wide.most()))?) {
        Some(limit) => Ok(limit),
        None => Err(BAD_NUMBER),
    }
}

// An act as it was enacted.
#[tactic(auto, unfolding(crate::specs::Reading::Acts::act_in))]
pub(super) fn act(alloc: Global, value: &Value) -> Result<Act, ReadFail>
    requires depth { depth (seen value.now) ≤ max_depth }
    ensures { Gives (λ a. a) result (spec.act_in (seen value.now)) }
{
    members(value, &ACT)?;
    let work = work(alloc, field(value, Key::FrbrUri)?)?;
    let day = act_day(&work, field(value, Key::FrbrDate)?)?;
    let language = language(field(value, Key::FrbrLanguage)?)?;
    let numbering = numbering(alloc, value)?;
    let limit = node_limit(value)?;
    let force = period(field(value, Key::Force)?)?;
    let body = SharedNodes::new(alloc, nodes(alloc, field(value, Key::Body)?)?)?;
    Ok(Act {
        work,
        language,
        day,
        numbering,
        limit,
        force,
        body,
    })
}
