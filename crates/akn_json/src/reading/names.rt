//! The names in forms: the IRIs of works and of expressions, the ids of modifications, and the work that modifies.

ghost use Rattle.std.specs.Prelude.{◌≡◌, None};
ghost use Rattle.akn_json.specs.Reading.Fields.{optional_in};
ghost use Rattle.akn_json.specs.Reading.Names as spec;
ghost use Rattle.akn_json.specs.Reading.Reads.{Gives};
ghost use Rattle.akn_json.specs.Reading.Values.{seen};
ghost use Rattle.akn_json.specs.declared.reading.key.Key.TheVariants as key;

use super::faults::BAD_NAME;
use super::fields::{field, members, number, text};
use super::key::Key;
use super::tables::SOURCE;
use super::values::at_key;
use crate::ReadFail;
use desk_base::{Id, Text};
use frbr_names::{WorkName, is_expression, is_portion, parse_work};
use json::Value;
use law_register::ModSource;
use std::alloc::Global;

#[tactic(auto, unfolding(crate::specs::Reading::Names::work_in))]
pub(super) fn work(alloc: Global, value: &Value) -> Result<WorkName, ReadFail>
    ensures { Gives (λ w. w) result (spec.work_in (seen value.now)) }
{
    match parse_work(text(value)?) {
        Ok(iri) => Ok(WorkName::copy_of(alloc, &iri)?),
        Err(_) => Err(BAD_NAME),
    }
}

// The IRI of an expression, as it is spelled there.
#[tactic(auto, unfolding(crate::specs::Reading::Names::expression_in))]
pub(super) fn expression(alloc: Global, value: &Value) -> Result<Text, ReadFail>
    ensures { Gives (λ t. t) result (spec.expression_in (seen value.now)) }
{
    let iri = text(value)?;
    if !is_expression(iri) {
        return Err(BAD_NAME);
    }
    Ok(Text::copy_of(alloc, iri)?)
}

/// The id of a modification, as a text.
#[tactic(auto, unfolding(crate::specs::Reading::Names::id_in))]
pub(super) fn id(value: &Value) -> Result<Id, ReadFail>
    ensures { Gives (λ i. i) result (spec.id_in (seen value.now)) }
{
    match Id::from_text(text(value)?) {
        Some(id) => Ok(id),
        None => Err(BAD_NAME),
    }
}

// The provision that modifies, by its wId, where one is named.
#[tactic(auto, unfolding(crate::specs::Reading::Fields::optional_in, crate::specs::Reading::Names::provision_in))]
fn provision(alloc: Global, value: &Value) -> Result<Option<Text>, ReadFail>
    ensures { Gives (λ p. p) result (optional_in key.Provision None spec.provision_in (seen value.now)) }
{
    let Some(found) = at_key(value, Key::Provision) else {
        return Ok(None);
    };
    let wid = text(found)?;
    if !is_portion(wid.as_bytes()) {
        return Err(BAD_NAME);
    }
    Ok(Some(Text::copy_of(alloc, wid)?))
}

// The source of a modification: the IRI of the work that modifies, a place within it, and the provision of it, where one is
// named.
#[tactic(auto, unfolding(crate::specs::Reading::Names::source_in))]
pub(super) fn source(alloc: Global, value: &Value) -> Result<ModSource, ReadFail>
    ensures { Gives (λ s. s) result (spec.source_in (seen value.now)) }
{
    members(value, &SOURCE)?;
    let href = work(alloc, field(value, Key::Href)?)?;
    let place = number(field(value, Key::Place)?, 65_535)?;
    let provision = provision(alloc, value)?;
    Ok(ModSource {
        href,
        place: place as u16,
        provision,
    })
}
