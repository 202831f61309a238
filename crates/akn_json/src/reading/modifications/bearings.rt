//! The forms of force and of efficacy modifications.

ghost use Rattle.std.specs.Prelude.{◌≡◌};
ghost use Rattle.akn_json.specs.Reading.Reads.{Gives};
ghost use Rattle.akn_json.specs.Reading.Modifications.Bearings as spec;
ghost use Rattle.akn_json.specs.Reading.Values.{seen};

use super::bearing_kinds::{EfficacyKind, ForceKind};
use crate::ReadFail;
use crate::reading::faults::UNKNOWN_WORD;
use crate::reading::fields::{copied, day, either, field, members, period, text};
use crate::reading::key::Key;
use crate::reading::names::{id, source};
use crate::reading::tables::{
    DATED, EXTRA_EFFICACY, INAPPLICATION, OTHER_MODIFICATION, PROVISION, RETROACTIVITY,
};
use crate::reading::values::at_key;
use bearing_mods::{EfficacyEffect, ForceEffect};
use desk_base::Day;
use json::Value;
use law_register::{Destination, Modification};
use std::alloc::Global;

#[tactic(auto, unfolding(crate::specs::Reading::Modifications::Bearings::directed_at_in))]
fn directed_at(alloc: Global, value: &Value) -> Result<Destination, ReadFail>
    ensures { Gives (λ d. d) result (spec.directed_at_in (seen value.now)) }
{
    either(value, &OTHER_MODIFICATION, &PROVISION)?;
    match at_key(value, Key::Modification) {
        Some(found) => Ok(Destination::Modification(id(found)?)),
        None => Ok(Destination::Node(copied(alloc, field(value, Key::Wid)?)?)),
    }
}

#[tactic(auto, unfolding(crate::specs::Reading::Modifications::Bearings::destination_in))]
fn destination(alloc: Global, value: &Value) -> Result<Destination, ReadFail>
    ensures { Gives (λ d. d) result (spec.destination_in (seen value.now)) }
{
    directed_at(alloc, field(value, Key::Destination)?)
}

// The day from which a modification is counted.
#[tactic(auto, unfolding(crate::specs::Reading::Modifications::Bearings::on_in))]
fn on(value: &Value) -> Result<Day, ReadFail>
    ensures { Gives (λ d. d) result (spec.on_in (seen value.now)) }
{
    day(field(value, Key::On)?)
}

// The date to which a modification moves a start or an end.
#[tactic(auto, unfolding(crate::specs::Reading::Modifications::Bearings::date_in))]
fn date(value: &Value) -> Result<Day, ReadFail>
    ensures { Gives (λ d. d) result (spec.date_in (seen value.now)) }
{
    day(field(value, Key::Date)?)
}

#[tactic(auto, unfolding(crate::specs::Reading::Modifications::Bearings::force_kind_in))]
fn force_kind(value: &Value) -> Result<ForceKind, ReadFail>
    ensures { Gives (λ k. k) result (spec.force_kind_in (seen value.now)) }
{
    match ForceKind::from_word(text(field(value, Key::Type)?)?) {
        Some(kind) => Ok(kind),
        None => Err(UNKNOWN_WORD),
    }
}

fn force_effect(kind: ForceKind, date: Day) -> ForceEffect
    ensures { result ≡ spec.force_effect kind date }
{
    match kind {
        ForceKind::Entry => ForceEffect::Entry(date),
        ForceKind::Postponement => ForceEffect::Postponed(date),
        ForceKind::End => ForceEffect::Ended(date),
        ForceKind::Prorogation => ForceEffect::Prorogued(date),
        ForceKind::ReEnactment => ForceEffect::ReEnacted(date),
    }
}

/// A force modification. The word for its kind is judged before its keys.
#[tactic(auto, unfolding(crate::specs::Reading::Modifications::Bearings::force_in))]
pub(super) fn force(alloc: Global, value: &Value) -> Result<Modification, ReadFail>
    ensures { Gives (λ m. m) result (spec.force_in (seen value.now)) }
{
    let kind = force_kind(value)?;
    members(value, &DATED)?;
    let source = source(alloc, field(value, Key::Source)?)?;
    let destination = destination(alloc, value)?;
    let on = on(value)?;
    let effect = force_effect(kind, date(value)?);
    Ok(Modification::Force {
        source,
        destination,
        on,
        effect,
    })
}

#[tactic(auto, unfolding(crate::specs::Reading::Modifications::Bearings::efficacy_kind_in))]
fn efficacy_kind(value: &Value) -> Result<EfficacyKind, ReadFail>
    ensures { Gives (λ k. k) result (spec.efficacy_kind_in (seen value.now)) }
{
    match EfficacyKind::from_word(text(field(value, Key::Type)?)?) {
        Some(kind) => Ok(kind),
        None => Err(UNKNOWN_WORD),
    }
}

fn efficacy_keys(kind: EfficacyKind, value: &Value) -> Result<(), ReadFail>
    ensures { Gives (λ u. u) result (spec.efficacy_keys_in kind (seen value.now)) }
{
    match kind {
        EfficacyKind::Entry
        | EfficacyKind::End
        | EfficacyKind::Postponement
        | EfficacyKind::Prorogation => members(value, &DATED),
        EfficacyKind::Retroactivity => members(value, &RETROACTIVITY),
        EfficacyKind::ExtraEfficacy => members(value, &EXTRA_EFFICACY),
        EfficacyKind::Inapplication => members(value, &INAPPLICATION),
    }
}

// The day from which an efficacy modification is counted: of a retroactivity its date.
fn efficacy_on(kind: EfficacyKind, value: &Value) -> Result<Day, ReadFail>
    ensures { Gives (λ d. d) result (spec.efficacy_on_in kind (seen value.now)) }
{
    match kind {
        EfficacyKind::Retroactivity => date(value),
        _ => on(value),
    }
}

#[tactic(auto, unfolding(crate::specs::Reading::Modifications::Bearings::dated_in, crate::specs::Reading::Modifications::Bearings::inapplied_in))]
fn efficacy_effect(kind: EfficacyKind, value: &Value) -> Result<EfficacyEffect, ReadFail>
    ensures { Gives (λ e. e) result (spec.efficacy_effect_in kind (seen value.now)) }
{
    match kind {
        EfficacyKind::Entry => Ok(EfficacyEffect::Entry(date(value)?)),
        EfficacyKind::End => Ok(EfficacyEffect::Ended(date(value)?)),
        EfficacyKind::Retroactivity => Ok(EfficacyEffect::Retroactive(date(value)?)),
        EfficacyKind::Postponement => Ok(EfficacyEffect::Postponed(date(value)?)),
        EfficacyKind::Prorogation => Ok(EfficacyEffect::Prorogued(date(value)?)),
        EfficacyKind::ExtraEfficacy => Ok(EfficacyEffect::Extra),
        EfficacyKind::Inapplication => {
            Ok(EfficacyEffect::Inapplied(period(field(value, Key::Days)?)?))
        }
    }
}

/// An efficacy modification. The word for its kind is judged before its keys.
#[tactic(auto, unfolding(crate::specs::Reading::Modifications::Bearings::efficacy_in))]
pub(super) fn efficacy(alloc: Global, value: &Value) -> Result<Modification, ReadFail>
    ensures { Gives (λ m. m) result (spec.efficacy_in (seen value.now)) }
{
    let kind = efficacy_kind(value)?;
    efficacy_keys(kind, value)?;
    let source = source(alloc, field(value, Key::Source)?)?;
    let destination = destination(alloc, value)?;
    let on = efficacy_on(kind, value)?;
    let effect = efficacy_effect(kind, value)?;
    Ok(Modification::Efficacy {
        source,
        destination,
        on,
        effect,
    })
}
