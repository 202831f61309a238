//! What an edit is directed at: a provision, a position at it, or a text in its content.

ghost use Rattle.std.specs.Prelude.{◌≡◌};
ghost use Rattle.akn_json.specs.Reading.Reads.{Gives};
ghost use Rattle.akn_json.specs.Reading.Modifications.Targets as spec;
ghost use Rattle.akn_json.specs.Reading.Values.{seen};

use crate::ReadFail;
use crate::reading::faults::UNKNOWN_WORD;
use crate::reading::fields::{copied, field, members, number, text};
use crate::reading::key::Key;
use crate::reading::tables::{ANCHOR, PROVISION};
use crate::reading::values::at_key;
use desk_base::Text;
use json::Value;
use std::alloc::Global;
use textual_mods::{Pos, Spot};

/// Where an insertion stands: at a provision.
#[derive(Debug, Drop)]
pub(super) struct Anchor {
    /// The wId of the provision.
    pub wid: Text,
    /// The position at it.
    pub pos: Pos,
}

#[tactic(auto, unfolding(crate::specs::Reading::Modifications::Targets::wid_in))]
fn wid(alloc: Global, value: &Value) -> Result<Text, ReadFail>
    ensures { Gives (λ w. w) result (spec.wid_in (seen value.now)) }
{
    members(value, &PROVISION)?;
    copied(alloc, field(value, Key::Wid)?)
}

#[tactic(auto, unfolding(crate::specs::Reading::Modifications::Targets::destination_in))]
pub(super) fn destination(alloc: Global, value: &Value) -> Result<Text, ReadFail>
    ensures { Gives (λ w. w) result (spec.destination_in (seen value.now)) }
{
    wid(alloc, field(value, Key::Destination)?)
}

// The position that a word names. `None`: it names none.
fn pos_named(word: &str) -> Option<Pos>
    ensures { result ≡ spec.pos_named word.now }
{
    if word == "before" {
        Some(Pos::Before)
    } else if word == "after" {
        Some(Pos::After)
    } else if word == "start" {
        Some(Pos::Start)
    } else if word == "end" {
        Some(Pos::End)
    } else {
        None
    }
}

#[tactic(auto, unfolding(crate::specs::Reading::Modifications::Targets::pos_in))]
fn pos(value: &Value) -> Result<Pos, ReadFail>
    ensures { Gives (λ p. p) result (spec.pos_in (seen value.now)) }
{
    match pos_named(text(value)?) {
        Some(pos) => Ok(pos),
        None => Err(UNKNOWN_WORD),
    }
}

// A provision, and a position at it.
#[tactic(auto, unfolding(crate::specs::Reading::Modifications::Targets::place_in))]
fn place(alloc: Global, value: &Value) -> Result<Anchor, ReadFail>
    ensures { Gives (λ a. a) result (spec.place_in (seen value.now)) }
{
    members(value, &ANCHOR)?;
    let wid = copied(alloc, field(value, Key::Wid)?)?;
    let pos = pos(field(value, Key::Pos)?)?;
    Ok(Anchor { wid, pos })
}

// Where an insertion stands.
#[tactic(auto, unfolding(crate::specs::Reading::Modifications::Targets::anchor_in))]
pub(super) fn read_anchor(alloc: Global, value: &Value) -> Result<Anchor, ReadFail>
    ensures { Gives (λ a. a) result (spec.anchor_in (seen value.now)) }
{
    place(alloc, field(value, Key::Destination)?)
}

// Which occurrence of a text is meant, and the first where none is stated.
#[tactic(auto, unfolding(crate::specs::Reading::Fields::optional_in, crate::specs::Reading::Modifications::Targets::occurrence_in))]
fn occurrence(value: &Value) -> Result<u16, ReadFail>
    ensures { Gives (λ n. n) result (spec.occurrence_in (seen value.now)) }
{
    match at_key(value, Key::Occurrence) {
        Some(found) => Ok(number(found, 65_535)? as u16),
        None => Ok(1),
    }
}

#[tactic(auto, unfolding(crate::specs::Reading::Modifications::Targets::spot_in))]
pub(super) fn spot(alloc: Global, value: &Value) -> Result<Spot, ReadFail>
    ensures { Gives (λ s. s) result (spec.spot_in (seen value.now)) }
{
    let old = copied(alloc, field(value, Key::Old)?)?;
    let occurrence = occurrence(value)?;
    Ok(Spot { old, occurrence })
}
