//! The form of a dossier: an act and its modifications.

ghost use Rattle.std.specs.Prelude.{◌≡◌, ◌≤◌};
ghost use Rattle.serde_json.specs.Data.{depth};
ghost use Rattle.serde_json.specs.Read.{max_depth};
ghost use Rattle.akn_json.specs.Reading.Bytes.{most_bytes};
ghost use Rattle.akn_json.specs.Reading.Dossiers as spec;
ghost use Rattle.akn_json.specs.Reading.Reads.{Gives};
ghost use Rattle.akn_json.specs.Reading.Widths.{width};
ghost use Rattle.akn_json.specs.Reading.Values.{seen};

use super::acts::act;
use super::fields::{field, members};
use super::key::Key;
use super::modifications::mods;
use super::tables::DOSSIER;
use crate::{Dossier, ReadFail};
use json::Value;
use std::alloc::Global;

#[tactic(auto, unfolding(crate::specs::Reading::Dossiers::dossier_in))]
pub(super) fn dossier(alloc: Global, value: &Value) -> Result<Dossier, ReadFail>
    requires lists { width (seen value.now) ≤ most_bytes }
    requires depth { depth (seen value.now) ≤ max_depth }
    ensures { Gives (λ d. d) result (spec.dossier_in (seen value.now)) }
{
    members(value, &DOSSIER)?;
    let act = act(alloc, field(value, Key::Act)?)?;
    let mods = mods(alloc, field(value, Key::Modifications)?)?;
    Ok(Dossier { act, mods })
}
