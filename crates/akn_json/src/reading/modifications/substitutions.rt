//! The forms of repeals and of substitutions.

ghost use Rattle.std.specs.Prelude.{◌≡◌, ◌≤◌};
ghost use Rattle.serde_json.specs.Data.{depth};
ghost use Rattle.serde_json.specs.Read.{max_depth};
ghost use Rattle.akn_json.specs.Reading.Reads.{Gives};
ghost use Rattle.akn_json.specs.Reading.Modifications.Substitutions as spec;
ghost use Rattle.akn_json.specs.Reading.Values.{seen};

use super::targets::{destination, spot};
use crate::ReadFail;
use crate::reading::fields::{copied, field};
use crate::reading::key::Key;
use crate::reading::nodes::nodes;
use act_tree::SharedNodes;
use json::Value;
use std::alloc::Global;
use textual_mods::TextualMod;

#[tactic(auto, unfolding(crate::specs::Reading::Modifications::Substitutions::repeal_in))]
pub(super) fn repeal(alloc: Global, value: &Value) -> Result<TextualMod, ReadFail>
    ensures { Gives (λ e. e) result (spec.repeal_in (seen value.now)) }
{
    let wid = destination(alloc, value)?;
    Ok(TextualMod::Repeal { wid })
}

#[tactic(auto, unfolding(crate::specs::Reading::Modifications::Substitutions::substitute_nodes_in))]
pub(super) fn substitute_nodes(alloc: Global, value: &Value) -> Result<TextualMod, ReadFail>
    requires depth { depth (seen value.now) ≤ max_depth }
    ensures { Gives (λ e. e) result (spec.substitute_nodes_in (seen value.now)) }
{
    let wid = destination(alloc, value)?;
    let new = SharedNodes::new(alloc, nodes(alloc, field(value, Key::New)?)?)?;
    Ok(TextualMod::SubstituteNodes { wid, new })
}

// The substitution of one occurrence of a text in the content of a provision.
#[tactic(auto, unfolding(crate::specs::Reading::Modifications::Substitutions::substitute_text_in))]
pub(super) fn substitute_text(alloc: Global, value: &Value) -> Result<TextualMod, ReadFail>
    ensures { Gives (λ e. e) result (spec.substitute_text_in (seen value.now)) }
{
    let wid = destination(alloc, value)?;
    let spot = spot(alloc, value)?;
    let new = copied(alloc, field(value, Key::New)?)?;
    Ok(TextualMod::SubstituteText { wid, spot, new })
}
