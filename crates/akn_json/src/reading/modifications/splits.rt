//! The forms of splits and of joins.

ghost use Rattle.std.specs.Prelude.{◌≡◌};
ghost use Rattle.akn_json.specs.Reading.Reads.{Gives};
ghost use Rattle.akn_json.specs.Reading.Modifications.Splits as spec;
ghost use Rattle.akn_json.specs.Reading.Values.{seen};

use super::targets::{destination, spot};
use crate::ReadFail;
use crate::reading::fields::{copied, field, optional_text};
use crate::reading::key::Key;
use crate::reading::nodes::num;
use crate::reading::values::at_key;
use desk_base::Text;
use json::Value;
use std::alloc::Global;
use textual_mods::{SplitAt, TextualMod};

// Where a provision is split: at the child that is named, and else at one occurrence of a text.
#[tactic(auto, unfolding(crate::specs::Reading::Modifications::Splits::split_at_in))]
fn split_at(alloc: Global, value: &Value) -> Result<SplitAt, ReadFail>
    ensures { Gives (λ s. s) result (spec.split_at_in (seen value.now)) }
{
    match at_key(value, Key::Child) {
        Some(child) => Ok(SplitAt::Child(copied(alloc, child)?)),
        None => Ok(SplitAt::Text(spot(alloc, value)?)),
    }
}

#[tactic(auto, unfolding(crate::specs::Reading::Modifications::Splits::split_in))]
pub(super) fn split(alloc: Global, value: &Value) -> Result<TextualMod, ReadFail>
    ensures { Gives (λ e. e) result (spec.split_in (seen value.now)) }
{
    let wid = destination(alloc, value)?;
    let at = split_at(alloc, value)?;
    let num = num(field(value, Key::Num)?)?;
    let heading = optional_text(value, Key::Heading)?;
    Ok(TextualMod::Split {
        wid,
        at,
        num,
        heading: Text::copy_of(alloc, heading)?,
    })
}

#[tactic(auto, unfolding(crate::specs::Reading::Modifications::Splits::join_in))]
pub(super) fn join(alloc: Global, value: &Value) -> Result<TextualMod, ReadFail>
    ensures { Gives (λ e. e) result (spec.join_in (seen value.now)) }
{
    let wid = destination(alloc, value)?;
    let second = copied(alloc, field(value, Key::Second)?)?;
    let separator = optional_text(value, Key::Separator)?;
    Ok(TextualMod::Join {
        wid,
        second,
        separator: Text::copy_of(alloc, separator)?,
    })
}
