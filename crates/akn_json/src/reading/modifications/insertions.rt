//! The forms of insertions.

ghost use Rattle.std.specs.Prelude.{◌≡◌, ◌≤◌};
ghost use Rattle.serde_json.specs.Data.{depth};
ghost use Rattle.serde_json.specs.Read.{max_depth};
ghost use Rattle.akn_json.specs.Reading.Reads.{Gives};
ghost use Rattle.akn_json.specs.Reading.Modifications.Insertions as spec;
ghost use Rattle.akn_json.specs.Reading.Values.{seen};

use super::targets::{read_anchor, spot};
use crate::ReadFail;
use crate::reading::faults::WRONG_SHAPE;
use crate::reading::fields::{copied, field};
use crate::reading::key::Key;
use crate::reading::nodes::nodes;
use crate::reading::values::at_key;
use act_tree::SharedNodes;
use json::Value;
use std::alloc::Global;
use textual_mods::{Pos, TextPos, TextualMod};

#[tactic(auto, unfolding(crate::specs::Reading::Modifications::Insertions::insert_nodes_in))]
pub(super) fn insert_nodes(alloc: Global, value: &Value) -> Result<TextualMod, ReadFail>
    requires depth { depth (seen value.now) ≤ max_depth }
    ensures { Gives (λ e. e) result (spec.insert_nodes_in (seen value.now)) }
{
    let anchor = read_anchor(alloc, value)?;
    let new = SharedNodes::new(alloc, nodes(alloc, field(value, Key::New)?)?)?;
    Ok(TextualMod::InsertNodes {
        wid: anchor.wid,
        pos: anchor.pos,
        new,
    })
}

// That no text is named beside which something is inserted.
#[tactic(auto, unfolding(crate::specs::Reading::Modifications::Insertions::no_spot_in))]
fn no_spot(value: &Value) -> Result<(), ReadFail>
    ensures { Gives (λ u. u) result (spec.no_spot_in (seen value.now)) }
{
    if at_key(value, Key::Old).is_some() {
        return Err(WRONG_SHAPE);
    }
    Ok(())
}

// Where a text is inserted: only beside a text is one named.
#[tactic(auto, unfolding(crate::specs::Reading::Modifications::Insertions::text_pos_in))]
fn text_pos(alloc: Global, pos: Pos, value: &Value) -> Result<TextPos, ReadFail>
    ensures { Gives (λ p. p) result (spec.text_pos_in pos (seen value.now)) }
{
    match pos {
        Pos::Before => Ok(TextPos::Before(spot(alloc, value)?)),
        Pos::After => Ok(TextPos::After(spot(alloc, value)?)),
        Pos::Start => {
            no_spot(value)?;
            Ok(TextPos::Start)
        }
        Pos::End => {
            no_spot(value)?;
            Ok(TextPos::End)
        }
    }
}

#[tactic(auto, unfolding(crate::specs::Reading::Modifications::Insertions::insert_text_in))]
pub(super) fn insert_text(alloc: Global, value: &Value) -> Result<TextualMod, ReadFail>
    ensures { Gives (λ e. e) result (spec.insert_text_in (seen value.now)) }
{
    let anchor = read_anchor(alloc, value)?;
    let new = copied(alloc, field(value, Key::New)?)?;
    let at = text_pos(alloc, anchor.pos, value)?;
    Ok(TextualMod::InsertText {
        wid: anchor.wid,
        at,
        new,
    })
}
