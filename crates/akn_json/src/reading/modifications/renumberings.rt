//! The form of renumberings.

ghost use Rattle.std.specs.Prelude.{◌≡◌};
ghost use Rattle.akn_json.specs.Reading.Reads.{Gives};
ghost use Rattle.akn_json.specs.Reading.Fields.{each};
ghost use Rattle.akn_json.specs.Reading.Modifications.Renumberings as spec;
ghost use Rattle.akn_json.specs.Reading.Values.{seen, items_seen};

use crate::ReadFail;
use crate::reading::fields::{copied, field, items, members};
use crate::reading::key::Key;
use crate::reading::nodes::num;
use crate::reading::tables::NEW_NUM;
use desk_base::Text;
use eid_paths::Num;
use json::Value;
use std::alloc::Global;
use textual_mods::{Pairs, TextualMod};

// A provision, with the num that it gets.
#[tactic(auto, unfolding(crate::specs::Reading::Modifications::Renumberings::pair_in))]
fn pair(alloc: Global, value: &Value) -> Result<(Text, Num), ReadFail>
    ensures { Gives (λ p. p) result (spec.pair_in (seen value.now)) }
{
    members(value, &NEW_NUM)?;
    let wid = copied(alloc, field(value, Key::Wid)?)?;
    let num = num(field(value, Key::Num)?)?;
    Ok((wid, num))
}

fn each_pair(alloc: Global, values: &[Value]) -> Result<Pairs, ReadFail>
    ensures { Gives (λ p. p) result (each spec.pair_in (items_seen values.now)) }
{
    let mut pairs = Pairs::new(alloc);
    for value in values {
        let (wid, num) = pair(alloc, value)?;
        pairs.push(wid, num)?;
    }
    Ok(pairs)
}

#[tactic(auto, unfolding(crate::specs::Reading::Modifications::Renumberings::renumber_in))]
pub(super) fn renumber(alloc: Global, value: &Value) -> Result<TextualMod, ReadFail>
    ensures { Gives (λ e. e) result (spec.renumber_in (seen value.now)) }
{
    let pairs = each_pair(alloc, items(field(value, Key::Renumber)?)?)?;
    Ok(TextualMod::Renumber { pairs })
}
