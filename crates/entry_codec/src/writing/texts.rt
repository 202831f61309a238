//! Texts behind a length.

ghost use Rattle.std.specs.Prelude.{◌≡◌, ◌++◌, OnOk, All};
ghost use Rattle.std.specs.List.{flat_map};
ghost use Rattle.entry_codec.specs.Values as spec;
ghost use Rattle.entry_codec.specs.Typed as typed;

use super::numbers::put_count;
use act_tree::Refs;
use desk_base::{Memory, Text};
use eid_paths::Num;
use frbr_names::WorkName;
use law_register::{Drafter, laws};

#[tactic(auto, unfolding(crate::specs::Values::text, crate::specs::Values::text_of))]
pub(super) fn put_text(out: &mut Vec<u8>, text: &str) -> Result<(), Memory>
    ensures bytes { OnOk result (out.new.items ≡ out.old.items ++ spec.text.spell text.now) }
    ensures typed { OnOk result (typed.IsText text.now) }
{
    put_count(out, text.len())?;
    out.extend_from_slice(text.as_bytes())?;
    Ok(())
}

#[tactic(auto, unfolding(crate::specs::Values::drafter, crate::specs::Values::text_of))]
pub(super) fn put_drafter(out: &mut Vec<u8>, drafter: &Drafter) -> Result<(), Memory>
    ensures bytes { OnOk result (out.new.items ≡ out.old.items ++ spec.drafter.spell drafter.now) }
    ensures typed { OnOk result (typed.IsDrafterName drafter.now) }
{
    laws::drafters_are_named(drafter);
    let name = drafter.as_str();
    out.push(name.len().min(255) as u8)?;
    out.extend_from_slice(name.as_bytes())?;
    Ok(())
}

#[tactic(auto, unfolding(crate::specs::Values::num, crate::specs::Values::text_of))]
pub(super) fn put_num(out: &mut Vec<u8>, num: &Num) -> Result<(), Memory>
    ensures bytes { OnOk result (out.new.items ≡ out.old.items ++ spec.num.spell num.now) }
    ensures typed { OnOk result (typed.IsNumText num.now) }
{
    let num = num.copy();
    let name = num.as_bytes();
    out.push(name.len().min(255) as u8)?;
    out.extend_from_slice(name)?;
    Ok(())
}

#[tactic(auto, unfolding(crate::specs::Values::work, crate::specs::Values::text, crate::specs::Values::text_of))]
pub(super) fn put_work(out: &mut Vec<u8>, work: &WorkName) -> Result<(), Memory>
    ensures bytes { OnOk result (out.new.items ≡ out.old.items ++ spec.work.spell work.now) }
    ensures typed { OnOk result (typed.IsWorkText work.now) }
{
    laws::works_are_short(work);
    let _ = work.date();
    put_text(out, work.as_str())
}

#[tactic(auto, unfolding(crate::specs::Values::expression, crate::specs::Values::text, crate::specs::Values::text_of))]
fn put_expression(out: &mut Vec<u8>, iri: &Text) -> Result<(), Memory>
    ensures bytes { OnOk result (out.new.items ≡ out.old.items ++ spec.expression.spell iri.now) }
    ensures typed { OnOk result (typed.IsText iri.now) }
{
    put_text(out, iri.as_str())
}

fn put_each_ref(out: &mut Vec<u8>, refs: &[Text]) -> Result<(), Memory>
    ensures bytes { OnOk result (out.new.items ≡ out.old.items ++ flat_map spec.expression.spell refs.now) }
    ensures typed { OnOk result (All typed.IsText refs.now) }
{
    for iri in refs {
        put_expression(out, iri)?;
    }
    Ok(())
}

#[tactic(auto, unfolding(crate::specs::Values::refs))]
pub(super) fn put_refs(out: &mut Vec<u8>, refs: &Refs) -> Result<(), Memory>
    ensures bytes { OnOk result (out.new.items ≡ out.old.items ++ spec.refs.spell refs.now) }
    ensures typed { OnOk result (All typed.IsText refs.now) }
{
    let refs = refs.as_slice();
    put_count(out, refs.len())?;
    put_each_ref(out, refs)?;
    Ok(())
}
