//! The edits of textual modifications.

ghost use Rattle.std.specs.Prelude.{◌≡◌, ◌++◌, ◌∷◌, OnOk, All};
ghost use Rattle.std.specs.List.{flat_map};
ghost use Rattle.entry_codec.specs.Modifications as spec;
ghost use Rattle.entry_codec.specs.Typed as typed;
ghost use Rattle.textual_mods.specs.declared.edit.TextualMod.TheVariants.{InsertNodes, InsertText, Join, Split, SubstituteText};

use super::nodes::put_payload;
use super::numbers::put_count;
use super::texts::{put_num, put_text};
use super::values::put_spot;
use act_tree::Nodes;
use desk_base::{Memory, Text};
use eid_paths::Num;
use textual_mods::{Pairs, Pos, SplitAt, Spot, TextPos, TextualMod};

#[tactic(auto, unfolding(crate::specs::Modifications::pos))]
fn put_pos(out: &mut Vec<u8>, pos: Pos) -> Result<(), Memory>
    ensures { OnOk result (out.new.items ≡ out.old.items ++ spec.pos.spell pos) }
{
    match pos {
        Pos::Before => out.push(0)?,
        Pos::After => out.push(1)?,
        Pos::Start => out.push(2)?,
        Pos::End => out.push(3)?,
    }
    Ok(())
}

#[tactic(auto, unfolding(crate::specs::Modifications::text_pos))]
fn put_text_pos(out: &mut Vec<u8>, at: &TextPos) -> Result<(), Memory>
    ensures bytes { OnOk result (out.new.items ≡ out.old.items ++ spec.text_pos.spell at.now) }
    ensures typed { OnOk result (typed.IsTextPos at.now) }
{
    match at {
        TextPos::Before(spot) => {
            out.push(0)?;
            put_spot(out, spot)?;
        }
        TextPos::After(spot) => {
            out.push(1)?;
            put_spot(out, spot)?;
        }
        TextPos::Start => out.push(2)?,
        TextPos::End => out.push(3)?,
    }
    Ok(())
}

#[tactic(auto, unfolding(crate::specs::Modifications::split_at))]
fn put_split_at(out: &mut Vec<u8>, at: &SplitAt) -> Result<(), Memory>
    ensures bytes { OnOk result (out.new.items ≡ out.old.items ++ spec.split_at.spell at.now) }
    ensures typed { OnOk result (typed.IsSplitAt at.now) }
{
    match at {
        SplitAt::Text(spot) => {
            out.push(0)?;
            put_spot(out, spot)?;
        }
        SplitAt::Child(wid) => {
            out.push(1)?;
            put_text(out, wid.as_str())?;
        }
    }
    Ok(())
}

// A provision by its wId, with the num that it gets.
#[tactic(auto, unfolding(crate::specs::Modifications::num_pair))]
fn put_pair(out: &mut Vec<u8>, pair: &(Text, Num)) -> Result<(), Memory>
    ensures bytes { OnOk result (out.new.items ≡ out.old.items ++ spec.num_pair.spell pair.now) }
    ensures typed { OnOk result (typed.IsNumPair pair.now) }
{
    put_text(out, pair.0.as_str())?;
    put_num(out, &pair.1)?;
    Ok(())
}

fn put_each_pair(out: &mut Vec<u8>, pairs: &[(Text, Num)]) -> Result<(), Memory>
    ensures bytes { OnOk result (out.new.items ≡ out.old.items ++ flat_map spec.num_pair.spell pairs.now) }
    ensures typed { OnOk result (All typed.IsNumPair pairs.now) }
{
    for pair in pairs {
        put_pair(out, pair)?;
    }
    Ok(())
}

#[tactic(auto, unfolding(crate::specs::Modifications::num_pairs))]
fn put_pairs(out: &mut Vec<u8>, pairs: &Pairs) -> Result<(), Memory>
    ensures bytes { OnOk result (out.new.items ≡ out.old.items ++ spec.num_pairs.spell pairs.now) }
    ensures typed { OnOk result (All typed.IsNumPair pairs.now) }
{
    let pairs = pairs.as_slice();
    put_count(out, pairs.len())?;
    put_each_pair(out, pairs)?;
    Ok(())
}

// A text in the place of an occurrence of another.
fn put_substitution(out: &mut Vec<u8>, wid: &Text, spot: &Spot, new: &Text) -> Result<(), Memory>
    ensures bytes { OnOk result (out.new.items ≡ out.old.items ++ spec.substituted.spell (wid.now, (spot.now, new.now))) }
    ensures typed { OnOk result (typed.IsEdit (SubstituteText wid.now spot.now new.now)) }
{
    put_text(out, wid.as_str())?;
    put_spot(out, spot)?;
    put_text(out, new.as_str())?;
    Ok(())
}

// Nodes beside or beneath a provision.
fn put_insertion(out: &mut Vec<u8>, wid: &Text, pos: Pos, new: &Nodes) -> Result<(), Memory>
    ensures bytes { OnOk result (out.new.items ≡ out.old.items ++ spec.inserted.spell (wid.now, (pos, new.now))) }
    ensures typed { OnOk result (typed.IsEdit (InsertNodes wid.now pos new.now)) }
{
    put_text(out, wid.as_str())?;
    put_pos(out, pos)?;
    put_payload(out, new)?;
    Ok(())
}

// A text within that of a provision.
fn put_inserted_text(out: &mut Vec<u8>, wid: &Text, at: &TextPos, new: &Text) -> Result<(), Memory>
    ensures bytes { OnOk result (out.new.items ≡ out.old.items ++ spec.inserted_text.spell (wid.now, (at.now, new.now))) }
    ensures typed { OnOk result (typed.IsEdit (InsertText wid.now at.now new.now)) }
{
    put_text(out, wid.as_str())?;
    put_text_pos(out, at)?;
    put_text(out, new.as_str())?;
    Ok(())
}

// A provision in two.
fn put_split(
    out: &mut Vec<u8>,
    wid: &Text,
    at: &SplitAt,
    num: &Num,
    heading: &Text,
) -> Result<(), Memory>
    ensures bytes { OnOk result (out.new.items
        ≡ out.old.items ++ spec.cut.spell (wid.now, (at.now, (num.now, heading.now)))) }
    ensures typed { OnOk result (typed.IsEdit (Split wid.now at.now num.now heading.now)) }
{
    put_text(out, wid.as_str())?;
    put_split_at(out, at)?;
    put_num(out, num)?;
    put_text(out, heading.as_str())?;
    Ok(())
}

// Two provisions as one.
fn put_join(out: &mut Vec<u8>, wid: &Text, second: &Text, separator: &Text) -> Result<(), Memory>
    ensures bytes { OnOk result (out.new.items ≡ out.old.items ++ spec.joined.spell (wid.now, (second.now, separator.now))) }
    ensures typed { OnOk result (typed.IsEdit (Join wid.now second.now separator.now)) }
{
    put_text(out, wid.as_str())?;
    put_text(out, second.as_str())?;
    put_text(out, separator.as_str())?;
    Ok(())
}

#[tactic(auto, unfolding(crate::specs::Modifications::edit))]
pub(super) fn put_edit(out: &mut Vec<u8>, edit: &TextualMod) -> Result<(), Memory>
    ensures bytes { OnOk result (out.new.items ≡ out.old.items ++ spec.edit.spell edit.now) }
    ensures typed { OnOk result (typed.IsEdit edit.now) }
{
    match edit {
        TextualMod::Repeal { wid } => {
            out.push(1)?;
            put_text(out, wid.as_str())?;
        }
        TextualMod::SubstituteNodes { wid, new } => {
            out.push(2)?;
            put_text(out, wid.as_str())?;
            put_payload(out, new)?;
        }
        TextualMod::SubstituteText { wid, spot, new } => {
            out.push(3)?;
            put_substitution(out, wid, spot, new)?;
        }
        TextualMod::InsertNodes { wid, pos, new } => {
            out.push(4)?;
            put_insertion(out, wid, *pos, new)?;
        }
        TextualMod::InsertText { wid, at, new } => {
            out.push(5)?;
            put_inserted_text(out, wid, at, new)?;
        }
        TextualMod::Renumber { pairs } => {
            out.push(6)?;
            put_pairs(out, pairs)?;
        }
        TextualMod::Split {
            wid,
            at,
            num,
            heading,
        } => {
            out.push(7)?;
            put_split(out, wid, at, num, heading)?;
        }
        TextualMod::Join {
            wid,
            second,
            separator,
        } => {
            out.push(8)?;
            put_join(out, wid, second, separator)?;
        }
    }
    Ok(())
}
