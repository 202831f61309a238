//! Textual modifications. Every key of the form stands, whatever its value.

ghost use Rattle.std.specs.Prelude.{◌≡◌, [], ◌∷◌, ◌++◌, codes, OnOk};
ghost use Rattle.std.specs.Fmt.{decimal};
ghost use Rattle.json.specs.Token.{key, number, string};
ghost use Rattle.json.specs.Tree.{json_tokens, items_tokens, members_tokens};
ghost use Rattle.serde_json.specs.Written.{outline, items_outline, members_outline};
ghost use Rattle.akn_json.specs.Printing.Parts as parts;
ghost use Rattle.akn_json.specs.Printing.Edits as spec;

use super::members::{put_number, put_text};
use super::nodes::put_nodes;
use super::parts::{put_kind, put_period, put_provision};
use crate::reading::{EditKind, Worded};
use act_tree::Nodes;
use desk_base::{Memory, Period, Text};
use eid_paths::Num;
use json::Writer;
use law_register::ModSource;
use std::alloc::Global;
use textual_mods::{Pairs, Pos, SplitAt, Spot, TextPos, TextualMod};

// The word for a position.
fn pos_word(pos: Pos) -> &'static str
    ensures { result.now ≡ spec.pos_word pos }
{
    match pos {
        Pos::Before => "before",
        Pos::After => "after",
        Pos::Start => "start",
        Pos::End => "end",
    }
}

// A provision, and a position at it.
fn put_anchor(out: &mut Writer, wid: &str, pos: Pos) -> Result<(), Memory>
    ensures tokens { OnOk result (out.new.tokens
        ≡ out.old.tokens ++ json_tokens (outline (spec.anchor_data wid.now pos))) }
    ensures before { OnOk result (out.new.before ≡ out.old.before) }
{
    out.begin_object()?;
    put_text(out, "pos", pos_word(pos))?;
    put_text(out, "wId", wid)?;
    out.end_object()?;
    Ok(())
}

// The provision that an edit is directed at, and when the edit is in force.
fn put_target(out: &mut Writer, alloc: Global, wid: &str, force: Period) -> Result<(), Memory>
    ensures tokens { OnOk result (out.new.tokens ≡ out.old.tokens
        ++ key (codes "destination") ∷ (json_tokens (outline (parts.provision_data wid.now))
        ++ key (codes "force") ∷ json_tokens (outline (parts.period_data force)))) }
    ensures before { OnOk result (out.new.before ≡ out.old.before) }
{
    out.key("destination")?;
    put_provision(out, wid)?;
    out.key("force")?;
    put_period(out, alloc, force)?;
    Ok(())
}

// Where an insertion stands, and when it is in force.
fn put_place(
    out: &mut Writer,
    alloc: Global,
    wid: &str,
    pos: Pos,
    force: Period,
) -> Result<(), Memory>
    ensures tokens { OnOk result (out.new.tokens ≡ out.old.tokens
        ++ key (codes "destination") ∷ (json_tokens (outline (spec.anchor_data wid.now pos))
        ++ key (codes "force") ∷ json_tokens (outline (parts.period_data force)))) }
    ensures before { OnOk result (out.new.before ≡ out.old.before) }
{
    out.key("destination")?;
    put_anchor(out, wid, pos)?;
    out.key("force")?;
    put_period(out, alloc, force)?;
    Ok(())
}

// One occurrence of a text.
fn put_spot(out: &mut Writer, spot: &Spot) -> Result<(), Memory>
    ensures tokens { OnOk result (out.new.tokens ≡ out.old.tokens
        ++ key (codes "occurrence") ∷ number (decimal spot.now.occurrence)
        ∷ key (codes "old") ∷ string spot.now.old ∷ []) }
    ensures before { OnOk result (out.new.before ≡ out.old.before) }
{
    put_number(out, "occurrence", u64::from(spot.occurrence))?;
    put_text(out, "old", spot.old.as_str())
}

#[tactic(auto, unfolding(crate::specs::Printing::Edits::textual_data))]
fn put_repeal(
    out: &mut Writer,
    alloc: Global,
    source: &ModSource,
    force: Period,
    wid: &Text,
) -> Result<(), Memory>
    ensures tokens { OnOk result (out.new.tokens ≡ out.old.tokens
        ++ json_tokens (outline (spec.textual_data source.now force (TextualMod.Repeal wid.now)))) }
    ensures before { OnOk result (out.new.before ≡ out.old.before) }
{
    out.begin_object()?;
    put_target(out, alloc, wid.as_str(), force)?;
    put_kind(out, source, EditKind::Repeal.word())?;
    Ok(())
}

#[tactic(auto, unfolding(crate::specs::Printing::Edits::textual_data))]
fn put_substituted_nodes(
    out: &mut Writer,
    alloc: Global,
    source: &ModSource,
    force: Period,
    wid: &Text,
    new: &Nodes,
) -> Result<(), Memory>
    ensures tokens { OnOk result (out.new.tokens ≡ out.old.tokens
        ++ json_tokens (outline (spec.textual_data source.now force (TextualMod.SubstituteNodes wid.now new.now)))) }
    ensures before { OnOk result (out.new.before ≡ out.old.before) }
{
    out.begin_object()?;
    put_target(out, alloc, wid.as_str(), force)?;
    out.key("new")?;
    put_nodes(out, new)?;
    put_kind(out, source, EditKind::Substitution.word())?;
    Ok(())
}

#[tactic(auto, unfolding(crate::specs::Printing::Edits::textual_data))]
fn put_substituted_text(
    out: &mut Writer,
    alloc: Global,
    source: &ModSource,
    force: Period,
    wid: &Text,
    spot: &Spot,
    new: &Text,
) -> Result<(), Memory>
    ensures tokens { OnOk result (out.new.tokens ≡ out.old.tokens
        ++ json_tokens (outline (spec.textual_data source.now force
        (TextualMod.SubstituteText wid.now spot.now new.now)))) }
    ensures before { OnOk result (out.new.before ≡ out.old.before) }
{
    out.begin_object()?;
    put_target(out, alloc, wid.as_str(), force)?;
    put_text(out, "new", new.as_str())?;
    put_spot(out, spot)?;
    put_kind(out, source, EditKind::Substitution.word())?;
    Ok(())
}

#[tactic(auto, unfolding(crate::specs::Printing::Edits::textual_data))]
fn put_inserted_nodes(
    out: &mut Writer,
    alloc: Global,
    source: &ModSource,
    force: Period,
    wid: &Text,
    pos: Pos,
    new: &Nodes,
) -> Result<(), Memory>
    ensures tokens { OnOk result (out.new.tokens ≡ out.old.tokens
        ++ json_tokens (outline (spec.textual_data source.now force
        (TextualMod.InsertNodes wid.now pos new.now)))) }
    ensures before { OnOk result (out.new.before ≡ out.old.before) }
{
    out.begin_object()?;
    put_place(out, alloc, wid.as_str(), pos, force)?;
    out.key("new")?;
    put_nodes(out, new)?;
    put_kind(out, source, EditKind::Insertion.word())
}

// Where a text stands that is inserted.
fn pos_of(at: &TextPos) -> Pos
    ensures { result ≡ spec.pos_of at.now }
{
    match at {
        TextPos::Start => Pos::Start,
        TextPos::End => Pos::End,
        TextPos::Before(_) => Pos::Before,
        TextPos::After(_) => Pos::After,
    }
}

// The occurrence beside which a text is inserted, exactly where there is one, and the source and the kind.
fn put_beside(out: &mut Writer, source: &ModSource, at: &TextPos) -> Result<(), Memory>
    ensures tokens { OnOk result (out.new.tokens
        ≡ out.old.tokens ++ members_tokens (members_outline (spec.beside_data source.now at.now))) }
    ensures before { OnOk result (out.new.before ≡ out.old.before) }
{
    if let TextPos::Before(spot) | TextPos::After(spot) = at {
        put_spot(out, spot)?;
    }
    put_kind(out, source, EditKind::Insertion.word())
}

#[tactic(auto, unfolding(crate::specs::Printing::Edits::textual_data))]
fn put_inserted_text(
    out: &mut Writer,
    alloc: Global,
    source: &ModSource,
    force: Period,
    wid: &Text,
    at: &TextPos,
    new: &Text,
) -> Result<(), Memory>
    ensures tokens { OnOk result (out.new.tokens ≡ out.old.tokens
        ++ json_tokens (outline (spec.textual_data source.now force
        (TextualMod.InsertText wid.now at.now new.now)))) }
    ensures before { OnOk result (out.new.before ≡ out.old.before) }
{
    out.begin_object()?;
    put_place(out, alloc, wid.as_str(), pos_of(at), force)?;
    put_text(out, "new", new.as_str())?;
    put_beside(out, source, at)
}

// A provision, with the num that it gets.
fn put_pair(out: &mut Writer, pair: &(Text, Num)) -> Result<(), Memory>
    ensures tokens { OnOk result (out.new.tokens ≡ out.old.tokens ++ json_tokens (outline (spec.pair_data pair.now))) }
    ensures before { OnOk result (out.new.before ≡ out.old.before) }
{
    out.begin_object()?;
    put_text(out, "num", pair.1.as_str())?;
    put_text(out, "wId", pair.0.as_str())?;
    out.end_object()?;
    Ok(())
}

// Provisions with the nums that they get, and the end of their list.
fn put_each_pair(out: &mut Writer, pairs: &[(Text, Num)]) -> Result<(), Memory>
    ensures tokens { OnOk result (out.new.tokens
        ≡ out.old.tokens ++ items_tokens (items_outline (spec.pairs_data pairs.now))) }
    ensures before { OnOk result (out.new.before ≡ out.old.before) }
{
    for pair in pairs {
        put_pair(out, pair)?;
    }
    out.end_array()?;
    Ok(())
}

#[tactic(auto, unfolding(crate::specs::Printing::Edits::textual_data))]
fn put_renumbering(
    out: &mut Writer,
    alloc: Global,
    source: &ModSource,
    force: Period,
    pairs: &Pairs,
) -> Result<(), Memory>
    ensures tokens { OnOk result (out.new.tokens ≡ out.old.tokens
        ++ json_tokens (outline (spec.textual_data source.now force (TextualMod.Renumber pairs.now)))) }
    ensures before { OnOk result (out.new.before ≡ out.old.before) }
{
    out.begin_object()?;
    out.key("force")?;
    put_period(out, alloc, force)?;
    out.key("renumber")?;
    out.begin_array()?;
    put_each_pair(out, pairs.as_slice())?;
    put_kind(out, source, EditKind::Renumbering.word())
}

// The heading and the num of the provision that a split makes.
fn put_made(out: &mut Writer, heading: &Text, num: &Num) -> Result<(), Memory>
    ensures tokens { OnOk result (out.new.tokens ≡ out.old.tokens
        ++ key (codes "heading") ∷ string heading.now ∷ key (codes "num") ∷ string num.now ∷ []) }
    ensures before { OnOk result (out.new.before ≡ out.old.before) }
{
    put_text(out, "heading", heading.as_str())?;
    put_text(out, "num", num.as_str())
}

#[tactic(auto, unfolding(crate::specs::Printing::Edits::textual_data))]
fn put_split_at_child(
    out: &mut Writer,
    alloc: Global,
    source: &ModSource,
    force: Period,
    wid: &Text,
    child: &Text,
    num: &Num,
    heading: &Text,
) -> Result<(), Memory>
    ensures tokens { OnOk result (out.new.tokens ≡ out.old.tokens
        ++ json_tokens (outline (spec.textual_data source.now force
        (TextualMod.Split wid.now (SplitAt.Child child.now) num.now heading.now)))) }
    ensures before { OnOk result (out.new.before ≡ out.old.before) }
{
    out.begin_object()?;
    put_text(out, "child", child.as_str())?;
    put_target(out, alloc, wid.as_str(), force)?;
    put_made(out, heading, num)?;
    put_kind(out, source, EditKind::Split.word())?;
    Ok(())
}

#[tactic(auto, unfolding(crate::specs::Printing::Edits::textual_data))]
fn put_split_at_text(
    out: &mut Writer,
    alloc: Global,
    source: &ModSource,
    force: Period,
    wid: &Text,
    spot: &Spot,
    num: &Num,
    heading: &Text,
) -> Result<(), Memory>
    ensures tokens { OnOk result (out.new.tokens ≡ out.old.tokens
        ++ json_tokens (outline (spec.textual_data source.now force
        (TextualMod.Split wid.now (SplitAt.Text spot.now) num.now heading.now)))) }
    ensures before { OnOk result (out.new.before ≡ out.old.before) }
{
    out.begin_object()?;
    put_target(out, alloc, wid.as_str(), force)?;
    put_made(out, heading, num)?;
    put_spot(out, spot)?;
    put_kind(out, source, EditKind::Split.word())?;
    Ok(())
}

#[tactic(auto, unfolding(crate::specs::Printing::Edits::textual_data))]
fn put_join(
    out: &mut Writer,
    alloc: Global,
    source: &ModSource,
    force: Period,
    wid: &Text,
    second: &Text,
    separator: &Text,
) -> Result<(), Memory>
    ensures tokens { OnOk result (out.new.tokens ≡ out.old.tokens
        ++ json_tokens (outline (spec.textual_data source.now force
        (TextualMod.Join wid.now second.now separator.now)))) }
    ensures before { OnOk result (out.new.before ≡ out.old.before) }
{
    out.begin_object()?;
    put_target(out, alloc, wid.as_str(), force)?;
    put_text(out, "second", second.as_str())?;
    put_text(out, "separator", separator.as_str())?;
    put_kind(out, source, EditKind::Join.word())?;
    Ok(())
}

/// A textual modification.
pub fn put_textual(
    out: &mut Writer,
    alloc: Global,
    source: &ModSource,
    force: Period,
    edit: &TextualMod,
) -> Result<(), Memory>
    ensures tokens { OnOk result (out.new.tokens
        ≡ out.old.tokens ++ json_tokens (outline (spec.textual_data source.now force edit.now))) }
    ensures before { OnOk result (out.new.before ≡ out.old.before) }
{
    match edit {
        TextualMod::Repeal { wid } => put_repeal(out, alloc, source, force, wid),
        TextualMod::SubstituteNodes { wid, new } => {
            put_substituted_nodes(out, alloc, source, force, wid, new)
        }
        TextualMod::SubstituteText { wid, spot, new } => {
            put_substituted_text(out, alloc, source, force, wid, spot, new)
        }
        TextualMod::InsertNodes { wid, pos, new } => {
            put_inserted_nodes(out, alloc, source, force, wid, *pos, new)
        }
        TextualMod::InsertText { wid, at, new } => {
            put_inserted_text(out, alloc, source, force, wid, at, new)
        }
        TextualMod::Renumber { pairs } => put_renumbering(out, alloc, source, force, pairs),
        TextualMod::Split {
            wid,
            at: SplitAt::Child(child),
            num,
            heading,
        } => put_split_at_child(out, alloc, source, force, wid, child, num, heading),
        TextualMod::Split {
            wid,
            at: SplitAt::Text(spot),
            num,
            heading,
        } => put_split_at_text(out, alloc, source, force, wid, spot, num, heading),
        TextualMod::Join {
            wid,
            second,
            separator,
        } => put_join(out, alloc, source, force, wid, second, separator),
    }
}
