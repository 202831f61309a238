//! A draft is printed.

ghost use Rattle.std.specs.Prelude.{◌≡◌, ◌++◌, OnOk, IfOk};
ghost use Rattle.json.specs.Tree.{json_tokens, items_tokens};
ghost use Rattle.serde_json.specs.Written.{outline, items_outline, compact_text};
ghost use Rattle.akn_json.specs.Printing.Drafts.{draft_item_data, draft_items_data, draft_value, modification_data};

use super::bearings::{put_efficacy, put_force};
use super::edits::put_textual;
use super::members::{put_number, put_text};
use bearing_mods::{EfficacyEffect, ForceEffect};
use desk_base::{Day, Memory, Period};
use json::Writer;
use law_register::{Destination, Draft, DraftItem, ModSource, Modification};
use std::alloc::Global;
use textual_mods::TextualMod;

#[tactic(auto, unfolding(crate::specs::Printing::Drafts::modification_data))]
fn put_textual_mod(
    out: &mut Writer,
    alloc: Global,
    source: &ModSource,
    force: Period,
    edit: &TextualMod,
) -> Result<(), Memory>
    ensures tokens { OnOk result (out.new.tokens ≡ out.old.tokens
        ++ json_tokens (outline (modification_data (Modification.Textual source.now force edit.now)))) }
    ensures before { OnOk result (out.new.before ≡ out.old.before) }
{
    out.begin_object()?;
    out.key("textualMod")?;
    put_textual(out, alloc, source, force, edit)?;
    out.end_object()?;
    Ok(())
}

#[tactic(auto, unfolding(crate::specs::Printing::Drafts::modification_data))]
fn put_force_mod(
    out: &mut Writer,
    alloc: Global,
    source: &ModSource,
    to: &Destination,
    on: Day,
    effect: ForceEffect,
) -> Result<(), Memory>
    ensures tokens { OnOk result (out.new.tokens ≡ out.old.tokens
        ++ json_tokens (outline (modification_data (Modification.Force source.now to.now on effect)))) }
    ensures before { OnOk result (out.new.before ≡ out.old.before) }
{
    out.begin_object()?;
    out.key("forceMod")?;
    put_force(out, alloc, source, to, on, effect)?;
    out.end_object()?;
    Ok(())
}

#[tactic(auto, unfolding(crate::specs::Printing::Drafts::modification_data))]
fn put_efficacy_mod(
    out: &mut Writer,
    alloc: Global,
    source: &ModSource,
    to: &Destination,
    on: Day,
    effect: EfficacyEffect,
) -> Result<(), Memory>
    ensures tokens { OnOk result (out.new.tokens ≡ out.old.tokens
        ++ json_tokens (outline (modification_data (Modification.Efficacy source.now to.now on effect)))) }
    ensures before { OnOk result (out.new.before ≡ out.old.before) }
{
    out.begin_object()?;
    out.key("efficacyMod")?;
    put_efficacy(out, alloc, source, to, on, effect)?;
    out.end_object()?;
    Ok(())
}

// A modification, named by its one key.
fn put_modification(
    out: &mut Writer,
    alloc: Global,
    modification: &Modification,
) -> Result<(), Memory>
    ensures tokens { OnOk result (out.new.tokens
        ≡ out.old.tokens ++ json_tokens (outline (modification_data modification.now))) }
    ensures before { OnOk result (out.new.before ≡ out.old.before) }
{
    match modification {
        Modification::Textual {
            source,
            force,
            edit,
        } => put_textual_mod(out, alloc, source, *force, edit),
        Modification::Force {
            source,
            destination,
            on,
            effect,
        } => put_force_mod(out, alloc, source, destination, *on, *effect),
        Modification::Efficacy {
            source,
            destination,
            on,
            effect,
        } => put_efficacy_mod(out, alloc, source, destination, *on, *effect),
    }
}

fn put_item(out: &mut Writer, alloc: Global, item: &DraftItem) -> Result<(), Memory>
    ensures tokens { OnOk result (out.new.tokens
        ≡ out.old.tokens ++ json_tokens (outline (draft_item_data item.now))) }
    ensures before { OnOk result (out.new.before ≡ out.old.before) }
{
    out.begin_object()?;
    put_number(out, "item", u64::from(item.item))?;
    out.key("modification")?;
    put_modification(out, alloc, &item.body)?;
    put_text(out, "work", item.work.as_str())?;
    out.end_object()?;
    Ok(())
}

// The items of a draft, and the end of their list.
fn put_each_item(out: &mut Writer, alloc: Global, items: &[DraftItem]) -> Result<(), Memory>
    ensures tokens { OnOk result (out.new.tokens
        ≡ out.old.tokens ++ items_tokens (items_outline (draft_items_data items.now))) }
    ensures before { OnOk result (out.new.before ≡ out.old.before) }
{
    for item in items {
        put_item(out, alloc, item)?;
    }
    out.end_array()?;
    Ok(())
}

fn put_items(out: &mut Writer, alloc: Global, draft: &Draft) -> Result<(), Memory>
    ensures tokens { OnOk result (out.new.tokens
        ≡ out.old.tokens ++ json_tokens (outline (draft_value draft.now))) }
    ensures before { OnOk result (out.new.before ≡ out.old.before) }
{
    out.begin_object()?;
    out.key("draft")?;
    out.begin_array()?;
    put_each_item(out, alloc, draft.as_slice())?;
    out.end_object()?;
    Ok(())
}

/// The bytes of a draft: each item with its number, what it says in its form, and the work that it modifies.
///
/// Every key of a form stands, whatever its value, but an end that a period does not have and a provision that a source does
/// not name. The bytes are JSON with no space, and no line feed stands behind them.
pub fn put_draft(alloc: Global, draft: &Draft) -> Result<Vec<u8>, Memory>
    ensures { IfOk result (λ bytes. bytes.items ≡ compact_text (draft_value draft.now)) }
{
    let mut out = Writer::new(Vec::new(alloc));
    put_items(&mut out, alloc, draft)?;
    Ok(out.into_inner())
}
