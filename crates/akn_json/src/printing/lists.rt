//! Lists of an answer that do not nest: refs, ids, and the modifications that could not be applied.
//!
//! A call that fails leaves behind what it has written, and the writer is then let go.

ghost use Rattle.std.specs.Prelude.{◌≡◌, ◌++◌, OnOk};
ghost use Rattle.json.specs.Tree.{json_tokens, items_tokens};
ghost use Rattle.serde_json.specs.Data.{array};
ghost use Rattle.serde_json.specs.Written.{outline, items_outline};
ghost use Rattle.akn_json.specs.Printing.Answers.{ids_data, missed_data, texts_data, unapplied_data};

use super::ids::spell;
use super::members::put_text;
use act_tree::Cause;
use desk_base::{Id, Memory, Text};
use json::Writer;
use std::alloc::Global;

fn put_each_text(out: &mut Writer, texts: &[Text]) -> Result<(), Memory>
    ensures tokens { OnOk result (out.new.tokens
        ≡ out.old.tokens ++ items_tokens (items_outline (texts_data texts.now))) }
    ensures before { OnOk result (out.new.before ≡ out.old.before) }
{
    for text in texts {
        out.string(text.as_str())?;
    }
    out.end_array()?;
    Ok(())
}

pub fn put_texts(out: &mut Writer, texts: &[Text]) -> Result<(), Memory>
    ensures tokens { OnOk result (out.new.tokens
        ≡ out.old.tokens ++ json_tokens (outline (array (texts_data texts.now)))) }
    ensures before { OnOk result (out.new.before ≡ out.old.before) }
{
    out.begin_array()?;
    put_each_text(out, texts)
}

fn put_each_id(out: &mut Writer, alloc: Global, ids: &[Id]) -> Result<(), Memory>
    ensures tokens { OnOk result (out.new.tokens
        ≡ out.old.tokens ++ items_tokens (items_outline (ids_data ids.now))) }
    ensures before { OnOk result (out.new.before ≡ out.old.before) }
{
    let mut text = String::new(alloc);
    for id in ids {
        spell(&mut text, *id)?;
        out.string(text.as_str())?;
    }
    out.end_array()?;
    Ok(())
}

pub fn put_ids(out: &mut Writer, alloc: Global, ids: &[Id]) -> Result<(), Memory>
    ensures tokens { OnOk result (out.new.tokens
        ≡ out.old.tokens ++ json_tokens (outline (array (ids_data ids.now)))) }
    ensures before { OnOk result (out.new.before ≡ out.old.before) }
{
    out.begin_array()?;
    put_each_id(out, alloc, ids)
}

// A modification that could not be applied, with its cause. The text has room for its id.
fn put_missed(out: &mut Writer, text: &mut String, missed: &(Id, Cause)) -> Result<(), Memory>
    ensures tokens { OnOk result (out.new.tokens
        ≡ out.old.tokens ++ json_tokens (outline (missed_data missed.now))) }
    ensures before { OnOk result (out.new.before ≡ out.old.before) }
{
    spell(text, missed.0)?;
    out.begin_object()?;
    put_text(out, "cause", missed.1.name())?;
    put_text(out, "id", text.as_str())?;
    out.end_object()?;
    Ok(())
}

// The modifications that could not be applied, and the end of their list.
fn put_each_missed(out: &mut Writer, alloc: Global, list: &[(Id, Cause)]) -> Result<(), Memory>
    ensures tokens { OnOk result (out.new.tokens
        ≡ out.old.tokens ++ items_tokens (items_outline (unapplied_data list.now))) }
    ensures before { OnOk result (out.new.before ≡ out.old.before) }
{
    let mut text = String::new(alloc);
    for missed in list {
        put_missed(out, &mut text, missed)?;
    }
    out.end_array()?;
    Ok(())
}

pub fn put_unapplied(out: &mut Writer, alloc: Global, list: &[(Id, Cause)]) -> Result<(), Memory>
    ensures tokens { OnOk result (out.new.tokens
        ≡ out.old.tokens ++ json_tokens (outline (array (unapplied_data list.now)))) }
    ensures before { OnOk result (out.new.before ≡ out.old.before) }
{
    out.begin_array()?;
    put_each_missed(out, alloc, list)
}
