//! The forms of textual modifications: each has its keys and its values.

ghost use Rattle.std.specs.Prelude.{◌≡◌, ◌≤◌};
ghost use Rattle.serde_json.specs.Data.{depth};
ghost use Rattle.serde_json.specs.Read.{max_depth};
ghost use Rattle.akn_json.specs.Reading.Reads.{Gives};
ghost use Rattle.akn_json.specs.Reading.Modifications.EditKinds as spec;
ghost use Rattle.akn_json.specs.Reading.Modifications.Edits.{edit_in, keys_in};
ghost use Rattle.akn_json.specs.Reading.Values.{seen};

use super::edit_kinds::EditKind;
use super::insertions::{insert_nodes, insert_text};
use super::renumberings::renumber;
use super::splits::{join, split};
use super::substitutions::{repeal, substitute_nodes, substitute_text};
use crate::ReadFail;
use crate::reading::faults::{UNKNOWN_WORD, WRONG_SHAPE};
use crate::reading::fields::{either, field, members, text};
use crate::reading::key::Key;
use crate::reading::tables::{
    INSERTION_AT_AN_END, INSERTION_BESIDE_A_TEXT, INSERTION_OF_NODES, JOIN, RENUMBERING, REPEAL,
    SPLIT_AT_A_CHILD, SPLIT_AT_A_TEXT, SUBSTITUTION_OF_NODES, SUBSTITUTION_OF_TEXT,
};
use json::Value;
use std::alloc::Global;
use textual_mods::TextualMod;

/// What a substitution or an insertion brings.
#[derive(Clone, Copy)]
enum Payload {
    Nodes,
    Text,
}

/// A form of a textual modification.
#[derive(Clone, Copy)]
pub(super) enum EditForm {
    Repeal,
    SubstituteNodes,
    SubstituteText,
    InsertNodes,
    InsertText,
    Renumber,
    Split,
    Join,
}

#[tactic(auto, unfolding(crate::specs::Reading::Modifications::EditKinds::kind_in))]
pub(super) fn kind(value: &Value) -> Result<EditKind, ReadFail>
    ensures { Gives (λ k. k) result (spec.kind_in (seen value.now)) }
{
    match EditKind::from_word(text(field(value, Key::Type)?)?) {
        Some(kind) => Ok(kind),
        None => Err(UNKNOWN_WORD),
    }
}

// A list brings nodes, and a text brings a text.
fn payload_of(value: &Value) -> Result<Payload, ReadFail>
    ensures { Gives (λ p. p) result (spec.payload_of (seen value.now)) }
{
    match value {
        Value::Array(_) => Ok(Payload::Nodes),
        Value::String(_) => Ok(Payload::Text),
        _ => Err(WRONG_SHAPE),
    }
}

// What a substitution or an insertion brings.
#[tactic(auto, unfolding(crate::specs::Reading::Modifications::EditKinds::payload_in))]
fn read_payload(value: &Value) -> Result<Payload, ReadFail>
    ensures { Gives (λ p. p) result (spec.payload_in (seen value.now)) }
{
    payload_of(field(value, Key::New)?)
}

fn substitution_form(brought: Payload) -> EditForm
    ensures { result ≡ spec.substitution_form brought }
{
    match brought {
        Payload::Nodes => EditForm::SubstituteNodes,
        Payload::Text => EditForm::SubstituteText,
    }
}

fn insertion_form(brought: Payload) -> EditForm
    ensures { result ≡ spec.insertion_form brought }
{
    match brought {
        Payload::Nodes => EditForm::InsertNodes,
        Payload::Text => EditForm::InsertText,
    }
}

impl EditForm {
    /// The form that the kind of a textual modification, and what it brings, choose.
    #[tactic(auto, unfolding(crate::specs::Reading::Modifications::EditKinds::form_in))]
    pub(super) fn of(kind: EditKind, value: &Value) -> Result<EditForm, ReadFail>
        ensures { Gives (λ f. f) result (spec.form_in kind (seen value.now)) }
    {
        match kind {
            EditKind::Repeal => Ok(EditForm::Repeal),
            EditKind::Substitution => Ok(substitution_form(read_payload(value)?)),
            EditKind::Insertion => Ok(insertion_form(read_payload(value)?)),
            EditKind::Renumbering => Ok(EditForm::Renumber),
            EditKind::Split => Ok(EditForm::Split),
            EditKind::Join => Ok(EditForm::Join),
        }
    }

    /// That an object has the members of the form.
    pub(super) fn keys(self, value: &Value) -> Result<(), ReadFail>
        ensures { Gives (λ u. u) result (keys_in self (seen value.now)) }
    {
        match self {
            EditForm::Repeal => members(value, &REPEAL),
            EditForm::SubstituteNodes => members(value, &SUBSTITUTION_OF_NODES),
            EditForm::SubstituteText => members(value, &SUBSTITUTION_OF_TEXT),
            EditForm::InsertNodes => members(value, &INSERTION_OF_NODES),
            EditForm::InsertText => either(value, &INSERTION_AT_AN_END, &INSERTION_BESIDE_A_TEXT),
            EditForm::Renumber => members(value, &RENUMBERING),
            EditForm::Split => either(value, &SPLIT_AT_A_CHILD, &SPLIT_AT_A_TEXT),
            EditForm::Join => members(value, &JOIN),
        }
    }

    /// The edit that the values of an object say.
    pub(super) fn edit(self, alloc: Global, value: &Value) -> Result<TextualMod, ReadFail>
        requires depth { depth (seen value.now) ≤ max_depth }
        ensures { Gives (λ e. e) result (edit_in self (seen value.now)) }
    {
        match self {
            EditForm::Repeal => repeal(alloc, value),
            EditForm::SubstituteNodes => substitute_nodes(alloc, value),
            EditForm::SubstituteText => substitute_text(alloc, value),
            EditForm::InsertNodes => insert_nodes(alloc, value),
            EditForm::InsertText => insert_text(alloc, value),
            EditForm::Renumber => renumber(alloc, value),
            EditForm::Split => split(alloc, value),
            EditForm::Join => join(alloc, value),
        }
    }
}
