//! An answer is printed.

ghost use Rattle.std.specs.Prelude.{◌≡◌, ◌++◌, OnOk, IfOk, string_bytes};
ghost use Rattle.std.specs.Option.{option_copied};
ghost use Rattle.json.specs.Tree.{json_tokens};
ghost use Rattle.serde_json.specs.Written.{outline, compact_text};
ghost use Rattle.akn_json.specs.Printing.Answers.{answer_data, asked_expression};

use super::lists::{put_ids, put_unapplied};
use super::members::{put_flag, put_number, put_text};
use super::provisions::{put_nodes, room_of};
use desk_base::Memory;
use frbr_names::spelled_expression;
use json::Writer;
use law_register::{Answer, Question};
use std::alloc::Global;

fn portion(question: &Question) -> Option<&str>
    ensures { option_copied result ≡ question.now.portion }
{
    match &question.portion {
        Some(eid) => Some(eid.as_str()),
        None => None,
    }
}

// The IRI of the expression that is asked for.
pub(super) fn expression(alloc: Global, question: &Question) -> Result<String, Memory>
    ensures { IfOk result (λ text. string_bytes text ≡ asked_expression question.now) }
{
    spelled_expression(
        alloc,
        question.work.as_str(),
        question.language,
        question.version,
        portion(question),
    )
}

#[tactic(auto, unfolding(crate::specs::Printing::Answers::answer_data))]
fn put_parts(out: &mut Writer, alloc: Global, answer: &Answer) -> Result<(), Memory>
    ensures tokens { OnOk result (out.new.tokens
        ≡ out.old.tokens ++ json_tokens (outline (answer_data answer.now))) }
    ensures before { OnOk result (out.new.before ≡ out.old.before) }
{
    let iri = expression(alloc, &answer.question)?;
    out.begin_object()?;
    out.key("applied")?;
    put_ids(out, alloc, answer.applied.as_slice())?;
    put_flag(out, "bears", answer.bears)?;
    out.key("body")?;
    put_nodes(out, &answer.nodes)?;
    put_text(out, "expression", iri.as_str())?;
    put_text(out, "reading", answer.question.reading.name())?;
    out.key("unapplied")?;
    put_unapplied(out, alloc, answer.unapplied.as_slice())?;
    put_number(out, "viewpoint", u64::from(answer.question.viewpoint))?;
    out.end_object()?;
    Ok(())
}

/// The bytes of an answer. They are JSON with no space, and no line feed stands behind them.
pub fn put_answer(alloc: Global, answer: &Answer) -> Result<Vec<u8>, Memory>
    ensures { IfOk result (λ bytes. bytes.items ≡ compact_text (answer_data answer.now)) }
{
    let room = room_of(&answer.nodes).saturating_add(512);
    let bytes = Vec::with_capacity(alloc, room)?;
    let mut out = Writer::new(bytes);
    put_parts(&mut out, alloc, answer)?;
    Ok(out.into_inner())
}
