//! What a drafter sees: his draft, and what will be answered once it is filed.

ghost use Rattle.std.specs.Prelude.{◌≡◌, IfOk, IsSome};
ghost use Rattle.law_register.specs.Answer.Previewing.{preview_at};
ghost use Rattle.desk_trial.specs.Knowing as spec;

use crate::answering::answer_line;
use crate::questions::read_question;
use akn_json::put_draft;
use desk_base::{Memory, Steps};
use law_register::{Desk, Drafter, Question};
use std::alloc::Global;
use std::sync::ledger::Ledger;

// The line of a drafter's preview by a desk.
fn preview_line<D: Desk, L: Ledger>(
    alloc: Global,
    desk: &D,
    drafter: &Drafter,
    question: &Question,
    steps: &mut Steps<L>,
) -> Result<Vec<u8>, Memory>
    requires { IsSome question.now.version }
    ensures { IfOk result (λ line. line.items
        ≡ spec.answer_line (preview_at (D.state desk.now).entries drafter.now question.now)) }
{
    answer_line(alloc, desk.preview(alloc, drafter, question, steps))
}

// The line of the preview that `EXPRESSION VIEWPOINT READING` asks for, of an expression with a day. `None`: it asks for none.
fn told_of_preview<D: Desk, L: Ledger>(
    alloc: Global,
    desk: &D,
    drafter: &Drafter,
    words: &str,
    steps: &mut Steps<L>,
) -> Result<Option<Vec<u8>>, Memory> {
    match read_question(alloc, words)? {
        Some(question) => {
            if question.version.is_none() {
                return Ok(None);
            }
            Ok(Some(preview_line(alloc, desk, drafter, &question, steps)?))
        }
        None => Ok(None),
    }
}

// The line of a drafter's draft.
fn told_of_draft<D: Desk>(alloc: Global, desk: &D, name: &str) -> Result<Option<Vec<u8>>, Memory> {
    match Drafter::from_text(alloc, name)? {
        Some(drafter) => {
            let draft = desk.draft(alloc, &drafter)?;
            Ok(Some(put_draft(alloc, &draft)?))
        }
        None => Ok(None),
    }
}

/// What is told of `draft DRAFTER` or `preview DRAFTER EXPRESSION VIEWPOINT READING`. `None`: a line asks for neither.
pub fn told_of_drafter<D: Desk, L: Ledger>(
    alloc: Global,
    desk: &D,
    word: &str,
    words: &str,
    steps: &mut Steps<L>,
) -> Result<Option<Vec<u8>>, Memory> {
    if word == "draft" {
        return told_of_draft(alloc, desk, words);
    }
    if word != "preview" {
        return Ok(None);
    }
    let Some((name, rest)) = words.split_once(' ') else {
        return Ok(None);
    };
    match Drafter::from_text(alloc, name)? {
        Some(drafter) => told_of_preview(alloc, desk, &drafter, rest, steps),
        None => Ok(None),
    }
}
