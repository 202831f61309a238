//! Telling: what a desk tells of what is asked of it. How it is said stands in `responding`.

ghost use Rattle.std.specs.Prelude.{◌≡◌, ◌≤◌, ◌+◌, true};
ghost use Rattle.law_register.specs.Answer.Answers.{Answers};
ghost use Rattle.law_register.specs.Answer.Asking.{answer_at};
ghost use Rattle.law_register.specs.Answer.PastAsking.{AreKeysAfter};
ghost use Rattle.law_register.specs.Answer.Previewing.{preview_at, previewing_at};
ghost use Rattle.law_register.specs.Desk.Commands.{LeavesNoMore};
ghost use Rattle.law_register.specs.Law.Spelling.{is_well_spelled};
ghost use Rattle.law_register.specs.Register.LawList.{front};
ghost use Rattle.law_http.specs.Asking.{IsSpelled, question_at, question_previewed};
ghost use Rattle.law_http.specs.Serving as spec;
ghost use Rattle.law_http.specs.Telling as telling;
ghost use Rattle.law_http.specs.declared.asking.Asking.TheVariants as asks;
ghost use Rattle.law_http.specs.declared.telling.DeskTold.TheVariants as told;

use crate::{Asking, PreviewAsked, TextAsked};
use akn_json::Asked;
use desk_base::{Memory, Steps};
use law_register::{Answer, AskFault, CommandFault, Desk, Draft, Question, Reply};
use std::alloc::Global;
use std::sync::ledger::Ledger;

/// What a desk told.
#[derive(Drop)]
pub enum DeskTold {
    /// How many law entries there are.
    Front(u32),
    /// The answer to a question.
    Answer(Result<Answer, AskFault>),
    /// The items of a draft.
    Draft(Result<Draft, Memory>),
    /// What came of a command.
    Outcome(Result<Reply, CommandFault>),
}

// The answer of a desk to a question, at its front or before it.
fn answer_of<D: Desk, L: Ledger>(
    alloc: Global,
    desk: &mut D,
    question: &Question,
    steps: &mut Steps<L>,
) -> Result<Answer, AskFault>
    ensures answer { Answers result (answer_at (D.state desk.old).entries question.now) }
    ensures same { D.state desk.new ≡ D.state desk.old }
    ensures crash { LeavesNoMore (D.crashes desk.old) (D.crashes desk.new) }
    ensures keys { AreKeysAfter result (D.past desk.old)
        (spec.keys_answered (D.state desk.old).entries question.now (D.past desk.old)) (D.past desk.new) }
    ensures steps { steps.new ≤ steps.old
        + spec.answering_cost (D.state desk.old).entries question.now (D.past desk.old) }
{
    if question.viewpoint < desk.front() {
        desk.ask_past(alloc, question, steps)
    } else {
        desk.ask(alloc, question)
    }
}

fn tell_text<D: Desk, L: Ledger>(
    alloc: Global,
    desk: &mut D,
    text: TextAsked,
    steps: &mut Steps<L>,
) -> Result<Answer, AskFault>
    ensures tells { telling.TellsAnswer D.state D.crashes D.past
        (question_at (front (D.state desk.old).entries) text) desk.old desk.new result }
    ensures steps { steps.new ≤ steps.old + spec.answering_cost (D.state desk.old).entries
        (question_at (front (D.state desk.old).entries) text) (D.past desk.old) }
{
    let question = text.question(desk.front());
    answer_of(alloc, desk, &question, steps)
}

fn tell_preview<D: Desk, L: Ledger>(
    alloc: Global,
    desk: &mut D,
    preview: PreviewAsked,
    steps: &mut Steps<L>,
) -> Result<Answer, AskFault>
    ensures tells { Answers result (preview_at (D.state desk.old).entries preview.drafter (question_previewed preview)) }
    ensures stays { spec.Stays D.state D.crashes D.past desk.old desk.new }
    ensures steps { steps.new ≤ steps.old + previewing_at (D.state desk.old).entries preview.drafter
        (question_previewed preview) }
{
    let (drafter, question) = preview.question();
    desk.preview(alloc, &drafter, &question, steps)
}

fn do_command<D: Desk, L: Ledger>(
    alloc: Global,
    desk: &mut D,
    asked: Asked,
    steps: &mut Steps<L>,
) -> DeskTold
    requires { is_well_spelled asked.command ≡ true }
    ensures { telling.TellsWithin D.state D.crashes D.past D.judging (asks.Command asked) desk.old desk.new result
        steps.old steps.new }
{
    let Asked {
        drafter,
        request,
        command,
    } = asked;
    DeskTold::Outcome(desk.command(alloc, &drafter, request, command, steps))
}

/// What a desk tells of what is asked of it: a command is done, and a question answered.
pub(crate) fn tell<D: Desk, L: Ledger>(
    alloc: Global,
    desk: &mut D,
    asking: Asking,
    steps: &mut Steps<L>,
) -> DeskTold
    requires { IsSpelled asking }
    ensures { telling.TellsWithin D.state D.crashes D.past D.judging asking desk.old desk.new result steps.old steps.new }
{
    match asking {
        Asking::Front => DeskTold::Front(desk.front()),
        Asking::Text(text) => DeskTold::Answer(tell_text(alloc, desk, text, steps)),
        Asking::Preview(preview) => DeskTold::Answer(tell_preview(alloc, desk, preview, steps)),
        Asking::Draft(drafter) => DeskTold::Draft(desk.draft(alloc, &drafter)),
        Asking::Command(asked) => do_command(alloc, desk, asked, steps),
    }
}
