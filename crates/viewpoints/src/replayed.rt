//! Replaying once: an answer at any viewpoint for which nothing is kept.

ghost use Rattle.std.specs.Prelude.{◌≡◌, ◌+◌, ◌≤◌, IfOk, IfSome};
ghost use Rattle.law_register.specs.Answer.Answers.{Answers};
ghost use Rattle.law_register.specs.Answer.Asking.{answer_at, known_for};
ghost use Rattle.law_register.specs.Answer.Costs.{bearing_at, holding_for};
ghost use Rattle.law_register.specs.Answer.Soundness.{IsSound};

use desk_base::{Memory, Steps};
use law_register::{
    Answer, AskFault, Carrier, Known, Question, Register, Replayer, answer_by, known_at, known_held,
};
use std::alloc::Global;
use std::sync::ledger::Ledger;

// What is known of the work that a question asks for: at its viewpoint, with what it carries, or without the day of a version when the act
// was enacted.
fn known_for<H: Carrier, L: Ledger>(
    alloc: Global,
    carrier: &H,
    register: &Register,
    question: &Question,
    steps: &mut Steps<L>,
) -> Result<Option<Known>, Memory>
    ensures known { IfOk result
        (λ known. known
        ≡ known_for register.now.entries question.now.work question.now.viewpoint question.now.version) }
    ensures sound { IfOk result (λ known. IfSome known IsSound) }
    ensures steps { steps.new ≤ steps.old
        + holding_for register.now.entries question.now.work question.now.viewpoint question.now.version }
{
    if question.version.is_some() {
        let work = &question.work;
        return known_held(alloc, carrier, register, work, question.viewpoint, steps);
    }
    match register.enacted(&question.work) {
        Some(number) => known_at(alloc, register, &question.work, number),
        None => Ok(None),
    }
}

/// The answer to a question at its viewpoint, or the first rule that it breaks. What its work carries is found out, and the one version
/// that it asks for is replayed, which takes one step at most for each id that is applied.
#[tactic(auto, unfolding(law_register::specs::Answer::Asking::answer_at, law_register::specs::Answer::Costs::bearing_at))]
pub fn answer_replayed<P: Replayer, H: Carrier, L: Ledger>(
    alloc: Global,
    replayer: &P,
    carrier: &H,
    register: &Register,
    question: &Question,
    steps: &mut Steps<L>,
) -> Result<Answer, AskFault>
    ensures answer { Answers result (answer_at register.now.entries question.now) }
    ensures steps { steps.new ≤ steps.old + bearing_at register.now.entries question.now }
{
    let known = known_for(alloc, carrier, register, question, steps)?;
    answer_by(alloc, replayer, known.as_ref(), question, steps)
}
