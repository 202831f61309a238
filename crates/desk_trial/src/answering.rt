//! The line of an answer.

ghost use Rattle.std.specs.Prelude.{◌≡◌, IfOk, Result};
ghost use Rattle.law_register.specs.Answer.Answers.{Answers};
ghost use Rattle.law_register.specs.Answer.Asking.{answer_at};
ghost use Rattle.law_register.specs.declared.answer.answer.Answer.{Answer};
ghost use Rattle.law_register.specs.declared.answer.queries.QueryRule.{QueryRule};
ghost use Rattle.desk_trial.specs.Knowing as spec;

use akn_json::{answer_value, put_answer, put_query_rule};
use desk_base::{Memory, Steps};
use law_register::{Answer, AskFault, Desk, Question};
use std::alloc::Global;
use std::sync::ledger::Ledger;

/// The line of an answer, or of the rule that a question breaks.
pub fn answer_line(alloc: Global, told: Result<Answer, AskFault>) -> Result<Vec<u8>, Memory>
    ensures { (answer : Result Answer QueryRule) → Answers told answer
        → IfOk result (λ line. line.items ≡ spec.answer_line answer) }
{
    match told {
        Ok(answer) => put_answer(alloc, &answer),
        Err(AskFault::Query(rule)) => put_query_rule(alloc, &rule),
        Err(AskFault::Memory) => Err(Memory),
    }
}

// The answer of a desk to a question, at the front or before it.
fn asked<D: Desk, L: Ledger>(
    alloc: Global,
    desk: &mut D,
    question: &Question,
    steps: &mut Steps<L>,
) -> Result<Answer, AskFault>
    ensures { Answers result (answer_at (D.state desk.old).entries question.now) }
{
    if question.viewpoint < desk.front() {
        desk.ask_past(alloc, question, steps)
    } else {
        desk.ask(alloc, question)
    }
}

/// The line of the answer to a question by a desk.
pub fn told_of_question<D: Desk, L: Ledger>(
    alloc: Global,
    desk: &mut D,
    question: &Question,
    steps: &mut Steps<L>,
) -> Result<Vec<u8>, Memory>
    ensures { IfOk result (λ line. line.items ≡ spec.answer_line (answer_at (D.state desk.old).entries question.now)) }
{
    answer_line(alloc, asked(alloc, desk, question, steps))
}

// The line of an answer by its value, or of the rule that a question breaks.
fn value_line(alloc: Global, told: Result<Answer, AskFault>) -> Result<Vec<u8>, Memory> {
    match told {
        Ok(answer) => Ok(answer_value(alloc, &answer)?.to_vec(alloc)?),
        Err(AskFault::Query(rule)) => put_query_rule(alloc, &rule),
        Err(AskFault::Memory) => Err(Memory),
    }
}

/// The line of the answer to a question by a desk, written from a value of serde_json.
pub fn told_by_value<D: Desk, L: Ledger>(
    alloc: Global,
    desk: &mut D,
    question: &Question,
    steps: &mut Steps<L>,
) -> Result<Vec<u8>, Memory> {
    value_line(alloc, asked(alloc, desk, question, steps))
}
