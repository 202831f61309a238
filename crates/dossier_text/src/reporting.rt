//! Reporting: what the program tells of its input, as a status and bytes.

ghost use Rattle.std.specs.Prelude.{◌≡◌, ◌++◌, ◌∷◌, [], true, IfOk, Ok, Result};
ghost use Rattle.law_register.specs.Law.Spelling.{are_spelled_modifications, is_spelled_act};
ghost use Rattle.law_register.specs.Answer.Answers.{Answers};
ghost use Rattle.law_register.specs.Answer.Asking.{answer_at};
ghost use Rattle.law_register.specs.declared.answer.answer.Answer.{Answer};
ghost use Rattle.law_register.specs.declared.answer.queries.QueryRule.{QueryRule};
ghost use Rattle.dossier_text.specs.Reports.{told, told_answer, told_on, told_rule, told_fault};
ghost use Rattle.dossier_text.specs.Views.{report_view};

use crate::entering::register_of;
use crate::lines::line;
use crate::report::Report;
use crate::text_job::TextJob;
use akn_json::{
    Dossier, FormFault, ReadFail, put_answer, put_form_fault, put_query_rule, put_rule,
    read_dossier,
};
use desk_base::{Day, Memory, Steps};
use held_provisions::FromLine;
use law_register::{Answer, AskFault, EnterFault, Question, Reading, Register, Replayer, Rule};
use std::alloc::Global;
use std::mem::forget;
use std::sync::ledger::Ledger;
use viewpoints::answer_replayed;

// The report of an answer, whose memory is left to the end of the program.
fn report_text(alloc: Global, answer: Answer) -> Result<Report, Memory>
    ensures { IfOk result (λ report. report_view report ≡ told_answer (Ok answer)) }
{
    let bytes = line(put_answer(alloc, &answer)?)?;
    forget(answer);
    Ok(Report { status: 0, bytes })
}

// The report of an answer, or of the rule that a question breaks.
fn report_answer(alloc: Global, told: Result<Answer, AskFault>) -> Result<Report, Memory>
    ensures { (answer : Result Answer QueryRule) → Answers told answer
        → IfOk result (λ report. report_view report ≡ told_answer answer) }
{
    match told {
        Ok(answer) => report_text(alloc, answer),
        Err(AskFault::Query(rule)) => Ok(Report {
            status: 9,
            bytes: line(put_query_rule(alloc, &rule)?)?,
        }),
        Err(AskFault::Memory) => Err(Memory),
    }
}

// The report of what a register answers to a question. The register's memory is left to the end of the program.
fn report_asked<L: Ledger, P: Replayer>(
    alloc: Global,
    replayer: &P,
    register: Register,
    question: Question,
    steps: &mut Steps<L>,
) -> Result<Report, Memory>
    ensures { IfOk result (λ report. report_view report ≡ told_answer (answer_at register.entries question)) }
{
    let told = answer_replayed(alloc, replayer, &FromLine, &register, &question, steps);
    forget(register);
    report_answer(alloc, told)
}

// The report of a command that is refused.
fn report_rule(alloc: Global, rule: Rule) -> Result<Report, Memory>
    ensures { IfOk result (λ report. report_view report ≡ told_rule rule) }
{
    Ok(Report {
        status: 9,
        bytes: line(put_rule(alloc, &rule)?)?,
    })
}

// The report that a well-spelled dossier gives on a day, in a reading.
#[tactic(auto, unfolding(crate::specs::Reports::told_text))]
fn report_on<L: Ledger, P: Replayer>(
    alloc: Global,
    replayer: &P,
    dossier: Dossier,
    day: Day,
    reading: Reading,
    steps: &mut Steps<L>,
) -> Result<Report, Memory>
    requires act { is_spelled_act dossier.act ≡ true }
    requires mods { are_spelled_modifications dossier.mods ≡ true }
    ensures { IfOk result (λ report. report_view report ≡ told_on day reading dossier) }
{
    let work = dossier.act.work.copy()?;
    let language = dossier.act.language;
    match register_of(alloc, dossier) {
        Ok(register) => {
            let question = Question {
                work,
                language,
                version: Some(day),
                portion: None,
                viewpoint: register.front(),
                reading,
            };
            report_asked(alloc, replayer, register, question, steps)
        }
        Err(EnterFault::Rule(rule)) => report_rule(alloc, rule),
        Err(EnterFault::Memory) => Err(Memory),
    }
}

// The report of bytes that are no dossier.
fn report_fault(alloc: Global, fault: FormFault) -> Result<Report, Memory>
    ensures { IfOk result (λ report. report_view report ≡ told_fault fault) }
{
    Ok(Report {
        status: 10,
        bytes: line(put_form_fault(alloc, fault)?)?,
    })
}

/// What the text of an act on a day tells of the bytes that were read, which are let go as soon as they are understood.
#[tactic(auto, unfolding(crate::specs::Reports::told))]
pub fn report<L: Ledger, P: Replayer>(
    alloc: Global,
    replayer: &P,
    job: TextJob,
    input: Vec<u8>,
    steps: &mut Steps<L>,
) -> Result<Report, Memory>
    ensures { IfOk result (λ report. report_view report ≡ told job input.items) }
{
    let TextJob { day, reading } = job;
    let read = read_dossier(alloc, input.as_slice());
    drop(input);
    match read {
        Ok(dossier) => report_on(alloc, replayer, dossier, day, reading, steps),
        Err(ReadFail::Form(fault)) => report_fault(alloc, fault),
        Err(ReadFail::Memory) => Err(Memory),
    }
}
