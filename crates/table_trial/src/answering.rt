//! What the table that is kept gives on a day, beside what a replay from scratch gives.

ghost use Rattle.std.specs.Prelude.{◌≡◌, true, IfOk, Result};
ghost use Rattle.law_register.specs.Answer.Answers.{Answers, answer_on, asked_day};
ghost use Rattle.law_register.specs.Answer.Replay.{replay_on};
ghost use Rattle.law_register.specs.Answer.Soundness.{IsSound};
ghost use Rattle.law_register.specs.Answer.Versions.{version_view};
ghost use Rattle.law_register.specs.declared.answer.answer.Answer.{Answer};
ghost use Rattle.law_register.specs.declared.answer.queries.QueryRule.{QueryRule};
ghost use Rattle.version_cache.specs.Seen.{work_view};
ghost use Rattle.version_cache.specs.Works.{IsFor, table_in};
ghost use Rattle.table_trial.specs.Answering as spec;
ghost use Rattle.table_trial.specs.Keeping.{IsHeld};

use crate::kept::{Kept, known_now};
use crate::replies::said;
use akn_json::{put_answer, put_query_rule};
use desk_base::{Day, Memory, Steps};
use frbr_names::WorkName;
use law_register::{Answer, AskFault, Known, Question, Reading, Register, Replayer, Version};
use replay_core::FromEnacted;
use std::alloc::Global;
use std::sync::ledger::Ledger;

// The question for the text of a work on a day.
fn question_on(
    work: &WorkName,
    known: &Known,
    reading: Reading,
    day: Day,
) -> Result<Question, Memory>
    ensures { IfOk result (λ question. question ≡ spec.question_on work.now known.now reading day) }
{
    Ok(Question {
        work: work.copy()?,
        language: known.act.language,
        version: Some(day),
        portion: None,
        viewpoint: known.viewpoint,
        reading,
    })
}

// The line of an answer, or of the rule that a question breaks.
fn answer_line(alloc: Global, told: Result<Answer, AskFault>) -> Result<Vec<u8>, Memory>
    ensures { (answer : Result Answer QueryRule) → Answers told answer
        → IfOk result (λ line. line.items ≡ spec.answer_line answer) }
{
    match told {
        Ok(answer) => put_answer(alloc, &answer),
        Err(AskFault::Query(rule)) => put_query_rule(alloc, &rule),
        Err(AskFault::Memory) => Err(Memory),
    }
}

// The answer to a question, from the version that it asks for, or the first rule that it breaks.
#[tactic(auto, unfolding(law_register::specs::Answer::Answers::answer_on))]
fn answer_of(
    alloc: Global,
    known: &Known,
    version: &Version,
    question: &Question,
) -> Result<Answer, AskFault>
    requires { version_view version.now
        ≡ replay_on known.now question.now.reading (asked_day question.now.version known.now.act) }
    ensures { Answers result (answer_on known.now question.now) }
{
    question.judge(known, known.front)?;
    FromEnacted.answer_text(alloc, known, version, question)
}

// The line of the answer that a version gives on its day.
fn line_of_version(
    alloc: Global,
    known: &Known,
    version: &Version,
    work: &WorkName,
    reading: Reading,
    day: Day,
) -> Result<Vec<u8>, Memory>
    requires { version_view version.now ≡ replay_on known.now reading day }
    ensures { IfOk result (λ line. line.items ≡ spec.line_on work.now known.now reading day) }
{
    let question = question_on(work, known, reading, day)?;
    let told = answer_of(alloc, known, version, &question);
    answer_line(alloc, told)
}

// The line of what a table gives on a day.
fn line_of_table(alloc: Global, known: &Known, kept: &Kept, day: Day) -> Result<Vec<u8>, Memory>
    requires { IsFor known.now (work_view kept.now.tables) }
    ensures { IfOk result
        (λ line. line.items ≡ spec.line_on kept.now.work known.now kept.now.reading day) }
{
    let version = kept.tables.on(kept.reading, day);
    line_of_version(alloc, known, version, &kept.work, kept.reading, day)
}

// The line of what a replay from scratch gives on a day.
fn line_of_replay<L: Ledger>(
    alloc: Global,
    known: &Known,
    kept: &Kept,
    day: Day,
    steps: &mut Steps<L>,
) -> Result<Vec<u8>, Memory>
    requires { IsSound known.now }
    ensures { IfOk result
        (λ line. line.items ≡ spec.line_on kept.now.work known.now kept.now.reading day) }
{
    let version = FromEnacted.replay(alloc, known, kept.reading, day, steps)?;
    line_of_version(alloc, known, &version, &kept.work, kept.reading, day)
}

/// The line of what the table that is kept gives on a day.
#[tactic(auto, using(crate::proofs::Holding::for_now))]
pub fn told_by_table(
    alloc: Global,
    register: &Register,
    kept: &Kept,
    day: Day,
) -> Result<Vec<u8>, Memory>
    requires { IsHeld register.now.entries kept.now }
    ensures { IfOk result (λ line. line.items
        ≡ spec.told_on register.now.entries kept.now.work kept.now.reading day) }
{
    match known_now(alloc, register, &kept.work)? {
        Some(known) => line_of_table(alloc, &known, kept, day),
        None => said(alloc, "none"),
    }
}

/// The line of what a replay from scratch gives on a day, in the reading of the table that is kept.
pub fn told_by_replay<L: Ledger>(
    alloc: Global,
    register: &Register,
    kept: &Kept,
    day: Day,
    steps: &mut Steps<L>,
) -> Result<Vec<u8>, Memory>
    ensures { IfOk result (λ line. line.items
        ≡ spec.told_on register.now.entries kept.now.work kept.now.reading day) }
{
    match known_now(alloc, register, &kept.work)? {
        Some(known) => line_of_replay(alloc, &known, kept, day, steps),
        None => said(alloc, "none"),
    }
}

// Whether a table and a replay from scratch give the same line on a day.
fn is_same_on<L: Ledger>(
    alloc: Global,
    known: &Known,
    kept: &Kept,
    day: Day,
    steps: &mut Steps<L>,
) -> Result<bool, Memory>
    requires sound { IsSound known.now }
    requires right { IsFor known.now (work_view kept.now.tables) }
    ensures { IfOk result (λ same. same ≡ true) }
{
    let kept_line = line_of_table(alloc, known, kept, day)?;
    let made_line = line_of_replay(alloc, known, kept, day, steps)?;
    Ok(kept_line.as_slice() == made_line.as_slice())
}

// Whether they do on a day, the day before it and the day after.
fn is_same_about<L: Ledger>(
    alloc: Global,
    known: &Known,
    kept: &Kept,
    day: Day,
    steps: &mut Steps<L>,
) -> Result<bool, Memory>
    requires sound { IsSound known.now }
    requires right { IsFor known.now (work_view kept.now.tables) }
{
    let before = day.number() - 1;
    for shift in 0..3 {
        if let Some(day) = Day::from_number(before.saturating_add(shift)) {
            if !is_same_on(alloc, known, kept, day, steps)? {
                return Ok(false);
            }
        }
    }
    Ok(true)
}

// The line of whether they do about each breakpoint of a work.
fn comparison_line<L: Ledger>(
    alloc: Global,
    known: &Known,
    kept: &Kept,
    steps: &mut Steps<L>,
) -> Result<Vec<u8>, Memory>
    requires sound { IsSound known.now }
    requires right { IsFor known.now (work_view kept.now.tables) }
{
    let days = FromEnacted.breakpoints(alloc, known)?;
    for day in days.as_slice() {
        if !is_same_about(alloc, known, kept, *day, steps)? {
            let day = day.spelled(alloc)?;
            return Ok(format!(in alloc; "other {day}")?.into_bytes());
        }
    }
    let count = days.as_slice().len();
    Ok(format!(in alloc; "same {count}")?.into_bytes())
}

/// The line of whether the table that is kept gives what a replay from scratch gives on each breakpoint, the day before it and the day
/// after.
#[tactic(auto, using(crate::proofs::Holding::for_now))]
pub fn told_of_comparison<L: Ledger>(
    alloc: Global,
    register: &Register,
    kept: &Kept,
    steps: &mut Steps<L>,
) -> Result<Vec<u8>, Memory>
    requires { IsHeld register.now.entries kept.now }
{
    match known_now(alloc, register, &kept.work)? {
        Some(known) => comparison_line(alloc, &known, kept, steps),
        None => said(alloc, "none"),
    }
}

// How many modifications a replay from scratch applies or finds unapplied, over these days.
fn steps_from_scratch<L: Ledger>(
    alloc: Global,
    known: &Known,
    reading: Reading,
    days: &[Day],
    steps: &mut Steps<L>,
) -> Result<u64, Memory>
    requires { IsSound known.now }
{
    let mut count = 0_u64;
    for day in days {
        let version = FromEnacted.replay(alloc, known, reading, *day, steps)?;
        count = count.saturating_add(version.applied.as_slice().len() as u64);
        count = count.saturating_add(version.unapplied.as_slice().len() as u64);
    }
    Ok(count)
}

// The line of what it takes to replay each breakpoint of a work from scratch.
fn scratch_line<L: Ledger>(
    alloc: Global,
    known: &Known,
    reading: Reading,
    steps: &mut Steps<L>,
) -> Result<Vec<u8>, Memory>
    requires { IsSound known.now }
{
    let days = FromEnacted.breakpoints(alloc, known)?;
    let taken = steps_from_scratch(alloc, known, reading, days.as_slice(), steps)?;
    let count = days.as_slice().len();
    Ok(format!(in alloc; "versions {count} steps {taken}")?.into_bytes())
}

/// The line of what it takes to replay each breakpoint from scratch, in the reading of the table that is kept.
pub fn told_of_scratch<L: Ledger>(
    alloc: Global,
    register: &Register,
    kept: &Kept,
    steps: &mut Steps<L>,
) -> Result<Vec<u8>, Memory> {
    match known_now(alloc, register, &kept.work)? {
        Some(known) => scratch_line(alloc, &known, kept.reading, steps),
        None => said(alloc, "none"),
    }
}

/// The line of how many rows the table that is kept has by a day.
pub fn told_of_rows(alloc: Global, kept: &Kept, day: Day) -> Result<Vec<u8>, Memory>
    ensures { IfOk result (λ line. line.items ≡ spec.rows_line (table_in kept.now.reading (work_view kept.now.tables)) day) }
{
    let rows = kept.table().breakpoint(day);
    Ok(format!(in alloc; "rows {rows}")?.into_bytes())
}
