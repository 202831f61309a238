//! Tabling: what the table that an office keeps of a work gives on a day, beside what a replay from scratch gives.

ghost use Rattle.std.specs.Prelude.{◌≡◌, IfOk, Result};
ghost use Rattle.law_register.specs.Answer.Answers.{Answers, answer_on, asked_day};
ghost use Rattle.law_register.specs.Answer.Replay.{replay_on};
ghost use Rattle.law_register.specs.Answer.Soundness.{IsSound};
ghost use Rattle.law_register.specs.Answer.Versions.{version_view};
ghost use Rattle.version_cache.specs.Seen.{table_view};
ghost use Rattle.version_cache.specs.Tables.{IsRight};
ghost use Rattle.desk_trial.specs.Knowing.{answer_line};
ghost use Rattle.desk_trial.specs.Tabling as spec;

use crate::answering::answer_line;
use desk_base::{Clock, Day, Memory, Steps};
use frbr_names::{WorkName, parse_work};
use held_provisions::FromLine;
use law_keeper::Keeper;
use law_office::Office;
use law_register::{
    Answer, AskFault, Desk, Known, Question, Reading, Register, Replayer, Version, known_held,
};
use replay_core::FromEnacted;
use std::alloc::Global;
use std::str;
use std::sync::ledger::Ledger;
use version_cache::Table;

/// A work as it is asked for: its version of a day, in a reading.
#[derive(Debug, Drop)]
struct DatedWork {
    work: WorkName,
    reading: Reading,
    day: Day,
}

// The reading and the day of two words, of the work that a text names. `None`: one of them spells none.
fn dated_work(
    alloc: Global,
    work: &str,
    reading: &str,
    day: &str,
) -> Result<Option<DatedWork>, Memory> {
    match (Reading::from_name(reading), Day::from_text(day)) {
        (Some(reading), Some(day)) => match parse_work(work) {
            Ok(iri) => {
                let work = WorkName::copy_of(alloc, &iri)?;
                Ok(Some(DatedWork { work, reading, day }))
            }
            Err(_) => Ok(None),
        },
        _ => Ok(None),
    }
}

// What `WORK READING DAY` spells. `None`: it spells none.
fn read_dated(alloc: Global, words: &str) -> Result<Option<DatedWork>, Memory> {
    match words.split_once(' ') {
        Some((work, rest)) => match rest.split_once(' ') {
            Some((reading, day)) => dated_work(alloc, work, reading, day),
            None => Ok(None),
        },
        None => Ok(None),
    }
}

// The question for the text of a work on a day.
fn question_on(asked: &DatedWork, known: &Known) -> Result<Question, Memory>
    ensures { IfOk result (λ question. question
        ≡ spec.question_on asked.now.work known.now asked.now.reading asked.now.day) }
{
    Ok(Question {
        work: asked.work.copy()?,
        language: known.act.language,
        version: Some(asked.day),
        portion: None,
        viewpoint: known.viewpoint,
        reading: asked.reading,
    })
}

// The answer to a question, from the version that it asks for, or the first rule that it breaks.
#[tactic(auto, unfolding(law_register::specs::Answer::Answers::answer_on))]
fn answer_of(
    alloc: Global,
    known: &Known,
    version: &Version,
    question: &Question,
) -> Result<Answer, AskFault>
    requires { version_view version.now
        ≡ replay_on known.now question.now.reading (asked_day question.now.version known.now.act) }
    ensures { Answers result (answer_on known.now question.now) }
{
    question.judge(known, known.front)?;
    FromEnacted.answer_text(alloc, known, version, question)
}

// The line of the answer that a version gives on its day.
fn line_of_version(
    alloc: Global,
    known: &Known,
    version: &Version,
    asked: &DatedWork,
) -> Result<Vec<u8>, Memory>
    requires { version_view version.now ≡ replay_on known.now asked.now.reading asked.now.day }
    ensures { IfOk result (λ line. line.items
        ≡ spec.line_on asked.now.work known.now asked.now.reading asked.now.day) }
{
    let question = question_on(asked, known)?;
    let told = answer_of(alloc, known, version, &question);
    answer_line(alloc, told)
}

// The line of what a table gives on a day.
fn line_of_table(
    alloc: Global,
    known: &Known,
    table: &Table,
    asked: &DatedWork,
) -> Result<Vec<u8>, Memory>
    requires reading { (table_view table.now).reading ≡ asked.now.reading }
    requires right { IsRight known.now (table_view table.now) }
    ensures { IfOk result (λ line. line.items
        ≡ spec.line_on asked.now.work known.now asked.now.reading asked.now.day) }
{
    line_of_version(alloc, known, table.on(asked.day), asked)
}

// The line of what a replay from scratch gives on a day.
fn line_of_replay<L: Ledger>(
    alloc: Global,
    known: &Known,
    asked: &DatedWork,
    steps: &mut Steps<L>,
) -> Result<Vec<u8>, Memory>
    requires { IsSound known.now }
    ensures { IfOk result (λ line. line.items
        ≡ spec.line_on asked.now.work known.now asked.now.reading asked.now.day) }
{
    let version = FromEnacted.replay(alloc, known, asked.reading, asked.day, steps)?;
    line_of_version(alloc, known, &version, asked)
}

// The line of a work of which there is no table.
fn no_table(alloc: Global) -> Result<Vec<u8>, Memory>
    ensures { IfOk result (λ line. line.items ≡ spec.none_line) }
{
    Ok(String::from_str(alloc, "no table")?.into_bytes())
}

// The line of what the table of an office gives on a day.
fn told_by_table<K: Keeper, C: Clock, L: Ledger>(
    alloc: Global,
    office: &Office<'_, '_, K, C>,
    asked: &DatedWork,
    steps: &mut Steps<L>,
) -> Result<Vec<u8>, Memory>
    ensures { IfOk result (λ line. line.items
        ≡ spec.told_on office.now.entries asked.now.work asked.now.reading asked.now.day) }
{
    let register = office.register();
    match known_held(
        alloc,
        &FromLine,
        register,
        &asked.work,
        office.front(),
        steps,
    )? {
        Some(known) => match office.table(&asked.work, asked.reading) {
            Some(table) => line_of_table(alloc, &known, table, asked),
            None => no_table(alloc),
        },
        None => no_table(alloc),
    }
}

// The line of what a replay from scratch gives on a day.
fn told_by_replay<L: Ledger>(
    alloc: Global,
    register: &Register,
    asked: &DatedWork,
    steps: &mut Steps<L>,
) -> Result<Vec<u8>, Memory>
    ensures { IfOk result (λ line. line.items
        ≡ spec.told_on register.now.entries asked.now.work asked.now.reading asked.now.day) }
{
    match known_held(
        alloc,
        &FromLine,
        register,
        &asked.work,
        register.front(),
        steps,
    )? {
        Some(known) => line_of_replay(alloc, &known, asked, steps),
        None => no_table(alloc),
    }
}

// What is told of a work on a day, by the word before them. `None`: the word asks for neither.
fn told_of_dated<K: Keeper, C: Clock, L: Ledger>(
    alloc: Global,
    office: &Office<'_, '_, K, C>,
    word: &str,
    asked: &DatedWork,
    steps: &mut Steps<L>,
) -> Result<Option<Vec<u8>>, Memory> {
    match word {
        "table" => Ok(Some(told_by_table(alloc, office, asked, steps)?)),
        "replay" => Ok(Some(told_by_replay(alloc, office.register(), asked, steps)?)),
        _ => Ok(None),
    }
}

/// What is told of `table WORK READING DAY` and `replay WORK READING DAY`: the answer for the text of the work on that day at the front,
/// from the table that the office keeps, and by a replay from scratch. `None`: the line is neither.
pub fn told_of_tables<K: Keeper, C: Clock, L: Ledger>(
    alloc: Global,
    office: &Office<'_, '_, K, C>,
    line: &[u8],
    steps: &mut Steps<L>,
) -> Result<Option<Vec<u8>>, Memory> {
    let Ok(text) = str::from_utf8(line) else {
        return Ok(None);
    };
    let Some((word, words)) = text.split_once(' ') else {
        return Ok(None);
    };
    match read_dated(alloc, words)? {
        Some(asked) => told_of_dated(alloc, office, word, &asked, steps),
        None => Ok(None),
    }
}
