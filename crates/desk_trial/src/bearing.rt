//! The lines of what bears: the days on which a text may change, the modifications of a day in their order, and the flag of a provision.

ghost use Rattle.std.specs.Prelude.{◌≡◌, ◌++◌, IfOk, OnOk, codes, string_bytes};
ghost use Rattle.desk_base.specs.Days.{day_text};
ghost use Rattle.desk_base.specs.Ids.{id_text};
ghost use Rattle.law_register.specs.Answer.Answers.{asked_day};
ghost use Rattle.law_register.specs.Provisions.Carrying as known;
ghost use Rattle.desk_trial.specs.Bearing as spec;

use act_tree::{BuildFail, Tree};
use desk_base::{Day, Id, Memory, Steps};
use frbr_names::WorkName;
use held_provisions::FromLine;
use law_register::{Known, Question, Register, Replayer, known_held};
use replay_core::FromEnacted;
use std::alloc::Global;
use std::sync::ledger::Ledger;
use viewpoints::known_at;

// Adds a day to the line.
fn push_day(alloc: Global, line: &mut String, day: Day) -> Result<(), Memory>
    ensures { OnOk result (string_bytes line.new ≡ string_bytes line.old ++ codes " " ++ day_text day) }
{
    line.push_str(" ")?;
    line.push_str(day.spelled(alloc)?.as_str())?;
    Ok(())
}

// Adds an id to the line.
fn push_id(alloc: Global, line: &mut String, id: Id) -> Result<(), Memory>
    ensures { OnOk result (string_bytes line.new ≡ string_bytes line.old ++ codes " " ++ id_text id) }
{
    line.push_str(" ")?;
    line.push_str(id.spelled(alloc)?.as_str())?;
    Ok(())
}

// The line of days.
fn days_line(alloc: Global, days: &[Day]) -> Result<String, Memory>
    ensures { IfOk result (λ line. string_bytes line ≡ spec.days_text days.now) }
{
    let mut line = String::from_str(alloc, "days")?;
    for day in days {
        push_day(alloc, &mut line, *day)?;
    }
    Ok(line)
}

// The line of ids.
fn order_line(alloc: Global, ids: &[Id]) -> Result<String, Memory>
    ensures { IfOk result (λ line. string_bytes line ≡ spec.order_text ids.now) }
{
    let mut line = String::from_str(alloc, "order")?;
    for id in ids {
        push_id(alloc, &mut line, *id)?;
    }
    Ok(line)
}

// The line of a work that is not known.
fn none_line(alloc: Global) -> Result<String, Memory>
    ensures { IfOk result (λ line. string_bytes line ≡ codes "none") }
{
    Ok(String::from_str(alloc, "none")?)
}

/// The line of the days on which the text of a work may change, as a viewpoint knows it, by what the work carries of provisions.
pub fn told_of_days<L: Ledger>(
    alloc: Global,
    register: &Register,
    work: &WorkName,
    viewpoint: u32,
    steps: &mut Steps<L>,
) -> Result<Vec<u8>, Memory>
    ensures { IfOk result
        (λ line. line.items ≡ spec.days_line (known.known_held register.now.entries work.now viewpoint)) }
{
    let line = match known_held(alloc, &FromLine, register, work, viewpoint, steps)? {
        Some(known) => days_line(alloc, FromEnacted.breakpoints(alloc, &known)?.as_slice())?,
        None => none_line(alloc)?,
    };
    Ok(line.into_bytes())
}

// The day of a question: that of the version, or else the act's.
fn asked_day(question: &Question, known: &Known) -> Day
    ensures { result ≡ asked_day question.now.version known.now.act }
{
    match question.version {
        Some(day) => day,
        None => known.act.day,
    }
}

/// The line of the modifications that bear on the day of a question, in their order.
pub fn told_of_order<L: Ledger>(
    alloc: Global,
    register: &Register,
    question: &Question,
    steps: &mut Steps<L>,
) -> Result<Vec<u8>, Memory>
    ensures { IfOk result (λ line. line.items ≡ spec.order_line question.now
        (known.known_held register.now.entries question.now.work question.now.viewpoint)) }
{
    let work = &question.work;
    let line = match known_held(alloc, &FromLine, register, work, question.viewpoint, steps)? {
        Some(known) => {
            let day = asked_day(question, &known);
            let ids = FromEnacted.order_at(alloc, &known, question.reading, day)?;
            order_line(alloc, ids.as_slice())?
        }
        None => none_line(alloc)?,
    };
    Ok(line.into_bytes())
}

// Whether the provision of a wId bears in the act as enacted, on the day of a question. `None`: the act has none.
fn flag_in(
    alloc: Global,
    known: &Known,
    question: &Question,
    wid: &str,
) -> Result<Option<bool>, Memory> {
    let act = &known.act;
    let tree = match Tree::build(alloc, &act.body, act.numbering, act.limit) {
        Ok(tree) => tree,
        Err(BuildFail::Memory) => return Err(Memory),
        Err(BuildFail::Fault(_)) => return Ok(None),
    };
    let day = asked_day(question, known);
    match tree.find(wid.as_bytes()) {
        Some(node) => Ok(Some(FromEnacted.flag_of(
            alloc,
            known,
            question.reading,
            day,
            &tree,
            node,
        )?)),
        None => Ok(None),
    }
}

/// The line of whether the provision whose wId is the portion of a question bears in the act as enacted, on the day of the question.
pub fn told_of_flag(
    alloc: Global,
    register: &Register,
    question: &Question,
) -> Result<Vec<u8>, Memory> {
    let wid = match &question.portion {
        Some(wid) => wid.as_str(),
        None => "body",
    };
    let flag = match known_at(alloc, register, &question.work, question.viewpoint)? {
        Some(known) => flag_in(alloc, &known, question, wid)?,
        None => None,
    };
    let line = match flag {
        Some(true) => String::from_str(alloc, "bears")?,
        Some(false) => String::from_str(alloc, "does not bear")?,
        None => none_line(alloc)?,
    };
    Ok(line.into_bytes())
}
