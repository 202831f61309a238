//! What is told of a line, by its first word.

ghost use Rattle.std.specs.Prelude.{OnOk};
ghost use Rattle.table_trial.specs.Keeping.{Holds, IsHeld};

use crate::answering::{
    told_by_replay, told_by_table, told_of_comparison, told_of_rows, told_of_scratch,
};
use crate::costs::cost_from;
use crate::entering::told_of_command;
use crate::kept::{Kept, known_now, make};
use crate::replies::said;
use desk_base::{Day, Memory, Steps};
use frbr_names::{WorkName, parse_work};
use law_register::{Reading, Register};
use std::alloc::Global;
use std::str;
use std::sync::ledger::Ledger;

// What is told of a line that is none of those which there are.
fn no_such_line(alloc: Global) -> Result<Vec<u8>, Memory> {
    said(alloc, "no such line")
}

// Makes the tables of a work, which are kept in the place of others; and tells how many rows the one in this reading has, and what
// it costs.
#[tactic(auto, using(crate::proofs::Holding::held_now))]
fn told_of_making<L: Ledger>(
    alloc: Global,
    register: &Register,
    kept: &mut Option<Kept>,
    work: WorkName,
    reading: Reading,
    steps: &mut Steps<L>,
) -> Result<Vec<u8>, Memory>
    requires { Holds register.now.entries kept.old }
    ensures { OnOk result (Holds register.now.entries kept.new) }
{
    match known_now(alloc, register, &work)? {
        Some(known) => {
            let cost = cost_from(alloc, &known, reading, Day::from_number(1).unwrap())?;
            let made = make(alloc, known, work, reading, steps)?;
            let rows = made
                .table()
                .breakpoint(Day::from_number(3_652_059).unwrap());
            *kept = Some(made);
            Ok(format!(in alloc; "rows {rows} cost {cost}")?.into_bytes())
        }
        None => said(alloc, "none"),
    }
}

// What is told of `make WORK READING`.
fn told_of_words_to_make<L: Ledger>(
    alloc: Global,
    register: &Register,
    kept: &mut Option<Kept>,
    words: &str,
    steps: &mut Steps<L>,
) -> Result<Vec<u8>, Memory>
    requires { Holds register.now.entries kept.old }
    ensures { OnOk result (Holds register.now.entries kept.new) }
{
    let Some((work, reading)) = words.split_once(' ') else {
        return no_such_line(alloc);
    };
    let Some(reading) = Reading::from_name(reading) else {
        return no_such_line(alloc);
    };
    match parse_work(work) {
        Ok(iri) => {
            let work = WorkName::copy_of(alloc, &iri)?;
            told_of_making(alloc, register, kept, work, reading, steps)
        }
        Err(_) => no_such_line(alloc),
    }
}

// What is told of a day, by the word before it.
fn told_of_day<L: Ledger>(
    alloc: Global,
    register: &Register,
    kept: &Kept,
    word: &str,
    day: Day,
    steps: &mut Steps<L>,
) -> Result<Vec<u8>, Memory>
    requires { IsHeld register.now.entries kept.now }
{
    match word {
        "at" => told_by_table(alloc, register, kept, day),
        "replay" => told_by_replay(alloc, register, kept, day, steps),
        "rows" => told_of_rows(alloc, kept, day),
        _ => no_such_line(alloc),
    }
}

// What is told of a line that asks the table which is kept.
fn told_of_question<L: Ledger>(
    alloc: Global,
    register: &Register,
    kept: &Kept,
    line: &str,
    steps: &mut Steps<L>,
) -> Result<Vec<u8>, Memory>
    requires { IsHeld register.now.entries kept.now }
{
    if line == "same" {
        return told_of_comparison(alloc, register, kept, steps);
    }
    if line == "scratch" {
        return told_of_scratch(alloc, register, kept, steps);
    }
    let Some((word, day)) = line.split_once(' ') else {
        return no_such_line(alloc);
    };
    match Day::from_text(day) {
        Some(day) => told_of_day(alloc, register, kept, word, day, steps),
        None => no_such_line(alloc),
    }
}

// What is told of a line that asks for or of a table.
fn told_of_words<L: Ledger>(
    alloc: Global,
    register: &Register,
    kept: &mut Option<Kept>,
    line: &str,
    steps: &mut Steps<L>,
) -> Result<Vec<u8>, Memory>
    requires { Holds register.now.entries kept.old }
    ensures { OnOk result (Holds register.now.entries kept.new) }
{
    if let Some(words) = line.strip_prefix("make ") {
        return told_of_words_to_make(alloc, register, kept, words, steps);
    }
    match kept {
        Some(kept) => told_of_question(alloc, register, kept, line, steps),
        None => said(alloc, "no table"),
    }
}

// Whether a line is a command: it begins as a JSON object.
fn is_command(line: &[u8]) -> bool {
    match line {
        [] => false,
        [byte, ..] => *byte == b'{',
    }
}

/// What is told of a line: a command, or what is asked for or of a table.
pub fn told_of_line<L: Ledger>(
    alloc: Global,
    register: &mut Register,
    kept: &mut Option<Kept>,
    line: &[u8],
    steps: &mut Steps<L>,
) -> Result<Vec<u8>, Memory>
    requires { Holds register.old.entries kept.old }
    ensures { OnOk result (Holds register.new.entries kept.new) }
{
    if is_command(line) {
        return told_of_command(alloc, register, kept, line, steps);
    }
    match str::from_utf8(line) {
        Ok(text) => told_of_words(alloc, register, kept, text, steps),
        Err(_) => no_such_line(alloc),
    }
}
