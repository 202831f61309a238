//! What is told of a line, by its first word.

use crate::answering::{told_by_value, told_of_question};
use crate::bearing::{told_of_days, told_of_flag, told_of_order};
use crate::bytes::{told_of_bytes, told_of_entry};
use crate::commanding::told_of_command;
use crate::drafting::told_of_drafter;
use crate::knowing::told_of_known;
use crate::questions::{read_known, read_question};
use crate::replies::front_line;
use crate::touching::told_of_touched;
use desk_base::{Memory, Steps};
use frbr_names::WorkName;
use law_register::{Desk, Question, Register};
use std::alloc::Global;
use std::str;
use std::sync::ledger::Ledger;

// What is told of a line that is none of those which there are.
fn no_such_line(alloc: Global) -> Result<Vec<u8>, Memory> {
    Ok(String::from_str(alloc, "no such line")?.into_bytes())
}

// What is told of a question, by the word before it.
fn told_of_asked<D: Desk, L: Ledger>(
    alloc: Global,
    desk: &mut D,
    word: &str,
    question: &Question,
    steps: &mut Steps<L>,
) -> Result<Vec<u8>, Memory> {
    match word {
        "ask" => told_of_question(alloc, desk, question, steps),
        "value" => told_by_value(alloc, desk, question, steps),
        "order" => told_of_order(alloc, desk.register(), question, steps),
        "flag" => told_of_flag(alloc, desk.register(), question),
        _ => no_such_line(alloc),
    }
}

// What is told of a work at a viewpoint, by the word before them.
fn told_of_work<L: Ledger>(
    alloc: Global,
    register: &Register,
    word: &str,
    (work, viewpoint): (WorkName, u32),
    steps: &mut Steps<L>,
) -> Result<Vec<u8>, Memory> {
    match word {
        "known" => told_of_known(alloc, register, &work, viewpoint),
        "days" => told_of_days(alloc, register, &work, viewpoint, steps),
        _ => no_such_line(alloc),
    }
}

// What is told of bytes, of the bytes of an entry, or of a command that does not come yet, by the word before them. `None`: the line asks for
// none of these.
fn told_of_entries(
    alloc: Global,
    register: &Register,
    word: &str,
    rest: &str,
) -> Result<Option<Vec<u8>>, Memory> {
    match word {
        "decode" => told_of_bytes(alloc, rest),
        "bytes" => told_of_entry(alloc, register, rest),
        "touched" => told_of_touched(alloc, register, rest),
        _ => Ok(None),
    }
}

// What is told of a line of words.
fn told_of_words<D: Desk, L: Ledger>(
    alloc: Global,
    desk: &mut D,
    line: &str,
    steps: &mut Steps<L>,
) -> Result<Vec<u8>, Memory> {
    let Some((word, words)) = line.split_once(' ') else {
        return if line == "front" {
            front_line(alloc, desk.register())
        } else {
            no_such_line(alloc)
        };
    };
    if let Some(told) = told_of_entries(alloc, desk.register(), word, words)? {
        return Ok(told);
    }
    if let Some(told) = told_of_drafter(alloc, desk, word, words, steps)? {
        return Ok(told);
    }
    if let Some(question) = read_question(alloc, words)? {
        return told_of_asked(alloc, desk, word, &question, steps);
    }
    match read_known(alloc, words)? {
        Some(known) => told_of_work(alloc, desk.register(), word, known, steps),
        None => no_such_line(alloc),
    }
}

// Whether a line is a command: it begins as a JSON object.
fn is_command(line: &[u8]) -> bool {
    match line {
        [] => false,
        [byte, ..] => *byte == b'{',
    }
}

/// What is told of a line that a desk answers: a command, or a question of what it knows.
pub fn told_of_line<D: Desk, L: Ledger>(
    alloc: Global,
    desk: &mut D,
    line: &[u8],
    steps: &mut Steps<L>,
) -> Result<Vec<u8>, Memory> {
    if is_command(line) {
        return told_of_command(alloc, desk, line, steps);
    }
    match str::from_utf8(line) {
        Ok(text) => told_of_words(alloc, desk, text, steps),
        Err(_) => no_such_line(alloc),
    }
}
