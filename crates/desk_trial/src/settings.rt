//! What the first line of an input asks of the keeper: which of its calls fail, what it has, and which days the clock tells.

use desk_base::{Day, Memory, decimal_number};
use std::alloc::Global;
use std::str;

/// What is told of the payloads that the keeper has at first.
#[derive(Clone, Copy, Debug, PartialEq, Eq)]
pub enum View {
    /// What their opening says.
    Opened,
    /// How many there are.
    Counted,
    /// How many of them are entries.
    Decoded,
}

/// What becomes of a call of the keeper that fails.
#[derive(Clone, Copy, Debug, PartialEq, Eq)]
pub enum Failing {
    /// It did nothing.
    Undone,
    /// An append keeps its payload all the same.
    Kept,
    /// It did nothing, and damage is told of an opening or a load, once the keeper has been opened.
    Damaged,
}

/// What the first line asks for.
#[derive(Drop)]
pub struct Setting {
    /// What is told of the payloads.
    pub view: View,
    /// The numbers of the calls of the keeper that fail, counted from 1.
    pub failing: Vec<u64>,
    /// What becomes of these.
    pub manner: Failing,
    /// The days that the clock tells, of which there is at least one.
    pub days: Vec<Day>,
    /// The payloads that the keeper has.
    pub kept: Vec<Vec<u8>>,
}

// The members of a list: `-` is one of none, and else a comma stands between two of them.
fn members<'a>(alloc: Global, word: &'a str) -> Result<Vec<&'a str>, Memory> {
    let mut found = Vec::new(alloc);
    if word != "-" {
        for member in word.split(',') {
            found.push(member)?;
        }
    }
    Ok(found)
}

// The numbers that a word lists. `None`: it lists none.
fn numbers(alloc: Global, word: &str) -> Result<Option<Vec<u64>>, Memory> {
    let mut found = Vec::new(alloc);
    for member in members(alloc, word)? {
        match decimal_number(member, 4_294_967_295) {
            Some(number) => found.push(number)?,
            None => return Ok(None),
        }
    }
    Ok(Some(found))
}

// The days that a word lists. `None`: it lists none.
fn days(alloc: Global, word: &str) -> Result<Option<Vec<Day>>, Memory> {
    let mut found = Vec::new(alloc);
    for member in members(alloc, word)? {
        match Day::from_text(member) {
            Some(day) => found.push(day)?,
            None => return Ok(None),
        }
    }
    Ok(Some(found))
}

// The payloads that a word lists, two digits for each byte. `None`: it lists none.
fn listed(alloc: Global, word: &str) -> Result<Option<Vec<Vec<u8>>>, Memory> {
    let mut found = Vec::new(alloc);
    for member in members(alloc, word)? {
        match hex::decode(alloc, member) {
            Ok(bytes) => found.push(bytes)?,
            Err(hex::FromHexError::OutOfMemory) => return Err(Memory),
            Err(_) => return Ok(None),
        }
    }
    Ok(Some(found))
}

// The setting of `FAILING DAYS PAYLOADS`. `None`: the words are none.
fn setting_named(
    alloc: Global,
    view: View,
    manner: Failing,
    words: &str,
) -> Result<Option<Setting>, Memory> {
    let Some((first, rest)) = words.split_once(' ') else {
        return Ok(None);
    };
    let Some((second, third)) = rest.split_once(' ') else {
        return Ok(None);
    };
    let (Some(failing), Some(days)) = (numbers(alloc, first)?, days(alloc, second)?) else {
        return Ok(None);
    };
    match listed(alloc, third)? {
        Some(kept) => Ok(Some(Setting {
            view,
            failing,
            manner,
            days,
            kept,
        })),
        None => Ok(None),
    }
}

/// What a line asks of the keeper. `None`: it asks nothing of it.
pub fn setting_of(alloc: Global, line: &[u8]) -> Result<Option<Setting>, Memory> {
    let Ok(text) = str::from_utf8(line) else {
        return Ok(None);
    };
    match text.split_once(' ') {
        Some(("open", words)) => setting_named(alloc, View::Opened, Failing::Undone, words),
        Some(("keep", words)) => setting_named(alloc, View::Opened, Failing::Kept, words),
        Some(("damage", words)) => setting_named(alloc, View::Opened, Failing::Damaged, words),
        Some(("walk", words)) => setting_named(alloc, View::Counted, Failing::Undone, words),
        Some(("read", words)) => setting_named(alloc, View::Decoded, Failing::Undone, words),
        _ => Ok(None),
    }
}
