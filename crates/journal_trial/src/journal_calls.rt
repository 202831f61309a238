//! The calls of a journal, each by a line.

use crate::answers::{bytes_of, digits, no_such_line, refused, said};
use crate::driven::Driven;
use crate::shown::Shown;
use desk_base::{Memory, decimal_number};
use law_journal::{Disk, Journal, frame};
use std::alloc::Global;

/// The most bytes of a payload.
const LONGEST: usize = 16_777_216;

impl<D: Disk + Shown> Driven for Journal<D> {
    fn told(&mut self, alloc: Global, line: &str) -> Result<String, Memory> {
        let (word, rest) = line.split_once(' ').unwrap_or((line, ""));
        match word {
            "open" => told_of_opening(alloc, self),
            "append" => told_of_digits(alloc, self, rest),
            "record" => told_of_place(alloc, self, rest),
            _ => match self.disk().shown(alloc, word, rest)? {
                Some(told) => Ok(told),
                None => no_such_line(alloc),
            },
        }
    }
}

// Opens the journal, be it for the first time or again.
fn told_of_opening<D: Disk>(alloc: Global, journal: &mut Journal<D>) -> Result<String, Memory> {
    match journal.reopen() {
        Ok(()) => said(alloc, "opened"),
        Err(fault) => refused(alloc, fault),
    }
}

// Appends the payload that a word spells.
fn told_of_digits<D: Disk>(
    alloc: Global,
    journal: &mut Journal<D>,
    word: &str,
) -> Result<String, Memory> {
    match bytes_of(alloc, word)? {
        Some(payload) => told_of_payload(alloc, journal, payload.as_slice()),
        None => no_such_line(alloc),
    }
}

// Appends a payload, and tells the place of the gate behind it.
fn told_of_payload<D: Disk>(
    alloc: Global,
    journal: &mut Journal<D>,
    payload: &[u8],
) -> Result<String, Memory> {
    if payload.is_empty() || payload.len() > LONGEST {
        return said(alloc, "no payload");
    }
    let framed = frame(alloc, payload)?;
    if !journal.ready() {
        return said(alloc, "not ready");
    }
    match journal.append(framed.as_slice()) {
        Ok(place) => Ok(format!(in alloc; "appended {place}")?),
        Err(_) => said(alloc, "failed"),
    }
}

// Reads the record at the place that a word is.
fn told_of_place<D: Disk>(
    alloc: Global,
    journal: &mut Journal<D>,
    word: &str,
) -> Result<String, Memory> {
    match decimal_number(word, u64::MAX) {
        Some(place) => told_of_record(alloc, journal, place),
        None => no_such_line(alloc),
    }
}

// Reads the record at a place, and tells the next one and the payload.
fn told_of_record<D: Disk>(
    alloc: Global,
    journal: &mut Journal<D>,
    place: u64,
) -> Result<String, Memory> {
    if !journal.ready() {
        return said(alloc, "not ready");
    }
    let mut payload = Vec::new(alloc);
    match journal.read_record(place, &mut payload) {
        Ok(Some(next)) => {
            let word = format!(in alloc; "payload {next}")?;
            digits(alloc, word.as_str(), payload.as_slice())
        }
        Ok(None) => said(alloc, "end"),
        Err(fault) => refused(alloc, fault),
    }
}
