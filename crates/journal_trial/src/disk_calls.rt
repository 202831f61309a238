//! The calls of a file as a disk, each by a line.

use crate::answers::{bytes_of, digits, done, no_such_line, said};
use crate::driven::Driven;
use crate::shown::Shown;
use desk_base::{Memory, decimal_number};
use law_journal::{Disk, FileDisk, SystemFile};
use std::alloc::Global;

/// The most bytes that are read at once.
const MOST: u64 = 65_536;

impl<F: SystemFile + Shown> Driven for FileDisk<F> {
    fn told(&mut self, alloc: Global, line: &str) -> Result<String, Memory> {
        let (word, rest) = line.split_once(' ').unwrap_or((line, ""));
        match word {
            "sync" => done(alloc, self.sync().is_ok()),
            "len" => told_of_length(alloc, self),
            "read" => told_of_read(alloc, self, rest),
            "write" => told_of_write(alloc, self, rest),
            "cut" => told_of_cut(alloc, self, rest),
            _ => match self.shown(alloc, word, rest)? {
                Some(told) => Ok(told),
                None => no_such_line(alloc),
            },
        }
    }
}

// Asks for the length.
fn told_of_length<F: SystemFile>(alloc: Global, disk: &mut FileDisk<F>) -> Result<String, Memory> {
    match disk.len() {
        Ok(len) => Ok(format!(in alloc; "length {len}")?),
        Err(_) => said(alloc, "failed"),
    }
}

// Reads `PLACE COUNT`.
fn told_of_read<F: SystemFile>(
    alloc: Global,
    disk: &mut FileDisk<F>,
    words: &str,
) -> Result<String, Memory> {
    let (place, count) = words.split_once(' ').unwrap_or((words, ""));
    match (decimal_number(place, u64::MAX), decimal_number(count, MOST)) {
        (Some(place), Some(count)) => told_of_piece(alloc, disk, place, count as usize),
        _ => no_such_line(alloc),
    }
}

// Reads up to so many bytes from a place on.
fn told_of_piece<F: SystemFile>(
    alloc: Global,
    disk: &mut FileDisk<F>,
    place: u64,
    count: usize,
) -> Result<String, Memory> {
    let mut bytes = vec![in alloc; 0u8; count]?;
    match disk.read(place, bytes.as_mut_slice()) {
        Ok(filled) => {
            bytes.truncate(filled);
            digits(alloc, "read", bytes.as_slice())
        }
        Err(_) => said(alloc, "failed"),
    }
}

// Writes `PLACE DIGITS`.
fn told_of_write<F: SystemFile>(
    alloc: Global,
    disk: &mut FileDisk<F>,
    words: &str,
) -> Result<String, Memory> {
    let (place, word) = words.split_once(' ').unwrap_or((words, ""));
    match (decimal_number(place, u64::MAX), bytes_of(alloc, word)?) {
        (Some(place), Some(bytes)) => {
            done(alloc, disk.write_at(place, bytes.as_slice()).is_ok())
        }
        _ => no_such_line(alloc),
    }
}

// Cuts to the length that a word is.
fn told_of_cut<F: SystemFile>(
    alloc: Global,
    disk: &mut FileDisk<F>,
    word: &str,
) -> Result<String, Memory> {
    match decimal_number(word, u64::MAX) {
        Some(len) => done(alloc, disk.cut(len).is_ok()),
        None => no_such_line(alloc),
    }
}
