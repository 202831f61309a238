//! Setting: the disk that the first line of an input asks for.

use crate::answers::bytes_of;
use crate::noted_file::NotedFile;
use desk_base::{Memory, decimal_number};
use law_journal::{Effect, MemoryDisk};
use std::alloc::Global;

/// The most that a number of a setting is.
const MOST: u64 = 4_294_967_295;

/// A disk, and whether it is called itself, bare, or as that of a journal.
pub enum Setting<'a> {
    /// A journal on a disk in memory.
    Memory(MemoryDisk),
    /// A file in memory that notes its calls.
    Noted {
        file: NotedFile,
        is_bare: bool,
    },
    /// A real file, and the folder in which its entry stands.
    Named {
        folder: &'a str,
        name: &'a str,
        is_bare: bool,
    },
}

impl<'a> Setting<'a> {
    /// The setting that a line is. `None`: it is none.
    pub fn from_line(alloc: Global, line: &'a str) -> Result<Option<Setting<'a>>, Memory> {
        match line.split_once(' ') {
            Some(("memory", words)) => memory_of(alloc, words),
            Some(("bare", words)) => file_of(alloc, words, true),
            _ => file_of(alloc, line, false),
        }
    }
}

// The setting of a file.
fn file_of<'a>(alloc: Global, line: &'a str, is_bare: bool) -> Result<Option<Setting<'a>>, Memory> {
    match line.split_once(' ') {
        Some(("noted", words)) => noted_of(alloc, words, is_bare),
        Some(("named", words)) => Ok(named_of(words, is_bare)),
        _ => Ok(None),
    }
}

// The file `FOLDER NAME`.
fn named_of<'a>(words: &'a str, is_bare: bool) -> Option<Setting<'a>> {
    let (folder, name) = words.split_once(' ')?;
    Some(Setting::Named {
        folder,
        name,
        is_bare,
    })
}

// The file `FAILING PIECE BYTES`.
fn noted_of<'a>(alloc: Global, words: &str, is_bare: bool) -> Result<Option<Setting<'a>>, Memory> {
    let mut words = words.split(' ');
    let (Some(failing), Some(piece)) = (number(words.next()), number(words.next())) else {
        return Ok(None);
    };
    match bytes_of(alloc, words.next().unwrap_or(""))? {
        Some(bytes) => Ok(Some(Setting::Noted {
            file: NotedFile::of(alloc, bytes.as_slice(), failing, piece)?,
            is_bare,
        })),
        None => Ok(None),
    }
}

// The disk `FAILING CAPACITY CHANGES BYTES EFFECT`, where the effect may be missing.
fn memory_of<'a>(alloc: Global, words: &str) -> Result<Option<Setting<'a>>, Memory> {
    let mut words = words.split(' ');
    let Some(failing) = numbers(alloc, words.next().unwrap_or(""))? else {
        return Ok(None);
    };
    let (Some(capacity), Some(changes)) = (number(words.next()), number(words.next())) else {
        return Ok(None);
    };
    let bytes = bytes_of(alloc, words.next().unwrap_or(""))?;
    match (bytes, effect_of(words.next())) {
        (Some(bytes), Some(effect)) => {
            let mut disk = MemoryDisk::of(alloc, bytes, capacity, changes, failing.as_slice())?;
            disk.set_effect(effect);
            Ok(Some(Setting::Memory(disk)))
        }
        _ => Ok(None),
    }
}

// What a call that fails does: nothing, unless a word says how many bytes, or `whole`. `None`: it says neither.
fn effect_of(word: Option<&str>) -> Option<Effect> {
    match word {
        None => Some(Effect::Nothing),
        Some("whole") => Some(Effect::Whole),
        Some(word) => Some(Effect::Front(decimal_number(word, MOST)? as usize)),
    }
}

// The number that a word is.
fn number(word: Option<&str>) -> Option<usize> {
    Some(decimal_number(word?, MOST)? as usize)
}

// The numbers that a word lists, with a comma between two of them; `-` is none. `None`: it lists none.
fn numbers(alloc: Global, list: &str) -> Result<Option<Vec<u64>>, Memory> {
    let mut found = Vec::new(alloc);
    if list == "-" {
        return Ok(Some(found));
    }
    for word in list.split(',') {
        match decimal_number(word, MOST) {
            Some(number) => found.push(number)?,
            None => return Ok(None),
        }
    }
    Ok(Some(found))
}
