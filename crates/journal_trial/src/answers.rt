//! What came of a call, as a line.

use desk_base::{LoadFault, Memory};
use std::alloc::Global;

/// A line of these words.
pub fn said(alloc: Global, words: &str) -> Result<String, Memory> {
    Ok(String::from_str(alloc, words)?)
}

/// The line of a call that may have failed.
pub fn done(alloc: Global, is_done: bool) -> Result<String, Memory> {
    said(alloc, if is_done { "done" } else { "failed" })
}

/// The line of a line that asks for no call.
pub fn no_such_line(alloc: Global) -> Result<String, Memory> {
    said(alloc, "no such line")
}

/// The line of bytes: a word, and two digits for each byte.
pub fn digits(alloc: Global, word: &str, bytes: &[u8]) -> Result<String, Memory> {
    let digits = hex::encode(alloc, bytes)?;
    Ok(format!(in alloc; "{word} {digits}")?)
}

/// The line of what was not opened or not read.
pub fn refused(alloc: Global, fault: LoadFault) -> Result<String, Memory> {
    match fault {
        LoadFault::Failed => said(alloc, "failed"),
        LoadFault::Damaged {
            place,
            byte: Some(byte),
        } => Ok(format!(in alloc; "damaged {place} {byte}")?),
        LoadFault::Damaged { place, byte: None } => {
            Ok(format!(in alloc; "damaged {place} none")?)
        }
        LoadFault::Memory => Err(Memory),
    }
}

/// The bytes that a word spells, two digits for each; `-` is none. `None`: it spells none.
pub fn bytes_of(alloc: Global, word: &str) -> Result<Option<Vec<u8>>, Memory> {
    if word == "-" {
        return Ok(Some(Vec::new(alloc)));
    }
    match hex::decode(alloc, word) {
        Ok(bytes) => Ok(Some(bytes)),
        Err(hex::FromHexError::OutOfMemory) => Err(Memory),
        Err(_) => Ok(None),
    }
}
