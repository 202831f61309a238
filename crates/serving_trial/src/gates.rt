//! Gates: a word tells of a gate which of its calls fail and what its links have, and another what was written to each.

ghost use Rattle.std.specs.Prelude.{◌≡◌, length, IfOk, IfSome};

use crate::meet_link::MeetLink;
use desk_base::{Memory, decimal_number};
use desk_gates::ListGate;
use hex::FromHexError;
use std::alloc::Global;
use std::sync::atomic::AtomicU64;

// The numbers that a word lists: `-` is none, and else a comma stands between two. `None`: it lists none.
fn numbers(alloc: Global, word: &str) -> Result<Option<Vec<u64>>, Memory> {
    let mut found = Vec::new(alloc);
    if word == "-" {
        return Ok(Some(found));
    }
    for member in word.split(',') {
        match decimal_number(member, 4_294_967_295) {
            Some(number) => found.push(number)?,
            None => return Ok(None),
        }
    }
    Ok(Some(found))
}

// The bytes that a word spells, two digits for each. `None`: it spells none.
fn bytes_of(alloc: Global, word: &str) -> Result<Option<Vec<u8>>, Memory> {
    match hex::decode(alloc, word) {
        Ok(bytes) => Ok(Some(bytes)),
        Err(FromHexError::OutOfMemory) => Err(Memory),
        Err(_) => Ok(None),
    }
}

/// The gate of `FAILING/DIGITS`: the numbers of its calls that fail, and the bytes that its one link has, the last of which is
/// given once `meeting` of the links that count here have begun. `None`: the word tells of no gate.
pub fn gate_of<'a>(
    alloc: Global,
    word: Option<&str>,
    begun: &'a AtomicU64,
    meeting: u64,
) -> Result<Option<ListGate<MeetLink<'a>>>, Memory>
    ensures { IfOk result (λ gate. IfSome gate (λ g. length g.given ≡ length g.back)) }
{
    let Some(word) = word else {
        return Ok(None);
    };
    let Some((first, second)) = word.split_once('/') else {
        return Ok(None);
    };
    let (Some(failing), Some(bytes)) = (numbers(alloc, first)?, bytes_of(alloc, second)?) else {
        return Ok(None);
    };
    let link = MeetLink::new(alloc, bytes.as_slice(), begun, meeting)?;
    let links = vec![in alloc; link]?;
    Ok(Some(ListGate::new(alloc, links, failing.as_slice())?))
}

/// The digits of what was written to the link of a gate, with `!` behind them where a read of it failed. `-`: nothing was written.
pub fn told_of_gate(alloc: Global, gate: &ListGate<MeetLink<'_>>) -> Result<String, Memory> {
    let mut told = String::new(alloc);
    if let Some(link) = gate.link(0) {
        told.push_str(hex::encode(alloc, link.written())?.as_str())?;
        if told.is_empty() {
            told.push('-')?;
        }
        if link.has_failed() {
            told.push('!')?;
        }
    }
    Ok(told)
}
