//! Store: what an office is lent, set up by the first line, and what of it is told.

use crate::replies::{fault_line, refused_line};
use crate::settings::{Failing, View};
use crate::trial_keeper::TrialKeeper;
use desk_base::{Day, ListClock, LoadFault, Memory};
use entry_codec::{DecodeFail, decode};
use law_keeper::{KeepFault, Keeper, payloads};
use law_office::Opened;
use law_register::Register;
use std::alloc::Global;

/// A keeper in memory with these payloads, some of whose calls fail, in this manner. The calls that give it the payloads are counted, too:
/// one that opens it, and one for each of them.
pub fn keeper_of(
    alloc: Global,
    failing: &[u64],
    manner: Failing,
    kept: Vec<Vec<u8>>,
) -> Result<TrialKeeper, Memory> {
    let mut keeper = TrialKeeper::new(alloc, failing, manner)?;
    for payload in kept {
        give(alloc, &mut keeper, payload.as_slice())?;
    }
    Ok(keeper)
}

// Gives a keeper a payload, which it keeps unless it fails.
fn give(alloc: Global, keeper: &mut TrialKeeper, payload: &[u8]) -> Result<(), Memory> {
    if payload.is_empty() || payload.len() > 16_777_216 {
        return Ok(());
    }
    match keeper.reopen(alloc) {
        Ok(()) => match keeper.append(alloc, payload) {
            Err(KeepFault::Memory) => Err(Memory),
            _ => Ok(()),
        },
        Err(_) => Ok(()),
    }
}

/// A clock that tells these days; without one, 0001-01-01.
pub fn clock_of(alloc: Global, days: &[Day]) -> Result<ListClock, Memory> {
    if days.is_empty() {
        return ListClock::new(alloc, &[Day::from_number(1).unwrap()]);
    }
    ListClock::new(alloc, days)
}

// The payloads that a keeper has. `None`: it failed.
fn walk(alloc: Global, keeper: &mut TrialKeeper) -> Result<Option<Vec<Vec<u8>>>, Memory> {
    match keeper.reopen(alloc) {
        Ok(()) => match payloads(alloc, keeper) {
            Ok(kept) => Ok(Some(kept)),
            Err(LoadFault::Memory) => Err(Memory),
            Err(_) => Ok(None),
        },
        Err(LoadFault::Memory) => Err(Memory),
        Err(_) => Ok(None),
    }
}

// The line of payloads, two digits for each byte.
fn bytes_line(alloc: Global, kept: Vec<Vec<u8>>) -> Result<Vec<u8>, Memory> {
    let mut line = String::from_str(alloc, "kept")?;
    for payload in kept {
        line.push_str(" ")?;
        line.push_str(hex::encode(alloc, payload.as_slice())?.as_str())?;
    }
    Ok(line.into_bytes())
}

// Whether a payload is an entry.
fn is_entry(alloc: Global, payload: &[u8]) -> Result<bool, Memory> {
    match decode(alloc, payload) {
        Ok(entry) => {
            drop(entry);
            Ok(true)
        }
        Err(DecodeFail::Fault(_)) => Ok(false),
        Err(DecodeFail::Memory) => Err(Memory),
    }
}

// The line of how many payloads are entries.
fn entries_line(alloc: Global, kept: Vec<Vec<u8>>) -> Result<Vec<u8>, Memory> {
    let mut count = 0_u64;
    for payload in kept {
        if is_entry(alloc, payload.as_slice())? {
            count = count.saturating_add(1);
        }
    }
    Ok(format!(in alloc; "entries {count}")?.into_bytes())
}

// The line of how many payloads there are.
fn count_line(alloc: Global, kept: Vec<Vec<u8>>) -> Result<Vec<u8>, Memory> {
    let count = kept.len();
    Ok(format!(in alloc; "payloads {count}")?.into_bytes())
}

/// The line of the payloads that a keeper has, which is opened for it.
pub fn kept_line(alloc: Global, keeper: &mut TrialKeeper) -> Result<Vec<u8>, Memory> {
    match walk(alloc, keeper)? {
        Some(kept) => bytes_line(alloc, kept),
        None => fault_line(alloc),
    }
}

/// The line of what is told of payloads but by opening them. `None`: they are to be opened.
pub fn viewed_line(
    alloc: Global,
    keeper: &mut TrialKeeper,
    view: View,
) -> Result<Option<Vec<u8>>, Memory> {
    if view == View::Opened {
        return Ok(None);
    }
    match walk(alloc, keeper)? {
        Some(kept) if view == View::Counted => Ok(Some(count_line(alloc, kept)?)),
        Some(kept) => Ok(Some(entries_line(alloc, kept)?)),
        None => Ok(Some(fault_line(alloc)?)),
    }
}

/// The line of a register that was opened.
pub fn opened_line(alloc: Global, register: &Register) -> Result<Vec<u8>, Memory> {
    let (entries, law) = (register.len(), register.front());
    Ok(format!(in alloc; "entries {entries} law {law}")?.into_bytes())
}

/// The line of what an opening of a keeper says.
pub fn reopened_line(alloc: Global, keeper: &mut TrialKeeper) -> Result<Vec<u8>, Memory> {
    match Opened::open(alloc, keeper) {
        Ok(opened) => {
            let line = opened_line(alloc, &opened.register);
            drop(opened);
            line
        }
        Err(fault) => refused_line(alloc, fault),
    }
}
