//! The lines of entries as bytes.

ghost use Rattle.std.specs.Prelude.{◌≡◌, ◌<◌, true, length, IfOk};
ghost use Rattle.entry_codec.specs.Entries.{decoding};
ghost use Rattle.law_register.specs.Law.Spellable.{can_be_spelled};
ghost use Rattle.law_register.specs.Law.Spelling.{is_well_spelled};
ghost use Rattle.desk_trial.specs.Bytes as spec;

use desk_base::{Memory, decimal_number};
use entry_codec::{CodecFault, DecodeFail, decode, encode};
use law_register::laws::{entries_are_well_spelled, entries_can_be_spelled};
use law_register::{Entry, Register};
use std::alloc::Global;

// The line of an entry: its bytes, as digits.
fn entry_line(alloc: Global, entry: &Entry) -> Result<Vec<u8>, Memory>
    requires able { can_be_spelled entry.now ≡ true }
    requires well { is_well_spelled entry.now.command ≡ true }
    ensures { IfOk result (λ line. line.items ≡ spec.entry_line entry.now) }
{
    let bytes = encode(alloc, entry)?;
    let mut line = String::from_str(alloc, "entry ")?;
    line.push_str(hex::encode(alloc, bytes.as_slice())?.as_str())?;
    Ok(line.into_bytes())
}

// The line of a fault: its place, and the byte there.
fn fault_line(alloc: Global, fault: CodecFault) -> Result<Vec<u8>, Memory>
    ensures { IfOk result (λ line. line.items ≡ spec.fault_line fault) }
{
    let place = fault.place;
    match fault.byte {
        Some(byte) => Ok(format!(in alloc; "fault {place} {byte}")?.into_bytes()),
        None => Ok(format!(in alloc; "fault {place} none")?.into_bytes()),
    }
}

// The line of bytes: their entry, spelled again, or their fault.
fn bytes_line(alloc: Global, bytes: &[u8]) -> Result<Vec<u8>, Memory>
    ensures { IfOk result (λ line. line.items ≡ spec.bytes_line (decoding bytes.now)) }
{
    match decode(alloc, bytes) {
        Ok(entry) => entry_line(alloc, &entry),
        Err(DecodeFail::Fault(fault)) => fault_line(alloc, fault),
        Err(DecodeFail::Memory) => Err(Memory),
    }
}

/// The line of the bytes that a text spells as digits. `None`: it spells none.
pub fn told_of_bytes(alloc: Global, digits: &str) -> Result<Option<Vec<u8>>, Memory> {
    match hex::decode(alloc, digits) {
        Ok(bytes) => Ok(Some(bytes_line(alloc, bytes.as_slice())?)),
        Err(hex::FromHexError::OutOfMemory) => Err(Memory),
        Err(_) => Ok(None),
    }
}

// The entry of a register at an index: it can be spelled.
#[tactic(auto, using(crate::proofs::Places::holds_at))]
fn entry_at(register: &Register, index: usize) -> &Entry
    requires { index < length register.now.entries }
    ensures able { can_be_spelled result.now ≡ true }
    ensures well { is_well_spelled result.now.command ≡ true }
{
    entries_are_well_spelled(register);
    entries_can_be_spelled(register);
    register.entry(index)
}

/// The line of the entry of a register that has this number, counted from 1. `None`: the word is no number.
pub fn told_of_entry(
    alloc: Global,
    register: &Register,
    word: &str,
) -> Result<Option<Vec<u8>>, Memory> {
    let Some(number) = decimal_number(word, 4_294_967_295) else {
        return Ok(None);
    };
    if number == 0 || number > register.len() as u64 {
        return Ok(Some(String::from_str(alloc, "none")?.into_bytes()));
    }
    Ok(Some(entry_line(alloc, entry_at(register, number as usize - 1))?))
}
