//! An entry is decoded from its bytes: a clause says which entry it is, or where the first broken field begins.

ghost use Rattle.std.specs.Prelude.{◌≡◌, true, IfOk};
ghost use Rattle.law_register.specs.Law.Spellable.{can_be_spelled};
ghost use Rattle.law_register.specs.Law.Spelling.{is_well_spelled};
ghost use Rattle.entry_codec.specs.Reads.{Gives};
ghost use Rattle.entry_codec.specs.Entries as spec;

mod commands;
mod edits;
mod effects;
mod entries;
mod formats;
mod known;
mod modifications;
mod nodes;
mod numbers;
mod reader;
mod texts;
mod values;

use crate::{CodecFault, DecodeFail};
use frbr_names::WorkName;
use law_register::{Drafter, Entry, EntryFormat};
use reader::{Reader, Stop};
use std::alloc::Global;

fn fault_at(bytes: &[u8], left: usize) -> CodecFault
    ensures { result ≡ spec.fault_at bytes.now left }
{
    let place = bytes.len().saturating_sub(left);
    CodecFault {
        place: place as u64,
        byte: bytes.get(place).copied(),
    }
}

fn is_asked(format: EntryFormat, entry: &Entry) -> bool
    ensures { result ≡ spec.is_asked (format, entry.now) }
{
    format.number() == entry.command.format().number()
}

// The entry that was read in a format, unless its command asks for the other.
fn if_asked(bytes: &[u8], read: (EntryFormat, Entry)) -> Result<Entry, DecodeFail>
    ensures { Gives (λ e. e) result (spec.if_asked bytes.now read) }
{
    let (format, entry) = read;
    if is_asked(format, &entry) {
        Ok(entry)
    } else {
        Err(DecodeFail::Fault(fault_at(bytes, bytes.len())))
    }
}

#[tactic(auto, unfolding(crate::specs::Entries::decoding))]
fn decoded<'a>(
    alloc: Global,
    bytes: &'a [u8],
    drafter: Option<&'a Drafter>,
    work: Option<&'a WorkName>,
) -> Result<Entry, DecodeFail>
    ensures { Gives (λ e. e) result (spec.decoding bytes.now) }
{
    let mut reader = Reader {
        left: bytes,
        known_drafter: drafter,
        known_work: work,
    };
    match reader.entry(alloc) {
        Ok(read) if reader.left.is_empty() => if_asked(bytes, read),
        Ok(_) => Err(DecodeFail::Fault(fault_at(bytes, reader.left.len()))),
        Err(Stop::Broken(left)) => Err(DecodeFail::Fault(fault_at(bytes, left))),
        Err(Stop::Memory) => Err(DecodeFail::Memory),
    }
}

/// The entry that bytes spell.
///
/// The fault is that of the first field, from the left, that breaks its rule or that the bytes do not hold whole. A length has no
/// rule of its own: a text whose length its rule forbids breaks that rule where its bytes begin. Bytes left over are a fault at
/// the first of them. An entry in format 2 whose command does not ask for it is a fault at its first byte, judged after all
/// others. What is decoded is well spelled, and can be spelled.
pub fn decode(alloc: Global, bytes: &[u8]) -> Result<Entry, DecodeFail>
    ensures value { Gives (λ e. e) result (spec.decoding bytes.now) }
    ensures well { IfOk result (λ e. is_well_spelled e.command ≡ true) }
    ensures able { IfOk result (λ e. can_be_spelled e ≡ true) }
{
    decoded(alloc, bytes, None, None)
}

/// The entry that bytes spell, as `decode` gives it. Where the drafter is the one that is known, or the IRI of a work is that of the
/// work that is known, the entry shares its text, which is neither read anew nor kept once more.
pub fn decode_knowing<'a>(
    alloc: Global,
    bytes: &'a [u8],
    drafter: Option<&'a Drafter>,
    work: Option<&'a WorkName>,
) -> Result<Entry, DecodeFail>
    ensures value { Gives (λ e. e) result (spec.decoding bytes.now) }
    ensures well { IfOk result (λ e. is_well_spelled e.command ≡ true) }
    ensures able { IfOk result (λ e. can_be_spelled e ≡ true) }
{
    decoded(alloc, bytes, drafter, work)
}
