//! A payload is judged behind those of a register: it has to spell an entry that is accepted there with its law number.

ghost use Rattle.std.specs.Prelude.{◌≡◌, true, Err, IfOk};
ghost use Rattle.law_register.specs.Desk.States.{MayFollow};
ghost use Rattle.law_register.specs.Law.Spelling.{is_well_spelled};
ghost use Rattle.entry_codec.specs.Entries.{decoding, spelling};
ghost use Rattle.entry_codec.specs.Reads.{Gives as GivesEntry};
ghost use Rattle.law_follow.specs.Opening as spec;
ghost use Rattle.law_follow.specs.Opening.{with_entry, with_payload};
ghost use Rattle.law_follow.specs.Replicas.{Judges};

use crate::unfit::Unfit;
use desk_base::Memory;
use entry_codec::laws::decoded_is_spelled;
use entry_codec::{DecodeFail, decode_knowing};
use frbr_names::WorkName;
use law_register::{Command, Entry, Modification, Register, Verdict};
use std::alloc::Global;

// The number of the rule for which an entry with this law number may not stand where this is said of its command.
fn order_rule(law: Option<u32>, verdict: &Verdict) -> Option<u8>
    ensures { result ≡ spec.order_rule law verdict.now }
{
    match verdict {
        Verdict::Accepted { law: number, .. } => { if law == *number { None } else { Some(0) } }
        Verdict::Repeat(_) => Some(1),
        Verdict::Refused(rule) => Some(rule.number()),
    }
}

// Judges an entry behind those of a register.
#[tactic(auto, unfolding(crate::specs::Opening::with_entry))]
fn judge_entry(alloc: Global, register: &Register, entry: Entry) -> Result<Entry, Unfit>
    requires { is_well_spelled entry.command ≡ true }
    ensures judged { Judges register.now.entries result (with_entry register.now.entries entry) }
    ensures same { IfOk result (λ e. e ≡ entry) }
    ensures follows { IfOk result (MayFollow register.now.entries) }
{
    match register.judge(alloc, &entry.drafter, entry.request, &entry.command) {
        Ok(verdict) => match order_rule(entry.law, &verdict) {
            None => Ok(entry),
            Some(rule) => let_go(entry, Unfit::NotAccepted(rule)),
        },
        Err(Memory) => let_go(entry, Unfit::Memory),
    }
}

// An entry is let go in one call, whatever is answered.
fn let_go(entry: Entry, unfit: Unfit) -> Result<Entry, Unfit>
    ensures { result ≡ Err unfit }
{
    drop(entry);
    Err(unfit)
}

// The entry at an index, if there is one.
fn entry_at(register: &Register, index: usize) -> Option<&Entry> {
    if index < register.len() {
        Some(register.entry(index))
    } else {
        None
    }
}

// The last entry, if there is one.
fn last_entry(register: &Register) -> Option<&Entry> {
    entry_at(register, register.len().saturating_sub(1))
}

// The work from which the modification of a command comes, if it brings one.
fn source_of(command: &Command) -> Option<&WorkName> {
    let (Command::Correct { body, .. } | Command::DraftAdd { body, .. }) = command else {
        return None;
    };
    match body {
        Modification::Textual { source, .. }
        | Modification::Force { source, .. }
        | Modification::Efficacy { source, .. } => Some(&source.href),
    }
}

/// The index of the last entry with a source, where it was this one before the entry at the end came.
pub(crate) fn last_source(register: &Register, before: usize) -> usize {
    match last_entry(register) {
        Some(entry) if source_of(&entry.command).is_some() => register.len().saturating_sub(1),
        _ => before,
    }
}

// Decodes a payload. The entry shares the name of the drafter of the last entry, and that of the work of the last
// source, which is that of the entry at the index `like`, where they come again: most of what is taken would else be a
// text for each entry.
fn decode_next(
    alloc: Global,
    register: &Register,
    like: usize,
    payload: &[u8],
) -> Result<Entry, DecodeFail>
    ensures value { GivesEntry (λ e. e) result (decoding payload.now) }
    ensures well { IfOk result (λ e. is_well_spelled e.command ≡ true) }
{
    let drafter = match last_entry(register) {
        Some(entry) => Some(&entry.drafter),
        None => None,
    };
    let work = match entry_at(register, like) {
        Some(entry) => source_of(&entry.command),
        None => None,
    };
    decode_knowing(alloc, payload, drafter, work)
}

/// The entry that a payload spells, if it may stand behind those of a register; `like` is the index of an entry whose
/// source may come again.
#[tactic(auto, unfolding(crate::specs::Opening::with_payload))]
pub(crate) fn next_entry(
    alloc: Global,
    register: &Register,
    like: usize,
    payload: &[u8],
) -> Result<Entry, Unfit>
    ensures judged { Judges register.now.entries result (with_payload register.now.entries payload.now) }
    ensures spelled { IfOk result (λ e. spelling e ≡ payload.now) }
    ensures follows { IfOk result (MayFollow register.now.entries) }
{
    decoded_is_spelled(payload);
    match decode_next(alloc, register, like, payload) {
        Ok(entry) => judge_entry(alloc, register, entry),
        Err(DecodeFail::Fault(broken)) => Err(Unfit::NoEntry(broken)),
        Err(DecodeFail::Memory) => Err(Unfit::Memory),
    }
}
