//! Opening: what a keeper has is decoded, and each entry is judged behind those before it.

ghost use Rattle.std.specs.Prelude.{◌≡◌, ◌≤◌, ◌∷◌, ◌++◌, [], true, None, Ok, IfErr, IfOk, OnOk};
ghost use Rattle.law_keeper.specs.Keepers.{IsSettled, Keeps, LeavesNoMore, LeavesOldOrSame};
ghost use Rattle.law_keeper.specs.declared.readiness.Readiness.TheVariants.{Ready};
ghost use Rattle.law_register.specs.Law.Spelling.{is_well_spelled};
ghost use Rattle.law_register.specs.Register.Verdicts.{verdict as said};
ghost use Rattle.entry_codec.specs.Entries.{decoding};
ghost use Rattle.entry_codec.specs.Reads.{Gives as GivesEntry};
ghost use Rattle.law_office.specs.Offices.{Holds};
ghost use Rattle.law_office.specs.Opening as spec;
ghost use Rattle.law_office.specs.Opening.{HasOpenCause, IsOfPayload, Opens, StaysUnlessFailed, opened_of, with_entry, with_payload};

use desk_base::Memory;
use entry_codec::laws::decoded_is_spelled;
use entry_codec::{CodecFault, DecodeFail, decode_knowing};
use frbr_names::WorkName;
use law_keeper::Keeper;
use law_register::{Command, Damage, Entry, Modification, OpenFault, Register, Verdict, laws};
use std::alloc::Global;

/// What was opened: a register, and how far its keeper goes.
#[derive(Drop)]
pub struct Opened {
    /// The entries that the keeper's payloads spell.
    pub register: Register,
    /// The keeper's cursor of the end of these entries.
    pub end: u64,
}

// The number of the rule for which an entry with this law number may not stand where this is said of its command.
fn order_rule(law: Option<u32>, verdict: &Verdict) -> Option<u8>
    ensures { result ≡ spec.order_rule law verdict.now }
{
    match verdict {
        Verdict::Accepted { law: number, .. } => { if law == *number { None } else { Some(0) } }
        Verdict::Repeat(_) => Some(1),
        Verdict::Refused(rule) => Some(rule.number()),
    }
}

// Appends an entry of which this is said, where it is accepted with its law number.
#[tactic(auto, unfolding(crate::specs::Opening::with_entry))]
fn add_judged(register: &mut Register, entry: Entry, verdict: &Verdict) -> Result<(), OpenFault>
    requires room { 1 ≤ register.old.spare }
    requires spelled { is_well_spelled entry.command ≡ true }
    requires judged { verdict.now ≡ said register.old.entries entry.drafter entry.request entry.command }
    ensures adds { Opens (λ _. register.new.entries) result (with_entry register.old.entries entry) }
    ensures appended { OnOk result (register.new.entries ≡ register.old.entries ++ entry ∷ []) }
    ensures refuses { IfErr result IsOfPayload }
{
    match order_rule(entry.law, verdict) {
        None => {
            register.push(entry);
            Ok(())
        }
        Some(rule) => {
            laws::entries_are_few(register);
            let number = register.len() as u64 + 1;
            drop(entry);
            Err(OpenFault::Damaged(Damage::Order { number, rule }))
        }
    }
}

// Appends an entry, where it is accepted with its law number.
fn add_entry(alloc: Global, register: &mut Register, entry: Entry) -> Result<(), OpenFault>
    requires { is_well_spelled entry.command ≡ true }
    ensures adds { Opens (λ _. register.new.entries) result (with_entry register.old.entries entry) }
    ensures appended { OnOk result (register.new.entries ≡ register.old.entries ++ entry ∷ []) }
    ensures refuses { IfErr result IsOfPayload }
{
    match register.judge(alloc, &entry.drafter, entry.request, &entry.command) {
        Ok(verdict) => match register.reserve(&entry) {
            Ok(()) => add_judged(register, entry, &verdict),
            Err(Memory) => {
                drop(entry);
                Err(OpenFault::Memory)
            }
        },
        Err(Memory) => {
            drop(entry);
            Err(OpenFault::Memory)
        }
    }
}

// The entry at an index, if there is one.
fn entry_at(register: &Register, index: usize) -> Option<&Entry> {
    if index < register.len() {
        Some(register.entry(index))
    } else {
        None
    }
}

// The last entry, if there is one.
fn last_entry(register: &Register) -> Option<&Entry> {
    entry_at(register, register.len().saturating_sub(1))
}

// The work from which the modification of a command comes, if it brings one.
fn source_of(command: &Command) -> Option<&WorkName> {
    let (Command::Correct { body, .. } | Command::DraftAdd { body, .. }) = command else {
        return None;
    };
    match body {
        Modification::Textual { source, .. }
        | Modification::Force { source, .. }
        | Modification::Efficacy { source, .. } => Some(&source.href),
    }
}

// Decodes a payload. The entry shares the name of the drafter of the last entry, and that of the work of the last
// source, which is that of the entry at the index `like`, where they come again: most of what is opened would else be a
// text for each entry.
fn decode_next(
    alloc: Global,
    register: &Register,
    like: usize,
    payload: &[u8],
) -> Result<Entry, DecodeFail>
    ensures value { GivesEntry (λ e. e) result (decoding payload.now) }
    ensures well { IfOk result (λ e. is_well_spelled e.command ≡ true) }
{
    let drafter = match last_entry(register) {
        Some(entry) => Some(&entry.drafter),
        None => None,
    };
    let work = match entry_at(register, like) {
        Some(entry) => source_of(&entry.command),
        None => None,
    };
    decode_knowing(alloc, payload, drafter, work)
}

// Appends the entry that a payload spells; `like` is the index of the last entry with a source.
#[tactic(auto, unfolding(crate::specs::Opening::with_payload))]
fn add_payload(
    alloc: Global,
    register: &mut Register,
    like: usize,
    payload: &[u8],
) -> Result<(), OpenFault>
    ensures adds { Opens (λ _. register.new.entries) result (with_payload register.old.entries payload.now) }
    ensures spelled { OnOk result (spec.spellings register.new.entries
        ≡ spec.spellings register.old.entries ++ payload.now ∷ []) }
    ensures refuses { IfErr result IsOfPayload }
{
    decoded_is_spelled(payload);
    match decode_next(alloc, register, like, payload) {
        Ok(entry) => add_entry(alloc, register, entry),
        Err(DecodeFail::Fault(CodecFault { place, byte })) => {
            laws::entries_are_few(register);
            let number = register.len() as u64 + 1;
            Err(OpenFault::Damaged(Damage::Entry {
                number,
                place,
                byte,
            }))
        }
        Err(DecodeFail::Memory) => Err(OpenFault::Memory),
    }
}

// The index of the last entry with a source, where it was this one before the entry at the end came.
fn last_source(register: &Register, before: usize) -> usize {
    match last_entry(register) {
        Some(entry) if source_of(&entry.command).is_some() => register.len().saturating_sub(1),
        _ => before,
    }
}

// Loads one payload after another into one buffer, and appends the entry that each spells. It gives the cursor of their
// end.
fn load_entries<K: Keeper>(
    alloc: Global,
    keeper: &mut K,
    register: &mut Register,
) -> Result<u64, OpenFault>
    requires none { register.old.entries ≡ [] }
    requires ready { K.readiness keeper.old ≡ Ready }
    requires settled { IsSettled (K.holding keeper.old) }
    ensures opened { (K.holding keeper.old).tells
        → Opens (λ _. register.new.entries) result (opened_of (K.holding keeper.old).list) }
    ensures opens { OnOk result (spec.opened (spec.spellings register.new.entries) ≡ Ok register.new.entries) }
    ensures held { IfOk result (Holds (K.holding keeper.new) (K.readiness keeper.new) register.new.entries None) }
    ensures same { Keeps (K.holding keeper.old) (K.holding keeper.new) }
    ensures crash { LeavesNoMore (K.holding keeper.old) (K.holding keeper.new) }
    ensures cause { HasOpenCause (K.faults keeper.old) (K.faults keeper.new) result }
    ensures stays { (K.holding keeper.old).tells
        → IfErr result (StaysUnlessFailed (K.faults keeper.old) (K.faults keeper.new)) }
{
    let mut payload = Vec::new(alloc);
    let mut end = 0;
    let mut like = 0;
    'walk: while let Some(next) = keeper.load(end, &mut payload)? {
        add_payload(alloc, register, like, payload.as_slice())?;
        like = last_source(register, like);
        end = next;
    }
    Ok(end)
}

impl Opened {
    /// Opens a keeper, and the register of the entries that its payloads spell. Damage is that of what holds the
    /// payloads, or of the first payload that is no entry, or that is not accepted behind those before it. No payload
    /// changes, and a crash at any moment leaves a list that it could leave before, or the list itself.
    pub fn open<K: Keeper>(alloc: Global, keeper: &mut K) -> Result<Opened, OpenFault>
        ensures opened { (K.holding keeper.old).tells
            → Opens (λ opened. opened.register.entries) result (opened_of (K.holding keeper.old).list) }
        ensures right { IfOk result (λ opened.
            spec.opened (spec.spellings opened.register.entries) ≡ Ok opened.register.entries) }
        ensures held { IfOk result (λ opened.
            Holds (K.holding keeper.new) (K.readiness keeper.new) opened.register.entries None opened.end) }
        ensures same { Keeps (K.holding keeper.old) (K.holding keeper.new) }
        ensures crash { LeavesOldOrSame (K.holding keeper.old) (K.holding keeper.new) }
        ensures cause { HasOpenCause (K.faults keeper.old) (K.faults keeper.new) result }
        ensures stays { (K.holding keeper.old).tells
            → IfErr result (StaysUnlessFailed (K.faults keeper.old) (K.faults keeper.new)) }
    {
        keeper.reopen(alloc)?;
        let mut register = Register::new(alloc);
        match load_entries(alloc, keeper, &mut register) {
            Ok(end) => Ok(Opened { register, end }),
            Err(fault) => {
                drop(register);
                Err(fault)
            }
        }
    }
}
