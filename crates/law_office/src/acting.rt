//! Acting: a command is done in two steps. What is pending is settled, and the command is judged and acts.

ghost use Rattle.std.specs.Prelude.{◌≡◌, ◌+◌, ◌≤◌, ◌↔◌, ◌∷◌, ◌++◌, [], true, None, IfOk};
ghost use Rattle.law_keeper.specs.Keepers.{Keeps};
ghost use Rattle.indexmap.specs.IndexMap.{spare};
ghost use Rattle.law_register.specs.Answer.Renewing.{command_cost, entry_cost, judging_cost};
ghost use Rattle.law_register.specs.Desk.Commands.{EndsWithin, HasCommandCause, mark_of, marks_after};
ghost use Rattle.law_register.specs.Desk.States.{MayFollow};
ghost use Rattle.law_register.specs.Law.Spelling.{is_well_spelled};
ghost use Rattle.law_register.specs.Register.Verdicts.{verdict};
ghost use Rattle.law_register.specs.declared.register.verdict.Verdict.TheVariants.{Accepted};
ghost use Rattle.entry_codec.specs.Entries.{spelling};
ghost use Rattle.law_refs.specs.Handing.{judged_for};
ghost use Rattle.law_office.specs.Acting.{Acts, Settles};
ghost use Rattle.law_office.specs.Crashing.{SpellsBook, SpellsEither};
ghost use Rattle.law_office.specs.Lists.{EndsOver};
ghost use Rattle.law_office.specs.Moving.{IsStanding, Leaves, Moves};
ghost use Rattle.law_office.specs.Offices.{IsPendingOn, IsRight, judging_of, standing_of};

use crate::book::{Book, Changes, Pending};
use crate::noting::make_noted;
use crate::sent::Sent;
use desk_base::{Clock, LoadFault, Memory, Steps};
use entry_codec::encode;
use law_keeper::{KeepFault, Keeper, settle};
use law_register::{CommandFault, Entry, Reply, Verdict, laws};
use std::alloc::Global;
use std::sync::ledger::Ledger;

// Does a command. Room for a mark is made before all else.
pub(crate) fn command<K: Keeper, C: Clock, L: Ledger>(
    alloc: Global,
    keeper: &mut K,
    clock: &mut C,
    book: &mut Book,
    sent: Sent,
    steps: &mut Steps<L>,
) -> Result<Reply, CommandFault>
    requires stands { IsStanding K.holding K.readiness keeper.old book.old }
    requires spelled { is_well_spelled sent.command ≡ true }
    ensures outcome { EndsWithin sent.drafter sent.request sent.command
        (standing_of book.old (C.days clock.old)) (standing_of book.new (C.days clock.new))
        (judging_of book.old) steps.old steps.new result }
    ensures over { EndsOver sent.drafter sent.request sent.command
        (standing_of book.old (C.days clock.old)) (standing_of book.new (C.days clock.new))
        (K.holding keeper.old) (K.holding keeper.new) result }
    ensures marks { book.new.marks.items ≡ marks_after book.old.marks.items
        (mark_of sent.drafter sent.request book.new.register.entries) result }
    ensures past { book.new.past ≡ book.old.past }
    ensures leaves { Leaves K.holding K.readiness (SpellsEither book.old book.new) keeper.old keeper.new book.new }
    ensures cause { HasCommandCause (K.faults keeper.old) (K.faults keeper.new) result }
{
    match book.reserve_mark(&sent.drafter, sent.request) {
        Ok(mark) => match settle_and_act(alloc, keeper, clock, book, sent, steps) {
            Err(CommandFault::KeeperFault) => {
                book.add_mark(mark);
                Err(CommandFault::KeeperFault)
            }
            outcome => outcome,
        },
        Err(Memory) => {
            drop(sent);
            Err(CommandFault::Memory)
        }
    }
}

// Settles what is pending, asks the clock for the day, and does what the verdict says.
fn settle_and_act<K: Keeper, C: Clock, L: Ledger>(
    alloc: Global,
    keeper: &mut K,
    clock: &mut C,
    book: &mut Book,
    sent: Sent,
    steps: &mut Steps<L>,
) -> Result<Reply, CommandFault>
    requires stands { IsStanding K.holding K.readiness keeper.old book.old }
    requires spelled { is_well_spelled sent.command ≡ true }
    ensures outcome { EndsWithin sent.drafter sent.request sent.command
        (standing_of book.old (C.days clock.old)) (standing_of book.new (C.days clock.new))
        (judging_of book.old) steps.old steps.new result }
    ensures over { EndsOver sent.drafter sent.request sent.command
        (standing_of book.old (C.days clock.old)) (standing_of book.new (C.days clock.new))
        (K.holding keeper.old) (K.holding keeper.new) result }
    ensures moves { Moves book.old book.new }
    ensures leaves { Leaves K.holding K.readiness (SpellsEither book.old book.new) keeper.old keeper.new book.new }
    ensures cause { HasCommandCause (K.faults keeper.old) (K.faults keeper.new) result }
{
    match settle_pending(alloc, keeper, book) {
        Ok(()) => {
            let day = clock.today();
            act(alloc, keeper, book, sent.on(day), steps)
        }
        Err(fault) => {
            drop(sent);
            Err(fault)
        }
    }
}

// Opens the keeper again where an entry is pending, and finds out whether it was kept.
fn settle_pending<K: Keeper>(
    alloc: Global,
    keeper: &mut K,
    book: &mut Book,
) -> Result<(), CommandFault>
    requires stands { IsStanding K.holding K.readiness keeper.old book.old }
    ensures settles { Settles book.old book.new result }
    ensures same { Keeps (K.holding keeper.old) (K.holding keeper.new) }
    ensures moves { Moves book.old book.new }
    ensures leaves { Leaves K.holding K.readiness (SpellsBook book.old) keeper.old keeper.new book.new }
    ensures cause { HasCommandCause (K.faults keeper.old) (K.faults keeper.new) result }
{
    let found = match &book.pending {
        None => return Ok(()),
        Some(pending) => settle(alloc, keeper, book.end, pending.bytes.as_slice()),
    };
    match found {
        Ok(found) => {
            book.resolve(found);
            Ok(())
        }
        Err(LoadFault::Memory) => Err(CommandFault::Memory),
        Err(_) => Err(CommandFault::KeeperFault),
    }
}

// Judges the command of an entry whose law number is not known yet, behind entries of which none is pending.
#[tactic(auto, unfolding(law_register::specs::Register::Entering::entered, law_register::specs::Answer::Renewing::command_cost, law_register::specs::Answer::Renewing::judging_cost))]
fn act<K: Keeper, L: Ledger>(
    alloc: Global,
    keeper: &mut K,
    book: &mut Book,
    entry: Entry,
    steps: &mut Steps<L>,
) -> Result<Reply, CommandFault>
    requires stands { IsStanding K.holding K.readiness keeper.old book.old }
    requires settled { book.old.pending ≡ None }
    requires spelled { is_well_spelled entry.command ≡ true }
    ensures acts { Acts entry book.old book.new result }
    ensures tells { (K.holding keeper.old).tells ↔ (K.holding keeper.new).tells }
    ensures moves { Moves book.old book.new }
    ensures leaves { Leaves K.holding K.readiness (SpellsEither book.old book.new) keeper.old keeper.new book.new }
    ensures cause { HasCommandCause (K.faults keeper.old) (K.faults keeper.new) result }
    ensures steps { steps.new ≤ steps.old + (command_cost book.old.register.entries entry
        + judging_cost (judged_for book.old.refs) book.old.register.entries entry) }
{
    match book
        .register
        .judge(alloc, &entry.drafter, entry.request, &entry.command)
    {
        Ok(Verdict::Accepted { law, reply }) => {
            keep(alloc, keeper, book, with_law(entry, law), reply, steps)
        }
        Ok(Verdict::Repeat(reply)) => let_go(entry, Ok(reply)),
        Ok(Verdict::Refused(rule)) => let_go(entry, Err(CommandFault::Rule(rule))),
        Err(Memory) => let_go(entry, Err(CommandFault::Memory)),
    }
}

// An entry is let go in one call, whatever is answered.
fn let_go(entry: Entry, outcome: Result<Reply, CommandFault>) -> Result<Reply, CommandFault>
    ensures { result ≡ outcome }
{
    drop(entry);
    outcome
}

// The entry with this law number.
fn with_law(entry: Entry, law: Option<u32>) -> Entry
    ensures { result ≡ record entry { law = law } }
{
    let Entry {
        drafter,
        request,
        day,
        law: _,
        command,
    } = entry;
    Entry {
        drafter,
        request,
        day,
        law,
        command,
    }
}

// Keeps an entry that is accepted with this reply. All memory is taken before the keeper is asked.
fn keep<K: Keeper, L: Ledger>(
    alloc: Global,
    keeper: &mut K,
    book: &mut Book,
    entry: Entry,
    reply: Reply,
    steps: &mut Steps<L>,
) -> Result<Reply, CommandFault>
    requires stands { IsStanding K.holding K.readiness keeper.old book.old }
    requires settled { book.old.pending ≡ None }
    requires spelled { is_well_spelled entry.command ≡ true }
    requires accepted { verdict book.old.register.entries entry.drafter entry.request entry.command
        ≡ Accepted entry.law reply }
    ensures acts { Acts entry book.old book.new result }
    ensures tells { (K.holding keeper.old).tells ↔ (K.holding keeper.new).tells }
    ensures moves { Moves book.old book.new }
    ensures leaves { Leaves K.holding K.readiness (SpellsEither book.old book.new) keeper.old keeper.new book.new }
    ensures cause { HasCommandCause (K.faults keeper.old) (K.faults keeper.new) result }
    ensures steps { steps.new ≤ steps.old
        + (entry_cost book.old.register.entries entry + judged_for book.old.refs book.old.register.entries entry) }
{
    match book.reserve_entry(&entry) {
        Ok(()) => match prepare(alloc, book, &entry, steps) {
            Ok((bytes, changes)) => {
                let pending = Pending {
                    entry,
                    bytes,
                    changes,
                };
                append(alloc, keeper, book, pending, reply)
            }
            Err(Memory) => let_go(entry, Err(CommandFault::Memory)),
        },
        Err(Memory) => let_go(entry, Err(CommandFault::Memory)),
    }
}

// Spells an entry for which there is room, and makes its changes. The book stays, but for what its tables go on from, and for the works
// that are noted.
fn prepare<L: Ledger>(
    alloc: Global,
    book: &mut Book,
    entry: &Entry,
    steps: &mut Steps<L>,
) -> Result<(Vec<u8>, Changes), Memory>
    requires follows { MayFollow book.old.register.entries entry.now }
    requires room { 1 ≤ book.old.register.spare }
    requires space { 1 ≤ spare book.old.tables }
    requires settled { book.old.pending ≡ None }
    requires right { IsRight book.old }
    ensures register { book.new.register ≡ book.old.register }
    ensures refs { book.new.refs ≡ book.old.refs }
    ensures none { book.new.pending ≡ None }
    ensures end { book.new.end ≡ book.old.end }
    ensures moves { Moves book.old book.new }
    ensures right { IsRight book.new }
    ensures pending { IfOk result (λ made. IsPendingOn book.new.register book.new.tables book.new.naming book.new.refs
        (record { entry = entry.now; bytes = made.0; changes = made.1 })) }
    ensures steps { steps.new ≤ steps.old + (entry_cost book.old.register.entries entry.now
        + judged_for book.old.refs book.old.register.entries entry.now) }
{
    laws::accepted_can_be_spelled(&book.register, entry);
    let bytes = encode(alloc, entry)?;
    let changes = make_noted(
        alloc,
        &book.register,
        &mut book.tables,
        &mut book.naming,
        &book.refs,
        entry,
        steps,
    )?;
    Ok((bytes, changes))
}

// Gives an entry to the keeper, and commits it once the keeper has it.
#[tactic(auto, unfolding(law_register::specs::Register::Entering::entered))]
fn append<K: Keeper>(
    alloc: Global,
    keeper: &mut K,
    book: &mut Book,
    pending: Pending,
    reply: Reply,
) -> Result<Reply, CommandFault>
    requires stands { IsStanding K.holding K.readiness keeper.old book.old }
    requires settled { book.old.pending ≡ None }
    requires follows { IsPendingOn book.old.register book.old.tables book.old.naming book.old.refs pending }
    requires accepted { verdict book.old.register.entries pending.entry.drafter pending.entry.request
        pending.entry.command ≡ Accepted pending.entry.law reply }
    ensures acts { Acts pending.entry book.old book.new result }
    ensures tells { (K.holding keeper.old).tells ↔ (K.holding keeper.new).tells }
    ensures moves { Moves book.old book.new }
    ensures leaves { Leaves K.holding K.readiness (SpellsEither book.old book.new) keeper.old keeper.new book.new }
    ensures cause { HasCommandCause (K.faults keeper.old) (K.faults keeper.new) result }
{
    match keeper.append(alloc, pending.bytes.as_slice()) {
        Ok(end) => {
            book.commit(pending, end);
            Ok(reply)
        }
        Err(KeepFault::Failed) => {
            book.leave(pending);
            Err(CommandFault::KeeperFault)
        }
        Err(KeepFault::Memory) => {
            drop(pending);
            Err(CommandFault::Memory)
        }
    }
}
