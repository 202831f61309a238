//! Entering: a command is judged, and where it is accepted what is kept is revised from the day that it touches.

ghost use Rattle.std.specs.Prelude.{◌≡◌, ◌++◌, ◌∷◌, [], true, IfOk, OnOk};
ghost use Rattle.law_register.specs.Answer.Touched as spec;
ghost use Rattle.law_register.specs.Law.Spelling.{is_well_spelled};
ghost use Rattle.law_register.specs.Register.Verdicts.{is_accepted, verdict};
ghost use Rattle.table_trial.specs.Keeping.{Holds, HoldsUntil, IsHeld, IsHeldUntil};

use crate::costs::cost_touched;
use crate::kept::{Kept, known_now, revise};
use crate::replies::{repeat_line, touching_line, untouched_line};
use akn_json::{Asked, ReadFail, put_form_fault, put_rule, read_command};
use desk_base::{Day, Memory, Steps};
use law_register::{Command, Drafter, Entry, Register, Reply, Verdict};
use replay_core::touched_day;
use std::alloc::Global;
use std::sync::ledger::Ledger;

// The day of each entry.
fn first_day() -> Day {
    Day::from_number(1).unwrap()
}

// Appends an entry that is accepted.
fn append(register: &mut Register, entry: Entry) -> Result<(), Memory>
    requires accepted { is_accepted entry.law
        (verdict register.old.entries entry.drafter entry.request entry.command) ≡ true }
    requires spelled { is_well_spelled entry.command ≡ true }
    ensures { OnOk result (register.new.entries ≡ register.old.entries ++ entry ∷ []) }
{
    match register.reserve(&entry) {
        Ok(()) => {
            register.push(entry);
            Ok(())
        }
        Err(Memory) => {
            drop(entry);
            Err(Memory)
        }
    }
}

// Appends an entry that is accepted, and gives the day that it touches.
fn append_touching(
    alloc: Global,
    register: &mut Register,
    entry: Entry,
) -> Result<Option<Day>, Memory>
    requires accepted { is_accepted entry.law
        (verdict register.old.entries entry.drafter entry.request entry.command) ≡ true }
    requires spelled { is_well_spelled entry.command ≡ true }
    ensures entries { OnOk result (register.new.entries ≡ register.old.entries ++ entry ∷ []) }
    ensures touched { IfOk result (λ touched. touched ≡ spec.touched_day register.old.entries entry) }
{
    match touched_day(alloc, register, &entry) {
        Ok(touched) => match append(register, entry) {
            Ok(()) => Ok(touched),
            Err(Memory) => Err(Memory),
        },
        Err(Memory) => {
            drop(entry);
            Err(Memory)
        }
    }
}

// Revises the tables of a work from the touched day on, if there is one, and gives what that costs in the reading that is asked.
#[tactic(auto, using(crate::proofs::Holding::right_until_now, crate::proofs::Holding::held_now, crate::proofs::Holding::none_now))]
fn revise_kept<L: Ledger>(
    alloc: Global,
    register: &Register,
    kept: &mut Kept,
    touched: Option<Day>,
    steps: &mut Steps<L>,
) -> Result<u64, Memory>
    requires { IsHeldUntil register.now.entries touched kept.old }
    ensures { OnOk result (IsHeld register.now.entries kept.new) }
{
    match known_now(alloc, register, &kept.work)? {
        Some(known) => {
            let cost = cost_touched(alloc, &known, kept.reading, &touched)?;
            revise(alloc, known, &mut kept.tables, touched, steps)?;
            Ok(cost)
        }
        None => Ok(0),
    }
}

// Revises what is kept, if anything is, from the touched day on; and gives what it costs.
fn follow<L: Ledger>(
    alloc: Global,
    register: &Register,
    kept: &mut Option<Kept>,
    touched: Option<Day>,
    steps: &mut Steps<L>,
) -> Result<u64, Memory>
    requires { HoldsUntil register.now.entries touched kept.old }
    ensures { OnOk result (Holds register.now.entries kept.new) }
{
    match kept {
        Some(kept) => revise_kept(alloc, register, kept, touched, steps),
        None => Ok(0),
    }
}

// The line of an entry that was appended, once what is kept is revised from the day that it touches, if there is one.
fn told_of_touched<L: Ledger>(
    alloc: Global,
    register: &Register,
    kept: &mut Option<Kept>,
    touched: Option<Day>,
    reply: Reply,
    steps: &mut Steps<L>,
) -> Result<Vec<u8>, Memory>
    requires { HoldsUntil register.now.entries touched kept.old }
    ensures { OnOk result (Holds register.now.entries kept.new) }
{
    match touched {
        Some(day) => {
            let cost = follow(alloc, register, kept, Some(day), steps)?;
            touching_line(alloc, reply, day, cost)
        }
        None => {
            let _ = follow(alloc, register, kept, None, steps)?;
            untouched_line(alloc, reply)
        }
    }
}

// The line of an entry that is accepted.
#[tactic(auto, using(crate::proofs::Following::held_then))]
fn told_of_entry<L: Ledger>(
    alloc: Global,
    register: &mut Register,
    kept: &mut Option<Kept>,
    entry: Entry,
    reply: Reply,
    steps: &mut Steps<L>,
) -> Result<Vec<u8>, Memory>
    requires accepted { is_accepted entry.law
        (verdict register.old.entries entry.drafter entry.request entry.command) ≡ true }
    requires spelled { is_well_spelled entry.command ≡ true }
    requires holds { Holds register.old.entries kept.old }
    ensures { OnOk result (Holds register.new.entries kept.new) }
{
    match append_touching(alloc, register, entry) {
        Ok(touched) => told_of_touched(alloc, register, kept, touched, reply, steps),
        Err(Memory) => Err(Memory),
    }
}

// The line of a command of a drafter's request.
fn told_of_asked<L: Ledger>(
    alloc: Global,
    register: &mut Register,
    kept: &mut Option<Kept>,
    asked: Asked,
    steps: &mut Steps<L>,
) -> Result<Vec<u8>, Memory>
    requires spelled { is_well_spelled asked.command ≡ true }
    requires holds { Holds register.old.entries kept.old }
    ensures { OnOk result (Holds register.new.entries kept.new) }
{
    let Asked {
        drafter,
        request,
        command,
    } = asked;
    match register.judge(alloc, &drafter, request, &command) {
        Ok(Verdict::Accepted { law, reply }) => {
            let entry = Entry {
                drafter,
                request,
                day: first_day(),
                law,
                command,
            };
            told_of_entry(alloc, register, kept, entry, reply, steps)
        }
        Ok(Verdict::Repeat(reply)) => {
            drop(drafter);
            drop(command);
            repeat_line(alloc, reply)
        }
        Ok(Verdict::Refused(rule)) => {
            drop(drafter);
            drop(command);
            put_rule(alloc, &rule)
        }
        Err(Memory) => {
            drop(drafter);
            drop(command);
            Err(Memory)
        }
    }
}

/// The line of the command that bytes are, or of their fault.
pub fn told_of_command<L: Ledger>(
    alloc: Global,
    register: &mut Register,
    kept: &mut Option<Kept>,
    bytes: &[u8],
    steps: &mut Steps<L>,
) -> Result<Vec<u8>, Memory>
    requires { Holds register.old.entries kept.old }
    ensures { OnOk result (Holds register.new.entries kept.new) }
{
    match read_command(alloc, bytes) {
        Ok(asked) => told_of_asked(alloc, register, kept, asked, steps),
        Err(ReadFail::Form(fault)) => put_form_fault(alloc, fault),
        Err(ReadFail::Memory) => Err(Memory),
    }
}
