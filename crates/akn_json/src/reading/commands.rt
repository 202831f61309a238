//! The form of commands: who asks, under which number, and for what.

ghost use Rattle.std.specs.Prelude.{◌≡◌, ◌≤◌};
ghost use Rattle.serde_json.specs.Data.{depth};
ghost use Rattle.serde_json.specs.Read.{max_depth};
ghost use Rattle.akn_json.specs.Reading.Reads.{Gives};
ghost use Rattle.akn_json.specs.Reading.Widths.{width};
ghost use Rattle.akn_json.specs.Reading.Bytes.{most_bytes};
ghost use Rattle.akn_json.specs.Reading.Commands as spec;
ghost use Rattle.akn_json.specs.Reading.Values.{seen};

use super::acts::act;
use super::command_kinds::CommandKind;
use super::faults::{BAD_NAME, UNKNOWN_WORD};
use super::fields::{field, members, number, text};
use super::key::Key;
use super::modifications::{modification_at, mods};
use super::names::{id, work};
use super::tables::{CORRECT, DRAFT_ADD, DRAFT_DROP, ENACT, FILE, RECORD, RESTORE, WITHDRAW};
use crate::{Asked, ReadFail};
use desk_base::Id;
use frbr_names::WorkName;
use json::Value;
use law_register::{Command, Drafter, Modification};
use std::alloc::Global;

#[tactic(auto, unfolding(crate::specs::Reading::Commands::command_kind_in))]
fn command_kind(value: &Value) -> Result<CommandKind, ReadFail>
    ensures { Gives (λ k. k) result (spec.command_kind_in (seen value.now)) }
{
    match CommandKind::from_word(text(field(value, Key::Command)?)?) {
        Some(kind) => Ok(kind),
        None => Err(UNKNOWN_WORD),
    }
}

fn command_keys(kind: CommandKind, value: &Value) -> Result<(), ReadFail>
    ensures { Gives (λ u. u) result (spec.command_keys_in kind (seen value.now)) }
{
    match kind {
        CommandKind::Enact => members(value, &ENACT),
        CommandKind::Record => members(value, &RECORD),
        CommandKind::Correct => members(value, &CORRECT),
        CommandKind::Withdraw => members(value, &WITHDRAW),
        CommandKind::Restore => members(value, &RESTORE),
        CommandKind::DraftAdd => members(value, &DRAFT_ADD),
        CommandKind::DraftDrop => members(value, &DRAFT_DROP),
        CommandKind::File => members(value, &FILE),
    }
}

#[tactic(auto, unfolding(crate::specs::Reading::Commands::drafter_in))]
fn drafter(alloc: Global, value: &Value) -> Result<Drafter, ReadFail>
    ensures { Gives (λ d. d) result (spec.drafter_in (seen value.now)) }
{
    match Drafter::from_text(alloc, text(field(value, Key::Drafter)?)?)? {
        Some(drafter) => Ok(drafter),
        None => Err(BAD_NAME),
    }
}

#[tactic(auto, unfolding(crate::specs::Reading::Commands::asked_work_in))]
fn asked_work(alloc: Global, value: &Value) -> Result<WorkName, ReadFail>
    ensures { Gives (λ w. w) result (spec.asked_work_in (seen value.now)) }
{
    work(alloc, field(value, Key::Work)?)
}

#[tactic(auto, unfolding(crate::specs::Reading::Commands::asked_id_in))]
fn asked_id(value: &Value) -> Result<Id, ReadFail>
    ensures { Gives (λ i. i) result (spec.asked_id_in (seen value.now)) }
{
    id(field(value, Key::Id)?)
}

// The one modification that a command brings. A fault within it has the place 1.
#[tactic(auto, unfolding(crate::specs::Reading::Commands::body_in))]
fn body(alloc: Global, value: &Value) -> Result<Modification, ReadFail>
    requires depth { depth (seen value.now) ≤ max_depth }
    ensures { Gives (λ m. m) result (spec.body_in (seen value.now)) }
{
    modification_at(alloc, 1, field(value, Key::Modification)?)
}

#[tactic(auto, unfolding(crate::specs::Reading::Commands::count_in))]
fn count(value: &Value, key: Key) -> Result<u32, ReadFail>
    ensures { Gives (λ n. n) result (spec.count_in key (seen value.now)) }
{
    let n = number(field(value, key)?, 4_294_967_295)?;
    Ok(n as u32)
}

#[tactic(auto, unfolding(crate::specs::Reading::Commands::enact_in))]
fn enact(alloc: Global, value: &Value) -> Result<Command, ReadFail>
    requires depth { depth (seen value.now) ≤ max_depth }
    ensures { Gives (λ c. c) result (spec.enact_in (seen value.now)) }
{
    let act = act(alloc, field(value, Key::Act)?)?;
    Ok(Command::Enact { act })
}

#[tactic(auto, unfolding(crate::specs::Reading::Commands::record_in))]
fn record(alloc: Global, value: &Value) -> Result<Command, ReadFail>
    requires lists { width (seen value.now) ≤ most_bytes }
    requires depth { depth (seen value.now) ≤ max_depth }
    ensures { Gives (λ c. c) result (spec.record_in (seen value.now)) }
{
    let work = asked_work(alloc, value)?;
    let mods = mods(alloc, field(value, Key::Modifications)?)?;
    Ok(Command::Record { work, mods })
}

#[tactic(auto, unfolding(crate::specs::Reading::Commands::correct_in))]
fn correct(alloc: Global, value: &Value) -> Result<Command, ReadFail>
    requires depth { depth (seen value.now) ≤ max_depth }
    ensures { Gives (λ c. c) result (spec.correct_in (seen value.now)) }
{
    let id = asked_id(value)?;
    let body = body(alloc, value)?;
    Ok(Command::Correct { id, body })
}

#[tactic(auto, unfolding(crate::specs::Reading::Commands::draft_add_in))]
fn draft_add(alloc: Global, value: &Value) -> Result<Command, ReadFail>
    requires depth { depth (seen value.now) ≤ max_depth }
    ensures { Gives (λ c. c) result (spec.draft_add_in (seen value.now)) }
{
    let work = asked_work(alloc, value)?;
    let body = body(alloc, value)?;
    Ok(Command::DraftAdd { work, body })
}

#[tactic(auto, unfolding(crate::specs::Reading::Commands::file_in))]
fn file(alloc: Global, value: &Value) -> Result<Command, ReadFail>
    ensures { Gives (λ c. c) result (spec.file_in (seen value.now)) }
{
    let work = asked_work(alloc, value)?;
    let seen = count(value, Key::Seen)?;
    Ok(Command::File { work, seen })
}

#[tactic(auto, unfolding(crate::specs::Reading::Commands::withdraw_in, crate::specs::Reading::Commands::restore_in, crate::specs::Reading::Commands::draft_drop_in))]
fn command(alloc: Global, kind: CommandKind, value: &Value) -> Result<Command, ReadFail>
    requires lists { width (seen value.now) ≤ most_bytes }
    requires depth { depth (seen value.now) ≤ max_depth }
    ensures { Gives (λ c. c) result (spec.command_in kind (seen value.now)) }
{
    match kind {
        CommandKind::Enact => enact(alloc, value),
        CommandKind::Record => record(alloc, value),
        CommandKind::Correct => correct(alloc, value),
        CommandKind::Withdraw => Ok(Command::Withdraw {
            id: asked_id(value)?,
        }),
        CommandKind::Restore => Ok(Command::Restore {
            id: asked_id(value)?,
        }),
        CommandKind::DraftAdd => draft_add(alloc, value),
        CommandKind::DraftDrop => Ok(Command::DraftDrop {
            item: count(value, Key::Item)?,
        }),
        CommandKind::File => file(alloc, value),
    }
}

/// A command with its drafter and its number. The word for its kind is judged before its keys.
#[tactic(auto, unfolding(crate::specs::Reading::Commands::asked_in))]
pub(super) fn asked(alloc: Global, value: &Value) -> Result<Asked, ReadFail>
    requires lists { width (seen value.now) ≤ most_bytes }
    requires depth { depth (seen value.now) ≤ max_depth }
    ensures { Gives (λ a. a) result (spec.asked_in (seen value.now)) }
{
    let kind = command_kind(value)?;
    command_keys(kind, value)?;
    let drafter = drafter(alloc, value)?;
    let request = number(field(value, Key::Request)?, u64::MAX)?;
    let command = command(alloc, kind, value)?;
    Ok(Asked {
        drafter,
        request,
        command,
    })
}
