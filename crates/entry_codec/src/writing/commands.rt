//! Acts and commands.

ghost use Rattle.std.specs.Prelude.{◌≡◌, ◌++◌, OnOk};
ghost use Rattle.entry_codec.specs.Acts as acts;
ghost use Rattle.entry_codec.specs.Formats.{format_in};
ghost use Rattle.entry_codec.specs.Commands as spec;
ghost use Rattle.entry_codec.specs.Typed as typed;
ghost use Rattle.entry_codec.specs.Values as spec_values;
ghost use Rattle.desk_base.specs.Days.{IsDay};

use super::formats::put_limit;
use super::modifications::{put_modification, put_modifications};
use super::nodes::put_payload;
use super::numbers::put_number32;
use super::texts::put_work;
use super::values::{put_day, put_id, put_numbering, put_period};
use desk_base::Memory;
use law_register::{Act, Command, EntryFormat};

// The day of an act, and what stands behind it.
#[tactic(auto, unfolding(crate::specs::Acts::act_rest, crate::specs::Values::act_day))]
fn put_act_rest(out: &mut Vec<u8>, format: EntryFormat, act: &Act) -> Result<(), Memory>
    ensures bytes { OnOk result (out.new.items ≡ out.old.items
        ++ (acts.act_rest (format_in format) act.now.work).spell
        (act.now.day, (act.now.numbering, (act.now.limit, (act.now.force, act.now.body))))) }
    ensures typed { OnOk result (IsDay act.now.day × typed.IsNumbering act.now.numbering
        × typed.IsPeriod act.now.force × typed.IsPayload act.now.body) }
{
    put_day(out, act.day)?;
    put_numbering(out, &act.numbering)?;
    put_limit(out, format, act.limit)?;
    put_period(out, act.force)?;
    put_payload(out, &act.body)?;
    Ok(())
}

#[tactic(auto, unfolding(crate::specs::Values::language))]
fn put_language(out: &mut Vec<u8>, language: &[u8; 3]) -> Result<(), Memory>
    ensures bytes { OnOk result (out.new.items ≡ out.old.items ++ spec_values.language.spell language.now) }
    ensures typed { OnOk result (typed.IsLanguageBytes language.now) }
{
    out.extend_from_slice(language)?;
    Ok(())
}

#[tactic(auto, unfolding(crate::specs::Acts::act))]
fn put_act(out: &mut Vec<u8>, format: EntryFormat, act: &Act) -> Result<(), Memory>
    ensures bytes { OnOk result (out.new.items ≡ out.old.items ++ (acts.act (format_in format)).spell act.now) }
    ensures typed { OnOk result (typed.IsAct act.now) }
{
    put_work(out, &act.work)?;
    put_language(out, &act.language)?;
    put_act_rest(out, format, act)?;
    Ok(())
}

#[tactic(auto, unfolding(crate::specs::Commands::command))]
pub(super) fn put_command(
    out: &mut Vec<u8>,
    format: EntryFormat,
    command: &Command,
) -> Result<(), Memory>
    ensures bytes { OnOk result (out.new.items ≡ out.old.items ++ (spec.command (format_in format)).spell command.now) }
    ensures typed { OnOk result (typed.IsCommand command.now) }
{
    match command {
        Command::Enact { act } => {
            out.push(1)?;
            put_act(out, format, act)?;
        }
        Command::Record { work, mods } => {
            out.push(2)?;
            put_work(out, work)?;
            put_modifications(out, format, mods)?;
        }
        Command::Correct { id, body } => {
            out.push(3)?;
            put_id(out, *id)?;
            put_modification(out, format, body)?;
        }
        Command::Withdraw { id } => {
            out.push(4)?;
            put_id(out, *id)?;
        }
        Command::Restore { id } => {
            out.push(5)?;
            put_id(out, *id)?;
        }
        Command::DraftAdd { work, body } => {
            out.push(6)?;
            put_work(out, work)?;
            put_modification(out, format, body)?;
        }
        Command::DraftDrop { item } => {
            out.push(7)?;
            put_number32(out, *item)?;
        }
        Command::File { work, seen } => {
            out.push(8)?;
            put_work(out, work)?;
            put_number32(out, *seen)?;
        }
    }
    Ok(())
}
