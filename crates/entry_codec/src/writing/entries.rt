//! Entries.

ghost use Rattle.std.specs.Prelude.{◌≡◌, ◌++◌, OnOk};
ghost use Rattle.entry_codec.specs.Formats.{format_in};
ghost use Rattle.entry_codec.specs.Entries as spec;
ghost use Rattle.entry_codec.specs.Typed as typed;

use super::commands::put_command;
use super::numbers::put_number64;
use super::texts::put_drafter;
use super::values::{put_day, put_law};
use desk_base::Memory;
use law_register::{Entry, EntryFormat};

// The fields of an entry behind the byte for its format.
#[tactic(auto, unfolding(crate::specs::Entries::fields))]
fn put_fields(out: &mut Vec<u8>, format: EntryFormat, entry: &Entry) -> Result<(), Memory>
    ensures bytes { OnOk result (out.new.items ≡ out.old.items ++ (spec.fields (format_in format)).spell entry.now) }
    ensures typed { OnOk result (typed.IsTyped entry.now) }
{
    put_drafter(out, &entry.drafter)?;
    put_number64(out, entry.request)?;
    put_day(out, entry.day)?;
    put_law(out, entry.law)?;
    put_command(out, format, &entry.command)?;
    Ok(())
}

// An entry in a format: the byte for the format, and its fields.
fn put_standing(out: &mut Vec<u8>, format: EntryFormat, entry: &Entry) -> Result<(), Memory>
    ensures bytes { OnOk result (out.new.items ≡ out.old.items ++ spec.entry.spell (format, entry.now)) }
    ensures typed { OnOk result (typed.IsTyped entry.now) }
{
    out.push(format.number())?;
    put_fields(out, format, entry)?;
    Ok(())
}

/// An entry, in the format that its command asks for.
pub(super) fn put_entry(out: &mut Vec<u8>, entry: &Entry) -> Result<(), Memory>
    ensures bytes { OnOk result (out.new.items ≡ out.old.items ++ spec.entry.spell (spec.asked entry.now)) }
    ensures typed { OnOk result (typed.IsTyped entry.now) }
{
    put_standing(out, entry.command.format(), entry)
}
