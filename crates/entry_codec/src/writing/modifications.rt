//! Modifications: textual ones, and those of force and efficacy.

ghost use Rattle.std.specs.Prelude.{◌≡◌, ◌++◌, OnOk, All};
ghost use Rattle.std.specs.List.{flat_map};
ghost use Rattle.entry_codec.specs.Formats.{format_in};
ghost use Rattle.entry_codec.specs.Modifications as spec;
ghost use Rattle.entry_codec.specs.Typed as typed;

use super::edits::put_edit;
use super::effects::{put_efficacy_effect, put_force_effect};
use super::formats::put_provision;
use super::numbers::{put_count, put_number16};
use super::texts::put_work;
use super::values::{put_destination, put_period};
use desk_base::Memory;
use law_register::{EntryFormat, ModSource, Modification, Mods};

#[tactic(auto, unfolding(crate::specs::Modifications::source))]
fn put_source(out: &mut Vec<u8>, format: EntryFormat, source: &ModSource) -> Result<(), Memory>
    ensures bytes { OnOk result (out.new.items ≡ out.old.items ++ (spec.source (format_in format)).spell source.now) }
    ensures typed { OnOk result (typed.IsSource source.now) }
{
    put_work(out, &source.href)?;
    put_number16(out, source.place)?;
    put_provision(out, format, &source.provision)?;
    Ok(())
}

#[tactic(auto, unfolding(crate::specs::Modifications::modification))]
pub(super) fn put_modification(
    out: &mut Vec<u8>,
    format: EntryFormat,
    modification: &Modification,
) -> Result<(), Memory>
    ensures bytes { OnOk result (out.new.items ≡ out.old.items ++ (spec.modification (format_in format)).spell modification.now) }
    ensures typed { OnOk result (typed.IsModification modification.now) }
{
    match modification {
        Modification::Textual {
            source,
            force,
            edit,
        } => {
            out.push(1)?;
            put_source(out, format, source)?;
            put_period(out, *force)?;
            put_edit(out, edit)?;
        }
        Modification::Force {
            source,
            destination,
            on,
            effect,
        } => {
            out.push(2)?;
            put_source(out, format, source)?;
            put_destination(out, destination)?;
            put_force_effect(out, *on, *effect)?;
        }
        Modification::Efficacy {
            source,
            destination,
            on,
            effect,
        } => {
            out.push(3)?;
            put_source(out, format, source)?;
            put_destination(out, destination)?;
            put_efficacy_effect(out, *on, *effect)?;
        }
    }
    Ok(())
}

fn put_each_modification(
    out: &mut Vec<u8>,
    format: EntryFormat,
    mods: &[Modification],
) -> Result<(), Memory>
    ensures bytes { OnOk result (out.new.items ≡ out.old.items ++ flat_map (spec.modification (format_in format)).spell mods.now) }
    ensures typed { OnOk result (All typed.IsModification mods.now) }
{
    for modification in mods {
        put_modification(out, format, modification)?;
    }
    Ok(())
}

#[tactic(auto, unfolding(crate::specs::Modifications::modifications))]
pub(super) fn put_modifications(
    out: &mut Vec<u8>,
    format: EntryFormat,
    mods: &Mods,
) -> Result<(), Memory>
    ensures bytes { OnOk result (out.new.items ≡ out.old.items ++ (spec.modifications (format_in format)).spell mods.now) }
    ensures typed { OnOk result (All typed.IsModification mods.now) }
{
    let mods = mods.as_slice();
    put_count(out, mods.len())?;
    put_each_modification(out, format, mods)?;
    Ok(())
}
