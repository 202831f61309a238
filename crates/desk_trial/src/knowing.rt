//! The line of what a viewpoint knows of a work.

ghost use Rattle.std.specs.Prelude.{◌≡◌, ◌++◌, Some, IfOk, OnOk, string_bytes};
ghost use Rattle.law_register.specs.Register.KnownIds as known;
ghost use Rattle.desk_trial.specs.Knowing as spec;

use desk_base::Memory;
use frbr_names::WorkName;
use law_register::{Known, KnownMod, Register};
use std::alloc::Global;
use viewpoints::known_at;

// Adds an id to the line, and whether it was withdrawn.
fn push_known(alloc: Global, line: &mut String, known: &KnownMod) -> Result<(), Memory>
    ensures { OnOk result (string_bytes line.new ≡ string_bytes line.old ++ spec.mod_text known.now) }
{
    line.push_str(" ")?;
    line.push_str(known.id.spelled(alloc)?.as_str())?;
    if !known.live {
        line.push_str(" withdrawn")?;
    }
    Ok(())
}

// The line of what is known of a work.
fn known_line(alloc: Global, known: &Known) -> Result<String, Memory>
    ensures { IfOk result (λ line. string_bytes line ≡ spec.known_line (Some known.now)) }
{
    let (enacted, front) = (known.enacted, known.front);
    let mut line = format!(in alloc; "enacted {enacted} front {front}")?;
    for modification in known.mods.as_slice() {
        push_known(alloc, &mut line, modification)?;
    }
    Ok(line)
}

/// The line of what a register knows of a work at a viewpoint.
pub fn told_of_known(
    alloc: Global,
    register: &Register,
    work: &WorkName,
    viewpoint: u32,
) -> Result<Vec<u8>, Memory>
    ensures { IfOk result
        (λ line. line.items ≡ spec.known_line (known.known_at register.now.entries work.now viewpoint)) }
{
    let line = match known_at(alloc, register, work, viewpoint)? {
        Some(known) => known_line(alloc, &known)?,
        None => String::from_str(alloc, "none")?,
    };
    Ok(line.into_bytes())
}
