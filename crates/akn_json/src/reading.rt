//! A dossier or a command is read from its bytes: a clause says which value it is, or which fault comes first.

ghost use Rattle.std.specs.Prelude.{◌≡◌, ◌≤◌, true, Err, IfOk};
ghost use Rattle.law_register.specs.Law.Spelling.{are_spelled_modifications, is_spelled_act, is_well_spelled};
ghost use Rattle.akn_json.specs.Reading.Commands.{asked_of};
ghost use Rattle.akn_json.specs.Reading.Dossiers.{dossier_of};
ghost use Rattle.akn_json.specs.Reading.Bytes.{most_bytes};
ghost use Rattle.akn_json.specs.Reading.Reads.{Gives};
ghost use Rattle.akn_json.specs.declared.fault.FormFault.{FormFault};

mod acts;
mod bytes;
mod command_kinds;
mod commands;
mod dossiers;
mod faults;
mod fields;
mod key;
mod modifications;
mod names;
mod node_parts;
mod nodes;
mod numbers;
mod tables;
mod values;
mod word;

use crate::{Asked, Dossier, ReadFail};
pub use bytes::MAX_DOSSIER_BYTES;
use bytes::value_of;
use commands::asked;
use dossiers::dossier;
use json::Scratch;
pub(super) use modifications::{EditKind, EfficacyKind, ForceKind};
use std::alloc::Global;
pub(super) use word::Worded;

/// The dossier that bytes are.
///
/// The fault is the first one in the reading order: the length, the JSON text, and then the form. Of an
/// object the kind and the keys are judged first, and then the values in the order in which the form
/// names them. What is read is well spelled: the act and each modification.
#[tactic(auto, using(crate::proofs::Spelling::Bytes::spelled), unfolding(crate::specs::Reading::Dossiers::dossier_of))]
pub fn read_dossier(alloc: Global, bytes: &[u8]) -> Result<Dossier, ReadFail>
    ensures value { Gives (λ d. d) result (dossier_of bytes.now) }
    ensures place { (fault : FormFault) → dossier_of bytes.now ≡ Err fault → fault.place ≤ most_bytes }
    ensures act { IfOk result (λ d. is_spelled_act d.act ≡ true) }
    ensures mods { IfOk result (λ d. are_spelled_modifications d.mods ≡ true) }
{
    let mut scratch = Scratch::new(alloc);
    let value = value_of(alloc, bytes, &mut scratch)?;
    dossier(alloc, &value)
}

/// The command that bytes ask for, with its drafter and its number.
///
/// The fault is the first one in the reading order, as of a dossier; the word for the kind of command is judged
/// before the keys, which it chooses. What is read is well spelled.
#[tactic(auto, using(crate::proofs::Spelling::Bytes::spelled), unfolding(crate::specs::Reading::Commands::asked_of))]
pub fn read_command(alloc: Global, bytes: &[u8]) -> Result<Asked, ReadFail>
    ensures value { Gives (λ a. a) result (asked_of bytes.now) }
    ensures place { (fault : FormFault) → asked_of bytes.now ≡ Err fault → fault.place ≤ most_bytes }
    ensures spelled { IfOk result (λ a. is_well_spelled a.command ≡ true) }
{
    let mut scratch = Scratch::new(alloc);
    let value = value_of(alloc, bytes, &mut scratch)?;
    asked(alloc, &value)
}
