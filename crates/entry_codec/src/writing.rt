//! An entry is encoded: a clause says that the bytes are its one spelling.

ghost use Rattle.std.specs.Prelude.{◌≡◌, true, length, IfOk};
ghost use Rattle.law_register.specs.Law.Sizes.{entry_size as size_of_entry};
ghost use Rattle.law_register.specs.Law.Spellable.{can_be_spelled};
ghost use Rattle.law_register.specs.Law.Spelling.{is_well_spelled};
ghost use Rattle.entry_codec.specs.Entries.{keeps_rules, spelling};

mod commands;
mod edits;
mod effects;
mod entries;
mod formats;
mod modifications;
mod nodes;
mod numbers;
mod texts;
mod values;

use desk_base::Memory;
use entries::put_entry;
use law_register::{Entry, entry_size};
use std::alloc::Global;

/// The bytes of an entry that is well spelled and can be spelled: none of its texts and lists is longer than 65,535, its nodes
/// nest at most 12 deep, and its law number is not 0. Each entry of a register is such a one.
///
/// The buffer is as long as the bytes before the first of them is written.
#[tactic(auto, unfolding(crate::specs::Entries::spelling))]
pub fn encode(alloc: Global, entry: &Entry) -> Result<Vec<u8>, Memory>
    requires able { can_be_spelled entry.now ≡ true }
    requires well { is_well_spelled entry.now.command ≡ true }
    ensures bytes { IfOk result (λ v. v.items ≡ spelling entry.now) }
    ensures kept { IfOk result (λ v. keeps_rules entry.now ≡ true) }
    ensures length { IfOk result (λ v. length v.items ≡ size_of_entry entry.now) }
{
    let mut bytes = Vec::with_capacity(alloc, entry_size(entry) as usize)?;
    put_entry(&mut bytes, entry)?;
    Ok(bytes)
}
