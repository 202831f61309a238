//! Id: the name of a modification in the register.

ghost use Rattle.std.specs.Prelude.{IfOk, ◌≡◌, string_bytes};
ghost use Rattle.desk_base.specs.Ids as spec;

use crate::Memory;
use crate::decimals::decimal_number;
use std::alloc::Global;

/// A modification's id `n.i`: item `i` of law entry `n`. Ids are ordered by law number, then by item.
#[derive(Clone, Copy, Debug, PartialEq, Eq, PartialOrd, Ord, Hash)]
pub struct Id {
    /// The number of the law entry that recorded it.
    pub law: u32,
    /// Its item number there.
    pub item: u16,
}

#[tactic(auto, unfolding(crate::specs::Ids::law_of))]
fn law_named(text: &str) -> Option<u32>
    ensures { result ≡ spec.law_of text.now }
{
    let number = match text.split_once('.') {
        Some((law, _)) => decimal_number(law, 4_294_967_295)?,
        None => decimal_number(text, 4_294_967_295)?,
    };
    Some(number as u32)
}

#[tactic(auto, unfolding(crate::specs::Ids::item_of))]
fn item_named(text: &str) -> Option<u16>
    ensures { result ≡ spec.item_of text.now }
{
    let (_, item) = text.split_once('.')?;
    Some(decimal_number(item, 65_535)? as u16)
}

impl Id {
    /// The id as it is printed, `n.i`.
    pub fn spelled(self, alloc: Global) -> Result<String, Memory>
        ensures { IfOk result (λ s. string_bytes s ≡ spec.id_text self) }
    {
        let law = self.law;
        let item = self.item;
        Ok(format!(in alloc; "{law}.{item}")?)
    }

    /// The id that a text spells, `n.i`, both in decimal without leading zeros. `None`: it spells none.
    #[tactic(auto, unfolding(crate::specs::Ids::id_of))]
    pub fn from_text(text: &str) -> Option<Id>
        ensures { result ≡ spec.id_of text.now }
    {
        let law = law_named(text)?;
        let item = item_named(text)?;
        Some(Id { law, item })
    }
}
