//! Ids are spelled by their digits, in a text that keeps its room from one id to the next.

ghost use Rattle.std.specs.Prelude.{◌≡◌, OnOk, string_bytes};
ghost use Rattle.desk_base.specs.Ids.{id_text};

use desk_base::{Id, Memory};
use itoa::Buffer;

/// Spells an id in the place of what the text said.
pub fn spell(text: &mut String, id: Id) -> Result<(), Memory>
    ensures { OnOk result (string_bytes text.new ≡ id_text id) }
{
    text.clear();
    text.push_str(Buffer::new().format(id.law))?;
    text.push('.')?;
    text.push_str(Buffer::new().format(id.item))?;
    Ok(())
}
