//! How levels spell an eId.

ghost use Rattle.std.specs.Prelude.{◌≡◌, ◌<◌, ◌++◌, IfOk, OnOk, IsTrue, Ok, length, string_bytes};
ghost use Rattle.eid_paths.specs.Eids.{eid_of, eid_text};
ghost use Rattle.eid_paths.specs.Levels.{level_text};
ghost use Rattle.eid_paths.specs.Nums.{is_num};

use crate::Level;
use desk_base::{Memory, Text};
use std::alloc::Global;

// Adds a level: the word of its element, `_` and its num.
fn push_level(eid: &mut String, level: &Level) -> Result<(), Memory>
    ensures text { OnOk result
        (string_bytes eid.new ≡ string_bytes eid.old ++ level_text level.now.element level.now.num) }
    ensures num { IsTrue (is_num level.now.num) }
{
    let num = level.num.spelled();
    eid.push_str(level.element.word())?;
    eid.push_str("_")?;
    eid.push_str(num)?;
    Ok(())
}

/// The eId that levels spell, of which there is at least one. It is read as these levels.
pub fn put_eid(alloc: Global, levels: &[Level]) -> Result<Text, Memory>
    requires { 0 < length levels.now }
    ensures text { IfOk result (λ t. t ≡ eid_text levels.now) }
    ensures levels { IfOk result (λ t. eid_of t ≡ Ok levels.now) }
{
    let mut eid = String::new(alloc);
    push_level(&mut eid, &levels[0])?;
    for level in &levels[1..] {
        eid.push_str("__")?;
        push_level(&mut eid, level)?;
    }
    Text::from_string(eid)
}
