//! eIds: the name of a provision by its place, in one expression of the act.

ghost use Rattle.std.specs.Prelude.{◌≡◌, ◌++◌, IfOk, OnOk, option_map, string_bytes};
ghost use Rattle.act_tree.specs.Eids as spec;
ghost use Rattle.eid_paths.specs.Levels.{level_text};

use desk_base::{Memory, Text};
use eid_paths::{Element, Num, Numbering};
use std::alloc::Global;

// Adds the level of a node: the word of its element, `_` and its num.
fn push_level(eid: &mut String, element: Element, num: &Num) -> Result<(), Memory>
    ensures { OnOk result (string_bytes eid.new ≡ string_bytes eid.old ++ level_text element num.now) }
{
    eid.push_str(element.word())?;
    eid.push_str("_")?;
    eid.push_str(num.as_str())?;
    Ok(())
}

// How many bytes an eId takes: room that is made at once is not made again and again as the eId grows.
fn room_for(above: Option<&str>, begun: bool, element: Element, num: &Num) -> usize {
    let level = element
        .word()
        .len()
        .saturating_add(1)
        .saturating_add(num.as_bytes().len());
    match above {
        Some(above) if !begun => above.len().saturating_add(2).saturating_add(level),
        _ => level,
    }
}

/// The eId of a node below the one of the eId `above`, or right below the root where that is `None`.
pub fn eid_below(
    alloc: Global,
    numbering: Numbering,
    above: Option<&str>,
    element: Element,
    num: &Num,
) -> Result<Text, Memory>
    ensures { IfOk result (λ t. t ≡ spec.eid_below numbering (option_map (λ s. s.now) above.entry) element num.now) }
{
    let begun = numbering.has(element);
    let mut eid = String::with_capacity(alloc, room_for(above, begun, element, num))?;
    if let Some(above) = above
        && !begun
    {
        eid.push_str(above)?;
        eid.push_str("__")?;
    }
    push_level(&mut eid, element, num)?;
    Text::from_string(eid)
}
