//! The eIds of provisions that stand in an arena.

ghost use Rattle.std.specs.Prelude.{◌≡◌, ◌≤◌, true, Some, IfOk};
ghost use Rattle.act_tree.specs.Arena.{climbs};
ghost use Rattle.act_tree.specs.Depths.{steps_up};
ghost use Rattle.act_tree.specs.Eids as spec;
ghost use Rattle.act_tree.specs.EidsOfNodes as up;
ghost use Rattle.act_tree.specs.Slots.{at, size};
ghost use Rattle.act_tree.specs.declared.limits.TheConstants.{MAX_DEPTH};

use crate::arena::{Arena, Slot};
use crate::{NodeId, eid_below};
use desk_base::{Memory, Text};
use eid_paths::Numbering;
use std::alloc::Global;

// The eId of a provision below one of that eId, or right below the root where that is `None`.
fn eid_under(
    alloc: Global,
    numbering: Numbering,
    above: &Option<Text>,
    slot: &Slot,
) -> Result<Text, Memory>
    ensures { IfOk result (λ eid. eid ≡ spec.eid_below numbering above.now slot.now.element slot.now.num) }
{
    match above {
        Some(above) => eid_below(
            alloc,
            numbering,
            Some(above.as_str()),
            slot.element,
            &slot.num,
        ),
        None => eid_below(alloc, numbering, None, slot.element, &slot.num),
    }
}

// The eId of a number whose way up is shorter than so many steps. `None`: it is the root's. Each call goes one number up.
fn eid_up(
    alloc: Global,
    arena: &Arena,
    numbering: Numbering,
    id: NodeId,
    steps: usize,
) -> Result<Option<Text>, Memory>
    requires climbs { climbs steps (at arena.now) id ≡ true }
    requires depth { steps_up steps (at arena.now) id ≤ MAX_DEPTH }
    ensures { IfOk result (λ eid. eid ≡ up.eid_up steps numbering (at arena.now) id) }
{
    if id.place() == 0 {
        return Ok(None);
    }
    let slot = &arena.slots[id.place()];
    let above = eid_up(alloc, arena, numbering, slot.above, steps - 1)?;
    let eid = eid_under(alloc, numbering, &above, slot)?;
    Ok(Some(eid))
}

/// The eId of a number that is not the root and whose way up ends there.
pub fn eid_of_number(
    alloc: Global,
    arena: &Arena,
    numbering: Numbering,
    id: NodeId,
) -> Result<Text, Memory>
    requires climbs { climbs (size arena.now) (at arena.now) id ≡ true }
    requires provision { id ≡ 0 → ⊥ }
    requires depth { steps_up (size arena.now) (at arena.now) id ≤ MAX_DEPTH }
    ensures { IfOk result (λ eid. Some eid ≡ up.eid_up (size arena.now) numbering (at arena.now) id) }
{
    let slot = &arena.slots[id.place()];
    let above = eid_up(alloc, arena, numbering, slot.above, arena.slots.len() - 1)?;
    let eid = eid_under(alloc, numbering, &above, slot)?;
    Ok(eid)
}
