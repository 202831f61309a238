//! How deep the provisions of an arena stand.

ghost use Rattle.std.specs.Prelude.{◌≡◌, ◌≤◌, ◌<◌, ◌^◌, true};
ghost use Rattle.act_tree.specs.Arena.{climbs};
ghost use Rattle.act_tree.specs.Depths.{steps_up};
ghost use Rattle.act_tree.specs.Slots.{at};
ghost use Rattle.act_tree.specs.declared.limits.TheConstants.{MAX_DEPTH};

use crate::NodeId;
use crate::arena::Arena;

/// How many numbers stand on the way up from one whose way is shorter than so many steps, itself included and the root
/// not counted. Each call goes one number up.
pub fn count_up(arena: &Arena, id: NodeId, steps: usize) -> u32
    requires climbs { climbs steps (at arena.now) id ≡ true }
    requires depth { steps_up steps (at arena.now) id ≤ MAX_DEPTH }
    ensures steps { result ≡ steps_up steps (at arena.now) id }
    ensures low { result < steps }
{
    if id.place() == 0 {
        return 0;
    }
    let slot = &arena.slots[id.place()];
    count_up(arena, slot.above, steps - 1) + 1
}
