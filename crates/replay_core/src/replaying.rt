//! Replay: the modifications that bear, applied in order to the act as enacted.

ghost use Rattle.std.specs.Prelude.{◌≡◌, ◌+◌, ◌-◌, ◌^◌, ◌≤◌, IfOk, length, min};
ghost use Rattle.act_tree.specs.Seen.{tree_view};
ghost use Rattle.law_register.specs.Answer.Order.{order};
ghost use Rattle.law_register.specs.Answer.Replay.{replay_on};
ghost use Rattle.law_register.specs.Answer.Soundness.{IsSound};
ghost use Rattle.law_register.specs.Answer.Versions.{version_view};

use crate::order::order_at;
use desk_base::{Day, Memory, Steps};
use law_register::{Known, Reading, Version, continue_replay, enact};
use std::alloc::Global;
use std::sync::ledger::Ledger;

/// The version of a day, always from the act as enacted. It takes one step at most for each modification that bears, and the
/// tree has as many changes as modifications were applied.
pub fn replay<L: Ledger>(
    alloc: Global,
    known: &Known,
    reading: Reading,
    day: Day,
    steps: &mut Steps<L>,
) -> Result<Version, Memory>
    requires sound { IsSound known.now }
    ensures version { IfOk result (λ version. version_view version ≡ replay_on known.now reading day) }
    ensures changes { IfOk result
        (λ version. (tree_view version.tree).changes ≡ min (length version.applied) (2 ^ 64 - 1)) }
    ensures steps { steps.new ≤ steps.old + length (order known.now reading day) }
{
    let ids = order_at(alloc, known, reading, day)?;
    let version = enact(alloc, &known.act)?;
    continue_replay(alloc, &known.mods, version, ids.as_slice(), steps)
}
