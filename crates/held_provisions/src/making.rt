//! Making: the versions of works from scratch, each by those ahead of it in the line.

ghost use Rattle.std.specs.Prelude.{◌≡◌, ◌+◌, ◌≤◌, [], IfOk, Some, map};
ghost use Rattle.std.specs.List.{AllByRecursion, sum_by};
ghost use Rattle.law_register.specs.Answer.Soundness.{IsSound};
ghost use Rattle.law_register.specs.Answer.Standing.{alone};
ghost use Rattle.law_register.specs.Provisions.Costs.{full};
ghost use Rattle.law_register.specs.Provisions.Line.{IsLine, work_in};
ghost use Rattle.held_provisions.specs.Needing as needing;
ghost use Rattle.held_provisions.specs.Sources.{AreSources, IsKeptFor, made_of};
ghost use Rattle.version_cache.specs.Seen.{work_view};

use crate::sources::MadeWorks;
use crate::{InLine, carry};
use desk_base::{Memory, Steps};
use law_register::{Known, Replayer};
use source_provisions::laws::{what_is_carried_bears, what_is_carried_is_sound};
use std::alloc::Global;
use std::sync::ledger::Ledger;
use version_cache::WorkTables;

// What is kept of a work of a line, by those ahead of it.
fn make<P: Replayer, L: Ledger, T: InLine>(
    alloc: Global,
    replayer: &P,
    _works: &[T],
    ahead: &MadeWorks,
    known: &Known,
    steps: &mut Steps<L>,
) -> Result<WorkTables, Memory>
    requires line { IsLine (map T.known_of _works.now) }
    requires there { work_in known.now.act.work (map T.known_of _works.now) ≡ Some known.now }
    requires alone { alone known.now ≡ known.now }
    requires sources { AreSources (map T.known_of _works.now) known.now (made_of ahead.now) }
    requires sound { IsSound known.now }
    ensures known { IfOk result (λ made. (work_view made).known ≡ known.now) }
    ensures right { IfOk result (λ made. IsKeptFor (map T.known_of _works.now) (work_view made)) }
    ensures steps { steps.new ≤ steps.old + full (map T.known_of _works.now) known.now }
{
    what_is_carried_bears();
    what_is_carried_is_sound();
    let own = known.copy(alloc)?;
    let carried = carry(alloc, replayer, ahead, own)?;
    WorkTables::make(alloc, replayer, carried, steps)
}

/// What is kept of these works of a line, where each has those on which it depends ahead of it.
pub fn make_all<P: Replayer, L: Ledger, T: InLine>(
    alloc: Global,
    replayer: &P,
    works: &[T],
    needed: &[Known],
    steps: &mut Steps<L>,
) -> Result<MadeWorks, Memory>
    requires line { IsLine (map T.known_of works.now) }
    requires there { AllByRecursion (λ known. work_in known.act.work (map T.known_of works.now) ≡ Some known) needed.now }
    requires ahead { needing.HaveAhead (map T.known_of works.now) (map T.known_of works.now) [] needed.now }
    requires alone { AllByRecursion (λ known. alone known ≡ known) needed.now }
    requires sound { AllByRecursion IsSound needed.now }
    ensures known { IfOk result (λ made. map (λ one. (work_view one).known) made.made.items ≡ needed.now) }
    ensures right { IfOk result (λ made. AllByRecursion
        (λ one. IsKeptFor (map T.known_of works.now) (work_view one)) made.made.items) }
    ensures steps { steps.new ≤ steps.old + sum_by (full (map T.known_of works.now)) needed.now }
{
    let mut made = MadeWorks {
        made: Vec::new(alloc),
    };
    for known in needed {
        let next = make(alloc, replayer, works, &made, known, steps)?;
        made.made.push(next)?;
    }
    Ok(made)
}
