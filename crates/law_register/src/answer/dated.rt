//! Dated: the versions of a work by day. Its clauses are the definitions of this crate.

ghost use Rattle.std.specs.Prelude.{◌≡◌, ◌+◌, ◌≤◌, ℕ, IfOk};
ghost use Rattle.law_register.specs.Answer.Costs.{revision_cost};
ghost use Rattle.law_register.specs.Answer.Replay.{VersionValue, replay_on};
ghost use Rattle.law_register.specs.Answer.Soundness.{IsSound};
ghost use Rattle.law_register.specs.Answer.Versions.{version_view};

use crate::{Known, Reading, Replayer, Version};
use desk_base::{Day, Memory, Steps};
use std::alloc::Global;
use std::sync::ledger::Ledger;

/// The versions of a work by day, in one reading.
pub trait Dated: Sized {
    /// The version of each day.
    ghost version_on: { Self → ℕ → VersionValue };

    /// The versions of all days. At each breakpoint only those modifications are applied that were not at the one before,
    /// where they follow those; it takes one step at most for each of them.
    fn make<P: Replayer, L: Ledger>(
        alloc: Global,
        replayer: &P,
        known: &Known,
        reading: Reading,
        steps: &mut Steps<L>,
    ) -> Result<Self, Memory>
        requires { IsSound known.now }
        ensures versions { IfOk result (λ dated. (day : ℕ) → version_on dated day ≡ replay_on known.now reading day) }
        ensures steps { steps.new ≤ steps.old + revision_cost known.now reading 0 };

    /// The version of a day. It takes no memory.
    fn on(&self, day: Day) -> &Version
        ensures { version_view result.now ≡ version_on self.now day };
}
