//! What comes of an edit that makes no change.

ghost use Rattle.std.specs.Prelude.{◌≡◌, ◌+◌, OnOk, OnErr};

use crate::Outcome;
use act_tree::Cause;
use desk_base::{Memory, Steps};
use std::sync::ledger::Ledger;

/// Answers the cause that holds an edit back, and counts its step.
pub fn held_back<L: Ledger>(cause: Cause, steps: &mut Steps<L>) -> Outcome
    ensures outcome { result ≡ Outcome.Unapplied cause }
    ensures step { steps.new ≡ steps.old + 1 }
{
    steps.tick();
    Outcome::Unapplied(cause)
}

/// What was made before the change of an edit, or the want of memory, at which the edit's step is counted.
pub fn or_step<T, L: Ledger>(made: Result<T, Memory>, steps: &mut Steps<L>) -> Result<T, Memory>
    ensures same { result ≡ made }
    ensures made { OnOk result (steps.new ≡ steps.old) }
    ensures step { OnErr result (steps.new ≡ steps.old + 1) }
{
    if made.is_err() {
        steps.tick();
    }
    made
}
