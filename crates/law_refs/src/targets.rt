//! Targets: who knows what references refer to. A clause sees the rule that a target breaks, for each.

ghost use Rattle.std.specs.Prelude.{◌≡◌, ◌+◌, ℕ, Option, IfOk};
ghost use Rattle.frbr_names.specs.Expressions.{Expression};
ghost use Rattle.frbr_names.specs.ExpressionViews.{expression_view};

use desk_base::{Memory, Steps};
use frbr_names::ExpressionIri;
use std::alloc::Global;
use std::sync::ledger::Ledger;

/// Who knows which works, versions and portions are there.
pub trait Targets {
    /// The number of the first rule of questions that a target breaks, if it breaks one.
    ghost broken_rule: { Self → Expression → Option ℕ };

    /// The number of that rule. It takes one step.
    fn broken<L: Ledger>(
        &self,
        alloc: Global,
        target: &ExpressionIri<'_>,
        steps: &mut Steps<L>,
    ) -> Result<Option<u8>, Memory>
        ensures rule { IfOk result (λ rule. rule ≡ broken_rule self.now (expression_view target.now)) }
        ensures step { steps.new ≡ steps.old + 1 };
}
