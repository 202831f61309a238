//! Replayer: who replays what is known of a work. Its clauses are the definitions of this crate.

ghost use Rattle.std.specs.Prelude.{◌≡◌, ◌+◌, ◌-◌, ◌^◌, ◌≤◌, true, map, min, length, IfOk, IfErr, OnOk, Some};
ghost use Rattle.act_tree.specs.Seen.{tree_view, has_node, provision_at};
ghost use Rattle.law_register.specs.Answer.Answers as answers;
ghost use Rattle.law_register.specs.Answer.Breakpoints as days;
ghost use Rattle.law_register.specs.Answer.Flags.{flag};
ghost use Rattle.law_register.specs.Answer.Order.{order};
ghost use Rattle.law_register.specs.Answer.Replay.{IsVersionOf, replay_on};
ghost use Rattle.law_register.specs.Answer.Soundness.{IsSound};
ghost use Rattle.law_register.specs.Answer.Versions.{version_view};

use crate::{Answer, AskFault, Days, Ids, Known, Question, Reading, Version};
use act_tree::{NodeId, Tree};
use desk_base::{Day, Memory, Steps};
use std::alloc::Global;
use std::sync::ledger::Ledger;

/// Who replays what is known of a work.
pub trait Replayer {
    /// The ids of the textual modifications that bear on a day, in the order in which they are applied.
    fn order_at(
        &self,
        alloc: Global,
        known: &Known,
        reading: Reading,
        day: Day,
    ) -> Result<Ids, Memory>
        ensures { IfOk result (λ ids. ids ≡ order known.now reading day) };

    /// The orders of these days, one for each, found in one walk over the days.
    fn orders_at(
        &self,
        alloc: Global,
        known: &Known,
        reading: Reading,
        days: &[Day],
    ) -> Result<Vec<Ids>, Memory>
        requires { IsSound known.now }
        ensures { IfOk result (λ orders. orders.items ≡ map (order known.now reading) days.now) };

    /// The days on which the text may change, ascending, each once.
    fn breakpoints(&self, alloc: Global, known: &Known) -> Result<Days, Memory>
        ensures { IfOk result (λ found. found ≡ days.breakpoints known.now) };

    /// The version of a day, always from the act as enacted. It takes one step at most for each modification that bears, and
    /// the tree has as many changes as modifications were applied.
    fn replay<L: Ledger>(
        &self,
        alloc: Global,
        known: &Known,
        reading: Reading,
        day: Day,
        steps: &mut Steps<L>,
    ) -> Result<Version, Memory>
        requires sound { IsSound known.now }
        ensures version { IfOk result (λ version. version_view version ≡ replay_on known.now reading day) }
        ensures changes { IfOk result
            (λ version. (tree_view version.tree).changes ≡ min (length version.applied) (2 ^ 64 - 1)) }
        ensures steps { steps.new ≤ steps.old + length (order known.now reading day) };

    /// Whether a node of a tree bears on a day.
    fn flag_of(
        &self,
        alloc: Global,
        known: &Known,
        reading: Reading,
        day: Day,
        tree: &Tree,
        node: NodeId,
    ) -> Result<bool, Memory>
        requires { has_node tree.now node ≡ true }
        ensures { IfOk result (λ found. flag known.now reading day (tree_view tree.now).body
            (provision_at tree.now node).wid ≡ Some found) };

    /// The answer to a question, from the version that it asks for, or the first rule that it breaks.
    fn answer_of(
        &self,
        alloc: Global,
        known: &Known,
        version: Version,
        question: &Question,
    ) -> Result<Answer, AskFault>
        requires { version_view version
            ≡ replay_on known.now question.now.reading (answers.asked_day question.now.version known.now.act) }
        ensures { answers.Answers result (answers.answer_on known.now question.now) };

    /// The answer to a question that breaks no rule before its text is looked at, from the version that it asks for, or the rule that
    /// the text has no such provision. The version is lent, so that who keeps it copies no tree; what provisions say is shared. What is
    /// known says the flags: it may carry nothing where the version was replayed by what is carried.
    fn answer_text(
        &self,
        alloc: Global,
        known: &Known,
        version: &Version,
        question: &Question,
    ) -> Result<Answer, AskFault>
        requires { IsVersionOf known.now.act question.now.reading
            (answers.asked_day question.now.version known.now.act) (version_view version.now) }
        ensures { answers.Answers result
            (answers.answer_of_text known.now (version_view version.now) question.now) };
}
