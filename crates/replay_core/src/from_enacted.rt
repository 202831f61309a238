//! FromEnacted: the replayer that keeps nothing.

use crate::answering::{answer, answer_text, flag_at};
use crate::breakpoints::breakpoints;
use crate::order::order_at;
use crate::orders::orders_at;
use crate::replaying::replay;
use act_tree::{NodeId, Tree};
use desk_base::{Day, Memory, Steps};
use law_register::{Answer, AskFault, Days, Ids, Known, Question, Reading, Replayer, Version};
use std::alloc::Global;
use std::sync::ledger::Ledger;

/// Makes each version from the act as enacted.
#[derive(Clone, Copy, Debug)]
pub struct FromEnacted;

impl Replayer for FromEnacted {
    fn order_at(
        &self,
        alloc: Global,
        known: &Known,
        reading: Reading,
        day: Day,
    ) -> Result<Ids, Memory> {
        order_at(alloc, known, reading, day)
    }

    fn orders_at(
        &self,
        alloc: Global,
        known: &Known,
        reading: Reading,
        days: &[Day],
    ) -> Result<Vec<Ids>, Memory> {
        orders_at(alloc, known, reading, days)
    }

    fn breakpoints(&self, alloc: Global, known: &Known) -> Result<Days, Memory> {
        breakpoints(alloc, known)
    }

    fn replay<L: Ledger>(
        &self,
        alloc: Global,
        known: &Known,
        reading: Reading,
        day: Day,
        steps: &mut Steps<L>,
    ) -> Result<Version, Memory> {
        replay(alloc, known, reading, day, steps)
    }

    fn flag_of(
        &self,
        alloc: Global,
        known: &Known,
        reading: Reading,
        day: Day,
        tree: &Tree,
        node: NodeId,
    ) -> Result<bool, Memory> {
        flag_at(alloc, known, reading, day, tree, node)
    }

    fn answer_of(
        &self,
        alloc: Global,
        known: &Known,
        version: Version,
        question: &Question,
    ) -> Result<Answer, AskFault> {
        answer(alloc, known, version, question)
    }

    fn answer_text(
        &self,
        alloc: Global,
        known: &Known,
        version: &Version,
        question: &Question,
    ) -> Result<Answer, AskFault> {
        answer_text(alloc, known, version, question)
    }
}
