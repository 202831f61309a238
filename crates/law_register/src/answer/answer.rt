//! An answer: the text of an act on a day, and what became of its modifications.

use crate::{AnswerNodes, Ids, Question, Unapplied};

/// The answer to a question.
#[derive(Debug, Drop)]
pub struct Answer {
    /// What was asked.
    pub question: Question,
    /// Whether the act itself bears.
    pub bears: bool,
    /// The children of the root, or the one provision that was asked for.
    pub nodes: AnswerNodes,
    /// The modifications that were applied, in order.
    pub applied: Ids,
    /// Those that could not be applied, in order.
    pub unapplied: Unapplied,
}
