//! Verdicts: what the register says of a command.

use crate::Rule;

/// The reply to a command that was accepted.
#[derive(Clone, Copy, Debug, PartialEq, Eq)]
pub enum Reply {
    /// The number of the law entry.
    Law(u32),
    /// The number of the draft item that was added or dropped.
    Draft(u32),
}

/// What the register says of a command.
#[derive(Debug, Drop)]
pub enum Verdict {
    /// It may become an entry.
    Accepted {
        /// The number that the law entry gets. `None`: it is an entry of a draft.
        law: Option<u32>,
        /// The reply to it.
        reply: Reply,
    },
    /// That request was accepted before, with an equal command. The first reply is given again.
    Repeat(Reply),
    /// It breaks a rule, the first in their order.
    Refused(Rule),
}
