//! What came of a textual modification.

use act_tree::Cause;

/// Whether a modification was applied, and if not, why.
#[derive(Clone, Copy, Debug, PartialEq, Eq)]
pub enum Outcome {
    /// The tree is changed.
    Done,
    /// The tree is as it was, for this cause.
    Unapplied(Cause),
}
