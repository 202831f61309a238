//! An act as it was enacted.

ghost use Rattle.std.specs.Prelude.{◌≡◌, IfOk};

use act_tree::{NodeLimit, SharedNodes};
use desk_base::{Day, Memory, Period};
use eid_paths::Numbering;
use frbr_names::WorkName;

/// An act as it was enacted.
#[derive(Debug, PartialEq, Eq, Drop)]
pub struct Act {
    /// The IRI of the work.
    pub work: WorkName,
    /// Three lower-case letters.
    pub language: [u8; 3],
    /// The day of the act, which is that of its IRI or lies in its year.
    pub day: Day,
    /// The elements that are numbered throughout it.
    pub numbering: Numbering,
    /// How many provisions its text may have.
    pub limit: NodeLimit,
    /// When it is in force.
    pub force: Period,
    /// The children of its root.
    pub body: SharedNodes,
}

impl Act {
    /// The same act; its texts and its nodes are shared.
    pub fn copy(&self) -> Result<Act, Memory>
        ensures { IfOk result (λ act. act ≡ self.now) }
    {
        Ok(Act {
            work: self.work.copy()?,
            language: self.language,
            day: self.day,
            numbering: self.numbering,
            limit: self.limit,
            force: self.force,
            body: self.body.copy()?,
        })
    }
}
