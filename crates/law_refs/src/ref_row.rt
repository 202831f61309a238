//! Rows: the references of a work from a day on, as they are handed in and as they are kept.

use crate::{JudgedRef, NodeRefs, RefList, SharedList};
use desk_base::Day;
use frbr_names::WorkName;

/// The references of a work from a day on, as they are handed in.
#[derive(Debug, Drop)]
pub struct RefRow {
    /// The work on whose nodes they stand.
    pub work: WorkName,
    /// The day of its act.
    pub act_day: Day,
    /// The day on which the text begins. `None`: it is the act as enacted, which stands before all others.
    pub from: Option<Day>,
    /// The references of that text.
    pub refs: NodeRefs,
}

/// Rows as they are handed in: those of a work by ascending days.
pub type RefRows = RefList<RefRow>;

/// The references of a work from a day on, judged.
#[derive(Debug, Drop)]
pub struct DayRefs {
    /// The day on which the text begins. `None`: it is the act as enacted.
    pub from: Option<Day>,
    /// The references of that text.
    pub refs: SharedList<JudgedRef>,
}

/// What is kept of a work.
#[derive(Debug, Drop)]
pub struct WorkRefs {
    /// The day of its act.
    pub act_day: Day,
    /// Its rows, by ascending days.
    pub rows: RefList<DayRefs>,
}
