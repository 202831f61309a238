//! Due: what orders a modification that bears on a day.

use desk_base::{Day, Id};
use frbr_names::WorkName;

/// The keys of a modification that bears on a day. Modifications are applied in ascending order of these fields.
#[derive(Debug, PartialEq, Eq, PartialOrd, Ord, Drop)]
pub struct Due {
    /// The day from which it bears.
    pub start: Day,
    /// The day of its source: 1 January where the IRI gives a year alone.
    pub source_day: Day,
    /// The IRI of its source.
    pub href: WorkName,
    /// Its place in the source.
    pub place: u16,
    /// Its id.
    pub id: Id,
}
