//! Drafts: what a drafter keeps to file later. A clause sees a list of items.

use crate::Modification;
use crate::series::Series;
use frbr_names::WorkName;

/// An item of a draft.
#[derive(Debug, Drop)]
pub struct DraftItem {
    /// Its number among the additions of its drafter, from 1.
    pub item: u32,
    /// The work that it modifies.
    pub work: WorkName,
    /// What it says.
    pub body: Modification,
}

/// The items of a draft in ascending order of their numbers.
pub type Draft = Series<DraftItem>;
