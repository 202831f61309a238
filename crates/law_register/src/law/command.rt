//! Commands: what a drafter asks the register to do.

use crate::{Act, Modification, Mods};
use desk_base::Id;
use frbr_names::WorkName;

/// What a drafter asks for.
#[derive(Debug, PartialEq, Eq, Drop)]
pub enum Command {
    /// The act exists from this entry on.
    Enact {
        /// The act.
        act: Act,
    },
    /// Modifications of a work. Item `i` of law entry `n` gets the id `n.i`.
    Record {
        /// The work that is modified.
        work: WorkName,
        /// The modifications, 1 to 64.
        mods: Mods,
    },
    /// The body of an id becomes another; its id and its work stay.
    Correct {
        /// The id.
        id: Id,
        /// What it says from now on.
        body: Modification,
    },
    /// An id does not stand any more.
    Withdraw {
        /// The id.
        id: Id,
    },
    /// A withdrawn id stands again.
    Restore {
        /// The id.
        id: Id,
    },
    /// One more item of the drafter's draft. Its number is the count of that drafter's additions so far, this one included.
    DraftAdd {
        /// The work that it modifies.
        work: WorkName,
        /// What it says.
        body: Modification,
    },
    /// An item leaves the drafter's draft.
    DraftDrop {
        /// The number of the item.
        item: u32,
    },
    /// The items of the drafter's draft that modify a work are recorded, and leave the draft.
    File {
        /// The work.
        work: WorkName,
        /// How many law entries the drafter has seen.
        seen: u32,
    },
}
