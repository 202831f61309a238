//! What an answer lists: ids, what was not applied with its cause, and days; and the works that an entry touches.

ghost use Rattle.std.specs.Prelude.{◌≡◌, IfOk};

use crate::series::Series;
use act_tree::Cause;
use desk_base::{Day, Id, Memory};
use frbr_names::WorkName;

/// Ids in order.
pub type Ids = Series<Id>;

/// The modifications that could not be applied, in order, each with its cause.
pub type Unapplied = Series<(Id, Cause)>;

/// Days in order. A clause sees their numbers.
pub type Days = Series<Day>;

/// Works, each with the day from which it is touched.
pub type Touched = Series<(WorkName, Day)>;

impl Ids {
    /// The same ids.
    pub fn copy(&self) -> Result<Ids, Memory>
        ensures { IfOk result (λ ids. ids ≡ self.now) }
    {
        Ok(Ids::from(self.items.clone()?))
    }
}

impl Days {
    /// The same days.
    pub fn copy(&self) -> Result<Days, Memory>
        ensures { IfOk result (λ days. days ≡ self.now) }
    {
        Ok(Days::from(self.items.clone()?))
    }
}

impl Unapplied {
    /// The same modifications, with their causes.
    pub fn copy(&self) -> Result<Unapplied, Memory>
        ensures { IfOk result (λ unapplied. unapplied ≡ self.now) }
    {
        Ok(Unapplied::from(self.items.clone()?))
    }
}
