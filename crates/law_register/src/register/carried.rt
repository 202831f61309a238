//! Carried: when the provision stands that makes a modification, where it is looked at.

ghost use Rattle.std.specs.Prelude.{◌≡◌, IfOk};

use crate::series::Series;
use desk_base::{Memory, Period};

/// Periods in order.
pub type Spans = Series<Period>;

impl Spans {
    /// The same periods.
    pub fn copy(&self) -> Result<Spans, Memory>
        ensures { IfOk result (λ spans. spans ≡ self.now) }
    {
        Ok(Spans::from(self.items.clone()?))
    }
}

/// The periods on whose days the provision stands that makes a modification, in each reading.
#[derive(Debug, Drop)]
pub struct Carried {
    /// Those in the reading of force.
    pub force: Spans,
    /// Those in the reading of efficacy.
    pub efficacy: Spans,
}

impl Carried {
    /// The same periods.
    pub fn copy(&self) -> Result<Carried, Memory>
        ensures { IfOk result (λ copy. copy ≡ self.now) }
    {
        Ok(Carried {
            force: self.force.copy()?,
            efficacy: self.efficacy.copy()?,
        })
    }
}

/// What is carried, if anything is, in memory of its own.
pub(crate) fn copy_carried(carried: &Option<Carried>) -> Result<Option<Carried>, Memory>
    ensures { IfOk result (λ copy. copy ≡ carried.now) }
{
    match carried {
        Some(carried) => Ok(Some(carried.copy()?)),
        None => Ok(None),
    }
}
