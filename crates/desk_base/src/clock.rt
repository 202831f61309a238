//! Clock: what day it is. A clause sees the days to come, if the clock tells them.

ghost use Rattle.std.specs.Prelude.{ℕ, Option};
ghost use Rattle.desk_base.specs.Clocks.{GivesDay};

use crate::Day;

/// A clock that gives days.
pub trait Clock {
    /// The days to come, where the clock tells them: that of the next call first, numbered from 0.
    ghost days: { Self → Option (ℕ → ℕ) };

    /// The day that it is now.
    fn today(&mut self) -> Day
        ensures { GivesDay (days self.old) (days self.new) result };
}
