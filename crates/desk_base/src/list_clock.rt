//! ListClock: a clock in memory. A clause sees one as the list of the days that it has left.

ghost use Rattle.std.specs.Prelude.{◌≤◌, Some, length, IfOk, ◌≡◌};
ghost use Rattle.desk_base.specs.Clocks.{GivesDay, days_from};

use crate::{Clock, Day, Memory};
use std::alloc::Global;
use std::marker::Model;

/// A clock that gives the days of a list, and then the last of them again and again.
#[derive(Debug, Drop)]
pub struct ListClock {
    days: Vec<Day>,
    at: usize,
}

impl Model for ListClock {
    ghost use Rattle.std.specs.Prelude.{ℕ, List, drop, ◌<◌, length};

    ghost Value = { List ℕ };

    ghost view = { λ c. drop c.at c.days.items };

    ghost invariant = { λ c. c.at < length c.days.items };
}

impl ListClock {
    /// A clock of these days, of which there is at least one.
    pub fn new(alloc: Global, days: &[Day]) -> Result<ListClock, Memory>
        requires { 1 ≤ length days.now }
        ensures { IfOk result (λ clock. clock ≡ days.now) }
    {
        Ok(ListClock {
            days: Vec::from_slice(alloc, days)?,
            at: 0,
        })
    }
}

impl Clock for ListClock {
    ghost days = { λ clock. Some (days_from clock) };

    fn today(&mut self) -> Day {
        let day = self.days[self.at];
        if self.at + 1 < self.days.len() {
            self.at += 1;
        }
        day
    }
}
