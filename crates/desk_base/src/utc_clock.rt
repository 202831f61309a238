//! UtcClock: the machine's clock. A clause sees the day that it gave last.

ghost use Rattle.std.specs.Prelude.{◌≡◌, ◌⊎◌, ℕ, None};
ghost use Rattle.desk_base.specs.Clocks.{GivesDay};
ghost use Rattle.desk_base.specs.Days.{day_since_1970};

use crate::{Clock, Day};
use std::time::{self, SystemTime};

/// The machine's clock, which gives the day in UTC. Where that clock can't be read, it gives the day that it gave
/// last, and 1970-01-01 before any.
#[derive(Drop)]
pub struct UtcClock<'a, R: time::Clock> {
    handle: &'a R,
    last: Day,
}

// The seconds since 1970-01-01 began, if the machine's clock can be read.
fn seconds_since_1970<R: time::Clock>(handle: &R) -> Option<u64> {
    let now = SystemTime::now(handle).ok()?;
    Some(now.duration_since(SystemTime::UNIX_EPOCH).ok()?.as_secs())
}

impl<'a, R: time::Clock> UtcClock<'a, R> {
    /// The clock that this handle reads, before the first day that it gives.
    pub fn new(handle: &'a R) -> UtcClock<'a, R>
        ensures { result.last ≡ day_since_1970 0 }
    {
        UtcClock {
            handle,
            last: Day::since_1970(0),
        }
    }
}

impl<'a, R: time::Clock> Clock for UtcClock<'a, R> {
    ghost days = { λ clock. None };

    fn today(&mut self) -> Day
        ensures told { GivesDay None None result }
        ensures given { (result ≡ self.old.last) ⊎ ((seconds : ℕ) × (result ≡ day_since_1970 seconds)) }
        ensures last { self.new.last ≡ result }
    {
        if let Some(seconds) = seconds_since_1970(self.handle) {
            self.last = Day::since_1970(seconds);
        }
        self.last
    }
}
