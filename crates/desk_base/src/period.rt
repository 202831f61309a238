//! Period: the days on which something holds.

ghost use Rattle.std.specs.Prelude.{◌≡◌};
ghost use Rattle.desk_base.specs.Periods.{includes, ends_after_its_start};

use crate::Day;

/// A period of days. It includes its start, and excludes its end where it has one.
#[derive(Clone, Copy, Debug, PartialEq, Eq)]
pub struct Period {
    /// The first day.
    pub start: Day,
    /// The first day after it, if it ends.
    pub end: Option<Day>,
}

impl Period {
    /// Whether the period includes a day.
    pub fn includes(self, day: Day) -> bool
        ensures { result ≡ includes self day }
    {
        self.start <= day && self.end.is_none_or(|end| day < end)
    }
    /// Whether the period ends after its start, if it ends.
    pub fn ends_after_its_start(self) -> bool
        ensures { result ≡ ends_after_its_start self }
    {
        self.end.is_none_or(|end| self.start < end)
    }
}
