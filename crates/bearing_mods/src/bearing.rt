//! Whether a thing bears on a day.

ghost use Rattle.std.specs.Prelude.{◌≡◌};
ghost use Rattle.bearing_mods.specs.Bearing as spec;

use desk_base::{Day, Period};

/// Whether a thing with this period as of a day bears on that day: the period includes it.
pub fn bears(period: Period, day: Day) -> bool
    ensures { result ≡ spec.bears period day }
{
    period.includes(day)
}
