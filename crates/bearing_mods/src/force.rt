//! Force: what the force modifications of a thing make of the period in which it is in force.

ghost use Rattle.std.specs.Prelude.{◌≡◌, IsTrue, map};
ghost use Rattle.bearing_mods.specs.Turns.{is_in_order, force_turn};
ghost use Rattle.bearing_mods.specs.Force as spec;
ghost use Rattle.bearing_mods.specs.Sizes.{force_size};

use desk_base::{DAY_SIZE, Day, Id, Period};

/// What a force modification does to the period in which a thing is in force.
#[derive(Clone, Copy, Debug, PartialEq, Eq)]
pub enum ForceEffect {
    /// Entry into force: the period starts on the date.
    Entry(Day),
    /// Postponement of the entry into force: the period starts on the date, if that is later than its start.
    Postponed(Day),
    /// End of enactment: the period ends on the date.
    Ended(Day),
    /// Prorogation of force: the period ends on the date, if that is later than its end. What has no end gets none.
    Prorogued(Day),
    /// Re-enactment: the period starts on the date and has no end.
    ReEnacted(Day),
}

impl ForceEffect {
    /// How many bytes the effect takes where it is kept, but for the day from which it is counted.
    pub fn size(self) -> u64
        ensures { result ≡ force_size self }
    {
        1 + DAY_SIZE
    }
}

/// A force modification that is counted for a reading.
#[derive(Clone, Copy, Debug, PartialEq, Eq)]
pub struct CountedForce {
    /// Its id.
    pub id: Id,
    /// The day from which it is counted.
    pub on: Day,
    /// What it does.
    pub effect: ForceEffect,
}

// The period after one effect.
fn changed(period: Period, effect: ForceEffect) -> Period
    ensures { result ≡ spec.force_after period effect }
{
    let Period { start, end } = period;
    match effect {
        ForceEffect::Entry(date) => Period { start: date, end },
        ForceEffect::Postponed(date) => Period {
            start: start.max(date),
            end,
        },
        ForceEffect::Ended(date) => Period {
            start,
            end: Some(date),
        },
        ForceEffect::Prorogued(date) => Period {
            start,
            end: end.map(|end| end.max(date)),
        },
        ForceEffect::ReEnacted(date) => Period {
            start: date,
            end: None,
        },
    }
}

/// The period in which a thing is in force: the period that it has of itself, changed by each counted force
/// modification in turn. They stand in ascending order of the day and the id. The end may come to stand at
/// or before the start; the period then includes no day.
pub fn force_at(base: Period, counted: &[CountedForce]) -> Period
    requires { IsTrue (is_in_order (map force_turn counted.now)) }
    ensures { result ≡ spec.force_at base counted.now }
{
    let mut period = base;
    for one in counted {
        period = changed(period, one.effect);
    }
    period
}
