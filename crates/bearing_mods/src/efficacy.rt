//! Efficacy: what the efficacy modifications of a thing make of its force period, and of its efficacy on a day.

ghost use Rattle.std.specs.Prelude.{◌≡◌, IsTrue, map};
ghost use Rattle.bearing_mods.specs.Turns.{is_in_order, efficacy_turn};
ghost use Rattle.bearing_mods.specs.Efficacy as spec;
ghost use Rattle.bearing_mods.specs.Sizes.{efficacy_size};

use desk_base::{DAY_SIZE, Day, Id, PERIOD_SIZE, Period};

/// What an efficacy modification does to the period in which a thing has efficacy.
#[derive(Clone, Copy, Debug, PartialEq, Eq)]
pub enum EfficacyEffect {
    /// Entry into efficacy: the period starts on the date.
    Entry(Day),
    /// End of efficacy: the period ends on the date.
    Ended(Day),
    /// Retroactivity: the period starts on the date, if that is earlier than its start.
    Retroactive(Day),
    /// Postponement of efficacy: the period starts on the date, if that is later than its start.
    Postponed(Day),
    /// Prorogation of efficacy: the period ends on the date, if that is later than its end. What has no end gets none.
    Prorogued(Day),
    /// Extra efficacy: the period has no end.
    Extra,
    /// Inapplication: on the days of this period there is no efficacy, whatever else is counted. The period of
    /// efficacy stays as it was.
    Inapplied(Period),
}

impl EfficacyEffect {
    /// Whether the days of an inapplication end after their start, if they end.
    pub fn days_end_after_their_start(self) -> bool
        ensures { result ≡ spec.days_end_after_their_start self }
    {
        match self {
            EfficacyEffect::Inapplied(days) => days.ends_after_its_start(),
            _ => true,
        }
    }

    /// How many bytes the effect takes where it is kept, but for the day from which it is counted.
    pub fn size(self) -> u64
        ensures { result ≡ efficacy_size self }
    {
        match self {
            EfficacyEffect::Retroactive(_) | EfficacyEffect::Extra => 1,
            EfficacyEffect::Inapplied(_) => 1 + PERIOD_SIZE,
            _ => 1 + DAY_SIZE,
        }
    }
}

/// An efficacy modification that is counted for a reading.
#[derive(Clone, Copy, Debug, PartialEq, Eq)]
pub struct CountedEfficacy {
    /// Its id.
    pub id: Id,
    /// The day from which it is counted.
    pub on: Day,
    /// What it does.
    pub effect: EfficacyEffect,
}

/// The efficacy of a thing as of a day.
#[derive(Clone, Copy, Debug, PartialEq, Eq)]
pub struct Efficacy {
    /// The period in which it has efficacy, but for the days on which it is inapplied.
    pub period: Period,
    /// Whether it has efficacy on the day.
    pub holds: bool,
}

// The period after one effect.
fn changed(period: Period, effect: EfficacyEffect) -> Period
    ensures { result ≡ spec.efficacy_after period effect }
{
    let Period { start, end } = period;
    match effect {
        EfficacyEffect::Entry(date) => Period { start: date, end },
        EfficacyEffect::Ended(date) => Period {
            start,
            end: Some(date),
        },
        EfficacyEffect::Retroactive(date) => Period {
            start: start.min(date),
            end,
        },
        EfficacyEffect::Postponed(date) => Period {
            start: start.max(date),
            end,
        },
        EfficacyEffect::Prorogued(date) => Period {
            start,
            end: end.map(|end| end.max(date)),
        },
        EfficacyEffect::Extra => Period { start, end: None },
        EfficacyEffect::Inapplied(_) => period,
    }
}

// Whether an effect is an inapplication whose days include this one.
fn inapplies(effect: EfficacyEffect, day: Day) -> bool
    ensures { result ≡ spec.inapplies effect day }
{
    match effect {
        EfficacyEffect::Inapplied(days) => days.includes(day),
        _ => false,
    }
}

// The period of efficacy, after all effects in turn.
fn period_at(force: Period, counted: &[CountedEfficacy]) -> Period
    ensures { result ≡ spec.efficacy_period force counted.now }
{
    let mut period = force;
    for one in counted {
        period = changed(period, one.effect);
    }
    period
}

// Whether some inapplication among them includes the day.
fn is_inapplied(counted: &[CountedEfficacy], day: Day) -> bool
    ensures { result ≡ spec.is_inapplied counted.now day }
{
    for one in counted {
        if inapplies(one.effect, day) {
            return true;
        }
    }
    false
}

/// The efficacy of a thing as of a day: its force period, changed by each counted efficacy modification in turn,
/// and whether the day has efficacy. They stand in ascending order of the day from which they are counted and
/// the id.
pub fn efficacy_at(force: Period, counted: &[CountedEfficacy], day: Day) -> Efficacy
    requires { IsTrue (is_in_order (map efficacy_turn counted.now)) }
    ensures { result ≡ spec.efficacy_at force counted.now day }
{
    let period = period_at(force, counted);
    Efficacy {
        period,
        holds: period.includes(day) && !is_inapplied(counted, day),
    }
}
