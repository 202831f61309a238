//! The effects of modifications of force and of efficacy, each with the day from which it is counted.

ghost use Rattle.std.specs.Prelude.{◌≡◌, ◌++◌, ◌∷◌, OnOk};
ghost use Rattle.entry_codec.specs.Modifications as spec;
ghost use Rattle.entry_codec.specs.Typed as typed;
ghost use Rattle.desk_base.specs.Days.{IsDay};

use super::values::{put_day, put_period};
use bearing_mods::{EfficacyEffect, ForceEffect};
use desk_base::{Day, Memory, Period};

// An effect with a date, by the byte for its kind.
fn put_dates(out: &mut Vec<u8>, kind: u8, on: Day, date: Day) -> Result<(), Memory>
    ensures bytes { OnOk result (out.new.items ≡ out.old.items ++ kind ∷ spec.dates.spell (on, date)) }
    ensures typed { OnOk result (IsDay on × IsDay date) }
{
    out.push(kind)?;
    put_day(out, on)?;
    put_day(out, date)?;
    Ok(())
}

// An effect with one day, by the byte for its kind.
fn put_one_day(out: &mut Vec<u8>, kind: u8, day: Day) -> Result<(), Memory>
    ensures bytes { OnOk result (out.new.items ≡ out.old.items ++ kind ∷ spec.one_day.spell day) }
    ensures typed { OnOk result (IsDay day) }
{
    out.push(kind)?;
    put_day(out, day)?;
    Ok(())
}

// An inapplication: the day from which it is counted, and its days.
fn put_inapplied(out: &mut Vec<u8>, on: Day, days: Period) -> Result<(), Memory>
    ensures bytes { OnOk result (out.new.items ≡ out.old.items ++ 7 ∷ spec.inapplied.spell (on, days)) }
    ensures typed { OnOk result (IsDay on × typed.IsPeriod days) }
{
    out.push(7)?;
    put_day(out, on)?;
    put_period(out, days)?;
    Ok(())
}

#[tactic(auto, unfolding(crate::specs::Modifications::force_effect))]
pub(super) fn put_force_effect(
    out: &mut Vec<u8>,
    on: Day,
    effect: ForceEffect,
) -> Result<(), Memory>
    ensures bytes { OnOk result (out.new.items ≡ out.old.items ++ spec.force_effect.spell (on, effect)) }
    ensures typed { OnOk result (typed.IsForceEffect on effect) }
{
    match effect {
        ForceEffect::Entry(date) => put_dates(out, 1, on, date),
        ForceEffect::Postponed(date) => put_dates(out, 2, on, date),
        ForceEffect::Ended(date) => put_dates(out, 3, on, date),
        ForceEffect::Prorogued(date) => put_dates(out, 4, on, date),
        ForceEffect::ReEnacted(date) => put_dates(out, 5, on, date),
    }
}

// A retroactivity is counted from its date, which is not written twice.
#[tactic(auto, unfolding(crate::specs::Modifications::efficacy_effect))]
pub(super) fn put_efficacy_effect(
    out: &mut Vec<u8>,
    on: Day,
    effect: EfficacyEffect,
) -> Result<(), Memory>
    ensures bytes { OnOk result (out.new.items ≡ out.old.items ++ spec.efficacy_effect.spell (on, effect)) }
    ensures typed { OnOk result (typed.IsEfficacyEffect on effect) }
{
    match effect {
        EfficacyEffect::Entry(date) => put_dates(out, 1, on, date),
        EfficacyEffect::Ended(date) => put_dates(out, 2, on, date),
        EfficacyEffect::Retroactive(date) => put_one_day(out, 3, date),
        EfficacyEffect::Postponed(date) => put_dates(out, 4, on, date),
        EfficacyEffect::Prorogued(date) => put_dates(out, 5, on, date),
        EfficacyEffect::Extra => put_one_day(out, 6, on),
        EfficacyEffect::Inapplied(days) => put_inapplied(out, on, days),
    }
}
