//! Laws of force, efficacy and equality. Each law is a function that does nothing, whose clause is the law.

ghost use Rattle.std.specs.Prelude.{◌≡◌, ◌≤◌, ◌++◌, ◌↔◌, IsTrue, IsFalse, Contains, Some, None};
ghost use Rattle.desk_base.specs.Periods.{includes};
ghost use Rattle.bearing_mods.specs.Force.{force_after, force_at};
ghost use Rattle.bearing_mods.specs.Efficacy.{efficacy_after, efficacy_period, efficacy_at, inapplies};
ghost use Rattle.bearing_mods.specs.declared.efficacy.EfficacyEffect.{EfficacyEffect as EfficacyValue};
ghost use Rattle.bearing_mods.specs.declared.force.ForceEffect.{ForceEffect as ForceValue};

use crate::{CountedEfficacy, CountedForce, EfficacyEffect, ForceEffect};
use desk_base::{Day, Period};

/// No postponement moves a start backwards.
pub fn postponement_moves_no_start_backwards(_period: Period, _date: Day)
    ensures force { _period.start ≤ (force_after _period (ForceEffect.Postponed _date)).start }
    ensures efficacy { _period.start ≤ (efficacy_after _period (EfficacyEffect.Postponed _date)).start }
{}

/// Retroactivity moves no start forwards.
pub fn retroactivity_moves_no_start_forwards(_period: Period, _date: Day)
    ensures { (efficacy_after _period (EfficacyEffect.Retroactive _date)).start ≤ _period.start }
{}

/// No prorogation gives an end to a period that has none.
pub fn prorogation_makes_no_end(_period: Period, _date: Day)
    requires { _period.end ≡ None }
    ensures force { (force_after _period (ForceEffect.Prorogued _date)).end ≡ None }
    ensures efficacy { (efficacy_after _period (EfficacyEffect.Prorogued _date)).end ≡ None }
{}

/// A period does not include its end.
pub fn end_is_excluded(_period: Period, _end: Day)
    requires { _period.end ≡ Some _end }
    ensures { IsFalse (includes _period _end) }
{}

/// An inapplication leaves the period.
pub fn inapplication_leaves_period(_period: Period, _days: Period)
    ensures { efficacy_after _period (EfficacyEffect.Inapplied _days) ≡ _period }
{}

/// On a day of a counted inapplication there is no efficacy, whatever else is counted.
pub fn inapplied_day_has_no_efficacy(
    _force: Period,
    _counted: &[CountedEfficacy],
    _one: CountedEfficacy,
    _day: Day,
)
    requires counted { Contains _counted.now _one }
    requires inapplied { IsTrue (inapplies _one.effect _day) }
    ensures { IsFalse (efficacy_at _force _counted.now _day).holds }
{}

/// What more is counted behind a list changes the period that the list made.
pub fn force_goes_on(_base: Period, _first: &[CountedForce], _later: &[CountedForce])
    ensures { force_at _base (_first.now ++ _later.now) ≡ force_at (force_at _base _first.now) _later.now }
{}

/// What more is counted behind a list changes the period of efficacy that the list made.
pub fn efficacy_goes_on(_force: Period, _first: &[CountedEfficacy], _later: &[CountedEfficacy])
    ensures { efficacy_period _force (_first.now ++ _later.now)
        ≡ efficacy_period (efficacy_period _force _first.now) _later.now }
{}

/// `==` holds of effects exactly where they are equal.
pub fn equality_is_decided()
    ensures force { (a b : ForceValue) → IsTrue (⟦<ForceEffect as PartialEq>⟧.eq a b) ↔ (a ≡ b) }
    ensures efficacy { (a b : EfficacyValue) → IsTrue (⟦<EfficacyEffect as PartialEq>⟧.eq a b) ↔ (a ≡ b) }
{}
