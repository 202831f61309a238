//! The days on which the text of a work may change.

ghost use Rattle.std.specs.Prelude.{◌≡◌, [], IfOk, OnOk, if◌then◌else◌};
ghost use Rattle.std.specs.BTreeSet.{insert_key};
ghost use Rattle.std.specs.Ordering.{nat_cmp};
ghost use Rattle.law_register.specs.Answer.Breakpoints as spec;

use bearing_mods::{EfficacyEffect, ForceEffect};
use desk_base::{Day, Memory, Period};
use law_register::{Days, Known, KnownMod, Modification};
use std::alloc::Global;
use std::collections::BTreeSet;

fn insert(days: &mut BTreeSet<Day>, new: Day) -> Result<(), Memory>
    ensures { OnOk result (days.new.keys ≡ insert_key nat_cmp days.old.keys new) }
{
    days.insert(new)?;
    Ok(())
}

fn insert_period(days: &mut BTreeSet<Day>, period: Period) -> Result<(), Memory>
    ensures { OnOk result (days.new.keys ≡ spec.insert_days (spec.period_days period) days.old.keys) }
{
    let start = period.start;
    match period.end {
        Some(end) => {
            insert(days, end)?;
            insert(days, start)
        }
        None => insert(days, start),
    }
}

fn force_date(effect: ForceEffect) -> Day
    ensures { result ≡ spec.force_date effect }
{
    match effect {
        ForceEffect::Entry(day)
        | ForceEffect::Postponed(day)
        | ForceEffect::Ended(day)
        | ForceEffect::Prorogued(day)
        | ForceEffect::ReEnacted(day) => day,
    }
}

fn insert_efficacy(days: &mut BTreeSet<Day>, effect: EfficacyEffect) -> Result<(), Memory>
    ensures { OnOk result (days.new.keys ≡ spec.insert_days (spec.efficacy_days effect) days.old.keys) }
{
    match effect {
        EfficacyEffect::Entry(day) => insert(days, day),
        EfficacyEffect::Ended(day) => insert(days, day),
        EfficacyEffect::Retroactive(day) => insert(days, day),
        EfficacyEffect::Postponed(day) => insert(days, day),
        EfficacyEffect::Prorogued(day) => insert(days, day),
        EfficacyEffect::Extra => Ok(()),
        EfficacyEffect::Inapplied(period) => insert_period(days, period),
    }
}

fn insert_body(days: &mut BTreeSet<Day>, body: &Modification) -> Result<(), Memory>
    ensures { OnOk result (days.new.keys ≡ spec.insert_days (spec.days_of body.now) days.old.keys) }
{
    match body {
        Modification::Textual { force, .. } => insert_period(days, *force),
        Modification::Force { on, effect, .. } => {
            insert(days, force_date(*effect))?;
            insert(days, *on)
        }
        Modification::Efficacy { on, effect, .. } => {
            insert_efficacy(days, *effect)?;
            insert(days, *on)
        }
    }
}

// Puts the days of a known modification in their places, if it stands.
fn insert_known(days: &mut BTreeSet<Day>, known: &KnownMod) -> Result<(), Memory>
    ensures { OnOk result
        (days.new.keys ≡ spec.insert_days (if known.now.live then spec.days_of known.now.body else []) days.old.keys) }
{
    if known.live {
        insert_body(days, &known.body)
    } else {
        Ok(())
    }
}

fn live_days(alloc: Global, mods: &[KnownMod]) -> Result<BTreeSet<Day>, Memory>
    ensures { IfOk result (λ days. days.keys ≡ spec.live_days mods.now) }
{
    let mut days = BTreeSet::new(alloc);
    for index in (0..mods.len()).rev() {
        insert_known(&mut days, &mods[index])?;
    }
    Ok(days)
}

// Puts days in their places, from the last on.
fn insert_days(days: &mut BTreeSet<Day>, new: &[Day]) -> Result<(), Memory>
    ensures { OnOk result (days.new.keys ≡ spec.insert_days new.now days.old.keys) }
{
    for index in (0..new.len()).rev() {
        insert(days, new[index])?;
    }
    Ok(())
}

fn listed(alloc: Global, days: &BTreeSet<Day>) -> Result<Days, Memory>
    ensures { IfOk result (λ list. list ≡ days.now.keys) }
{
    let mut items = Vec::new(alloc);
    for day in days {
        items.push(*day)?;
    }
    Ok(Days::from(items))
}

/// The days of the act's force period and of the modifications that stand, and those on which the texts of the works may change on
/// which the work depends, ascending, each once.
pub fn breakpoints(alloc: Global, known: &Known) -> Result<Days, Memory>
    ensures { IfOk result (λ days. days ≡ spec.breakpoints known.now) }
{
    let mut days = live_days(alloc, known.mods.as_slice())?;
    insert_days(&mut days, known.source_days.as_slice())?;
    insert_period(&mut days, known.act.force)?;
    listed(alloc, &days)
}
