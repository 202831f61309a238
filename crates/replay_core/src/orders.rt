//! The orders of many days: each from that of the day before, where only what is due from another day takes another place.

ghost use Rattle.std.specs.Prelude.{◌≡◌, false, IfOk, OnOk, length, map};
ghost use Rattle.law_register.specs.Answer.Order.{due_on, order, with_due};
ghost use Rattle.law_register.specs.Answer.Soundness.{IsSound, id_twice};
ghost use Rattle.replay_core.specs.Starts as spec;

use crate::on_day::OnDay;
use crate::order::{due_from, ids_of, insert};
use crate::standing::counts;
use desk_base::{Day, Id, Memory};
use law_register::{Destination, Due, Ids, Known, KnownMod, Modification, Reading};
use std::alloc::Global;
use std::collections::BTreeSet;

fn body_start(on: &OnDay<'_>, id: Id, body: &Modification) -> Option<Day>
    ensures { result ≡ spec.body_start on.now.reading on.now.day on.now.known.now.mods id body.now }
{
    match body {
        Modification::Textual { force, .. } => {
            let thing = Destination::Modification(id);
            on.start_of(&thing, *force)
        }
        Modification::Force { .. } => None,
        Modification::Efficacy { .. } => None,
    }
}

fn known_start(on: &OnDay<'_>, known: &KnownMod) -> Option<Day>
    ensures { result ≡ spec.known_start on.now.reading on.now.day on.now.known.now.mods known.now }
{
    if counts(on.reading, on.day, known) {
        body_start(on, known.id, &known.body)
    } else {
        None
    }
}

// The days from which the known modifications are due.
fn starts_of(alloc: Global, on: &OnDay<'_>) -> Result<Vec<Option<Day>>, Memory>
    ensures { IfOk result (λ all. all.items
        ≡ spec.starts_of on.now.reading on.now.day on.now.known.now.mods on.now.known.now.mods) }
{
    let mods = on.known.mods.as_slice();
    let mut all = Vec::new(alloc);
    for known in mods {
        all.push(known_start(on, known))?;
    }
    Ok(all)
}

fn body_due(id: Id, start: Day, body: &Modification) -> Result<Option<Due>, Memory>
    ensures { IfOk result (λ due. due ≡ spec.body_due id start body.now) }
{
    match body {
        Modification::Textual { source, .. } => Ok(Some(due_from(source, id, start)?)),
        Modification::Force { .. } => Ok(None),
        Modification::Efficacy { .. } => Ok(None),
    }
}

fn known_due(known: &KnownMod, start: Option<Day>) -> Result<Option<Due>, Memory>
    ensures { IfOk result (λ due. due ≡ spec.known_due known.now start) }
{
    match start {
        Some(day) => body_due(known.id, day, &known.body),
        None => Ok(None),
    }
}

fn remove(dues: &mut BTreeSet<Due>, old: Option<Due>)
    ensures { dues.new.keys ≡ spec.without_due dues.old.keys old }
{
    match old {
        Some(due) => {
            dues.remove(&due);
        }
        None => {}
    }
}

// A known modification that was due from one day becomes due from another.
fn change(
    dues: &mut BTreeSet<Due>,
    known: &KnownMod,
    old: Option<Day>,
    new: Option<Day>,
) -> Result<(), Memory>
    ensures { OnOk result (dues.new.keys
        ≡ with_due (spec.without_due dues.old.keys (spec.known_due known.now old)) (spec.known_due known.now new)) }
{
    remove(dues, known_due(known, old)?);
    insert(dues, known_due(known, new)?)
}

fn is_other(old: Option<Day>, new: Option<Day>) -> bool
    ensures { result ≡ false → old ≡ new }
{
    match (old, new) {
        (Some(day), Some(next)) => day != next,
        (None, None) => false,
        _ => true,
    }
}

// What is due from the old days becomes what is due from the new ones.
fn change_all(
    dues: &mut BTreeSet<Due>,
    mods: &[KnownMod],
    olds: &[Option<Day>],
    news: &[Option<Day>],
) -> Result<(), Memory>
    requires once { id_twice (map (λ m. m.id) mods.now) ≡ false }
    requires olds { length olds.now ≡ length mods.now }
    requires news { length news.now ≡ length mods.now }
    requires due { dues.old.keys ≡ spec.due_by mods.now olds.now }
    ensures { OnOk result (dues.new.keys ≡ spec.due_by mods.now news.now) }
{
    for index in 0..mods.len() {
        if is_other(olds[index], news[index]) {
            change(dues, &mods[index], olds[index], news[index])?;
        }
    }
    Ok(())
}

// What is due, and from which days, becomes that of a day.
fn turn(
    alloc: Global,
    on: &OnDay<'_>,
    starts: &mut Vec<Option<Day>>,
    dues: &mut BTreeSet<Due>,
) -> Result<(), Memory>
    requires once { id_twice (map (λ m. m.id) on.now.known.now.mods) ≡ false }
    requires starts { length starts.old.items ≡ length on.now.known.now.mods }
    requires due { dues.old.keys ≡ spec.due_by on.now.known.now.mods starts.old.items }
    ensures starts { OnOk result (length starts.new.items ≡ length on.now.known.now.mods) }
    ensures by { OnOk result (dues.new.keys ≡ spec.due_by on.now.known.now.mods starts.new.items) }
    ensures due { OnOk result (dues.new.keys ≡ due_on on.now.known.now on.now.reading on.now.day) }
{
    let news = starts_of(alloc, on)?;
    change_all(
        dues,
        on.known.mods.as_slice(),
        starts.as_slice(),
        news.as_slice(),
    )?;
    *starts = news;
    Ok(())
}

fn no_start(_known: &KnownMod) -> Option<Day>
    ensures { result ≡ spec.no_start _known.now }
{
    None
}

// The days from which the known modifications are due, before any day.
fn no_starts(alloc: Global, mods: &[KnownMod]) -> Result<Vec<Option<Day>>, Memory>
    ensures { IfOk result (λ all. all.items ≡ map spec.no_start mods.now) }
{
    let mut all = Vec::new(alloc);
    for known in mods {
        all.push(no_start(known))?;
    }
    Ok(all)
}

/// The ids of the textual modifications that bear on each of these days, in the order in which they are applied.
pub fn orders_at(
    alloc: Global,
    known: &Known,
    reading: Reading,
    days: &[Day],
) -> Result<Vec<Ids>, Memory>
    requires { IsSound known.now }
    ensures { IfOk result (λ orders. orders.items ≡ map (order known.now reading) days.now) }
{
    let mut starts = no_starts(alloc, known.mods.as_slice())?;
    let mut dues = BTreeSet::new(alloc);
    let mut orders = Vec::new(alloc);
    for day in days {
        let on = OnDay::new(alloc, known, reading, *day)?;
        turn(alloc, &on, &mut starts, &mut dues)?;
        orders.push(ids_of(alloc, &dues)?)?;
    }
    Ok(orders)
}
