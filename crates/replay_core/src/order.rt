//! The textual modifications that bear on a day, in the order in which they are applied.

ghost use Rattle.std.specs.Prelude.{◌≡◌, IfOk, None, OnOk, if◌then◌else◌, map, option_map};
ghost use Rattle.law_register.specs.Answer.Order as spec;
ghost use Rattle.law_register.specs.declared.law.modification.Destination.TheVariants as to;
ghost use Rattle.law_register.specs.Answer.Bearing.{start_on};
ghost use Rattle.law_register.specs.Answer.Standing.{counts};

use crate::on_day::OnDay;
use crate::standing::counts;
use desk_base::{Day, Id, Memory, Period};
use law_register::{Destination, Due, Ids, Known, KnownMod, ModSource, Modification, Reading};
use std::alloc::Global;
use std::collections::BTreeSet;

fn source_day(source: &ModSource) -> Day
    ensures { result ≡ spec.source_day source.now }
{
    source.href.day()
}

pub fn due_from(source: &ModSource, id: Id, start: Day) -> Result<Due, Memory>
    ensures { IfOk result (λ due. due ≡ spec.due_from source.now id start) }
{
    Ok(Due {
        start,
        source_day: source_day(source),
        href: source.href.copy()?,
        place: source.place,
        id,
    })
}

fn textual_due(
    on: &OnDay<'_>,
    id: Id,
    source: &ModSource,
    own: &Period,
) -> Result<Option<Due>, Memory>
    ensures { IfOk result (λ due. due ≡ option_map (spec.due_from source.now id)
        (start_on on.now.reading on.now.day on.now.known.now.mods (to.Modification id) own.now)) }
{
    let thing = Destination::Modification(id);
    match on.start_of(&thing, *own) {
        Some(start) => Ok(Some(due_from(source, id, start)?)),
        None => Ok(None),
    }
}

fn due_as(on: &OnDay<'_>, id: Id, body: &Modification) -> Result<Option<Due>, Memory>
    ensures { IfOk result (λ due. due ≡ spec.due_as on.now.reading on.now.day on.now.known.now.mods id body.now) }
{
    match body {
        Modification::Textual { source, force, .. } => textual_due(on, id, source, force),
        Modification::Force { .. } => Ok(None),
        Modification::Efficacy { .. } => Ok(None),
    }
}

fn due_if_counted(on: &OnDay<'_>, known: &KnownMod) -> Result<Option<Due>, Memory>
    ensures { IfOk result (λ due. due ≡ (if counts on.now.reading on.now.day known.now
        then spec.due_as on.now.reading on.now.day on.now.known.now.mods known.now.id known.now.body else None)) }
{
    if counts(on.reading, on.day, known) {
        due_as(on, known.id, &known.body)
    } else {
        Ok(None)
    }
}

pub fn insert(dues: &mut BTreeSet<Due>, new: Option<Due>) -> Result<(), Memory>
    ensures { OnOk result (dues.new.keys ≡ spec.with_due dues.old.keys new) }
{
    match new {
        Some(due) => {
            dues.insert(due)?;
            Ok(())
        }
        None => Ok(()),
    }
}

fn due_on(alloc: Global, on: &OnDay<'_>) -> Result<BTreeSet<Due>, Memory>
    ensures { IfOk result (λ dues. dues.keys ≡ spec.due_on on.now.known.now on.now.reading on.now.day) }
{
    let mods = on.known.mods.as_slice();
    let mut dues = BTreeSet::new(alloc);
    for index in (0..mods.len()).rev() {
        insert(&mut dues, due_if_counted(on, &mods[index])?)?;
    }
    Ok(dues)
}

pub fn ids_of(alloc: Global, dues: &BTreeSet<Due>) -> Result<Ids, Memory>
    ensures { IfOk result (λ ids. ids ≡ map (λ due. due.id) dues.now.keys) }
{
    let mut ids = Ids::new(alloc);
    for due in dues {
        ids.push(due.id)?;
    }
    Ok(ids)
}

fn ids_on(alloc: Global, on: &OnDay<'_>) -> Result<Ids, Memory>
    ensures { IfOk result (λ ids. ids ≡ spec.order on.now.known.now on.now.reading on.now.day) }
{
    let dues = due_on(alloc, on)?;
    ids_of(alloc, &dues)
}

/// The ids of the textual modifications that bear on a day, in the order in which they are applied.
pub fn order_at(alloc: Global, known: &Known, reading: Reading, day: Day) -> Result<Ids, Memory>
    ensures { IfOk result (λ ids. ids ≡ spec.order known.now reading day) }
{
    let on = OnDay::new(alloc, known, reading, day)?;
    ids_on(alloc, &on)
}
