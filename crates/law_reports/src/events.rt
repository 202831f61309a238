//! Events: when an act was made, amended and repealed, in order.

ghost use Rattle.std.specs.Prelude.{◌≡◌, IfOk, None, OnOk, if◌then◌else◌};
ghost use Rattle.law_reports.specs.Lifecycles as spec;

use bearing_mods::ForceEffect;
use desk_base::{Day, Id, Memory};
use frbr_names::WorkName;
use law_register::{Destination, Known, KnownMod, Modification};
use std::alloc::Global;
use std::collections::BTreeMap;
use textual_mods::TextualMod;

/// What an event is to an act.
#[derive(Clone, Copy, Debug, PartialEq, Eq)]
pub enum EventKind {
    /// It was enacted.
    Generation,
    /// Its text changes.
    Amendment,
    /// It is repealed, or its enactment ends.
    Repeal,
}

impl EventKind {
    /// The word for the kind, as tables have it.
    pub fn name(self) -> &'static str
        ensures { result.now ≡ spec.event_name self }
    {
        match self {
            EventKind::Generation => "generation",
            EventKind::Amendment => "amendment",
            EventKind::Repeal => "repeal",
        }
    }
}

/// When an event is, and the id of what makes it. The enactment of an act is item 0 of its law entry.
#[derive(Clone, Copy, Debug, PartialEq, Eq, PartialOrd, Ord)]
pub struct Moment {
    /// The day.
    pub day: Day,
    /// The id.
    pub id: Id,
}

/// What an event is, and where it comes from.
#[derive(Debug, Drop)]
pub struct Event {
    /// What it is to the act.
    pub kind: EventKind,
    /// The IRI of the work that makes it.
    pub source: WorkName,
}

fn event_at(day: Day, id: Id, kind: EventKind, source: &WorkName) -> Result<(Moment, Event), Memory>
    ensures { IfOk result (λ event. event ≡ spec.event_at day id kind source.now) }
{
    let source = source.copy()?;
    Ok((Moment { day, id }, Event { kind, source }))
}

fn generation(known: &Known) -> Result<(Moment, Event), Memory>
    ensures { IfOk result (λ event. event ≡ spec.generation known.now) }
{
    let act = &known.act;
    let id = Id {
        law: known.enacted,
        item: 0,
    };
    event_at(act.day, id, EventKind::Generation, &act.work)
}

fn kind_of(edit: &TextualMod) -> EventKind
    ensures { result ≡ spec.kind_of_edit edit.now }
{
    match edit {
        TextualMod::Repeal { wid } if wid.as_str() == "body" => EventKind::Repeal,
        _ => EventKind::Amendment,
    }
}

fn is_act(thing: &Destination) -> bool
    ensures { result ≡ spec.is_act thing.now }
{
    match thing {
        Destination::Node(wid) => wid.as_str() == "body",
        Destination::Modification(_) => false,
    }
}

fn event_of_effect(
    id: Id,
    source: &WorkName,
    thing: &Destination,
    effect: ForceEffect,
) -> Result<Option<(Moment, Event)>, Memory>
    ensures { IfOk result (λ event. event ≡ spec.event_of_effect id source.now thing.now effect) }
{
    match effect {
        ForceEffect::Ended(day) => {
            if is_act(thing) {
                Ok(Some(event_at(day, id, EventKind::Repeal, source)?))
            } else {
                Ok(None)
            }
        }
        _ => Ok(None),
    }
}

fn event_of_body(id: Id, body: &Modification) -> Result<Option<(Moment, Event)>, Memory>
    ensures { IfOk result (λ event. event ≡ spec.event_of_body id body.now) }
{
    match body {
        Modification::Textual {
            source,
            force,
            edit,
        } => Ok(Some(event_at(force.start, id, kind_of(edit), &source.href)?)),
        Modification::Force {
            source,
            destination,
            effect,
            ..
        } => event_of_effect(id, &source.href, destination, *effect),
        Modification::Efficacy { .. } => Ok(None),
    }
}

fn event_of(known: &KnownMod) -> Result<Option<(Moment, Event)>, Memory>
    ensures { IfOk result (λ event. event ≡ spec.event_of known.now) }
{
    if known.live {
        event_of_body(known.id, &known.body)
    } else {
        Ok(None)
    }
}

fn insert(events: &mut BTreeMap<Moment, Event>, new: Option<(Moment, Event)>) -> Result<(), Memory>
    ensures { OnOk result (events.new.entries ≡ spec.with_event events.old.entries new) }
{
    match new {
        Some((moment, event)) => {
            events.insert(moment, event)?;
            Ok(())
        }
        None => Ok(()),
    }
}

/// The events in the life of an act, by their days and then their ids.
pub fn events_of(alloc: Global, known: &Known) -> Result<BTreeMap<Moment, Event>, Memory>
    ensures { IfOk result (λ events. events.entries ≡ spec.events_of known.now) }
{
    let mut events = BTreeMap::new(alloc);
    insert(&mut events, Some(generation(known)?))?;
    for one in known.mods.as_slice() {
        insert(&mut events, event_of(one)?)?;
    }
    Ok(events)
}
