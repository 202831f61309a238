//! The life of an act as a table: a row for each event.

ghost use Rattle.std.specs.Prelude.{◌≡◌, ◌++◌, ◌∷◌, [], IfOk, OnOk, string_bytes};
ghost use Rattle.law_reports.specs.Lifecycles as spec;
ghost use Rattle.law_reports.specs.Tables.{IsOpen, Tells, row, written};

use crate::events::{Event, EventKind, Moment, events_of};
use crate::table::Table;
use desk_base::{Id, Memory};
use frbr_names::WorkName;
use law_register::{AskFault, Known, QueryRule, Register, known_at};
use std::alloc::Global;

fn event_id(alloc: Global, kind: EventKind, id: Id) -> Result<String, Memory>
    ensures { IfOk result (λ text. string_bytes text ≡ spec.event_id kind id) }
{
    match kind {
        EventKind::Generation => {
            let law = id.law;
            Ok(format!(in alloc; "{law}")?)
        }
        EventKind::Amendment => id.spelled(alloc),
        EventKind::Repeal => id.spelled(alloc),
    }
}

fn add_fields(
    table: &mut Table,
    day: &str,
    kind: &str,
    source: &str,
    id: &str,
) -> Result<(), Memory>
    requires { IsOpen table.old }
    ensures rows { OnOk result
        (written table.new ≡ written table.old ++ row (day.now ∷ kind.now ∷ source.now ∷ id.now ∷ [])) }
    ensures ready { OnOk result (IsOpen table.new) }
{
    table.add(&[
        day.as_bytes(),
        kind.as_bytes(),
        source.as_bytes(),
        id.as_bytes(),
    ])
}

fn add_event(alloc: Global, table: &mut Table, moment: Moment, event: &Event) -> Result<(), Memory>
    requires { IsOpen table.old }
    ensures rows { OnOk result (written table.new ≡ written table.old ++ row (spec.event_row (moment, event.now))) }
    ensures ready { OnOk result (IsOpen table.new) }
{
    let day = moment.day.spelled(alloc)?;
    let id = event_id(alloc, event.kind, moment.id)?;
    let source = event.source.as_str();
    add_fields(table, day.as_str(), event.kind.name(), source, id.as_str())
}

fn lifecycle_of(alloc: Global, known: &Known) -> Result<Vec<u8>, Memory>
    ensures { IfOk result (λ bytes. bytes.items ≡ spec.lifecycle_of known.now) }
{
    let events = events_of(alloc, known)?;
    let mut table = Table::new(alloc);
    table.add(&[b"date", b"type", b"source", b"id"])?;
    for one in &events {
        add_event(alloc, &mut table, *one.0, one.1)?;
    }
    table.into_bytes()
}

/// The life of a work as a table: when it was enacted, and when it is amended and repealed, by what stands at the front. `Err`:
/// the work is not known, or there was not enough memory.
#[tactic(auto, unfolding(crate::specs::Lifecycles::lifecycle))]
pub fn lifecycle(alloc: Global, register: &Register, work: &WorkName) -> Result<Vec<u8>, AskFault>
    ensures { Tells result (spec.lifecycle register.now.entries work.now) }
{
    match known_at(alloc, register, work, register.front())? {
        Some(known) => Ok(lifecycle_of(alloc, &known)?),
        None => {
            let work = work.copy()?;
            Err(AskFault::Query(QueryRule::UnknownWork(work)))
        }
    }
}
