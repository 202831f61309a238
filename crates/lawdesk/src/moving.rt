//! Moving: the payloads of the register that is kept are moved to another that has the first of them.

ghost use Rattle.std.specs.Prelude.{◌≡◌, Err, IfOk, string_bytes};
ghost use Rattle.dossier_text.specs.Views.{report_view};
ghost use Rattle.lawdesk.specs.Moving as spec;

use crate::telling::{report_damage, tell};
use desk_base::{Memory, Sink};
use dossier_text::{Report, line};
use law_keeper::Keeper;
use law_register::Damage;
use sql_keeper::{MoveFault, move_all};
use std::alloc::Global;

// The line of how many payloads were moved.
fn report_moved(alloc: Global, count: u64) -> Result<Report, Memory>
    ensures { IfOk result (λ report. report_view report ≡ spec.told_moved count) }
{
    Ok(Report {
        status: 0,
        bytes: line(format!(in alloc; "moved {count}")?.into_bytes())?,
    })
}

// The first place at which the lists differ, as JSON.
fn difference_text(alloc: Global, place: u64) -> Result<String, Memory>
    ensures { IfOk result (λ text. string_bytes text ≡ spec.difference_text place) }
{
    Ok(format!(in alloc; "{{\"differs\":{place}}}")?)
}

// The line of the first place at which the lists differ.
fn report_difference(alloc: Global, place: u64) -> Result<Report, Memory>
    ensures { IfOk result (λ report. report_view report ≡ spec.told_difference place) }
{
    Ok(Report {
        status: 11,
        bytes: line(difference_text(alloc, place)?.into_bytes())?,
    })
}

// Tells why a move ended before its list did, and gives the status to end with.
fn tell_stop<W: Sink>(alloc: Global, sink: &mut W, stop: MoveFault) -> u8
    ensures { spec.TellsMove W.written W.faults sink.old sink.new (Err stop) result }
{
    match stop {
        MoveFault::Differs(place) => tell(sink, report_difference(alloc, place)),
        MoveFault::Damaged { place, byte } => {
            tell(sink, report_damage(alloc, Damage::Journal { place, byte }))
        }
        MoveFault::Failed => 5,
        MoveFault::Memory => 7,
    }
}

// Tells how a move ended, and gives the status to end with.
fn tell_move<W: Sink>(alloc: Global, sink: &mut W, moved: Result<u64, MoveFault>) -> u8
    ensures { spec.TellsMove W.written W.faults sink.old sink.new moved result }
{
    match moved {
        Ok(count) => tell(sink, report_moved(alloc, count)),
        Err(stop) => tell_stop(alloc, sink, stop),
    }
}

/// Moves what a keeper has to another, writes how many payloads were moved, where the lists differ or what is damaged, and gives the
/// status to end with.
pub fn move_register<W: Sink, K: Keeper, O: Keeper>(
    alloc: Global,
    sink: &mut W,
    keeper: &mut K,
    other: &mut O,
) -> u8
    ensures { spec.RanMove K.holding K.faults O.holding O.faults W.written W.faults
        keeper.old keeper.new other.old other.new sink.old sink.new result }
{
    let moved = move_all(alloc, keeper, other);
    tell_move(alloc, sink, moved)
}
