//! Telling: what a run tells is written, and its status is the run's.

ghost use Rattle.std.specs.Prelude.{◌≡◌, IfOk};
ghost use Rattle.dossier_text.specs.Reports.{Told};
ghost use Rattle.dossier_text.specs.Views.{report_view};
ghost use Rattle.lawdesk.specs.Telling.{Tells, TellsReport, TellsUnopened, told_damage};

use akn_json::put_damage;
use desk_base::{Memory, Sink};
use dossier_text::{Report, line};
use law_register::{Damage, OpenFault};
use std::alloc::Global;

/// Writes what is told, and gives the status to end with: 4 where the sink failed, 7 where there was not enough memory to make it.
pub fn tell<W: Sink>(sink: &mut W, told: Result<Report, Memory>) -> u8
    ensures told { (known : Told) → IfOk told (λ report. report_view report ≡ known)
        → Tells W.written W.faults sink.old sink.new result known }
{
    match told {
        Ok(report) => match sink.write_all(report.bytes.as_slice()) {
            Ok(()) => report.status,
            Err(_) => 4,
        },
        Err(Memory) => 7,
    }
}

/// The report of what keeps a register from being opened.
pub fn report_damage(alloc: Global, damage: Damage) -> Result<Report, Memory>
    ensures { IfOk result (λ report. report_view report ≡ told_damage damage) }
{
    Ok(Report {
        status: 6,
        bytes: line(put_damage(alloc, damage)?)?,
    })
}

/// Tells what keeps the register from being opened, and gives the status to end with.
pub fn tell_unopened<W: Sink>(alloc: Global, sink: &mut W, fault: OpenFault) -> u8
    ensures { TellsUnopened W.written W.faults sink.old sink.new result fault }
{
    match fault {
        OpenFault::Damaged(damage) => tell(sink, report_damage(alloc, damage)),
        OpenFault::Failed => 5,
        OpenFault::Memory => 7,
    }
}

/// Tells what is reported of what is kept, or why there is no report, and gives the status to end with.
pub fn tell_report<W: Sink>(alloc: Global, sink: &mut W, report: Result<Report, OpenFault>) -> u8
    ensures { TellsReport W.written W.faults sink.old sink.new result report }
{
    match report {
        Ok(report) => tell(sink, Ok(report)),
        Err(fault) => tell_unopened(alloc, sink, fault),
    }
}
