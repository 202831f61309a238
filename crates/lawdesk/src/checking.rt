//! Checking: whether what is kept is a register, and where not, what first shows it.

ghost use Rattle.std.specs.Prelude.{◌≡◌, ◌≢◌, ℕ, Err, IfErr, IfOk, Result, List};
ghost use Rattle.law_keeper.specs.Keepers.{Keeps, LeavesOldOrSame};
ghost use Rattle.law_office.specs.Opening.{HasOpenCause, Opens, StaysUnlessFailed};
ghost use Rattle.law_register.specs.declared.desk.damage.Damage.{Damage};
ghost use Rattle.law_register.specs.declared.desk.open_fault.OpenFault.TheVariants as fails;
ghost use Rattle.law_register.specs.declared.register.entry.Entry.{Entry};
ghost use Rattle.lawdesk.specs.Checking.{HasCheckCause, RanCheck, checked, told_opened, told_register};
ghost use Rattle.dossier_text.specs.Views.{report_view};

use crate::telling::{report_damage, tell_report};
use desk_base::{Memory, Sink};
use dossier_text::{Report, line};
use law_keeper::Keeper;
use law_office::Opened;
use law_register::{OpenFault, Register};
use std::alloc::Global;
use std::mem::forget;

// The report of a register: how many entries and how many law entries it has.
fn report_register(alloc: Global, register: &Register) -> Result<Report, Memory>
    ensures { IfOk result (λ report. report_view report ≡ told_register register.now.entries) }
{
    let (entries, law) = (register.len(), register.front());
    Ok(Report {
        status: 0,
        bytes: line(format!(in alloc; "entries {entries} law {law}")?.into_bytes())?,
    })
}

// The report of an opening: a register, or what is damaged. It is refused where the keeper failed, or for want of memory.
fn report_opened(alloc: Global, opened: &Result<Opened, OpenFault>) -> Result<Report, OpenFault>
    ensures told { (told : Result (List Entry) Damage) → Opens (λ opened. opened.register.entries) opened.now told
        → IfOk result (λ report. report_view report ≡ told_opened told) }
    ensures cause { (before now : ℕ) → HasOpenCause before now opened.now → HasCheckCause before now result }
    ensures stays { (before now : ℕ) → HasOpenCause before now opened.now → IfErr opened.now (StaysUnlessFailed before now)
        → result ≢ Err fails.Failed → now ≡ before }
{
    match opened {
        Ok(opened) => Ok(report_register(alloc, &opened.register)?),
        Err(OpenFault::Damaged(damage)) => Ok(report_damage(alloc, *damage)?),
        Err(OpenFault::Failed) => Err(OpenFault::Failed),
        Err(OpenFault::Memory) => Err(OpenFault::Memory),
    }
}

// The report of what a keeper has. Its payloads stay. The program ends with it, and the register's memory goes with the
// program: to free it entry by entry would take longer than to judge them.
#[tactic(auto, unfolding(crate::specs::Checking::checked))]
fn report_kept<K: Keeper>(alloc: Global, keeper: &mut K) -> Result<Report, OpenFault>
    ensures told { (K.holding keeper.old).tells
        → IfOk result (λ report. report_view report ≡ checked (K.holding keeper.old).list) }
    ensures cause { HasCheckCause (K.faults keeper.old) (K.faults keeper.new) result }
    ensures stays { (K.holding keeper.old).tells → result ≢ Err fails.Failed
        → K.faults keeper.new ≡ K.faults keeper.old }
    ensures same { Keeps (K.holding keeper.old) (K.holding keeper.new) }
    ensures crash { LeavesOldOrSame (K.holding keeper.old) (K.holding keeper.new) }
{
    let opened = Opened::open(alloc, keeper);
    let report = report_opened(alloc, &opened);
    forget(opened);
    report
}

/// Opens the register that is kept, writes how many entries it has or what is damaged, and gives the status to end with.
pub fn check<W: Sink, K: Keeper>(alloc: Global, sink: &mut W, keeper: &mut K) -> u8
    ensures { RanCheck K.holding K.faults W.written W.faults keeper.old keeper.new sink.old sink.new result }
{
    let report = report_kept(alloc, keeper);
    tell_report(alloc, sink, report)
}
