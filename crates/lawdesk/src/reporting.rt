//! Reporting: a table of what the register that is kept knows.

ghost use Rattle.std.specs.Prelude.{◌≡◌, ◌≢◌, ℕ, true, Err, IfErr, IfOk, List, Result};
ghost use Rattle.law_keeper.specs.Keepers.{Keeps, LeavesOldOrSame};
ghost use Rattle.law_office.specs.Offices.{IsRight};
ghost use Rattle.law_office.specs.Opening.{HasOpenCause, Opens, StaysUnlessFailed};
ghost use Rattle.law_refs.specs.Missing.{IsDangling};
ghost use Rattle.law_register.specs.declared.answer.queries.QueryRule.{QueryRule as Rule};
ghost use Rattle.law_register.specs.declared.desk.damage.Damage.{Damage};
ghost use Rattle.law_register.specs.declared.desk.open_fault.OpenFault.TheVariants as fails;
ghost use Rattle.law_register.specs.declared.register.entry.Entry.{Entry};
ghost use Rattle.law_reports.specs.Tables.{Tells};
ghost use Rattle.lawdesk.specs.Reporting.{HasReportCause, IsReport, IsReportOf, IsReported, RanReport, asks_register, told_table};
ghost use Rattle.lawdesk.specs.declared.report_job.ReportJob.TheVariants as jobs;
ghost use Rattle.dossier_text.specs.Views.{report_view};

use crate::report_job::ReportJob;
use crate::telling::{report_damage, tell_report};
use akn_json::put_query_rule;
use desk_base::laws::day_is_numbered;
use desk_base::{Day, Memory, Sink, Steps};
use dossier_text::{Report, line};
use held_provisions::FromLine;
use law_keeper::Keeper;
use law_office::{Book, Opened};
use law_refs::Dangling;
use law_refs::laws::what_dangles_is_listed;
use law_register::{AskFault, OpenFault, Register};
use law_reports::{correspondence, dangling_refs, lifecycle, unapplied};
use replay_core::FromEnacted;
use std::alloc::Global;
use std::mem::forget;
use std::sync::ledger::Ledger;

// The report of a table, or of the rule that refuses it.
fn report_table(alloc: Global, told: Result<Vec<u8>, AskFault>) -> Result<Report, Memory>
    ensures { (answer : Result (List ℕ) Rule) → Tells told answer
        → IfOk result (λ report. report_view report ≡ told_table answer) }
{
    match told {
        Ok(bytes) => Ok(Report { status: 0, bytes }),
        Err(AskFault::Query(rule)) => Ok(Report {
            status: 9,
            bytes: line(put_query_rule(alloc, &rule)?)?,
        }),
        Err(AskFault::Memory) => Err(Memory),
    }
}

// The report that a job asks of a register alone.
fn report_of<L: Ledger>(
    alloc: Global,
    job: &ReportJob,
    register: &Register,
    steps: &mut Steps<L>,
) -> Result<Report, Memory>
    requires alone { asks_register job.now ≡ true }
    ensures { IfOk result (λ report. IsReport job.now register.now.entries (report_view report)) }
{
    match job {
        ReportJob::Lifecycle { work } => report_table(alloc, lifecycle(alloc, register, work)),
        ReportJob::Correspondence {
            work,
            first,
            second,
        } => {
            let told = correspondence(
                alloc,
                &FromEnacted,
                &FromLine,
                register,
                work,
                *first,
                *second,
                steps,
            );
            report_table(alloc, told)
        }
        ReportJob::Unapplied { day } => Ok(Report {
            status: 0,
            bytes: unapplied(alloc, &FromEnacted, &FromLine, register, *day, steps)?,
        }),
        ReportJob::Dangling { .. } => unreachable!(),
    }
}

// What dangles on a day, by the index of a book.
fn dangling_in(alloc: Global, day: Day, book: &Book) -> Result<Dangling, Memory>
    requires { IsRight book.now }
    ensures { IfOk result (λ found. IsDangling book.now.register.entries day found) }
{
    day_is_numbered(day);
    what_dangles_is_listed(&book.refs);
    book.refs.dangling(alloc, day)
}

// The report of it.
fn report_dangling(alloc: Global, day: Day, book: &Book) -> Result<Report, Memory>
    requires { IsRight book.now }
    ensures { IfOk result (λ report. IsReport (jobs.Dangling day) book.now.register.entries (report_view report)) }
{
    let found = dangling_in(alloc, day, book)?;
    Ok(Report {
        status: 0,
        bytes: dangling_refs(alloc, &found)?,
    })
}

// The report of an opening: what a job asks of a register alone, or what is damaged. It is refused where the keeper failed, or for
// want of memory.
fn report_opened<L: Ledger>(
    alloc: Global,
    job: &ReportJob,
    opened: &Result<Opened, OpenFault>,
    steps: &mut Steps<L>,
) -> Result<Report, OpenFault>
    requires alone { asks_register job.now ≡ true }
    ensures told { (told : Result (List Entry) Damage) → Opens (λ opened. opened.register.entries) opened.now told
        → IfOk result (λ report. IsReportOf job.now told (report_view report)) }
    ensures cause { (before now : ℕ) → HasOpenCause before now opened.now → HasReportCause before now result }
    ensures stays { (before now : ℕ) → HasOpenCause before now opened.now → IfErr opened.now (StaysUnlessFailed before now)
        → result ≢ Err fails.Failed → now ≡ before }
{
    match opened {
        Ok(opened) => Ok(report_of(alloc, job, &opened.register, steps)?),
        Err(OpenFault::Damaged(damage)) => Ok(report_damage(alloc, *damage)?),
        Err(OpenFault::Failed) => Err(OpenFault::Failed),
        Err(OpenFault::Memory) => Err(OpenFault::Memory),
    }
}

// The same of the opening of a book: what dangles on a day.
fn report_booked(
    alloc: Global,
    day: Day,
    booked: &Result<Book, OpenFault>,
) -> Result<Report, OpenFault>
    requires right { IfOk booked.now IsRight }
    ensures told { (told : Result (List Entry) Damage) → Opens (λ book. book.register.entries) booked.now told
        → IfOk result (λ report. IsReportOf (jobs.Dangling day) told (report_view report)) }
    ensures cause { (before now : ℕ) → HasOpenCause before now booked.now → HasReportCause before now result }
    ensures stays { (before now : ℕ) → HasOpenCause before now booked.now → IfErr booked.now (StaysUnlessFailed before now)
        → result ≢ Err fails.Failed → now ≡ before }
{
    match booked {
        Ok(book) => Ok(report_dangling(alloc, day, book)?),
        Err(OpenFault::Damaged(damage)) => Ok(report_damage(alloc, *damage)?),
        Err(OpenFault::Failed) => Err(OpenFault::Failed),
        Err(OpenFault::Memory) => Err(OpenFault::Memory),
    }
}

// The report of what dangles in what a keeper has. Its payloads stay. The program ends with it, and the book's memory goes with the
// program.
fn dangling_kept<K: Keeper, L: Ledger>(
    alloc: Global,
    day: Day,
    keeper: &mut K,
    steps: &mut Steps<L>,
) -> Result<Report, OpenFault>
    ensures told { (K.holding keeper.old).tells
        → IfOk result (λ report. IsReported (jobs.Dangling day) (K.holding keeper.old).list (report_view report)) }
    ensures cause { HasReportCause (K.faults keeper.old) (K.faults keeper.new) result }
    ensures stays { (K.holding keeper.old).tells → result ≢ Err fails.Failed
        → K.faults keeper.new ≡ K.faults keeper.old }
    ensures same { Keeps (K.holding keeper.old) (K.holding keeper.new) }
    ensures crash { LeavesOldOrSame (K.holding keeper.old) (K.holding keeper.new) }
{
    let booked = Book::open(alloc, keeper, steps);
    let report = report_booked(alloc, day, &booked);
    forget(booked);
    report
}

// The report of what a keeper has, by its register alone. Its payloads stay.
fn register_kept<K: Keeper, L: Ledger>(
    alloc: Global,
    job: &ReportJob,
    keeper: &mut K,
    steps: &mut Steps<L>,
) -> Result<Report, OpenFault>
    requires alone { asks_register job.now ≡ true }
    ensures told { (K.holding keeper.old).tells
        → IfOk result (λ report. IsReported job.now (K.holding keeper.old).list (report_view report)) }
    ensures cause { HasReportCause (K.faults keeper.old) (K.faults keeper.new) result }
    ensures stays { (K.holding keeper.old).tells → result ≢ Err fails.Failed
        → K.faults keeper.new ≡ K.faults keeper.old }
    ensures same { Keeps (K.holding keeper.old) (K.holding keeper.new) }
    ensures crash { LeavesOldOrSame (K.holding keeper.old) (K.holding keeper.new) }
{
    let opened = Opened::open(alloc, keeper);
    let report = report_opened(alloc, job, &opened, steps);
    drop(opened);
    report
}

// The report of what a keeper has: its office is opened for what dangles, and its register alone for all else.
fn report_kept<K: Keeper, L: Ledger>(
    alloc: Global,
    job: &ReportJob,
    keeper: &mut K,
    steps: &mut Steps<L>,
) -> Result<Report, OpenFault>
    ensures told { (K.holding keeper.old).tells
        → IfOk result (λ report. IsReported job.now (K.holding keeper.old).list (report_view report)) }
    ensures cause { HasReportCause (K.faults keeper.old) (K.faults keeper.new) result }
    ensures stays { (K.holding keeper.old).tells → result ≢ Err fails.Failed
        → K.faults keeper.new ≡ K.faults keeper.old }
    ensures same { Keeps (K.holding keeper.old) (K.holding keeper.new) }
    ensures crash { LeavesOldOrSame (K.holding keeper.old) (K.holding keeper.new) }
{
    match job {
        ReportJob::Dangling { day } => dangling_kept(alloc, *day, keeper, steps),
        ReportJob::Lifecycle { .. }
        | ReportJob::Correspondence { .. }
        | ReportJob::Unapplied { .. } => register_kept(alloc, job, keeper, steps),
    }
}

/// Opens the register that is kept, writes a table of what it knows, the rule that refuses it or what is damaged, and gives the
/// status to end with. What is kept stays as it is.
pub fn tabulate<W: Sink, K: Keeper, L: Ledger>(
    alloc: Global,
    job: &ReportJob,
    sink: &mut W,
    keeper: &mut K,
    steps: &mut Steps<L>,
) -> u8
    ensures { RanReport K.holding K.faults W.written W.faults job.now keeper.old keeper.new sink.old sink.new result }
{
    let report = report_kept(alloc, job, keeper, steps);
    tell_report(alloc, sink, report)
}
