//! Serving: the register that is kept is served over connections that come in through four gates, all at once.

ghost use Rattle.std.specs.Prelude.{◌≡◌, [], None, IfErr, IfOk, if◌then◌else◌, length};
ghost use Rattle.std.specs.List.{AllByRecursion};
ghost use Rattle.std.specs.Map.{keys_of};
ghost use Rattle.law_keeper.specs.Keepers.{Keeps, LeavesOldOrSame};
ghost use Rattle.law_office.specs.Offices.{HoldsBook, IsRight};
ghost use Rattle.law_office.specs.Opening.{HasOpenCause, Opens, StaysUnlessFailed, opened_of};
ghost use Rattle.desk_serving.specs.Work.{IsSettled, is_broken, is_wanting};
ghost use Rattle.dossier_text.specs.Views.{report_view};
ghost use Rattle.lawdesk.specs.Serving as spec;
ghost use Rattle.lawdesk.specs.Serving.{RanServe, ServesGates};

use crate::telling::{tell, tell_unopened};
use desk_base::{Clock, Memory, Sink, Steps};
use desk_gates::Gate;
use desk_serving::{Outcome, ServeJob, Shut, serve_gates};
use dossier_text::{Report, line};
use law_keeper::Keeper;
use law_office::{Book, Closed, Office};
use law_register::{Desk, OpenFault};
use std::alloc::Global;
use std::marker::Brand;
use std::sync::Wait;
use std::sync::ledger::{Blank, Ledger};
use std::thread::Threads;

// What is told of an office that was served and closed.
#[derive(Drop)]
struct Over {
    front: u32,
    faulted: bool,
    outcome: Option<Outcome>,
}

// Opens what a keeper has, with a count of steps of its own.
fn open_book<L: Ledger, H: Threads, K: Keeper>(
    rt: &H,
    alloc: Global,
    keeper: &mut K,
    blank: Blank,
) -> Result<Book, OpenFault>
    requires name { blank.name ≡ L.name }
    requires parts { blank.parts ≡ L.parts }
    requires one { blank.parts ≡ 1 }
    ensures opened { (K.holding keeper.old).tells
        → Opens (λ book. book.register.entries) result (opened_of (K.holding keeper.old).list) }
    ensures new { IfOk result (λ book. (book.pending ≡ None) × (book.marks.items ≡ []) × (keys_of book.past ≡ [])) }
    ensures right { IfOk result IsRight }
    ensures held { IfOk result (HoldsBook (K.holding keeper.new) (K.readiness keeper.new)) }
    ensures same { Keeps (K.holding keeper.old) (K.holding keeper.new) }
    ensures crash { LeavesOldOrSame (K.holding keeper.old) (K.holding keeper.new) }
    ensures cause { HasOpenCause (K.faults keeper.old) (K.faults keeper.new) result }
    ensures stays { (K.holding keeper.old).tells
        → IfErr result (StaysUnlessFailed (K.faults keeper.old) (K.faults keeper.new)) }
{
    let mut steps = Steps::<L>::start(rt, blank);
    Book::open(alloc, keeper, &mut steps)
}

// Serves the gates over the office of a book that was just opened, and closes it.
fn serve_book<R: Threads + Wait + Sync, K: Keeper + Send, C: Clock + Send, G: Gate + Send>(
    rt: &R,
    alloc: Global,
    job: ServeJob,
    keeper: &mut K,
    clock: &mut C,
    gates: &mut [G],
    book: Book,
) -> Over
where
    G::Conn: Send,
    requires four { length gates.old ≡ 4 }
    requires settled { AllByRecursion (IsSettled G.tally) gates.old }
    requires right { IsRight book }
    requires held { HoldsBook (K.holding keeper.old) (K.readiness keeper.old) book }
    requires none_pending { book.pending ≡ None }
    requires no_marks { book.marks.items ≡ [] }
    ensures { ServesGates G.Conn.left G.Conn.written G.Conn.read_faults G.Conn.write_faults G.tally G.faults
        K.holding K.faults C.days job.connections book.register.entries keeper.old keeper.new clock.old clock.new
        gates.old gates.new (is_wanting result.outcome) (is_broken result.outcome) result.faulted result.front }
{
    let office = Office::new(keeper, clock, book);
    let Shut { desk, outcome } = serve_gates(rt, alloc, office, job, gates);
    let front = desk.front();
    let faulted = desk.faulted();
    let Closed { keeper, clock } = desk.close();
    let _ = keeper;
    let _ = clock;
    Over {
        front,
        faulted,
        outcome,
    }
}

// The status of what was served.
fn served_status(broken: bool, faulted: bool) -> u8
    ensures { result ≡ spec.served_status broken faulted }
{
    if broken {
        8
    } else if faulted {
        5
    } else {
        0
    }
}

// The line at the end, with that status.
fn report_front(alloc: Global, front: u32, broken: bool, faulted: bool) -> Result<Report, Memory>
    ensures { IfOk result (λ report. report_view report ≡ spec.told_front front broken faulted) }
{
    let status = served_status(broken, faulted);
    Ok(Report {
        status,
        bytes: line(format!(in alloc; "front {front}")?.into_bytes())?,
    })
}

// The status at the end: where there was not enough memory for a worker, it is not what came of the line.
fn ended_status(wanting: bool, said: u8) -> u8
    ensures { result ≡ (if wanting then 7 else said) }
{
    if wanting { 7 } else { said }
}

// Tells the line at the end, and gives the status of what came of the workers.
fn end_said<W: Sink>(alloc: Global, sink: &mut W, front: u32, outcome: Outcome, faulted: bool) -> u8
    ensures { spec.IsEnded W.written W.faults front outcome.wanting outcome.failed faulted sink.old sink.new result }
{
    let said = tell(sink, report_front(alloc, front, outcome.failed, faulted));
    ended_status(outcome.wanting, said)
}

// The same, where there may have been no workers.
fn end_served<W: Sink>(alloc: Global, sink: &mut W, over: &Over) -> u8
    ensures { spec.IsEnded W.written W.faults over.now.front (is_wanting over.now.outcome) (is_broken over.now.outcome)
        over.now.faulted sink.old sink.new result }
{
    match over.outcome {
        Some(outcome) => end_said(alloc, sink, over.front, outcome, over.faulted),
        None => 7,
    }
}

/// Opens the register that is kept, serves four gates over it at once, each for so many connections, writes how many law
/// entries there are then, and gives the status to end with.
pub fn serve<R: Threads + Wait + Sync, W: Sink, K: Keeper + Send, C: Clock + Send, G: Gate + Send>(
    rt: &R,
    alloc: Global,
    job: ServeJob,
    sink: &mut W,
    keeper: &mut K,
    clock: &mut C,
    gates: &mut [G],
) -> u8
where
    G::Conn: Send,
    requires four { length gates.old ≡ 4 }
    requires settled { AllByRecursion (IsSettled G.tally) gates.old }
    ensures { RanServe G.Conn.left G.Conn.written G.Conn.read_faults G.Conn.write_faults G.tally G.faults
        W.written W.faults K.holding K.faults C.days sink.old sink.new keeper.old keeper.new clock.old clock.new
        gates.old gates.new job.connections result }
{
    match open_book::<Brand, _, _>(rt, alloc, keeper, Blank::new(1)) {
        Ok(book) => {
            let over = serve_book(rt, alloc, job, keeper, clock, gates, book);
            end_served(alloc, sink, &over)
        }
        Err(fault) => tell_unopened(alloc, sink, fault),
    }
}
