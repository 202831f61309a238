//! Serving: gates are served over a register in memory that has no entry yet.

ghost use Rattle.std.specs.Prelude.{◌≡◌, [], None, length};
ghost use Rattle.std.specs.List.{AllByRecursion};
ghost use Rattle.law_office.specs.Offices.{HoldsBook, IsRight};
ghost use Rattle.desk_serving.specs.Work.{IsSettled};

use desk_base::{Clock, Day, ListClock, Memory, Steps};
use desk_gates::Gate;
use desk_serving::{Outcome, ServeJob, Shut, serve_gates};
use law_keeper::{Keeper, MapKeeper};
use law_office::{Book, Closed, Office};
use law_register::Desk;
use std::alloc::Global;
use std::sync::Wait;
use std::sync::ledger::Ledger;
use std::thread::Threads;

/// What came of it: the front of the register in the end, and how the workers ended.
#[derive(Clone, Copy)]
pub struct Served {
    pub front: u32,
    /// None where there was not enough memory for the workers.
    pub outcome: Option<Outcome>,
}

// Serves the gates over the office of a book that was just opened, and closes it.
fn serve_book<R: Threads + Wait + Sync, K: Keeper + Send, C: Clock + Send, G: Gate + Send>(
    rt: &R,
    alloc: Global,
    job: ServeJob,
    keeper: &mut K,
    clock: &mut C,
    gates: &mut [G],
    book: Book,
) -> Served
where
    G::Conn: Send,
    requires four { length gates.old ≡ 4 }
    requires settled { AllByRecursion (IsSettled G.tally) gates.old }
    requires right { IsRight book }
    requires held { HoldsBook (K.holding keeper.old) (K.readiness keeper.old) book }
    requires none_pending { book.pending ≡ None }
    requires no_marks { book.marks.items ≡ [] }
{
    let office = Office::new(keeper, clock, book);
    let Shut { desk, outcome } = serve_gates(rt, alloc, office, job, gates);
    let front = desk.front();
    let Closed { keeper, clock } = desk.close();
    let _ = keeper;
    let _ = clock;
    Served { front, outcome }
}

/// Serves four gates over a register in memory that has no entry yet. `None`: it could not be opened.
pub fn serve_new<R: Threads + Wait + Sync, G: Gate + Send, L: Ledger>(
    rt: &R,
    alloc: Global,
    job: ServeJob,
    gates: &mut [G],
    steps: &mut Steps<L>,
) -> Result<Option<Served>, Memory>
where
    G::Conn: Send,
    requires four { length gates.old ≡ 4 }
    requires settled { AllByRecursion (IsSettled G.tally) gates.old }
{
    let mut keeper = MapKeeper::new(alloc, &[])?;
    let mut clock = ListClock::new(alloc, &[Day::from_number(1).unwrap()])?;
    match Book::open(alloc, &mut keeper, steps) {
        Ok(book) => Ok(Some(serve_book(rt, alloc, job, &mut keeper, &mut clock, gates, book))),
        Err(_) => Ok(None),
    }
}
