//! Generating: a register is generated over a keeper in memory, and what is told of it is written.

ghost use Rattle.std.specs.Prelude.{◌≡◌, [], IfOk, Ok};
ghost use Rattle.dossier_text.specs.Views.{report_view};
ghost use Rattle.law_generator.specs.Acts.{first_day as day_of_all};
ghost use Rattle.law_generator.specs.Courses.{TellsOnly, generated, line_of};
ghost use Rattle.law_office.specs.Offices.{HoldsBook, IsRight};
ghost use Rattle.lawdesk.specs.Generating.{RanGenerate, told_generated};

use crate::job::GenerateJob;
use crate::telling::tell;
use desk_base::{Clock, ListClock, Memory, Sink, Steps};
use dossier_text::Report;
use law_generator::{Generated, first_day, generate};
use law_keeper::{Keeper, MapKeeper};
use law_office::{Book, Office};
use std::alloc::Global;
use std::sync::ledger::Ledger;

// What is told of the register that is generated over the office of a book that was just opened. A keeper in memory none of whose
// calls fails has no fault, so what keeps it from being generated is want of memory.
fn generated_in<K: Keeper, C: Clock, L: Ledger>(
    alloc: Global,
    keeper: &mut K,
    clock: &mut C,
    book: Book,
    job: GenerateJob,
    steps: &mut Steps<L>,
) -> Result<Generated, Memory>
    requires right { IsRight book }
    requires held { HoldsBook (K.holding keeper.old) (K.readiness keeper.old) book }
    requires none_pending { book.pending ≡ None }
    requires no_marks { book.marks.items ≡ [] }
    requires empty { book.register.entries ≡ [] }
    requires days { TellsOnly day_of_all (C.days clock.old) }
    ensures { IfOk result (λ told. told ≡ generated job.seed job.count) }
{
    let mut office = Office::new(keeper, clock, book);
    let told = generate(alloc, &mut office, job.seed, job.count, steps);
    let _closed = office.close();
    match told {
        Ok(told) => Ok(told),
        Err(_) => Err(Memory),
    }
}

// The same over a keeper that has no payload.
fn generated_over<K: Keeper, C: Clock, L: Ledger>(
    alloc: Global,
    keeper: &mut K,
    clock: &mut C,
    job: GenerateJob,
    steps: &mut Steps<L>,
) -> Result<Generated, Memory>
    requires tells { (K.holding keeper.old).tells }
    requires empty { (K.holding keeper.old).list ≡ Ok [] }
    requires days { TellsOnly day_of_all (C.days clock.old) }
    ensures { IfOk result (λ told. told ≡ generated job.seed job.count) }
{
    match Book::open(alloc, keeper, steps) {
        Ok(book) => generated_in(alloc, keeper, clock, book, job, steps),
        Err(_) => Err(Memory),
    }
}

// The line of the register that is generated.
fn generated_line<L: Ledger>(
    alloc: Global,
    job: GenerateJob,
    steps: &mut Steps<L>,
) -> Result<Vec<u8>, Memory>
    ensures { IfOk result (λ line. line.items ≡ line_of (generated job.seed job.count)) }
{
    let mut keeper = MapKeeper::new(alloc, &[])?;
    let mut clock = ListClock::new(alloc, &[first_day()])?;
    let told = generated_over(alloc, &mut keeper, &mut clock, job, steps)?;
    told.line(alloc)
}

// The report of the register that is generated.
fn report_generated<L: Ledger>(
    alloc: Global,
    job: GenerateJob,
    steps: &mut Steps<L>,
) -> Result<Report, Memory>
    ensures { IfOk result (λ report. report_view report ≡ told_generated job) }
{
    Ok(Report {
        status: 0,
        bytes: generated_line(alloc, job, steps)?,
    })
}

/// Generates a register, writes what is told of it, and gives the status to end with.
pub fn generate_line<W: Sink, L: Ledger>(
    alloc: Global,
    job: GenerateJob,
    sink: &mut W,
    steps: &mut Steps<L>,
) -> u8
    ensures { RanGenerate W.written W.faults job sink.old sink.new result }
{
    tell(sink, report_generated(alloc, job, steps))
}
