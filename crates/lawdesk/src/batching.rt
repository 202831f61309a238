//! Batching: the requests that a source has are served over the register that is kept, one after another.

ghost use Rattle.std.specs.Prelude.{◌≡◌, None, [], if◌then◌else◌};
ghost use Rattle.std.specs.Map.{keys_of};
ghost use Rattle.law_http.specs.Streaming.{HasReadCause, HasWriteCause, IsStreamed};
ghost use Rattle.law_office.specs.Offices.{HoldsBook, IsRight};
ghost use Rattle.lawdesk.specs.Batching.{RanBatch, ServesOver, stream_status};

use crate::telling::tell_unopened;
use desk_base::{Clock, Pair, Sink, Source, Steps};
use law_http::{Served, StreamEnd, serve_stream};
use law_keeper::Keeper;
use law_office::{Book, Closed, Office};
use law_register::Desk;
use std::alloc::Global;
use std::sync::ledger::Ledger;

// The status of a stream that ended with `done`, unless some response says that the keeper failed.
fn done_status(faulted: bool, done: u8) -> u8
    ensures { result ≡ (if faulted then 5 else done) }
{
    if faulted { 5 } else { done }
}

// The status of a stream that was served.
fn served_status(served: Served) -> u8
    ensures { result ≡ stream_status served.end served.faulted }
{
    match served.end {
        StreamEnd::End => done_status(served.faulted, 0),
        StreamEnd::Refused(_) => done_status(served.faulted, 1),
        StreamEnd::ReadFault => 3,
        StreamEnd::WriteFault => 4,
        StreamEnd::Memory => 7,
    }
}

// Serves the requests of a source over a desk.
fn serve_desk<S: Source, W: Sink, D: Desk, L: Ledger>(
    alloc: Global,
    source: &mut S,
    sink: &mut W,
    desk: &mut D,
    steps: &mut Steps<L>,
) -> Served
    ensures served { IsStreamed D.state D.crashes D.past D.judging (S.left source.old) (S.left source.new)
        (W.written sink.old) (W.written sink.new) desk.old desk.new steps.old steps.new result }
    ensures reads { HasReadCause result.end (S.faults source.old) (S.faults source.new) }
    ensures writes { HasWriteCause result.end (W.faults sink.old) (W.faults sink.new) }
    ensures origin { (D.state desk.new).origin ≡ (D.state desk.old).origin }
{
    let mut link = Pair::new(source, sink);
    serve_stream(alloc, &mut link, desk, steps)
}

// Serves the requests of a source over the office of a book that was just opened.
fn serve_book<S: Source, W: Sink, K: Keeper, C: Clock, L: Ledger>(
    alloc: Global,
    source: &mut S,
    sink: &mut W,
    keeper: &mut K,
    clock: &mut C,
    book: Book,
    steps: &mut Steps<L>,
) -> Served
    requires right { IsRight book }
    requires held { HoldsBook (K.holding keeper.old) (K.readiness keeper.old) book }
    requires none_pending { book.pending ≡ None }
    requires no_marks { book.marks.items ≡ [] }
    requires no_past { keys_of book.past ≡ [] }
    ensures served { ServesOver S.left W.written K.holding K.faults C.days source.old source.new sink.old sink.new
        keeper.old keeper.new clock.old clock.new steps.old steps.new book.register.entries result }
    ensures reads { HasReadCause result.end (S.faults source.old) (S.faults source.new) }
    ensures writes { HasWriteCause result.end (W.faults sink.old) (W.faults sink.new) }
{
    let mut office = Office::new(keeper, clock, book);
    let served = serve_desk(alloc, source, sink, &mut office, steps);
    let Closed { keeper, clock } = office.close();
    let _ = keeper;
    let _ = clock;
    served
}

/// Opens the register that is kept, serves the requests of the source over it, and gives the status to end with.
pub fn batch<S: Source, W: Sink, K: Keeper, C: Clock, L: Ledger>(
    alloc: Global,
    source: &mut S,
    sink: &mut W,
    keeper: &mut K,
    clock: &mut C,
    steps: &mut Steps<L>,
) -> u8
    ensures { RanBatch S.left S.faults W.written W.faults K.holding K.faults C.days source.old source.new
        sink.old sink.new keeper.old keeper.new clock.old clock.new steps.old steps.new result }
{
    match Book::open(alloc, keeper, steps) {
        Ok(book) => {
            let served = serve_book(alloc, source, sink, keeper, clock, book, steps);
            served_status(served)
        }
        Err(fault) => tell_unopened(alloc, sink, fault),
    }
}
