//! The call that the program is: what the words of the command line ask for, over a source, a sink, a keeper, a clock and gates.

ghost use Rattle.std.specs.Prelude.{◌≡◌, ◌↔◌, ℕ, None, Some, length, map, string_bytes};
ghost use Rattle.std.specs.List.{AllByRecursion};
ghost use Rattle.desk_serving.specs.Work.{IsSettled};
ghost use Rattle.desk_serving.specs.declared.serve_job.ServeJob.{ServeJob};
ghost use Rattle.lawdesk.specs.Jobs.{job_of, serving_of, serving_part};
ghost use Rattle.lawdesk.specs.Running.{Did, Ran};
ghost use Rattle.lawdesk.specs.Serving.{RanServe};
ghost use Rattle.lawdesk.specs.Statuses.{IsStatus};

use crate::batching::batch;
use crate::checking::check;
use crate::exporting::export_above;
use crate::following::follow_source;
use crate::generating::generate_line;
use crate::job::{Job, serve_asked};
use crate::reporting::tabulate;
use crate::serving::serve;
use desk_base::{Clock, Memory, Sink, Source, Steps};
use desk_gates::Gate;
use dossier_text::text;
use law_keeper::Keeper;
use std::alloc::Global;
use std::marker::Brand;
use std::sync::Wait;
use std::sync::ledger::{Blank, Ledger};
use std::thread::Threads;

// Does a job that is done in no threads, and gives the status to end with.
fn do_alone<S: Source, W: Sink, K: Keeper, C: Clock, L: Ledger>(
    alloc: Global,
    job: &Job,
    source: &mut S,
    sink: &mut W,
    keeper: &mut K,
    clock: &mut C,
    steps: &mut Steps<L>,
) -> u8
    requires alone { serving_part job.now ≡ None }
    ensures status { IsStatus result }
    ensures did { Did S.left S.room S.faults W.written W.faults K.holding K.faults C.days
        source.old source.new sink.old sink.new keeper.old keeper.new clock.old clock.new steps.old steps.new
        job.now result }
{
    match job {
        Job::Text(job) => text(alloc, *job, source, sink, steps),
        Job::Check => check(alloc, sink, keeper),
        Job::Batch => batch(alloc, source, sink, keeper, clock, steps),
        Job::Report(job) => tabulate(alloc, job, sink, keeper, steps),
        Job::Generate(job) => generate_line(alloc, *job, sink, steps),
        Job::Export(from) => export_above(alloc, *from, sink, keeper),
        Job::Follow => follow_source(alloc, source, sink, keeper),
        Job::Serve(_) => unreachable!(),
    }
}

/// Does what the words of the command line ask for, other than `serve`, and gives the status to end with: 2 where they are no form.
pub fn run_alone<S: Source, W: Sink, K: Keeper, C: Clock, L: Ledger>(
    alloc: Global,
    words: &[String],
    source: &mut S,
    sink: &mut W,
    keeper: &mut K,
    clock: &mut C,
    steps: &mut Steps<L>,
) -> u8
    requires alone { serving_of (job_of (map string_bytes words.now)) ≡ None }
    ensures status { IsStatus result }
    ensures words { (result ≡ 2) ↔ (job_of (map string_bytes words.now) ≡ None) }
    ensures ran { Ran S.left S.room S.faults W.written W.faults K.holding K.faults C.days
        source.old source.new sink.old sink.new keeper.old keeper.new clock.old clock.new steps.old steps.new
        (job_of (map string_bytes words.now)) result }
{
    match Job::from_words(alloc, words) {
        Err(Memory) => 7,
        Ok(None) => 2,
        Ok(Some(job)) => do_alone(alloc, &job, source, sink, keeper, clock, steps),
    }
}

// Runs words other than those of `serve` with a count of steps that begins here.
fn run_counted<L: Ledger, H: Threads, S: Source, W: Sink, K: Keeper, C: Clock>(
    rt: &H,
    alloc: Global,
    words: &[String],
    source: &mut S,
    sink: &mut W,
    keeper: &mut K,
    clock: &mut C,
    blank: Blank,
) -> u8
    requires name { blank.name ≡ L.name }
    requires parts { blank.parts ≡ L.parts }
    requires one { blank.parts ≡ 1 }
    requires alone { serving_of (job_of (map string_bytes words.now)) ≡ None }
    ensures status { IsStatus result }
    ensures words { (result ≡ 2) ↔ (job_of (map string_bytes words.now) ≡ None) }
    ensures ran { (later : ℕ) × Ran S.left S.room S.faults W.written W.faults K.holding K.faults C.days
        source.old source.new sink.old sink.new keeper.old keeper.new clock.old clock.new 0 later
        (job_of (map string_bytes words.now)) result }
{
    let mut steps = Steps::<L>::start(rt, blank);
    run_alone(alloc, words, source, sink, keeper, clock, &mut steps)
}

/// Does what the words of the command line ask for, and gives the status to end with: 2 where they are no form. The four gates are
/// asked for `serve` alone; all other words are one call of `run_alone`.
pub fn run<
    R: Threads + Wait + Sync,
    S: Source,
    W: Sink,
    K: Keeper + Send,
    C: Clock + Send,
    G: Gate + Send,
>(
    rt: &R,
    alloc: Global,
    words: &[String],
    source: &mut S,
    sink: &mut W,
    keeper: &mut K,
    clock: &mut C,
    gates: &mut [G],
) -> u8
where
    G::Conn: Send,
    requires four { length gates.old ≡ 4 }
    requires settled { AllByRecursion (IsSettled G.tally) gates.old }
    ensures status { IsStatus result }
    ensures words { (result ≡ 2) ↔ (job_of (map string_bytes words.now) ≡ None) }

    // Words other than those of `serve` leave the gates alone.
    ensures ran { serving_of (job_of (map string_bytes words.now)) ≡ None
        → (later : ℕ) × Ran S.left S.room S.faults W.written W.faults K.holding K.faults C.days
        source.old source.new sink.old sink.new keeper.old keeper.new clock.old clock.new 0 later
        (job_of (map string_bytes words.now)) result }
    ensures gates_alone { serving_of (job_of (map string_bytes words.now)) ≡ None → gates.new ≡ gates.old }

    // Connections that are served leave the source alone.
    ensures served { (job : ServeJob) → serving_of (job_of (map string_bytes words.now)) ≡ Some job
        → RanServe G.Conn.left G.Conn.written G.Conn.read_faults G.Conn.write_faults G.tally G.faults
        W.written W.faults K.holding K.faults C.days sink.old sink.new keeper.old keeper.new clock.old clock.new
        gates.old gates.new job.connections result }
    ensures source_alone { (job : ServeJob) → serving_of (job_of (map string_bytes words.now)) ≡ Some job
        → source.new ≡ source.old }
{
    match serve_asked(words) {
        Some(job) => serve(rt, alloc, job, sink, keeper, clock, gates),
        None => run_counted::<Brand, _, _, _, _, _>(
            rt,
            alloc,
            words,
            source,
            sink,
            keeper,
            clock,
            Blank::new(1),
        ),
    }
}
