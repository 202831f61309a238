//! The text of an act: a dossier is read from a source, and what it tells is written to a sink.

ghost use Rattle.std.specs.Prelude.{◌≡◌, ◌≢◌, ◌⊎◌, ◌↔◌, Err, None, Some, IfOk, IfErr, map, string_bytes};
ghost use Rattle.desk_base.specs.Streams.{risen};
ghost use Rattle.dossier_text.specs.Jobs.{text_job_of};
ghost use Rattle.dossier_text.specs.Runs.{IsTextStatus, IsDone, IsTold, IsCut, RanText, TakesWithinLimit};
ghost use Rattle.dossier_text.specs.declared.text_job.TextJob.{TextJob as Job};

use crate::input::read_input;
use crate::reporting::report;
use crate::stop::Stop;
use crate::text_job::TextJob;
use akn_json::MAX_DOSSIER_BYTES;
use desk_base::{Sink, Source, Steps};
use replay_core::FromEnacted;
use std::alloc::Global;
use std::sync::ledger::Ledger;

// Reads the source, and writes what is told of it.
fn tell_text<S: Source, W: Sink, L: Ledger>(
    alloc: Global,
    job: TextJob,
    source: &mut S,
    sink: &mut W,
    steps: &mut Steps<L>,
) -> Result<u8, Stop>
    ensures told { IfOk result
        (IsTold job (S.left source.old) (S.left source.new) (W.written sink.old) (W.written sink.new)) }
    ensures source { result ≡ Err Stop.Source → S.faults source.new ≡ risen (S.faults source.old) }
    ensures sink { result ≡ Err Stop.Sink → W.faults sink.new ≡ risen (W.faults sink.old) }
    ensures cut { result ≡ Err Stop.Sink
        → IsCut job (S.left source.old) (S.left source.new) (W.written sink.old) (W.written sink.new) }
    ensures unwritten { IfErr result (λ stop. stop ≢ Stop.Sink → sink.new ≡ sink.old) }
    ensures source_stays { result ≢ Err Stop.Source → S.faults source.new ≡ S.faults source.old }
    ensures sink_stays { result ≢ Err Stop.Sink → W.faults sink.new ≡ W.faults sink.old }
    ensures taken { TakesWithinLimit (S.room source.old) (S.room source.new) }
{
    let input = read_input(alloc, source, MAX_DOSSIER_BYTES)?;
    let report = report(alloc, &FromEnacted, job, input, steps)?;
    match sink.write_all(report.bytes.as_slice()) {
        Ok(()) => Ok(report.status),
        Err(_) => Err(Stop::Sink),
    }
}

/// Reads a dossier, writes the text of its act on a day, and gives the status to end with. The register and the answer that it made
/// are left to the end of the program.
pub fn text<S: Source, W: Sink, L: Ledger>(
    alloc: Global,
    job: TextJob,
    source: &mut S,
    sink: &mut W,
    steps: &mut Steps<L>,
) -> u8
    ensures status { IsTextStatus result }
    ensures told { IsDone result → IsTold job
        (S.left source.old) (S.left source.new) (W.written sink.old) (W.written sink.new) result }
    ensures source { result ≡ 3 → S.faults source.new ≡ risen (S.faults source.old) }
    ensures sink { result ≡ 4 → W.faults sink.new ≡ risen (W.faults sink.old) }
    ensures cut { result ≡ 4
        → IsCut job (S.left source.old) (S.left source.new) (W.written sink.old) (W.written sink.new) }
    ensures unwritten { (result ≡ 3) ⊎ (result ≡ 7) → sink.new ≡ sink.old }
    ensures source_stays { result ≢ 3 → S.faults source.new ≡ S.faults source.old }
    ensures sink_stays { result ≢ 4 → W.faults sink.new ≡ W.faults sink.old }
    ensures taken { TakesWithinLimit (S.room source.old) (S.room source.new) }
{
    match tell_text(alloc, job, source, sink, steps) {
        Ok(status) => status,
        Err(stop) => stop.status(),
    }
}

/// Does what the words behind `text` ask for, and gives the status to end with: 2 where they ask for no text, and then nothing is
/// asked of either stream.
pub fn text_of_words<S: Source, W: Sink, L: Ledger>(
    alloc: Global,
    words: &[String],
    source: &mut S,
    sink: &mut W,
    steps: &mut Steps<L>,
) -> u8
    ensures status { (result ≡ 2) ⊎ IsTextStatus result }
    ensures words { (result ≡ 2) ↔ (text_job_of (map string_bytes words.now) ≡ None) }
    ensures idle { result ≡ 2 → (source.new ≡ source.old) × (sink.new ≡ sink.old) }
    ensures text { (job : Job) → text_job_of (map string_bytes words.now) ≡ Some job
        → RanText S.left S.room S.faults W.written W.faults job source.old source.new sink.old sink.new result }
{
    match TextJob::from_words(words) {
        Some(job) => text(alloc, job, source, sink, steps),
        None => 2,
    }
}
