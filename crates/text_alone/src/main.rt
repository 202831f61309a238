//! The form `text` of the command line alone: its words are those behind `text`, and nothing is said on standard error. The script
//! at the top runs an unproved build of it where the program is not built.
#![tactic(auto)]

ghost use Rattle.std.specs.Prelude.{◌≡◌, ◌↔◌, ◌≢◌, ◌⊎◌, None, map, string_bytes};
ghost use Rattle.std.specs.declared.io.ErrorKind.TheVariants.{OutOfMemory};
ghost use Rattle.dossier_text.specs.Jobs.{text_job_of};
ghost use Rattle.dossier_text.specs.Runs.{IsTextStatus};

use desk_base::{ReaderSource, Steps, WriterSink};
use dossier_text::text_of_words;
use std::alloc::Global;
use std::env;
use std::io::{self, ErrorKind, Read, Write};
use std::marker::Brand;
use std::process::ExitCode;
use std::sync::ledger::{Blank, Ledger};
use std::thread::Threads;

// The words of the command line, without the program's name.
fn words(rt: &HostRuntime) -> io::Result<Vec<String>> {
    let mut words = Vec::new(rt.alloc());
    for word in env::args(rt)?.skip(1) {
        words.push(word)?;
    }
    Ok(words)
}

// Runs the words over a reader and a writer, with a count of steps that begins here.
fn run_over<L: Ledger, H: Threads, R: Read + Drop, W: Write + Drop>(
    rt: &H,
    alloc: Global,
    words: &[String],
    reader: R,
    writer: W,
    blank: Blank,
) -> u8
    requires name { blank.name ≡ L.name }
    requires parts { blank.parts ≡ L.parts }
    requires one { blank.parts ≡ 1 }
    ensures status { (result ≡ 2) ⊎ IsTextStatus result }
    ensures words { (result ≡ 2) ↔ (text_job_of (map string_bytes words.now) ≡ None) }
{
    let mut steps = Steps::<L>::start(rt, blank);
    let mut source = ReaderSource::new(reader);
    let mut sink = WriterSink::new(writer);
    text_of_words(alloc, words, &mut source, &mut sink, &mut steps)
}

// The status of words that could not be had: they are no text, or there was not enough memory.
fn refused(kind: ErrorKind) -> u8
    ensures memory { kind ≡ OutOfMemory → result ≡ 7 }
    ensures no_text { kind ≢ OutOfMemory → result ≡ 2 }
{
    match kind {
        ErrorKind::OutOfMemory => 7,
        _ => 2,
    }
}

fn main(rt: HostRuntime) -> ExitCode {
    let status = match words(&rt) {
        Ok(words) => run_over::<Brand, _, _, _>(
            &rt,
            rt.alloc(),
            words.as_slice(),
            rt.stdin(),
            rt.stdout(),
            Blank::new(1),
        ),
        Err(error) => refused(error.kind()),
    };
    ExitCode::from(status)
}
