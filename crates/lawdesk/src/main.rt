//! The program of the desk.
#![tactic(auto)]

mod amiss;
mod batching;
mod checking;
mod database;
mod exporting;
mod following;
mod generating;
mod job;
mod laws;
mod moving;
mod notice;
mod report_job;
mod reporting;
mod run;
mod run_two;
mod serving;
mod taking;
mod telling;
mod usage;

ghost use Rattle.std.specs.Prelude.{◌≡◌, ◌↔◌, ◌≢◌, None, false, map, string_bytes};
ghost use Rattle.std.specs.declared.io.ErrorKind.TheVariants.{OutOfMemory};
ghost use Rattle.lawdesk.specs.Jobs.{job_of};
ghost use Rattle.lawdesk.specs.Moving.{is_move};
ghost use Rattle.lawdesk.specs.RunningTwo.{IsStatusOfTwo, behind};

use database::Database;
use desk_base::{ReaderSource, UtcClock, WriterSink};
use desk_gates::TcpGate;
use law_journal::FileDisk;
use law_keeper::{JournalKeeper, Keeper};
use notice::{Kept, Said, kept_by, notice};
use run_two::{run_two, words_behind};
use std::alloc::Global;
use std::env;
use std::io::{self, BufReader, ErrorKind, Read, Write};
use std::net::Net;
use std::process::ExitCode;
use std::sync::{OnceLock, Wait};
use std::thread::Threads;
use std::time::Clock;

/// The journal in the working folder, which all forms but `text` and `generate` open.
const JOURNAL: &str = "lawdesk.jnl";

/// How much of standard input is read by one call where frames are followed.
const AHEAD: usize = 65_536;

// The words of the command line, without the program's name.
fn words(rt: &HostRuntime) -> io::Result<Vec<String>> {
    let mut words = Vec::new(rt.alloc());
    for word in env::args(rt)?.skip(1) {
        words.push(word)?;
    }
    Ok(words)
}

// Runs the words over a reader, a writer, two keepers, the machine's clock, and four gates of its own address that share one socket.
fn run_over<
    H: Threads + Wait + Sync + Net + Clock,
    R: Read + Drop,
    W: Write + Drop,
    K: Keeper + Send,
    O: Keeper + Send,
>(
    rt: &H,
    alloc: Global,
    words: &[String],
    reader: R,
    writer: W,
    keeper: &mut K,
    other: &mut O,
) -> u8
where
    H::Listener: Send + Sync,
    H::Stream: Send,
    ensures status { IsStatusOfTwo result }
    ensures words { (result ≡ 2) ↔ ((is_move (map string_bytes words.now) ≡ false)
        × (job_of (behind (map string_bytes words.now)) ≡ None)) }
{
    let mut source = ReaderSource::new(reader);
    let mut sink = WriterSink::new(writer);
    let mut clock = UtcClock::new(rt);
    let shared = OnceLock::new();
    let mut gates = [
        TcpGate::new(rt, &shared),
        TcpGate::new(rt, &shared),
        TcpGate::new(rt, &shared),
        TcpGate::new(rt, &shared),
    ];
    run_two(
        rt,
        alloc,
        words,
        &mut source,
        &mut sink,
        keeper,
        other,
        &mut clock,
        &mut gates,
    )
}

// Runs the words over a keeper and the database of the working folder.
fn run_beside_database<
    H: Threads + Wait + Sync + Net + Clock,
    R: Read + Drop,
    W: Write + Drop,
    K: Keeper + Send,
>(
    rt: &H,
    files: &HostRuntime,
    alloc: Global,
    words: &[String],
    reader: R,
    writer: W,
    keeper: &mut K,
) -> u8
where
    H::Listener: Send + Sync,
    H::Stream: Send,
    ensures status { IsStatusOfTwo result }
    ensures words { (result ≡ 2) ↔ ((is_move (map string_bytes words.now) ≡ false)
        × (job_of (behind (map string_bytes words.now)) ≡ None)) }
{
    let mut other = Database::new(files);
    run_over(rt, alloc, words, reader, writer, keeper, &mut other)
}

// How much of standard input is read ahead, by the words. A stream of frames is asked for a head and a payload at a time, most of them short;
// each other form asks for as much as it can use.
fn ahead(words: &[String]) -> usize {
    let form = words_behind(words);
    if form.len() == 1 && form[0].as_str() == "follow" {
        AHEAD
    } else {
        0
    }
}

// The status of words that could not be had: they are no text, or there was not enough memory.
fn refused(kind: ErrorKind) -> u8
    ensures memory { kind ≡ OutOfMemory → result ≡ 7 }
    ensures no_text { kind ≢ OutOfMemory → result ≡ 2 }
{
    match kind {
        ErrorKind::OutOfMemory => 7,
        _ => 2,
    }
}

// Writes what is said to standard error.
fn say(rt: &HostRuntime, said: Option<Said<'_>>) {
    let Some(said) = said else {
        return;
    };
    let Said {
        begin,
        subject,
        says,
        wanted,
        link,
        word,
        usage,
    } = said;
    let _ = eprintln!(rt; "{begin}{subject}{says}{wanted}{link}{word}");
    if !usage.is_empty() {
        let _ = eprintln!(rt; "{usage}");
    }
}

fn main(rt: HostRuntime) -> ExitCode {
    match words(&rt) {
        Ok(words) => {
            let mut keeper = JournalKeeper::new(rt.alloc(), FileDisk::new(&rt, JOURNAL));
            let input = BufReader::with_capacity(rt.alloc(), ahead(words.as_slice()), rt.stdin());
            let status = match input {
                Ok(reader) => run_beside_database(
                    &rt,
                    &rt,
                    rt.alloc(),
                    words.as_slice(),
                    reader,
                    rt.stdout(),
                    &mut keeper,
                ),
                Err(error) => refused(error.kind()),
            };
            let kept = kept_by(words.as_slice(), keeper.disk().is_held());
            say(
                &rt,
                notice(status, kept, Some(words_behind(words.as_slice()))),
            );
            ExitCode::from(status)
        }
        Err(error) => {
            let status = refused(error.kind());
            say(&rt, notice(status, Kept::Journal, None));
            ExitCode::from(status)
        }
    }
}
