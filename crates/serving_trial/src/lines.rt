//! What is told of a line: four gates are served as it says.

ghost use Rattle.std.specs.Prelude.{◌≡◌, length};

use crate::gates::{gate_of, told_of_gate};
use crate::meet_link::MeetLink;
use crate::serving::{Served, serve_new};
use desk_base::{Memory, Steps, decimal_number};
use desk_gates::ListGate;
use desk_serving::{Outcome, ServeJob};
use std::alloc::Global;
use std::str::Split;
use std::sync::Wait;
use std::sync::atomic::AtomicU64;
use std::sync::ledger::Ledger;
use std::thread::Threads;

/// The port that gates in memory are asked to listen at, which they pass over.
const PORT: u16 = 8080;

// What is told of a line that is none of those which there are.
fn no_such_line(alloc: Global) -> Result<String, Memory> {
    Ok(String::from_str(alloc, "no such line")?)
}

// How the workers ended.
fn ended(outcome: Option<Outcome>) -> &'static str {
    let Some(Outcome { failed, wanting }) = outcome else {
        return "unserved";
    };
    if wanting {
        "wanting"
    } else if failed {
        "failed"
    } else {
        "served"
    }
}

// What is told of gates that were served.
fn told_of_gates(
    alloc: Global,
    served: Option<Served>,
    gates: &[ListGate<MeetLink<'_>>],
) -> Result<String, Memory> {
    let Some(Served { front, outcome }) = served else {
        return Ok(String::from_str(alloc, "unopened")?);
    };
    let ended = ended(outcome);
    let mut told = format!(in alloc; "front {front} {ended}")?;
    for gate in gates {
        told.push(' ')?;
        told.push_str(told_of_gate(alloc, gate)?.as_str())?;
    }
    Ok(told)
}

// Serves four gates, and tells what came of it.
fn told_of_four<'a, R: Threads + Wait + Sync, L: Ledger>(
    rt: &R,
    alloc: Global,
    connections: u32,
    a: ListGate<MeetLink<'a>>,
    b: ListGate<MeetLink<'a>>,
    c: ListGate<MeetLink<'a>>,
    d: ListGate<MeetLink<'a>>,
    steps: &mut Steps<L>,
) -> Result<String, Memory>
    requires first { length a.given ≡ length a.back }
    requires second { length b.given ≡ length b.back }
    requires third { length c.given ≡ length c.back }
    requires fourth { length d.given ≡ length d.back }
{
    let mut gates = [a, b, c, d];
    let job = ServeJob {
        port: PORT,
        connections,
    };
    let served = serve_new(rt, alloc, job, &mut gates, steps)?;
    told_of_gates(alloc, served, &gates)
}

// Serves the gates of these words, if there are four, and tells what came of it.
fn told_of_words<R: Threads + Wait + Sync, L: Ledger>(
    rt: &R,
    alloc: Global,
    connections: u32,
    meeting: u64,
    mut words: Split<'_, char>,
    steps: &mut Steps<L>,
) -> Result<String, Memory> {
    let begun = AtomicU64::new(0);
    let Some(a) = gate_of(alloc, words.next(), &begun, meeting)? else {
        return no_such_line(alloc);
    };
    let Some(b) = gate_of(alloc, words.next(), &begun, meeting)? else {
        return no_such_line(alloc);
    };
    let Some(c) = gate_of(alloc, words.next(), &begun, meeting)? else {
        return no_such_line(alloc);
    };
    let Some(d) = gate_of(alloc, words.next(), &begun, meeting)? else {
        return no_such_line(alloc);
    };
    if words.next().is_some() {
        return no_such_line(alloc);
    }
    told_of_four(rt, alloc, connections, a, b, c, d, steps)
}

/// What is told of a line.
pub fn told_of_line<R: Threads + Wait + Sync, L: Ledger>(
    rt: &R,
    alloc: Global,
    line: &str,
    steps: &mut Steps<L>,
) -> Result<String, Memory> {
    let mut words = line.split(' ');
    let (Some(first), Some(second)) = (words.next(), words.next()) else {
        return no_such_line(alloc);
    };
    match (decimal_number(first, 1_000_000), decimal_number(second, 4)) {
        (Some(connections), Some(meeting)) => {
            told_of_words(rt, alloc, connections as u32, meeting, words, steps)
        }
        _ => no_such_line(alloc),
    }
}
