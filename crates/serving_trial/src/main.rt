//! A register in memory that is served over gates in memory, driven by lines: each line of the standard input tells of four
//! gates, and one line is written of what each gave back. The rows of tests/ run it.
#![tactic(auto)]

mod gates;
mod lines;
mod meet_link;
mod serving;

ghost use Rattle.std.specs.Prelude.{◌≡◌};

use anyhow::Result;
use desk_base::{Memory, Steps};
use lines::told_of_line;
use std::alloc::{AllocError, Global};
use std::io::{BufRead, BufReader, Read};
use std::marker::Brand;
use std::sync::Wait;
use std::sync::ledger::{Blank, Ledger};
use std::thread::Threads;

/// How many bytes are read at a time.
const PIECE: usize = 65_536;

// Tells of a line.
fn tell_line<R: Threads + Wait + Print + Sync, L: Ledger>(
    rt: &R,
    alloc: Global,
    line: &str,
    steps: &mut Steps<L>,
) -> Result<()> {
    match told_of_line(rt, alloc, line, steps) {
        Ok(told) => Ok(println!(rt; "{told}")?),
        Err(Memory) => Err(AllocError.into()),
    }
}

// Tells of each line of a reader, with a count of steps that begins here.
fn run<L: Ledger, R: Threads + Wait + Print + Sync, I: Read + Drop>(
    rt: &R,
    alloc: Global,
    reader: I,
    blank: Blank,
) -> Result<()>
    requires name { blank.name ≡ L.name }
    requires parts { blank.parts ≡ L.parts }
    requires one { blank.parts ≡ 1 }
{
    let mut steps = Steps::<L>::start(rt, blank);
    for line in BufReader::with_capacity(alloc, PIECE, reader)?.lines(alloc) {
        let line = line?;
        tell_line(rt, alloc, line.as_str(), &mut steps)?;
    }
    Ok(())
}

fn main(rt: HostRuntime) -> Result<()> {
    run::<Brand, _, _>(&rt, rt.alloc(), rt.stdin(), Blank::new(1))
}
