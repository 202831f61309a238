//! Turns on the real runtime, driven by lines: each line of the standard input is a course, in which callers take their
//! turns at one list, and one line is written of it. The rows of tests/ run it, and bench/turns times it.
#![tactic(auto)]

mod course;
mod notes;
mod running;
mod worker;

use anyhow::Result;
use course::Course;
use running::run_course;
use std::alloc::Global;
use std::io::{BufRead, BufReader, Read};
use std::sync::Wait;
use std::thread::Threads;
use std::time::Clock;

/// How many bytes are read at a time.
const PIECE: usize = 4_096;

// Writes what came of each course of a reader.
fn run<R: Threads + Wait + Clock + Print + Sync, I: Read + Drop>(
    rt: &R,
    alloc: Global,
    reader: I,
) -> Result<()> {
    for line in BufReader::with_capacity(alloc, PIECE, reader)?.lines(alloc) {
        let line = line?;
        match Course::from_line(alloc, line.as_str())? {
            Some(course) => println!(rt; "{}", run_course(rt, alloc, &course)?)?,
            None => println!(rt; "no such line")?,
        }
    }
    Ok(())
}

fn main(rt: HostRuntime) -> Result<()> {
    run(&rt, rt.alloc(), rt.stdin())
}
