//! A register and a table of one of its works, driven by lines: each line of the standard input is a command, makes a table, or asks what it
//! gives, and one line is written of it. The rows of tests/ run it, and bench/tables times it.
#![tactic(auto)]

mod answering;
mod costs;
mod entering;
mod kept;
mod lines;
mod replies;

ghost use Rattle.std.specs.Prelude.{◌≡◌, OnOk};
ghost use Rattle.table_trial.specs.Keeping.{Holds};

use anyhow::Result;
use desk_base::{Memory, Steps};
use kept::Kept;
use law_register::Register;
use lines::told_of_line;
use std::alloc::{AllocError, Global};
use std::io::{BufRead, BufReader, BufWriter, Read, Split, Write};
use std::marker::Brand;
use std::sync::ledger::{Blank, Ledger};
use std::thread::Threads;

/// How many bytes are read, and written, at a time.
const PIECE: usize = 65_536;

// Writes a line, and hands it on.
fn write_line<W: Write + Drop>(out: &mut BufWriter<W>, told: &[u8]) -> Result<()> {
    out.write_all(told)?;
    out.write_all(b"\n")?;
    Ok(out.flush()?)
}

// Tells of a line.
fn tell_line<W: Write + Drop, L: Ledger>(
    alloc: Global,
    register: &mut Register,
    kept: &mut Option<Kept>,
    line: &[u8],
    out: &mut BufWriter<W>,
    steps: &mut Steps<L>,
) -> Result<()>
    requires { Holds register.old.entries kept.old }
    ensures { OnOk result (Holds register.new.entries kept.new) }
{
    match told_of_line(alloc, register, kept, line, steps) {
        Ok(told) => write_line(out, told.as_slice()),
        Err(Memory) => Err(AllocError.into()),
    }
}

// Tells of each line that is left, in order.
fn tell_lines<R: Read + Drop, W: Write + Drop, L: Ledger>(
    alloc: Global,
    register: &mut Register,
    kept: &mut Option<Kept>,
    lines: Split<BufReader<R>>,
    out: &mut BufWriter<W>,
    steps: &mut Steps<L>,
) -> Result<()>
    requires { Holds register.old.entries kept.old }
{
    for line in lines {
        let line = line?;
        tell_line(alloc, register, kept, line.as_slice(), out, steps)?;
    }
    Ok(())
}

// Tells of each line of a reader on a line of a writer, beginning with an empty register and no table.
fn run<R: Read + Drop, W: Write + Drop, L: Ledger>(
    alloc: Global,
    reader: R,
    writer: W,
    steps: &mut Steps<L>,
) -> Result<()> {
    let lines = BufReader::with_capacity(alloc, PIECE, reader)?.split(alloc, b'\n');
    let mut out = BufWriter::with_capacity(alloc, PIECE, writer)?;
    let mut register = Register::new(alloc);
    let mut kept = None;
    tell_lines(alloc, &mut register, &mut kept, lines, &mut out, steps)
}

// Runs over a reader and a writer, with a count of steps that begins here.
fn run_over<L: Ledger, H: Threads, R: Read + Drop, W: Write + Drop>(
    rt: &H,
    alloc: Global,
    reader: R,
    writer: W,
    blank: Blank,
) -> Result<()>
    requires name { blank.name ≡ L.name }
    requires parts { blank.parts ≡ L.parts }
    requires one { blank.parts ≡ 1 }
{
    let mut steps = Steps::<L>::start(rt, blank);
    run(alloc, reader, writer, &mut steps)
}

fn main(rt: HostRuntime) -> Result<()> {
    run_over::<Brand, _, _, _>(&rt, rt.alloc(), rt.stdin(), rt.stdout(), Blank::new(1))
}
