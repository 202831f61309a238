//! An office over a keeper in memory, driven by lines: each line of the standard input is a command or asks what the desk knows, and one line
//! is written of it. The first may set up what the keeper does. The tables of tests/ run it, and bench/register times it.
#![tactic(auto)]

mod answering;
mod bearing;
mod bytes;
mod commanding;
mod drafting;
mod knowing;
mod lines;
mod questions;
mod referring;
mod replies;
mod settings;
mod stop;
mod store;
mod tabling;
mod touching;
mod trial_keeper;

ghost use Rattle.std.specs.Prelude.{◌≡◌};

use desk_base::{ListClock, Memory, Steps};
use law_office::Office;
use law_register::Desk;
use lines::told_of_line;
use referring::told_of_dangling;
use replies::{marks_line, refused_line};
use settings::{Failing, Setting, setting_of};
use std::alloc::Global;
use std::io::{self, BufRead, BufReader, BufWriter, Read, Write};
use std::marker::Brand;
use std::process::ExitCode;
use std::sync::ledger::{Blank, Ledger};
use std::thread::Threads;
use stop::Stop;
use store::{clock_of, keeper_of, kept_line, opened_line, reopened_line, viewed_line};
use tabling::told_of_tables;
use trial_keeper::TrialKeeper;

/// How many bytes are read, and written, at a time.
const PIECE: usize = 65_536;

// Writes a line. What was written is handed on where it is asked for, so that whoever waits for the line can tell the time.
fn write_line<W: Write + Drop>(
    out: &mut BufWriter<W>,
    told: &[u8],
    is_awaited: bool,
) -> Result<(), Stop> {
    out.write_all(told).map_err(Stop::of_sink)?;
    out.write_all(b"\n").map_err(Stop::of_sink)?;
    if is_awaited {
        out.flush().map_err(Stop::of_sink)?;
    }
    Ok(())
}

// What is told of a line that asks for tables, or for what dangles, or of any that a desk answers.
fn told_by_office<L: Ledger>(
    alloc: Global,
    office: &mut Office<'_, '_, TrialKeeper, ListClock>,
    line: &[u8],
    steps: &mut Steps<L>,
) -> Result<Vec<u8>, Memory> {
    if let Some(told) = told_of_dangling(alloc, office, line)? {
        return Ok(told);
    }
    match told_of_tables(alloc, office, line, steps)? {
        Some(told) => Ok(told),
        None => told_of_line(alloc, office, line, steps),
    }
}

// Tells of a line that an office answers. After the line `front` what was written is handed on.
fn tell_line<W: Write + Drop, L: Ledger>(
    alloc: Global,
    office: &mut Office<'_, '_, TrialKeeper, ListClock>,
    line: &[u8],
    out: &mut BufWriter<W>,
    steps: &mut Steps<L>,
) -> Result<(), Stop> {
    let told = if line == b"marks".as_slice() {
        marks_line(alloc, office.marks())?
    } else {
        told_by_office(alloc, office, line, steps)?
    };
    write_line(out, told.as_slice(), line == b"front".as_slice())
}

// Tells of each line that is left, in order.
fn tell_lines<R: Read + Drop, W: Write + Drop, L: Ledger>(
    alloc: Global,
    office: &mut Office<'_, '_, TrialKeeper, ListClock>,
    lines: io::Split<BufReader<R>>,
    out: &mut BufWriter<W>,
    steps: &mut Steps<L>,
) -> Result<(), Stop> {
    for line in lines {
        let line = line.map_err(Stop::of_source)?;
        tell_line(alloc, office, line.as_slice(), out, steps)?;
    }
    Ok(())
}

// Tells of the first line, which is that of the office where it opened what the keeper has, and then of each line that is left.
fn tell_all<R: Read + Drop, W: Write + Drop, L: Ledger>(
    alloc: Global,
    office: &mut Office<'_, '_, TrialKeeper, ListClock>,
    first: Option<&[u8]>,
    lines: io::Split<BufReader<R>>,
    out: &mut BufWriter<W>,
    steps: &mut Steps<L>,
) -> Result<(), Stop> {
    match first {
        Some(line) => tell_line(alloc, office, line, out, steps)?,
        None => {
            let told = opened_line(alloc, office.register())?;
            write_line(out, told.as_slice(), true)?;
        }
    }
    tell_lines(alloc, office, lines, out, steps)
}

// Opens what a keeper has, and tells of each line; where it is refused, of that alone.
fn serve<R: Read + Drop, W: Write + Drop, L: Ledger>(
    alloc: Global,
    keeper: &mut TrialKeeper,
    clock: &mut ListClock,
    first: Option<&[u8]>,
    lines: io::Split<BufReader<R>>,
    out: &mut BufWriter<W>,
    steps: &mut Steps<L>,
) -> Result<(), Stop> {
    match Office::open(alloc, keeper, clock, steps) {
        Ok(mut office) => {
            let told = tell_all(alloc, &mut office, first, lines, out, steps);
            drop(office);
            told
        }
        Err(refused) => {
            let told = refused_line(alloc, refused.fault)?;
            write_line(out, told.as_slice(), true)
        }
    }
}

// Tells what a keeper has once an office is let go, and what its opening says.
fn tell_end<W: Write + Drop>(
    alloc: Global,
    keeper: &mut TrialKeeper,
    out: &mut BufWriter<W>,
) -> Result<(), Stop> {
    let kept = kept_line(alloc, keeper)?;
    write_line(out, kept.as_slice(), false)?;
    let opened = reopened_line(alloc, keeper)?;
    write_line(out, opened.as_slice(), true)
}

// Does what the first line asks of the keeper, and tells of the others.
fn run_set<R: Read + Drop, W: Write + Drop, L: Ledger>(
    alloc: Global,
    setting: Setting,
    lines: io::Split<BufReader<R>>,
    out: &mut BufWriter<W>,
    steps: &mut Steps<L>,
) -> Result<(), Stop> {
    let Setting {
        view,
        failing,
        manner,
        days,
        kept,
    } = setting;
    let mut clock = clock_of(alloc, days.as_slice())?;
    let mut keeper = keeper_of(alloc, failing.as_slice(), manner, kept)?;
    match viewed_line(alloc, &mut keeper, view)? {
        Some(told) => write_line(out, told.as_slice(), true),
        None => {
            serve(alloc, &mut keeper, &mut clock, None, lines, out, steps)?;
            tell_end(alloc, &mut keeper, out)
        }
    }
}

// Tells of a first line and the others, over a keeper with no payload and a clock of 0001-01-01.
fn run_plain<R: Read + Drop, W: Write + Drop, L: Ledger>(
    alloc: Global,
    first: &[u8],
    lines: io::Split<BufReader<R>>,
    out: &mut BufWriter<W>,
    steps: &mut Steps<L>,
) -> Result<(), Stop> {
    let mut clock = clock_of(alloc, &[])?;
    let mut keeper = TrialKeeper::new(alloc, &[], Failing::Undone)?;
    serve(
        alloc,
        &mut keeper,
        &mut clock,
        Some(first),
        lines,
        out,
        steps,
    )
}

// Tells of each line of a reader, in order, on a line of a writer.
fn run<L: Ledger, R: Read + Drop, W: Write + Drop>(
    alloc: Global,
    reader: R,
    writer: W,
    steps: &mut Steps<L>,
) -> Result<(), Stop> {
    let input = BufReader::with_capacity(alloc, PIECE, reader).map_err(Stop::of_source)?;
    let mut out = BufWriter::with_capacity(alloc, PIECE, writer).map_err(Stop::of_sink)?;
    let mut lines = input.split(alloc, b'\n');
    if let Some(first) = lines.next() {
        let first = first.map_err(Stop::of_source)?;
        match setting_of(alloc, first.as_slice())? {
            Some(setting) => run_set(alloc, setting, lines, &mut out, steps)?,
            None => run_plain(alloc, first.as_slice(), lines, &mut out, steps)?,
        }
    }
    out.flush().map_err(Stop::of_sink)
}

// Runs over a reader and a writer, with a count of steps that begins here.
fn run_over<L: Ledger, H: Threads, R: Read + Drop, W: Write + Drop>(
    rt: &H,
    alloc: Global,
    reader: R,
    writer: W,
    blank: Blank,
) -> Result<(), Stop>
    requires name { blank.name ≡ L.name }
    requires parts { blank.parts ≡ L.parts }
    requires one { blank.parts ≡ 1 }
{
    let mut steps = Steps::<L>::start(rt, blank);
    run(alloc, reader, writer, &mut steps)
}

fn main(rt: HostRuntime) -> ExitCode {
    match run_over::<Brand, _, _, _>(&rt, rt.alloc(), rt.stdin(), rt.stdout(), Blank::new(1)) {
        Ok(()) => ExitCode::SUCCESS,
        Err(stop) => ExitCode::from(stop.status()),
    }
}
