//! The journal over disks that fail, driven by lines: the first line of the standard input says on which disk it lies,
//! and each other one is a call, of which one line is written. The rows of tests/ run it, and bench/journal times it.
#![tactic(auto)]

mod answers;
mod disk_calls;
mod driven;
mod journal_calls;
mod noted_file;
mod setting;
mod shown;

use anyhow::Result;
use desk_base::Memory;
use driven::Driven;
use law_journal::{FileDisk, Journal, NamedFile, SystemFile};
use setting::Setting;
use shown::Shown;
use std::alloc::{AllocError, Global};
use std::fs::{File, Files};
use std::io::{BufRead, BufReader, Lines, Read};

/// How many bytes are read at a time.
const PIECE: usize = 65_536;

// Makes the call of each line that is left, in order, and writes what came of it.
fn tell_lines<R: Print, T: Driven + Drop, I: Read + Drop>(
    rt: &R,
    alloc: Global,
    mut driven: T,
    lines: Lines<BufReader<I>>,
) -> Result<()> {
    for line in lines {
        let line = line?;
        match driven.told(alloc, line.as_str()) {
            Ok(told) => println!(rt; "{}", told)?,
            Err(Memory) => return Err(AllocError.into()),
        }
    }
    Ok(())
}

// The calls are those of a journal on a file, or, where it is bare, those of the file as a disk.
fn tell_over_file<R: Print, F: SystemFile + Shown + Drop, I: Read + Drop>(
    rt: &R,
    alloc: Global,
    disk: FileDisk<F>,
    is_bare: bool,
    lines: Lines<BufReader<I>>,
) -> Result<()> {
    if is_bare {
        tell_lines(rt, alloc, disk, lines)
    } else {
        tell_lines(rt, alloc, Journal::new(alloc, disk), lines)
    }
}

// Tells of each line behind the first, over the disk that the first one is.
fn tell_over<R: Print + Files<File = File>, I: Read + Drop>(
    rt: &R,
    alloc: Global,
    setting: Setting<'_>,
    lines: Lines<BufReader<I>>,
) -> Result<()> {
    match setting {
        Setting::Memory(disk) => tell_lines(rt, alloc, Journal::new(alloc, disk), lines),
        Setting::Noted { file, is_bare } => {
            tell_over_file(rt, alloc, FileDisk::over(file), is_bare, lines)
        }
        Setting::Named {
            folder,
            name,
            is_bare,
        } => {
            let file = NamedFile::new(rt, folder, name);
            tell_over_file(rt, alloc, FileDisk::over(file), is_bare, lines)
        }
    }
}

// Tells of each line of a reader.
fn run<R: Print + Files<File = File>, I: Read + Drop>(
    rt: &R,
    alloc: Global,
    reader: I,
) -> Result<()> {
    let mut lines = BufReader::with_capacity(alloc, PIECE, reader)?.lines(alloc);
    let Some(first) = lines.next() else {
        return Ok(());
    };
    let first = first?;
    match Setting::from_line(alloc, first.as_str()) {
        Ok(Some(setting)) => tell_over(rt, alloc, setting, lines),
        Ok(None) => Ok(println!(rt; "no such line")?),
        Err(Memory) => Err(AllocError.into()),
    }
}

fn main(rt: HostRuntime) -> Result<()> {
    run(&rt, rt.alloc(), rt.stdin())
}
