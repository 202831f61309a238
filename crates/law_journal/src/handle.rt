//! Handle: a file of the system whose faults are counted. It is settled before anything is read: locked, opened, synced
//! and its pages dropped, so that it reads as it is on the device. Once a sync has failed it is settled anew.

ghost use Rattle.std.specs.Prelude.{◌≡◌, ◌+◌, ◌-◌, ◌^◌, ◌<◌, ◌≤◌, true, false, length, IfOk, IsErr, OnErr, OnOk};
ghost use Rattle.desk_base.specs.Streams.{HasCause};
ghost use Rattle.law_journal.specs.Answers.{HasValueOf};
ghost use Rattle.law_journal.specs.declared.handle.State.TheVariants.{Lost, Open, Unopened};

use crate::system_file::{LIMIT, SystemFile};
use desk_base::{Failed, count_fault};
use std::io;

/// How far a file may be asked.
#[derive(Clone, Copy, Debug, PartialEq, Eq)]
pub enum State {
    /// Nothing was asked of it yet; the first call settles it.
    Unopened,
    /// It is settled.
    Open,
    /// A sync or a settling has failed; until a sync settles it, each other call is a fault.
    Lost,
}

/// A file that is opened at the first call.
#[derive(Drop)]
pub struct Handle<F: SystemFile> {
    file: F,
    state: State,
    /// Whether the last settling failed because another process held the file.
    held: bool,
    ghost may_be_asked: { state ≡ Open → F.is_open file ≡ true },
}

/// The answer of a call of the system, whose fault is counted.
pub fn counted<T: Drop>(answer: io::Result<T>, faults: &mut u64) -> Result<T, Failed>
    ensures cause { HasCause faults.old faults.new result }
    ensures same { HasValueOf answer result }
{
    match answer {
        Ok(value) => Ok(value),
        Err(_) => Err(count_fault(faults)),
    }
}

// Fills the front of `into` from a place on, up to the end of the file.
fn read_all<F: SystemFile>(file: &mut F, place: u64, into: &mut [u8]) -> io::Result<usize>
    requires open { F.is_open file.old ≡ true }
    requires place { place < 2 ^ 63 }
    ensures fits { IfOk result (λ n. n ≤ length into.new) }
    ensures open { F.is_open file.new ≡ true }
{
    let mut filled = 0;
    while filled < into.len() {
        let count = file.read_some(place + filled as u64, &mut into[filled..])?;
        if count == 0 {
            break;
        }
        filled += count;
    }
    Ok(filled)
}

// Writes all bytes from a place on.
fn write_all<F: SystemFile>(file: &mut F, place: u64, bytes: &[u8]) -> io::Result<()>
    requires open { F.is_open file.old ≡ true }
    requires place { place + length bytes.now < 2 ^ 63 }
    ensures open { F.is_open file.new ≡ true }
{
    let mut written = 0;
    while written < bytes.len() {
        let count = file.write_some(place + written as u64, &bytes[written..])?;
        if count == 0 {
            return Err(io::Error::from(io::ErrorKind::WriteZero));
        }
        written += count;
    }
    Ok(())
}

impl<F: SystemFile> Handle<F> {
    /// A file of which nothing was asked yet.
    pub fn new(file: F) -> Handle<F>
        ensures file { result.file ≡ file }
        ensures unopened { result.state ≡ Unopened }
        ensures free { result.held ≡ false }
    {
        Handle {
            file,
            state: State::Unopened,
            held: false,
        }
    }

    /// The file.
    pub fn file(&self) -> &F
        ensures { result.now ≡ self.now.file }
    {
        &self.file
    }

    /// Whether the last settling failed because another process held the file.
    pub fn is_held(&self) -> bool
        ensures { result ≡ self.now.held }
    {
        self.held
    }

    // Opens the file anew. Only a sync by the new handle, before the pages are dropped, makes them all droppable.
    fn open_anew(&mut self) -> io::Result<()>
        requires { self.old.state ≡ Lost }
        ensures lost { self.new.state ≡ Lost }
        ensures opened { OnOk result (F.is_open self.new.file ≡ true) }
        ensures held { OnOk result (self.new.held ≡ false) }
    {
        self.held = false;
        if !self.file.lock()? {
            self.held = true;
            return Err(io::Error::from(io::ErrorKind::WouldBlock));
        }
        self.file.open()?;
        self.file.sync_all()?;
        self.file.drop_pages()?;
        self.file.sync_folder()
    }

    // Opens the file anew, and answers Ok only if all of that was done.
    fn settle(&mut self, faults: &mut u64) -> Result<(), Failed>
        ensures opened { OnOk result (self.new.state ≡ Open) }
        ensures lost { OnErr result (self.new.state ≡ Lost) }
        ensures held { OnOk result (self.new.held ≡ false) }
        ensures cause { HasCause faults.old faults.new result }
    {
        self.state = State::Lost;
        counted(self.open_anew(), faults)?;
        self.state = State::Open;
        Ok(())
    }

    // Settles the file at the first call.
    fn ready(&mut self, faults: &mut u64) -> Result<(), Failed>
        ensures opened { OnOk result (self.new.state ≡ Open) }
        ensures untouched { self.old.state ≡ Lost → self.new ≡ self.old }
        ensures lost { self.old.state ≡ Lost → IsErr result }
        ensures cause { HasCause faults.old faults.new result }
    {
        match self.state {
            State::Unopened => self.settle(faults),
            State::Open => Ok(()),
            State::Lost => Err(count_fault(faults)),
        }
    }

    /// The length, below 2^63.
    pub fn len(&mut self, faults: &mut u64) -> Result<u64, Failed>
        ensures bound { IfOk result (λ n. n < 2 ^ 63) }
        ensures untouched { self.old.state ≡ Lost → self.new ≡ self.old }
        ensures lost { self.old.state ≡ Lost → IsErr result }
        ensures cause { HasCause faults.old faults.new result }
    {
        self.ready(faults)?;
        counted(self.file.len(), faults)
    }

    /// Fills the front of `into` from a place on, and says how many bytes that are.
    pub fn read(&mut self, place: u64, into: &mut [u8], faults: &mut u64) -> Result<usize, Failed>
        ensures fits { IfOk result (λ n. n ≤ length into.new) }
        ensures untouched { self.old.state ≡ Lost → self.new ≡ self.old }
        ensures lost { self.old.state ≡ Lost → IsErr result }
        ensures cause { HasCause faults.old faults.new result }
    {
        self.ready(faults)?;
        if place >= LIMIT {
            return Ok(0);
        }
        counted(read_all(&mut self.file, place, into), faults)
    }

    /// Writes all bytes from a place on, where they end below 2^63.
    pub fn write(&mut self, place: u64, bytes: &[u8], faults: &mut u64) -> Result<(), Failed>
        ensures bound { OnOk result (place + length bytes.now < 2 ^ 63) }
        ensures untouched { self.old.state ≡ Lost → self.new ≡ self.old }
        ensures lost { self.old.state ≡ Lost → IsErr result }
        ensures cause { HasCause faults.old faults.new result }
    {
        self.ready(faults)?;
        if place >= LIMIT || bytes.len() as u64 >= LIMIT - place {
            return Err(count_fault(faults));
        }
        counted(write_all(&mut self.file, place, bytes), faults)
    }

    /// Cuts the file to a length.
    pub fn cut(&mut self, len: u64, faults: &mut u64) -> Result<(), Failed>
        ensures untouched { self.old.state ≡ Lost → self.new ≡ self.old }
        ensures lost { self.old.state ≡ Lost → IsErr result }
        ensures cause { HasCause faults.old faults.new result }
    {
        self.ready(faults)?;
        counted(self.file.set_len(len), faults)
    }

    /// Waits until data and length are on the device. It settles a file that is not settled.
    pub fn sync(&mut self, faults: &mut u64) -> Result<(), Failed>
        ensures opened { OnOk result (self.new.state ≡ Open) }
        ensures marked { OnErr result (self.new.state ≡ Lost) }
        ensures cause { HasCause faults.old faults.new result }
    {
        if !matches!(self.state, State::Open) {
            return self.settle(faults);
        }
        self.state = State::Lost;
        counted(self.file.sync_all(), faults)?;
        self.state = State::Open;
        Ok(())
    }
}
