//! Window: a piece of the disk that is kept in memory, so that many short reads cost one long one.

ghost use Rattle.std.specs.Prelude.{◌≡◌, ◌+◌, ◌-◌, ◌^◌, ◌<◌, ◌≤◌, min, take, drop, length, IfOk, IfSome, OnOk};
ghost use Rattle.desk_base.specs.Streams.{HasCause};
ghost use Rattle.law_journal.specs.Disks.{Idles, Reads};
ghost use Rattle.law_journal.specs.Windows as spec;
ghost use Rattle.law_journal.specs.Windows.{IsFilled, IsWindow};

use crate::Disk;
use desk_base::Failed;
use std::alloc::{AllocError, Global};

/// The bytes of a piece.
const PIECE: usize = 65_536;

/// A piece of a disk.
#[derive(Drop)]
pub struct Window {
    /// The place where it begins.
    start: u64,
    /// How many of the bytes are the disk's.
    held: usize,
    bytes: Vec<u8>,
}

// The bytes of the piece from an index on.
fn copy_from(bytes: &[u8], at: usize, into: &mut [u8])
    requires { at + length into.old ≤ length bytes.now }
    ensures piece { into.new ≡ spec.piece_from at (length into.old) bytes.now }
    ensures length { length into.new ≡ length into.old }
{
    into.copy_from_slice(&bytes[at..at + into.len()]);
}

// Copies as many bytes as there are into the front, and says how many.
fn copy_front(bytes: &[u8], into: &mut [u8]) -> usize
    ensures front { spec.IsFront bytes.now into.new result }
    ensures length { length into.new ≡ length into.old }
{
    let count = bytes.len().min(into.len());
    into[..count].copy_from_slice(&bytes[..count]);
    count
}

impl Window {
    /// A window that holds nothing yet, and has no memory.
    pub fn new(alloc: Global) -> Window
        ensures { result.held ≡ 0 }
    {
        Window {
            start: 0,
            held: 0,
            bytes: Vec::new(alloc),
        }
    }

    /// Takes the memory of a piece, unless it has it.
    pub fn make_room(&mut self) -> Result<(), AllocError>
        ensures { self.new.held ≡ self.old.held }
    {
        if self.bytes.len() < PIECE {
            self.bytes.resize(PIECE, 0)?;
        }
        Ok(())
    }

    /// Lets go of what it holds, since the disk is about to change.
    pub fn forget(&mut self)
        ensures { self.new.held ≡ 0 }
    {
        self.held = 0;
    }

    // Where a place stands in the piece, if it does; its end is one.
    fn index_of(&self, place: u64) -> Option<usize>
        ensures { IfSome result (λ at. (place ≡ self.now.start + at) × (at ≤ self.now.held)) }
    {
        if place < self.start || place - self.start > self.held as u64 {
            return None;
        }
        Some((place - self.start) as usize)
    }

    /// So many bytes from a place on, where the piece has them all: nothing is copied.
    pub fn peek<D: Disk>(&self, _disk: &D, place: u64, count: usize) -> Option<&[u8]>
        requires { IsWindow (D.outlook _disk.now) self.now }
        ensures bytes { IfSome result (λ bytes. (D.outlook _disk.now).tells
            → bytes.now ≡ take count (drop place (D.outlook _disk.now).seen)) }
        ensures length { IfSome result (λ bytes. length bytes.now ≡ count) }
    {
        let at = self.index_of(place)?;
        if self.held - at < count {
            return None;
        }
        Some(&self.bytes[at..at + count])
    }

    // Fills the piece from a place on.
    fn fill<D: Disk>(&mut self, disk: &mut D, place: u64) -> Result<(), Failed>
        requires { IsWindow (D.outlook disk.old) self.old }
        ensures window { IsWindow (D.outlook disk.new) self.new }
        ensures start { OnOk result (self.new.start ≡ place) }
        ensures size { length self.new.bytes.items ≡ length self.old.bytes.items }
        ensures held { OnOk result (IsFilled (D.outlook disk.old) place (length self.old.bytes.items) self.new.held) }
        ensures idle { Idles (D.outlook disk.old) (D.outlook disk.new) }
        ensures cause { HasCause (D.faults disk.old) (D.faults disk.new) result }
    {
        self.held = 0;
        self.start = place;
        self.held = disk.read(place, self.bytes.as_mut_slice())?;
        Ok(())
    }

    // Reads what the piece does not have, and keeps a piece from there on.
    fn read_on<D: Disk>(
        &mut self,
        disk: &mut D,
        place: u64,
        into: &mut [u8],
    ) -> Result<usize, Failed>
        requires { IsWindow (D.outlook disk.old) self.old }
        ensures window { IsWindow (D.outlook disk.new) self.new }
        ensures given { Reads (D.outlook disk.old) place result into.new }
        ensures fits { IfOk result (λ n. n ≤ length into.new) }
        ensures length { length into.new ≡ length into.old }
        ensures idle { Idles (D.outlook disk.old) (D.outlook disk.new) }
        ensures cause { HasCause (D.faults disk.old) (D.faults disk.new) result }
    {
        if into.is_empty() {
            return Ok(0);
        }
        if into.len() >= self.bytes.len() {
            return disk.read(place, into);
        }
        self.fill(disk, place)?;
        Ok(copy_front(&self.bytes[..self.held], into))
    }

    /// Reads as the disk does, and mostly without asking it. Who reads on and on is given each byte by one read.
    pub fn read<D: Disk>(
        &mut self,
        disk: &mut D,
        place: u64,
        into: &mut [u8],
    ) -> Result<usize, Failed>
        requires window { IsWindow (D.outlook disk.old) self.old }
        requires bound { place + length into.old < 2 ^ 64 }
        ensures window { IsWindow (D.outlook disk.new) self.new }
        ensures given { Reads (D.outlook disk.old) place result into.new }
        ensures fits { IfOk result (λ n. n ≤ length into.new) }
        ensures idle { Idles (D.outlook disk.old) (D.outlook disk.new) }
        ensures cause { HasCause (D.faults disk.old) (D.faults disk.new) result }
    {
        let Some(at) = self.index_of(place) else {
            return self.read_on(disk, place, into);
        };
        let count = into.len().min(self.held - at);
        let (front, rest) = into.split_at_mut(count);
        copy_from(&self.bytes, at, front);
        Ok(count + self.read_on(disk, place + count as u64, rest)?)
    }
}
