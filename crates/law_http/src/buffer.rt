//! Buffer: a clause sees the bytes that were read of a link and not used yet.

ghost use Rattle.std.specs.Prelude.{◌≡◌, ◌≤◌, ◌<◌, ◌+◌, ◌-◌, [], length, take, drop, slice_range, IfOk, OnOk, OnErr};
ghost use Rattle.std.specs.Io.KnownBytes.{IsAtEnd};
ghost use Rattle.desk_base.specs.Streams.{LowersRoom};
ghost use Rattle.law_http.specs.Streams as spec;

use crate::HearFault;
use desk_base::{Link, Memory};
use std::alloc::Global;
use std::marker::Model;

// How many bytes are asked for at a time.
const PIECE: usize = 16_384;

/// Bytes that were read and not used yet, between two places of a vector. What is used moves the first place, and the
/// bytes go to the front only where there is too little room behind them.
#[derive(Debug, Drop)]
pub(crate) struct Buffer {
    bytes: Vec<u8>,
    start: usize,
    end: usize,
}

impl Model for Buffer {
    ghost use Rattle.std.specs.Prelude.{◌≤◌, ℕ, List, length, slice_range};

    ghost Value = { List ℕ };

    ghost view = { λ b. slice_range b.bytes.items b.start b.end };

    ghost invariant = { λ b. (b.start ≤ b.end) × (b.end ≤ length b.bytes.items) };
}

// Brings the bytes between two places to the front.
fn move_to_front(bytes: &mut Vec<u8>, start: usize, end: usize)
    requires order { start ≤ end }
    requires within { end ≤ length bytes.old.items }
    ensures items { take (end - start) bytes.new.items ≡ slice_range bytes.old.items start end }
    ensures size { length bytes.new.items ≡ length bytes.old.items }
{
    bytes.copy_within(start..end, 0);
}

// Puts bytes that mean nothing behind those that are there, until there are so many.
fn lengthen(bytes: &mut Vec<u8>, size: usize) -> Result<(), Memory>
    ensures items { take (length bytes.old.items) bytes.new.items ≡ bytes.old.items }
    ensures grown { length bytes.old.items ≤ length bytes.new.items }
    ensures size { OnOk result (size ≤ length bytes.new.items) }
{
    if bytes.len() < size {
        bytes.resize(size, 0)?;
    }
    Ok(())
}

impl Buffer {
    /// No bytes. It takes no memory.
    pub(crate) fn new(alloc: Global) -> Buffer
        ensures { result ≡ [] }
    {
        Buffer {
            bytes: Vec::new(alloc),
            start: 0,
            end: 0,
        }
    }

    /// The bytes as a slice.
    pub(crate) fn as_slice(&self) -> &[u8]
        ensures { result.now ≡ self.now }
    {
        &self.bytes[self.start..self.end]
    }

    /// How many bytes there are.
    pub(crate) fn len(&self) -> usize
        ensures { result ≡ length self.now }
    {
        self.end - self.start
    }

    /// Takes bytes off the front.
    pub(crate) fn skip(&mut self, count: usize)
        requires { count ≤ length self.old }
        ensures { self.new ≡ drop count self.old }
    {
        self.start += count;
    }

    // Brings the bytes to the front where there is room for fewer than so many behind them.
    fn settle(&mut self, count: usize)
        ensures { self.new ≡ self.old }
    {
        if self.start > 0 && self.bytes.len() - self.end < count {
            move_to_front(&mut self.bytes, self.start, self.end);
            self.end -= self.start;
            self.start = 0;
        }
    }

    /// Reads a piece behind the bytes that are there, and says how long it is: 0 at the end of the stream. It asks for
    /// at most so many bytes. The memory is taken before the link is asked, so no byte that it gave is lost.
    pub(crate) fn read_piece<L: Link>(
        &mut self,
        link: &mut L,
        most: usize,
    ) -> Result<usize, HearFault>
        requires { 0 < most }
        ensures stream { spec.KeepsBytes self.old (L.left link.old) self.new (L.left link.new) }
        ensures end { IfOk result (λ n. n ≡ 0 → IsAtEnd (L.left link.new)) }
        ensures grown { IfOk result (λ n. (n ≤ most) × (length self.new ≡ length self.old + n)) }
        ensures unread { OnErr result (self.new ≡ self.old) }
        ensures front { take (length self.old) self.new ≡ self.old }
        ensures room { LowersRoom (L.room link.old) (L.room link.new) result }
        ensures cause { spec.HasHearCause (L.read_faults link.old) (L.read_faults link.new) result }
        ensures written { L.written link.new ≡ L.written link.old }
        ensures write_faults { L.write_faults link.new ≡ L.write_faults link.old }
        ensures origin { L.origin link.new ≡ L.origin link.old }
    {
        let asked = most.min(PIECE);
        self.settle(asked);
        let behind = self.end + asked;
        lengthen(&mut self.bytes, behind)?;
        match link.read(&mut self.bytes[self.end..behind]) {
            Ok(count) => {
                self.end += count;
                Ok(count)
            }
            Err(_) => Err(HearFault::ReadFault),
        }
    }
}
