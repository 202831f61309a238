//! BytesSource: a source in memory. A clause sees what is left, its piece, its plan and its faults.

ghost use Rattle.std.specs.Prelude.{◌≡◌, ◌≤◌, ◌-◌, ◌^◌, ◌++◌, ◌↔◌, min, length, take, drop, Some, IfOk, IsErr, IsTrue};
ghost use Rattle.std.specs.Io.{ReadsAtMost};
ghost use Rattle.std.specs.Io.KnownBytes.{ReadConsumes};
ghost use Rattle.desk_base.specs.MemoryStreams as spec;
ghost use Rattle.desk_base.specs.Streams.{HasCause, LowersRoom};

use crate::source::count_fault;
use crate::{Failed, FailingCalls, Memory, Source};
use std::alloc::Global;
use std::marker::Model;

/// Bytes in memory as a source, which gives them in pieces, and some of whose reads fail.
#[derive(Debug, Drop)]
pub struct BytesSource {
    bytes: Vec<u8>,
    at: usize,
    piece: usize,
    plan: FailingCalls,
    faults: u64,
}

impl Model for BytesSource {
    ghost use Rattle.std.specs.Prelude.{◌≤◌, drop, length};
    ghost use Rattle.desk_base.specs.MemoryStreams.{HeldSource};

    ghost Value = { HeldSource };

    ghost view = { λ s. record { left = drop s.at s.bytes.items; piece = s.piece; plan = s.plan; faults = s.faults } };

    ghost invariant = { λ s. (s.at ≤ length s.bytes.items) × (1 ≤ s.piece) };
}

// Copies the front of `from` into the front of `into`: at most `piece` bytes. It says how many.
fn copy_front(from: &[u8], piece: usize, into: &mut [u8]) -> usize
    ensures count { result ≡ min (min piece (length into.old)) (length from.now) }
    ensures bytes { into.new ≡ take result from.now ++ drop result into.old }
    ensures front { take result into.new ≡ take result from.now }
    ensures len { length into.new ≡ length into.old }
{
    let count = piece.min(into.len()).min(from.len());
    into[..count].copy_from_slice(&from[..count]);
    count
}

impl BytesSource {
    /// A source of these bytes. A read gives at most `piece` of them, which is at least 1, and the
    /// reads of the numbers in `failing`, counted from 1, fail.
    pub fn new(
        alloc: Global,
        bytes: &[u8],
        piece: usize,
        failing: &[u64],
    ) -> Result<BytesSource, Memory>
        requires { 1 ≤ piece }
        ensures { IfOk result (λ s. s ≡ spec.new_source bytes.now piece failing.now) }
    {
        Ok(BytesSource {
            bytes: Vec::from_slice(alloc, bytes)?,
            at: 0,
            piece,
            plan: FailingCalls::new(alloc, failing)?,
            faults: 0,
        })
    }

    // What is left.
    fn rest(&self) -> &[u8]
        ensures { result.now ≡ self.now.left }
    {
        &self.bytes[self.at..]
    }
}

impl Source for BytesSource {
    ghost left = { λ s. Some s.left };

    ghost room = { λ s. length s.left };

    ghost faults = { λ s. s.faults };

    /// Fails exactly where the number of the call is listed, and else gives as many bytes as the piece,
    /// the room in `into` and what is left allow.
    fn read(&mut self, into: &mut [u8]) -> Result<usize, Failed>
        ensures fits { ReadsAtMost result into.new }
        ensures taken { ReadConsumes (Some self.old.left) (Some self.new.left) result into.new }
        ensures room { LowersRoom (length self.old.left) (length self.new.left) result }
        ensures cause { HasCause self.old.faults self.new.faults result }
        ensures fails { IsErr result ↔ IsTrue (spec.next_fails self.old.plan) }
        ensures counted { self.new.plan ≡ spec.after_call self.old.plan }
        ensures piece { self.new.piece ≡ self.old.piece }
        ensures given { IfOk result (λ n. n ≡ spec.given_count self.old (length into.new)) }
    {
        if self.plan.count_call() {
            return Err(count_fault(&mut self.faults));
        }
        let n = copy_front(self.rest(), self.piece, into);
        self.at += n;
        Ok(n)
    }
}
