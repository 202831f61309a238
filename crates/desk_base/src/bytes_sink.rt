//! BytesSink: a sink in memory. A clause sees what is written, its capacity, its plan and its faults.

ghost use Rattle.std.specs.Prelude.{◌≡◌, ◌++◌, ◌↔◌, [], Some, IfOk, IsErr, IsTrue};
ghost use Rattle.desk_base.specs.MemoryStreams as spec;
ghost use Rattle.desk_base.specs.Streams.{HasCause, Appended};

use crate::source::count_fault;
use crate::{Failed, FailingCalls, Memory, Sink};
use std::alloc::Global;
use std::marker::Model;

/// A sink that keeps what is written, up to a capacity, and some of whose writes fail.
#[derive(Debug, Drop)]
pub struct BytesSink {
    bytes: Vec<u8>,
    capacity: usize,
    plan: FailingCalls,
    faults: u64,
}

impl Model for BytesSink {
    ghost use Rattle.std.specs.Prelude.{◌≤◌, length, vec_capacity};
    ghost use Rattle.desk_base.specs.MemoryStreams.{HeldSink};

    ghost Value = { HeldSink };

    ghost view = { λ s. record { written = s.bytes.items; capacity = s.capacity; plan = s.plan; faults = s.faults } };

    ghost invariant = { λ s. (length s.bytes.items ≤ s.capacity) × (s.capacity ≤ vec_capacity s.bytes) };
}

impl BytesSink {
    /// An empty sink that takes `capacity` bytes in all. The writes of the numbers in `failing`,
    /// counted from 1, fail.
    pub fn new(alloc: Global, capacity: usize, failing: &[u64]) -> Result<BytesSink, Memory>
        ensures { IfOk result (λ s. s ≡ spec.new_sink capacity failing.now) }
    {
        Ok(BytesSink {
            bytes: Vec::with_capacity(alloc, capacity)?,
            capacity,
            plan: FailingCalls::new(alloc, failing)?,
            faults: 0,
        })
    }

    /// What is written so far.
    pub fn bytes(&self) -> &[u8]
        ensures { result.now ≡ self.now.written }
    {
        self.bytes.as_slice()
    }
}

impl Sink for BytesSink {
    ghost written = { λ s. Some s.written };

    ghost faults = { λ s. s.faults };

    /// Fails exactly where the number of the call is listed, and then writes nothing, or where the
    /// capacity would be passed, and then writes what fits.
    fn write_all(&mut self, bytes: &[u8]) -> Result<(), Failed>
        ensures appended { Appended (Some self.old.written) (Some self.new.written) bytes.now result }
        ensures cause { HasCause self.old.faults self.new.faults result }
        ensures fails { IsErr result ↔ IsTrue (spec.write_fails self.old bytes.now) }
        ensures written { self.new.written ≡ spec.written_after self.old bytes.now }
        ensures counted { self.new.plan ≡ spec.after_call self.old.plan }
        ensures capacity { self.new.capacity ≡ self.old.capacity }
    {
        if self.plan.count_call() {
            return Err(count_fault(&mut self.faults));
        }
        let fits = bytes.len().min(self.capacity - self.bytes.len());
        // `new` has taken the memory for all that fits.
        match self.bytes.extend_from_slice(&bytes[..fits]) {
            Ok(()) => {}
            Err(_) => unreachable!(),
        }
        if fits < bytes.len() {
            return Err(count_fault(&mut self.faults));
        }
        Ok(())
    }
}
