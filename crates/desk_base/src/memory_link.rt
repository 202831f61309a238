//! MemoryLink: a link in memory. A clause sees its source and its sink.

ghost use Rattle.std.specs.Prelude.{◌≡◌, ◌≤◌, ◌↔◌, [], Some, IfOk, IsErr, IsTrue, length};
ghost use Rattle.std.specs.Io.{ReadsAtMost};
ghost use Rattle.std.specs.Io.KnownBytes.{ReadConsumes};
ghost use Rattle.desk_base.specs.MemoryStreams as spec;
ghost use Rattle.desk_base.specs.Streams.{HasCause, LowersRoom, Appended};

use crate::{BytesSink, BytesSource, Failed, Link, Memory, Sink, Source};
use std::alloc::Global;

/// Bytes in memory as a link, and what is written to it. Some of its reads fail, and some of its writes.
#[derive(Debug, Drop)]
pub struct MemoryLink {
    source: BytesSource,
    sink: BytesSink,
}

impl MemoryLink {
    /// A link of these bytes. A read gives at most `piece` of them, which is at least 1, and it takes `capacity`
    /// bytes in all. The reads and the writes of the numbers that are listed, each counted from 1, fail.
    pub fn new(
        alloc: Global,
        bytes: &[u8],
        piece: usize,
        capacity: usize,
        failing_reads: &[u64],
        failing_writes: &[u64],
    ) -> Result<MemoryLink, Memory>
        requires { 1 ≤ piece }
        ensures source { IfOk result (λ link. link.source ≡ spec.new_source bytes.now piece failing_reads.now) }
        ensures sink { IfOk result (λ link. link.sink ≡ spec.new_sink capacity failing_writes.now) }
    {
        Ok(MemoryLink {
            source: BytesSource::new(alloc, bytes, piece, failing_reads)?,
            sink: BytesSink::new(alloc, capacity, failing_writes)?,
        })
    }

    /// What is written so far.
    pub fn written(&self) -> &[u8]
        ensures { result.now ≡ self.now.sink.written }
    {
        self.sink.bytes()
    }
}

impl Link for MemoryLink {
    ghost left = { λ link. Some link.source.left };

    ghost room = { λ link. length link.source.left };

    ghost read_faults = { λ link. link.source.faults };

    ghost written = { λ link. Some link.sink.written };

    ghost write_faults = { λ link. link.sink.faults };

    ghost origin = { λ link. [] };

    /// Fails exactly where a source in memory does, and gives what that one gives.
    fn read(&mut self, into: &mut [u8]) -> Result<usize, Failed>
        ensures fits { ReadsAtMost result into.new }
        ensures taken { ReadConsumes (Some self.old.source.left) (Some self.new.source.left) result into.new }
        ensures room { LowersRoom (length self.old.source.left) (length self.new.source.left) result }
        ensures cause { HasCause self.old.source.faults self.new.source.faults result }
        ensures fails { IsErr result ↔ IsTrue (spec.next_fails self.old.source.plan) }
        ensures counted { self.new.source.plan ≡ spec.after_call self.old.source.plan }
        ensures piece { self.new.source.piece ≡ self.old.source.piece }
        ensures given { IfOk result (λ n. n ≡ spec.given_count self.old.source (length into.new)) }
        ensures sink { self.new.sink ≡ self.old.sink }
    {
        self.source.read(into)
    }

    /// Fails exactly where a sink in memory does, and writes what that one writes.
    fn write_all(&mut self, bytes: &[u8]) -> Result<(), Failed>
        ensures appended { Appended (Some self.old.sink.written) (Some self.new.sink.written) bytes.now result }
        ensures cause { HasCause self.old.sink.faults self.new.sink.faults result }
        ensures fails { IsErr result ↔ IsTrue (spec.write_fails self.old.sink bytes.now) }
        ensures written { self.new.sink.written ≡ spec.written_after self.old.sink bytes.now }
        ensures counted { self.new.sink.plan ≡ spec.after_call self.old.sink.plan }
        ensures capacity { self.new.sink.capacity ≡ self.old.sink.capacity }
        ensures source { self.new.source ≡ self.old.source }
    {
        self.sink.write_all(bytes)
    }
}
