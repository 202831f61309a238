//! Pair: a link made of a source and a sink. A clause sees both.

ghost use Rattle.std.specs.Prelude.{◌≡◌, [], ◌∷◌};
ghost use Rattle.desk_base.specs.Streams.{HasCause, LowersRoom, Appended};

use crate::{Failed, Link, Sink, Source};

/// A source and a sink, lent to one link.
#[derive(Drop)]
pub struct Pair<'a, S, W> {
    source: &'a mut S,
    sink: &'a mut W,
}

impl<'a, S: Source, W: Sink> Pair<'a, S, W> {
    /// The link that reads from this source and writes to this sink.
    pub fn new(source: &'a mut S, sink: &'a mut W) -> Pair<'a, S, W>
        ensures source { result.source.now ≡ source.old }
        ensures sink { result.sink.now ≡ sink.old }
        ensures same_source { result.source.ghost_name ≡ source.entry.ghost_name }
        ensures same_sink { result.sink.ghost_name ≡ sink.entry.ghost_name }
    {
        Pair { source, sink }
    }
}

impl<'a, S: Source, W: Sink> Link for Pair<'a, S, W> {
    ghost left = { λ link. S.left link.source.now };

    ghost room = { λ link. S.room link.source.now };

    ghost read_faults = { λ link. S.faults link.source.now };

    ghost written = { λ link. W.written link.sink.now };

    ghost write_faults = { λ link. W.faults link.sink.now };

    ghost origin = { λ link. link.source.ghost_name ∷ link.sink.ghost_name ∷ [] };

    fn read(&mut self, into: &mut [u8]) -> Result<usize, Failed> {
        self.source.read(into)
    }

    fn write_all(&mut self, bytes: &[u8]) -> Result<(), Failed> {
        self.sink.write_all(bytes)
    }
}
