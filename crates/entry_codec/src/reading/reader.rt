//! Reader: the bytes of an entry that are left to be read.

ghost use Rattle.std.specs.Prelude.{◌≡◌, IfOk, length};
ghost use Rattle.entry_codec.specs.Reads.{Reads};
ghost use Rattle.entry_codec.specs.Fields as fields;

use desk_base::Memory;
use frbr_names::WorkName;
use law_register::Drafter;
use std::alloc::{AllocError, AllocFailed};

/// Why a reading stops.
#[derive(Clone, Copy, Debug, PartialEq, Eq)]
pub(crate) enum Stop {
    /// A field is broken; so many bytes are left from its first one on.
    Broken(usize),
    /// There was not enough memory.
    Memory,
}

impl From<Memory> for Stop {
    ghost use Rattle.std.specs.Prelude.{◌≡◌};
    ghost use Rattle.entry_codec.specs.declared.reading.reader.Stop.TheVariants as stops;

    ghost from_gives = { λ _ e. e ≡ stops.Memory };

    fn from(_: Memory) -> Self {
        Stop::Memory
    }
}

impl From<AllocError> for Stop {
    ghost use Rattle.std.specs.Prelude.{◌≡◌};
    ghost use Rattle.entry_codec.specs.declared.reading.reader.Stop.TheVariants as stops;

    ghost from_gives = { λ _ e. e ≡ stops.Memory };

    fn from(_: AllocError) -> Self {
        Stop::Memory
    }
}

impl<T: Drop> From<AllocFailed<T>> for Stop {
    ghost use Rattle.std.specs.Prelude.{◌≡◌};
    ghost use Rattle.entry_codec.specs.declared.reading.reader.Stop.TheVariants as stops;

    ghost from_gives = { λ _ e. e ≡ stops.Memory };

    fn from(_: AllocFailed<T>) -> Self {
        Stop::Memory
    }
}

/// The bytes that are left, and names that may come again.
#[derive(Drop)]
pub(crate) struct Reader<'a> {
    pub left: &'a [u8],
    /// A drafter that is known.
    pub known_drafter: Option<&'a Drafter>,
    /// A work that is known.
    pub known_work: Option<&'a WorkName>,
}

impl<'a> Reader<'a> {
    /// One byte.
    pub fn byte(&mut self) -> Result<u8, Stop>
        ensures { Reads (λ n. n) result self.new.left.now (fields.byte_read self.old.left.now) }
    {
        match self.left {
            [] => Err(Stop::Broken(0)),
            [byte, rest @ ..] => {
                self.left = rest;
                Ok(*byte)
            }
        }
    }

    /// So many bytes.
    pub fn chunk(&mut self, n: usize) -> Result<&'a [u8], Stop>
        ensures value { Reads (λ t. t.now) result self.new.left.now (fields.chunk_read n self.old.left.now) }
        ensures len { IfOk result (λ t. length t.now ≡ n) }
    {
        if self.left.len() < n {
            return Err(Stop::Broken(self.left.len()));
        }
        let (front, rest) = self.left.split_at(n);
        self.left = rest;
        Ok(front)
    }
}
