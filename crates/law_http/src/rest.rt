//! Rest: a clause sees the bytes that were read of a stream and not used yet.

ghost use Rattle.std.specs.Prelude.{◌≡◌, []};
ghost use Rattle.law_http.specs.Rests.{held};

use crate::buffer::Buffer;
use std::alloc::Global;
use std::marker::Model;

/// The bytes that were read of a stream and not used yet: at most 16,384 and one body.
#[derive(Debug, Drop)]
pub struct Rest {
    buffer: Option<Buffer>,
}

impl Model for Rest {
    ghost use Rattle.std.specs.Prelude.{ℕ, List};
    ghost use Rattle.law_http.specs.Rests.{held};

    ghost Value = { List ℕ };

    ghost view = { λ rest. held rest.buffer };
}

impl Rest {
    /// No bytes. It takes no memory.
    pub fn new() -> Rest
        ensures { result ≡ [] }
    {
        Rest { buffer: None }
    }

    /// Takes the bytes out.
    pub(crate) fn take(&mut self, alloc: Global) -> Buffer
        ensures taken { result ≡ self.old }
        ensures left { self.new ≡ [] }
    {
        match self.buffer.take() {
            Some(buffer) => buffer,
            None => Buffer::new(alloc),
        }
    }

    /// Puts bytes in the place of those that are there.
    pub(crate) fn put(&mut self, buffer: Buffer)
        ensures { self.new ≡ buffer }
    {
        self.buffer = Some(buffer);
    }
}
