//! Bytes: a clause sees them as a list.

ghost use Rattle.std.specs.Prelude.{◌≡◌, IfOk};

use desk_base::Memory;
use std::alloc::Global;
use std::marker::Model;

/// The bytes of a body.
#[derive(Debug, Drop)]
pub struct Bytes(Vec<u8>);

impl Model for Bytes {
    ghost use Rattle.std.specs.Prelude.{ℕ, List};

    ghost Value = { List ℕ };

    ghost view = { λ b. b.0.items };
}

impl Bytes {
    /// The bytes of a vector, with no copy.
    pub fn from_vec(bytes: Vec<u8>) -> Bytes
        ensures { result ≡ bytes.items }
    {
        Bytes(bytes)
    }

    /// A copy of bytes. Most requests have no body, and then nothing is called.
    pub(crate) fn copy_of(alloc: Global, bytes: &[u8]) -> Result<Bytes, Memory>
        ensures { IfOk result (λ copy. copy ≡ bytes.now) }
    {
        if bytes.is_empty() {
            return Ok(Bytes(Vec::new(alloc)));
        }
        Ok(Bytes(Vec::from_slice(alloc, bytes)?))
    }

    /// The bytes as a slice.
    pub fn as_slice(&self) -> &[u8]
        ensures { result.now ≡ self.now }
    {
        &self.0
    }
}
