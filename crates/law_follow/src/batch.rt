//! Batch: the payloads of the last entries of a register, which its keeper is given together.

ghost use Rattle.std.specs.Prelude.{◌≡◌, ◌∷◌, ◌++◌, [], OnErr, OnOk};

use desk_base::Memory;
use std::alloc::Global;

/// So many payloads are given together,
const MANY: usize = 256;

/// or fewer that have so many bytes, 1 MiB.
const LARGE: usize = 1_048_576;

/// Payloads that the keeper has not been given yet.
#[derive(Drop)]
pub struct Batch {
    /// The payloads.
    pub payloads: Vec<Vec<u8>>,
    /// How many bytes they have.
    pub size: usize,
}

impl Batch {
    // No payloads.
    pub(crate) fn new(alloc: Global) -> Batch
        ensures { result.payloads.items ≡ [] }
    {
        Batch {
            payloads: Vec::new(alloc),
            size: 0,
        }
    }

    // Whether it is time to give them to the keeper.
    pub(crate) fn is_full(&self) -> bool {
        self.payloads.len() >= MANY || self.size >= LARGE
    }

    // Puts a payload behind the others.
    pub(crate) fn put(&mut self, payload: Vec<u8>) -> Result<(), Memory>
        ensures put { OnOk result (self.new.payloads.items ≡ self.old.payloads.items ++ payload ∷ []) }
        ensures same { OnErr result (self.new.payloads.items ≡ self.old.payloads.items) }
    {
        let size = self.size.saturating_add(payload.len());
        self.payloads.push(payload)?;
        self.size = size;
        Ok(())
    }

    // Lets them go, once the keeper has them.
    pub(crate) fn clear(&mut self)
        ensures { self.new.payloads.items ≡ [] }
    {
        self.payloads.clear();
        self.size = 0;
    }
}
