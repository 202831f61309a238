//! MemoryOpener: an opener of databases in memory. A clause sees its plan and its faults.

ghost use Rattle.std.specs.Prelude.{◌≡◌, IfOk};

use crate::{OpenRefused, Opener};
use desk_base::{FailingCalls, Memory, count_fault};
use sqlite::{Connection, MemStore};
use std::alloc::Global;

/// Opens a new database in memory at each call, but for those that are told to fail.
#[derive(Drop)]
pub struct MemoryOpener {
    alloc: Global,
    plan: FailingCalls,
    faults: u64,
}

impl MemoryOpener {
    /// An opener whose calls of the numbers in `failing`, counted from 1, fail.
    pub fn new(alloc: Global, failing: &[u64]) -> Result<MemoryOpener, Memory>
        ensures plan { IfOk result (λ opener. opener.plan ≡ record { failing = failing.now; made = 0 }) }
        ensures faults { IfOk result (λ opener. opener.faults ≡ 0) }
    {
        Ok(MemoryOpener {
            alloc,
            plan: FailingCalls::new(alloc, failing)?,
            faults: 0,
        })
    }
}

impl Opener for MemoryOpener {
    type Store = MemStore;

    ghost use Rattle.std.specs.Prelude.{[], Ok, refl};

    ghost tells = { λ opener. Unit {0} };

    ghost list = { λ opener. Ok [] };

    ghost faults = { λ opener. opener.faults };

    fn open(&mut self) -> Result<Connection<MemStore>, OpenRefused> {
        if self.plan.count_call() {
            return Err(OpenRefused::from(count_fault(&mut self.faults)));
        }
        Ok(Connection::open_in_memory(self.alloc)?)
    }

    ghost stays_open = { λ opener told connection. refl };
}
