//! FailingCalls: a clause sees which calls are to fail, by their numbers, and how many were made.

ghost use Rattle.std.specs.Prelude.{◌≡◌, IfOk};
ghost use Rattle.desk_base.specs.MemoryStreams as spec;

use crate::Memory;
use std::alloc::Global;
use std::marker::Model;

/// Which calls of an object in memory are to fail, told by their numbers, counted from 1.
#[derive(Debug, Drop)]
pub struct FailingCalls {
    failing: Vec<u64>,
    made: u64,
}

impl Model for FailingCalls {
    ghost use Rattle.desk_base.specs.MemoryStreams.{CallPlan};

    ghost Value = { CallPlan };

    ghost view = { λ p. record { failing = p.failing.items; made = p.made } };
}

impl FailingCalls {
    /// The plan in which the calls of these numbers fail, before the first call.
    pub fn new(alloc: Global, failing: &[u64]) -> Result<FailingCalls, Memory>
        ensures { IfOk result (λ p. p ≡ record { failing = failing.now; made = 0 }) }
    {
        Ok(FailingCalls {
            failing: Vec::from_slice(alloc, failing)?,
            made: 0,
        })
    }

    /// Counts a call, and says whether it is to fail. The count stands still at 2^64 - 1.
    pub fn count_call(&mut self) -> bool
        ensures fails { result ≡ spec.next_fails self.old }
        ensures counted { self.new ≡ spec.after_call self.old }
    {
        self.made = self.made.saturating_add(1);
        self.failing.contains(&self.made)
    }
}
