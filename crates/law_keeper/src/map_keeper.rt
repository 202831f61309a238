//! MapKeeper: a keeper in memory. A clause sees its payloads, whether it is ready, its plan, whether it keeps what an append
//! that fails brings, and its faults.

ghost use Rattle.std.specs.Prelude.{◌≡◌, ◌↔◌, true, false, [], ◌∷◌, ◌++◌, IfOk, IsErr, IsTrue, OnErr, OnOk, length, Err};
ghost use Rattle.desk_base.specs.Streams.{HasCause};
ghost use Rattle.desk_base.specs.MemoryStreams.{next_fails, after_call};
ghost use Rattle.desk_base.specs.declared.load_fault.LoadFault.TheVariants as load_fault;
ghost use Rattle.law_journal.specs.Grammar.{is_size};
ghost use Rattle.law_journal.specs.Journals.{MayBeAny, read_into};
ghost use Rattle.law_keeper.specs.declared.readiness.Readiness.TheVariants.{Ready};
ghost use Rattle.law_keeper.specs.Keepers as spec;
ghost use Rattle.law_keeper.specs.Keepers.{IsSettled, bytes_of};
ghost use Rattle.law_keeper.specs.MapKeepers as memory;
ghost use Rattle.law_keeper.specs.MapKeepers.{holding_of, holding_is};

use crate::{KeepFault, Keeper, Readiness};
use desk_base::{Failed, FailingCalls, LoadFault, Memory, count_fault};
use std::alloc::Global;
use std::marker::Model;

/// Payloads in memory, some of whose calls fail. A call that fails does nothing, so a payload whose append failed is
/// not kept, unless this is a keeper that keeps those, too.
#[derive(Drop)]
pub struct MapKeeper {
    payloads: Vec<Vec<u8>>,
    readiness: Readiness,
    plan: FailingCalls,
    keeps_failed: bool,
    faults: u64,
}

impl Model for MapKeeper {
    ghost use Rattle.law_keeper.specs.Keepers.{HaveSizes, bytes_of};
    ghost use Rattle.law_keeper.specs.MapKeepers.{HeldKeeper};

    ghost Value = { HeldKeeper };

    ghost view = { λ k. record {
      payloads = bytes_of k.payloads.items;
      readiness = k.readiness;
      plan = k.plan;
      keeps_failed = k.keeps_failed;
      faults = k.faults;
    } };

    ghost invariant = { λ k. HaveSizes (bytes_of k.payloads.items) };
}

// Counts a call. One that is listed fails, and a keeper that was ready has to be opened again.
fn count_call(
    plan: &mut FailingCalls,
    readiness: &mut Readiness,
    faults: &mut u64,
) -> Result<(), Failed>
    ensures counted { plan.new ≡ after_call plan.old }
    ensures fails { IsErr result ↔ IsTrue (next_fails plan.old) }
    ensures kept { OnOk result (readiness.new ≡ readiness.old) }
    ensures stopped { OnErr result (readiness.new ≡ spec.after_refusal readiness.old) }
    ensures cause { HasCause faults.old faults.new result }
{
    if !plan.count_call() {
        return Ok(());
    }
    if *readiness == Readiness::Ready {
        *readiness = Readiness::Stopped;
    }
    Err(count_fault(faults))
}

// Puts a payload behind the others.
fn keep(alloc: Global, payloads: &mut Vec<Vec<u8>>, payload: &[u8]) -> Result<(), Memory>
    ensures kept { OnOk result (bytes_of payloads.new.items ≡ bytes_of payloads.old.items ++ payload.now ∷ []) }
    ensures as_before { OnErr result (payloads.new.items ≡ payloads.old.items) }
{
    payloads.push(Vec::from_slice(alloc, payload)?)?;
    Ok(())
}

impl MapKeeper {
    /// A keeper with no payload. Its calls of the numbers in `failing`, counted from 1, fail.
    pub fn new(alloc: Global, failing: &[u64]) -> Result<MapKeeper, Memory>
        ensures { IfOk result (λ keeper. keeper ≡ memory.new_keeper false failing.now) }
    {
        Ok(MapKeeper {
            payloads: Vec::new(alloc),
            readiness: Readiness::Unopened,
            plan: FailingCalls::new(alloc, failing)?,
            keeps_failed: false,
            faults: 0,
        })
    }

    /// The same, but it keeps the payload of an append that fails.
    pub fn keeping(alloc: Global, failing: &[u64]) -> Result<MapKeeper, Memory>
        ensures { IfOk result (λ keeper. keeper ≡ memory.new_keeper true failing.now) }
    {
        let mut keeper = MapKeeper::new(alloc, failing)?;
        keeper.keeps_failed = true;
        Ok(keeper)
    }
}

impl Keeper for MapKeeper {
    ghost holding = { λ keeper. holding_of keeper.payloads };

    ghost readiness = { λ keeper. keeper.readiness };

    ghost faults = { λ keeper. keeper.faults };

    /// Fails exactly where the number of the call is listed.
    fn load(&mut self, cursor: u64, into: &mut Vec<u8>) -> Result<Option<u64>, LoadFault>
        requires { self.old.readiness ≡ Ready }
        ensures given { spec.Gives (holding_of self.old.payloads) cursor (holding_of self.new.payloads)
            (read_into into.new.items result) }
        ensures refused { OnErr result (MayBeAny into.new.items) }
        ensures later { IfOk result (spec.MovesOn cursor) }
        ensures payloads { self.new.payloads ≡ self.old.payloads }
        ensures ready { self.new.readiness ≡ spec.after_load result }
        ensures settled { IsSettled (holding_of self.new.payloads) }
        ensures fails { (result ≡ Err load_fault.Failed) ↔ IsTrue (next_fails self.old.plan) }
        ensures counted { self.new.plan ≡ after_call self.old.plan }
        ensures keeps_failed { self.new.keeps_failed ≡ self.old.keeps_failed }
        ensures cause { spec.HasReadCause Ready self.old.faults self.new.faults result }
    {
        count_call(&mut self.plan, &mut self.readiness, &mut self.faults)?;
        match self.payloads.get(cursor as usize) {
            Some(payload) => {
                into.clear();
                into.extend_from_slice(payload.as_slice())?;
                Ok(Some(cursor + 1))
            }
            None => Ok(None),
        }
    }

    /// Fails exactly where the number of the call is listed. A keeper that keeps what a failing append brings takes the
    /// memory for it first, and where that is wanting it is not asked.
    fn append(&mut self, alloc: Global, payload: &[u8]) -> Result<u64, KeepFault>
        requires ready { self.old.readiness ≡ Ready }
        requires size { IsTrue (is_size (length payload.now)) }
        ensures payloads { self.new.payloads
            ≡ memory.payloads_after self.old.keeps_failed self.old.payloads payload.now result }
        ensures end { IfOk result (λ end. end ≡ length self.new.payloads) }
        ensures ready { self.new.readiness ≡ spec.after_append result }
        ensures settled { IsSettled (holding_of self.new.payloads) }
        ensures fails { memory.FailsAsListed self.old.keeps_failed (next_fails self.old.plan) result }
        ensures counted { self.new.plan ≡ memory.plan_after self.old.keeps_failed self.old.plan result }
        ensures keeps_failed { self.new.keeps_failed ≡ self.old.keeps_failed }
        ensures cause { spec.HasAppendCause self.old.faults self.new.faults result }
    {
        if self.keeps_failed {
            keep(alloc, &mut self.payloads, payload)?;
            count_call(&mut self.plan, &mut self.readiness, &mut self.faults)?;
        } else {
            count_call(&mut self.plan, &mut self.readiness, &mut self.faults)?;
            keep(alloc, &mut self.payloads, payload)?;
        }
        Ok(self.payloads.len() as u64)
    }

    /// Fails exactly where the number of the call is listed.
    fn reopen(&mut self, _alloc: Global) -> Result<(), LoadFault>
        ensures found { spec.Finds self.old.readiness (holding_of self.old.payloads) result }
        ensures payloads { self.new.payloads ≡ self.old.payloads }
        ensures ready { self.new.readiness ≡ spec.after_opening self.old.readiness result }
        ensures settled { IsSettled (holding_of self.new.payloads) }
        ensures fails { (result ≡ Err load_fault.Failed) ↔ IsTrue (next_fails self.old.plan) }
        ensures counted { self.new.plan ≡ after_call self.old.plan }
        ensures keeps_failed { self.new.keeps_failed ≡ self.old.keeps_failed }
        ensures cause { spec.HasReadCause self.old.readiness self.old.faults self.new.faults result }
    {
        count_call(&mut self.plan, &mut self.readiness, &mut self.faults)?;
        self.readiness = Readiness::Ready;
        Ok(())
    }

    ghost is_holding = { λ keeper. holding_is keeper.payloads };
}
