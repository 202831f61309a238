//! MemoryDisk: a disk in memory. It keeps each change with the bytes from before it, and some of its calls fail, with no
//! effect, with a part of it, or with all.

ghost use Rattle.std.specs.Prelude.{◌≡◌, ◌↔◌, ◌+◌, ◌^◌, ◌<◌, ◌≤◌, length, IfOk, IsErr, IsTrue, OnErr, OnOk};
ghost use Rattle.desk_base.specs.MemoryStreams.{after_call, next_fails};
ghost use Rattle.desk_base.specs.Streams.{HasCause};
ghost use Rattle.law_journal.specs.Disks.{Changes, Cut, CutsTo, Idles, IsLengthOf, IsSynced, Reads, Torn, Writes};
ghost use Rattle.law_journal.specs.Effects.{cut_by, read_by, synced_by, written_by};
ghost use Rattle.law_journal.specs.MemoryDisks as spec;
ghost use Rattle.law_journal.specs.MemoryDisks.{Becomes, known};
ghost use Rattle.law_journal.specs.declared.effect.Effect.TheVariants.{Nothing};

use crate::effect::fill;
use crate::history::History;
use crate::{Disk, Effect};
use desk_base::{Failed, FailingCalls, Memory, count_fault};
use std::alloc::Global;

/// A disk in memory, which takes all its memory when it is made. A write, a cut or a sync past so many of them fails,
/// so does a write that brings the bytes written in all above the capacity, and so do the calls whose numbers are
/// listed, counted from 1. A call that fails does nothing, or what its effect says.
#[derive(Drop)]
pub struct MemoryDisk {
    history: History,
    plan: FailingCalls,
    effect: Effect,
    faults: u64,
}

impl MemoryDisk {
    /// A disk that holds these bytes, all of them synced. A call that fails does nothing.
    pub fn of(
        alloc: Global,
        bytes: Vec<u8>,
        capacity: usize,
        calls: usize,
        failing: &[u64],
    ) -> Result<MemoryDisk, Memory>
        ensures held { IfOk result (λ disk. disk.history ≡ spec.begun bytes.items capacity calls) }
        ensures plan { IfOk result (λ disk. disk.plan ≡ record { failing = failing.now; made = 0 }) }
        ensures effect { IfOk result (λ disk. disk.effect ≡ Nothing) }
        ensures faults { IfOk result (λ disk. disk.faults ≡ 0) }
    {
        Ok(MemoryDisk {
            history: History::new(alloc, bytes, capacity, calls)?,
            plan: FailingCalls::new(alloc, failing)?,
            effect: Effect::Nothing,
            faults: 0,
        })
    }

    /// From now on a call that fails does so much of what it was asked.
    pub fn set_effect(&mut self, effect: Effect)
        ensures effect { self.new.effect ≡ effect }
        ensures history { self.new.history ≡ self.old.history }
        ensures plan { self.new.plan ≡ self.old.plan }
        ensures faults { self.new.faults ≡ self.old.faults }
    {
        self.effect = effect;
    }

    /// The bytes that a read gives.
    pub fn bytes(&self) -> &[u8]
        ensures { result.now ≡ self.now.history.bytes }
    {
        self.history.bytes()
    }

    /// An image that a crash may leave: for 0 the bytes as last synced, for 1 the bytes as a read gives them, for any
    /// other value the bytes as a read gives them with each byte written since the last sync turned into it.
    pub fn image(&self, alloc: Global, pick: u8) -> Result<Vec<u8>, Memory>
        ensures picked { IfOk result (λ image. image.items ≡ spec.image_of pick self.now.history) }
        ensures left { IfOk result (λ image. spec.MayLeave self.now.history image.items) }
    {
        self.history.image(alloc, pick)
    }

    // Counts a call, which fails if it is listed.
    fn count_call(&mut self) -> Result<(), Failed>
        ensures history { self.new.history ≡ self.old.history }
        ensures effect { self.new.effect ≡ self.old.effect }
        ensures fails { IsErr result ↔ IsTrue (next_fails self.old.plan) }
        ensures counted { self.new.plan ≡ after_call self.old.plan }
        ensures cause { HasCause self.old.faults self.new.faults result }
    {
        if self.plan.count_call() {
            return Err(count_fault(&mut self.faults));
        }
        Ok(())
    }

    // Counts a write of so many bytes, a cut or a sync, which fails if it is listed or there is no room for it.
    fn count_change(&mut self, written: usize) -> Result<(), Failed>
        ensures history { self.new.history ≡ self.old.history }
        ensures effect { self.new.effect ≡ self.old.effect }
        ensures room { OnOk result (written ≤ self.old.history.room) }
        ensures left { OnOk result (1 ≤ self.old.history.left) }
        ensures fails { IsErr result ↔ IsTrue (spec.change_fails written self.old.plan self.old.history) }
        ensures counted { self.new.plan ≡ after_call self.old.plan }
        ensures cause { HasCause self.old.faults self.new.faults result }
    {
        self.count_call()?;
        if self.history.left() == 0 || self.history.room() < written {
            return Err(count_fault(&mut self.faults));
        }
        Ok(())
    }
}

impl Disk for MemoryDisk {
    ghost use Rattle.law_journal.specs.MemoryDisks.{outlook_of};
    ghost use Rattle.law_journal.specs.MemoryLaws.{memory_is};

    ghost outlook = { λ d. outlook_of d.history.bytes d.history.pasts };

    ghost faults = { λ d. d.faults };

    fn len(&mut self) -> Result<u64, Failed>
        ensures length { IfOk result (IsLengthOf (known self.old.history)) }
        ensures bound { IfOk result (λ n. n < 2 ^ 63) }
        ensures idle { Idles (known self.old.history) (known self.new.history) }
        ensures cause { HasCause self.old.faults self.new.faults result }
        ensures fails { IsErr result ↔ IsTrue (next_fails self.old.plan) }
        ensures history { self.new.history ≡ self.old.history }
        ensures effect { self.new.effect ≡ self.old.effect }
        ensures counted { self.new.plan ≡ after_call self.old.plan }
    {
        self.count_call()?;
        Ok(self.bytes().len() as u64)
    }

    fn read(&mut self, place: u64, into: &mut [u8]) -> Result<usize, Failed>
        ensures given { Reads (known self.old.history) place result into.new }
        ensures part { OnErr result (into.new ≡ read_by self.old.effect place self.old.history.bytes into.old) }
        ensures fits { IfOk result (λ n. n ≤ length into.new) }
        ensures idle { Idles (known self.old.history) (known self.new.history) }
        ensures cause { HasCause self.old.faults self.new.faults result }
        ensures fails { IsErr result ↔ IsTrue (next_fails self.old.plan) }
        ensures history { self.new.history ≡ self.old.history }
        ensures effect { self.new.effect ≡ self.old.effect }
        ensures counted { self.new.plan ≡ after_call self.old.plan }
    {
        if let Err(failed) = self.count_call() {
            self.effect.read_part(self.history.bytes(), place, into);
            return Err(failed);
        }
        Ok(fill(self.history.bytes(), place, into))
    }

    fn write_at(&mut self, place: u64, bytes: &[u8]) -> Result<(), Failed>
        requires { (known self.old.history).tells → place ≤ length (known self.old.history).seen }
        ensures written { OnOk result (Writes place bytes.now (known self.old.history) (known self.new.history)) }
        ensures bound { OnOk result (place + length bytes.now < 2 ^ 63) }
        ensures change { Changes (Torn place (length bytes.now)) (known self.old.history) (known self.new.history) }
        ensures cause { HasCause self.old.faults self.new.faults result }
        ensures fails { IsErr result ↔ IsTrue (spec.change_fails (length bytes.now) self.old.plan self.old.history) }
        ensures history { Becomes (spec.after_write place bytes.now) (written_by self.old.effect place bytes.now)
            self.old.history self.new.history result }
        ensures effect { self.new.effect ≡ self.old.effect }
        ensures counted { self.new.plan ≡ after_call self.old.plan }
    {
        if let Err(failed) = self.count_change(bytes.len()) {
            self.effect
                .write_part(&mut self.history, place as usize, bytes);
            return Err(failed);
        }
        self.history.write(place as usize, bytes);
        Ok(())
    }

    fn cut(&mut self, len: u64) -> Result<(), Failed>
        ensures cut { OnOk result (CutsTo len (known self.old.history) (known self.new.history)) }
        ensures change { Changes (Cut len) (known self.old.history) (known self.new.history) }
        ensures cause { HasCause self.old.faults self.new.faults result }
        ensures fails { IsErr result ↔ IsTrue (spec.change_fails 0 self.old.plan self.old.history) }
        ensures history { Becomes (spec.after_cut len) (cut_by self.old.effect len)
            self.old.history self.new.history result }
        ensures effect { self.new.effect ≡ self.old.effect }
        ensures counted { self.new.plan ≡ after_call self.old.plan }
    {
        if let Err(failed) = self.count_change(0) {
            self.effect.cut_part(&mut self.history, len as usize);
            return Err(failed);
        }
        self.history.cut(len as usize);
        Ok(())
    }

    fn sync(&mut self) -> Result<(), Failed>
        ensures durable { OnOk result (IsSynced (known self.old.history) (known self.new.history)) }
        ensures idle { Idles (known self.old.history) (known self.new.history) }
        ensures cause { HasCause self.old.faults self.new.faults result }
        ensures fails { IsErr result ↔ IsTrue (spec.change_fails 0 self.old.plan self.old.history) }
        ensures history { Becomes spec.after_sync (synced_by self.old.effect)
            self.old.history self.new.history result }
        ensures effect { self.new.effect ≡ self.old.effect }
        ensures counted { self.new.plan ≡ after_call self.old.plan }
    {
        if let Err(failed) = self.count_change(0) {
            self.effect.sync_part(&mut self.history);
            return Err(failed);
        }
        self.history.sync();
        Ok(())
    }

    ghost is_outlook = { λ d. memory_is d.history.bytes d.history.pasts };
}
