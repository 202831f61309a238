//! Journal: payloads in a file on a disk. A clause sees the disk's outlook, the place of the closed gate, and whether
//! the journal is ready.

ghost use Rattle.std.specs.Prelude.{◌≡◌, ◌+◌, ◌≤◌, true, false, IsTrue, length, IfOk, IfErr, OnOk, OnErr};
ghost use Rattle.desk_base.specs.Streams.{HasCause};
ghost use Rattle.law_journal.specs.Disks.{Idles};
ghost use Rattle.law_journal.specs.Journals.{AddsFrames, GatesStay, GivesListed, HasLoadCause, IsFramed};
ghost use Rattle.law_journal.specs.Journals.{IsLater, IsListed, LeavesFramesOrNot, LeavesOldOrSame, ListStays};
ghost use Rattle.law_journal.specs.Journals.{MayAddFrames, MayBeAny, ReadsEntry, TellsDamage, read_into, stays_ready};
ghost use Rattle.law_journal.specs.States.{HasFault, IsKnown, LeavesAlone};

use crate::Disk;
use crate::reading::entry_at;
use crate::recovering::recover;
use crate::window::Window;
use crate::writing::append_at;
use desk_base::{Failed, LoadFault};
use std::alloc::Global;

/// A journal on a disk.
#[derive(Drop)]
pub struct Journal<D: Disk> {
    disk: D,
    window: Window,
    /// The place of the closed gate that ends the list.
    gate: u64,
    ready: bool,
    ghost known: { ready ≡ true → IsKnown (D.outlook disk) window gate },
}

/// A disk whose file is no journal that could be opened, and why.
#[derive(Drop)]
pub struct JournalRefused<D: Disk> {
    /// The disk.
    pub disk: D,
    /// Why.
    pub fault: LoadFault,
}

impl<D: Disk> Journal<D> {
    /// A journal that is not opened yet. Nothing is asked of the disk, and no memory is taken.
    pub fn new(alloc: Global, disk: D) -> Journal<D>
        ensures disk { result.disk ≡ disk }
        ensures unready { result.ready ≡ false }
    {
        Journal {
            disk,
            window: Window::new(alloc),
            gate: 0,
            ready: false,
        }
    }

    /// Opens the journal on a disk: syncs, reads, cuts off what a crash left behind the closed gate. A file of at
    /// most nine bytes becomes a journal with no payload. A file at rest is left alone.
    pub fn open(alloc: Global, disk: D) -> Result<Journal<D>, JournalRefused<D>>
        ensures opened { IfOk result (λ journal. journal.ready ≡ true) }
        ensures listed { IfOk result (λ journal. IsListed (D.outlook journal.disk) journal.gate) }
        ensures same { IfOk result (λ journal. ListStays (D.outlook disk) (D.outlook journal.disk)) }
        ensures kept { IfErr result (λ r. ListStays (D.outlook disk) (D.outlook r.disk)) }
        ensures damaged { IfErr result (λ r. TellsDamage (D.outlook disk) r.fault) }
        ensures any_moment { IfOk result (λ journal. LeavesOldOrSame (D.outlook disk) (D.outlook journal.disk)) }
        ensures any_moment_refused { IfErr result (λ r. LeavesOldOrSame (D.outlook disk) (D.outlook r.disk)) }
        ensures alone { IfOk result (λ journal. LeavesAlone (D.outlook disk) (D.outlook journal.disk)) }
        ensures alone_refused { IfErr result (λ r. LeavesAlone (D.outlook disk) (D.outlook r.disk)) }
        ensures cause { IfOk result (λ journal. D.faults journal.disk ≡ D.faults disk) }
        ensures cause_refused { IfErr result (λ r. HasFault (D.faults disk) (D.faults r.disk) r.fault) }
    {
        let mut journal = Journal::new(alloc, disk);
        match journal.reopen() {
            Ok(()) => Ok(journal),
            Err(fault) => Err(JournalRefused {
                disk: journal.disk,
                fault,
            }),
        }
    }

    /// Opens the journal again on the same disk.
    pub fn reopen(&mut self) -> Result<(), LoadFault>
        ensures opened { OnOk result (self.new.ready ≡ true) }
        ensures listed { IsTrue self.new.ready → IsListed (D.outlook self.new.disk) self.new.gate }
        ensures refused { OnErr result (self.new.ready ≡ false) }
        ensures same { ListStays (D.outlook self.old.disk) (D.outlook self.new.disk) }
        ensures damaged { IfErr result (TellsDamage (D.outlook self.old.disk)) }
        ensures any_moment { LeavesOldOrSame (D.outlook self.old.disk) (D.outlook self.new.disk) }
        ensures alone { LeavesAlone (D.outlook self.old.disk) (D.outlook self.new.disk) }
        ensures tells { (D.outlook self.new.disk).tells → (D.outlook self.old.disk).tells }
        ensures cause { HasLoadCause (D.faults self.old.disk) (D.faults self.new.disk) result }
    {
        self.ready = false;
        self.window.forget();
        self.window.make_room()?;
        self.gate = recover(&mut self.disk, &mut self.window)?;
        self.ready = true;
        Ok(())
    }

    /// Whether records can be read and appended. Where they cannot, open the journal again.
    pub fn ready(&self) -> bool
        ensures value { result ≡ self.now.ready }
        ensures listed { IsTrue result → IsListed (D.outlook self.now.disk) self.now.gate }
    {
        self.ready
    }

    /// The disk that was handed in.
    pub fn disk(&self) -> &D
        ensures { result.now ≡ self.now.disk }
    {
        &self.disk
    }

    /// Puts the payload behind the gate at a place into a buffer, in the place of what the buffer had, and gives the
    /// place of the next gate; None at the closed gate. The first gate is at place 8. After a failure or damage the
    /// journal has to be opened again. A call that is refused may leave any bytes in the buffer.
    pub fn read_record(&mut self, place: u64, into: &mut Vec<u8>) -> Result<Option<u64>, LoadFault>
        requires { self.old.ready ≡ true }
        ensures read { ReadsEntry (D.outlook self.old.disk) place (read_into into.new.items result) }
        ensures given { (D.outlook self.old.disk).tells
            → GivesListed (D.outlook self.old.disk).seen place (read_into into.new.items result) }
        ensures refused { OnErr result (MayBeAny into.new.items) }
        ensures later { IfOk result (IsLater place) }
        ensures ready { self.new.ready ≡ stays_ready result }
        ensures listed { IsTrue self.new.ready → IsListed (D.outlook self.new.disk) self.new.gate }
        ensures idle { Idles (D.outlook self.old.disk) (D.outlook self.new.disk) }
        ensures cause { HasLoadCause (D.faults self.old.disk) (D.faults self.new.disk) result }
    {
        let entry = entry_at(&mut self.disk, &mut self.window, place, self.gate + 1, into);
        self.ready = matches!(entry, Ok(_) | Err(LoadFault::Memory));
        entry
    }

    /// Adds the payloads of frames, all of them or none. Once it is Ok, each crash leaves a file whose list has them; the
    /// place is that of the closed gate behind them. After a failure the journal has to be opened again, and has all of
    /// the payloads or none.
    pub fn append(&mut self, framed: &[u8]) -> Result<u64, Failed>
        requires ready { self.old.ready ≡ true }
        requires framed { IsFramed framed.now }
        ensures ready { OnOk result (self.new.ready ≡ true) }
        ensures listed { IsTrue self.new.ready → IsListed (D.outlook self.new.disk) self.new.gate }
        ensures refused { OnErr result (self.new.ready ≡ false) }
        ensures place { IfOk result (λ place. place ≡ self.new.gate) }
        ensures first { IfOk result (λ place. 8 ≤ place) }
        ensures gate { OnOk result (self.new.gate ≡ self.old.gate + length framed.now) }
        ensures added { OnOk result (AddsFrames framed.now (D.outlook self.old.disk) (D.outlook self.new.disk)) }
        ensures left { MayAddFrames framed.now (D.outlook self.old.disk) (D.outlook self.new.disk) }
        ensures gates { GatesStay (D.outlook self.old.disk) (D.outlook self.new.disk) }
        ensures any_moment { LeavesFramesOrNot framed.now (D.outlook self.old.disk) (D.outlook self.new.disk) }
        ensures tells { (D.outlook self.new.disk).tells → (D.outlook self.old.disk).tells }
        ensures cause { HasCause (D.faults self.old.disk) (D.faults self.new.disk) result }
    {
        self.ready = false;
        self.window.forget();
        self.gate = append_at(&mut self.disk, self.gate, framed)?;
        self.ready = true;
        Ok(self.gate)
    }
}
