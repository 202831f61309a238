//! JournalKeeper: a keeper over a journal. A clause sees the journal, whether it was opened, and how much damage was
//! found after that.

ghost use Rattle.std.specs.Prelude.{◌≡◌, ◌<◌, true, false, All, Err, IsOk, IsTrue, IfOk, length};
ghost use Rattle.desk_base.specs.Streams.{HasCause};
ghost use Rattle.law_journal.specs.Disks.{Idles};
ghost use Rattle.law_journal.specs.Grammar.{is_size, list_of};
ghost use Rattle.law_journal.specs.Journals.{HasLoadCause, IsListed, read_into, stays_ready};
ghost use Rattle.law_keeper.specs.declared.keep_fault.KeepFault.TheVariants as fault;
ghost use Rattle.law_keeper.specs.JournalKeepers as over;
ghost use Rattle.law_keeper.specs.Keepers as spec;
ghost use Rattle.law_keeper.specs.Keepers.{bytes_of};

use crate::{KeepFault, Keeper};
use desk_base::{LoadFault, count_fault};
use law_journal::{Disk, Journal, frame, frames};
use std::alloc::Global;

/// Where the first gate of a journal stands. A cursor is the place of a gate, counted from there.
const FIRST: u64 = 8;

/// Payloads in a journal on a disk. Damage that is found once the journal has been opened is a fault, and is counted.
#[derive(Drop)]
pub struct JournalKeeper<D: Disk> {
    journal: Journal<D>,
    opened: bool,
    damages: u64,
    ghost undamaged: { opened ≡ true → (D.outlook journal.disk).tells → IsOk (list_of (D.outlook journal.disk).seen) },
}

// Puts the payload behind the gate at a cursor into a buffer, and gives the cursor of the next gate.
fn load_at<D: Disk>(
    journal: &mut Journal<D>,
    cursor: u64,
    into: &mut Vec<u8>,
) -> Result<Option<u64>, LoadFault>
    requires { journal.old.ready ≡ true }
    ensures given { over.Loads (D.outlook journal.old.disk) cursor (D.outlook journal.new.disk)
        (read_into into.new.items result) }
    ensures later { IfOk result (spec.MovesOn cursor) }
    ensures ready { journal.new.ready ≡ stays_ready result }
    ensures listed { IsTrue journal.new.ready → IsListed (D.outlook journal.new.disk) journal.new.gate }
    ensures idle { Idles (D.outlook journal.old.disk) (D.outlook journal.new.disk) }
    ensures cause { HasLoadCause (D.faults journal.old.disk) (D.faults journal.new.disk) result }
{
    match journal.read_record(cursor.saturating_add(FIRST), into)? {
        Some(next) => Ok(Some(next - FIRST)),
        None => Ok(None),
    }
}

// Frames a payload and appends it, and gives the cursor of the gate behind it.
fn append_to<D: Disk>(
    alloc: Global,
    journal: &mut Journal<D>,
    payload: &[u8],
) -> Result<u64, KeepFault>
    requires ready { journal.old.ready ≡ true }
    requires size { IsTrue (is_size (length payload.now)) }
    ensures appended { over.Adds payload.now (D.outlook journal.old.disk) (D.outlook journal.new.disk) result }
    ensures crash { over.LeavesEither payload.now (D.outlook journal.old.disk) (D.outlook journal.new.disk) }
    ensures untouched { result ≡ Err fault.Memory
        → over.LeavesAsMuch (D.outlook journal.old.disk) (D.outlook journal.new.disk) }
    ensures ready { over.readiness_of true journal.new.ready ≡ spec.after_append result }
    ensures listed { IsTrue journal.new.ready → IsListed (D.outlook journal.new.disk) journal.new.gate }
    ensures cause { spec.HasAppendCause (D.faults journal.old.disk) (D.faults journal.new.disk) result }
{
    let framed = frame(alloc, payload)?;
    let gate = journal.append(&framed)?;
    Ok(gate - FIRST)
}

// Frames payloads and appends them by one commit, and gives the cursor of the gate behind them.
fn append_all_to<D: Disk>(
    alloc: Global,
    journal: &mut Journal<D>,
    payloads: &[Vec<u8>],
) -> Result<u64, KeepFault>
    requires ready { journal.old.ready ≡ true }
    requires some { 0 < length payloads.now }
    requires sizes { All (λ payload. IsTrue (is_size (length payload.items))) payloads.now }
    ensures appended { over.AddsAll (bytes_of payloads.now) (D.outlook journal.old.disk) (D.outlook journal.new.disk) result }
    ensures crash { over.LeavesSome (bytes_of payloads.now) (D.outlook journal.old.disk) (D.outlook journal.new.disk) }
    ensures ready { over.readiness_of true journal.new.ready ≡ spec.after_append result }
    ensures listed { IsTrue journal.new.ready → IsListed (D.outlook journal.new.disk) journal.new.gate }
    ensures cause { spec.HasAppendCause (D.faults journal.old.disk) (D.faults journal.new.disk) result }
{
    let framed = frames(alloc, payloads)?;
    let gate = journal.append(&framed)?;
    Ok(gate - FIRST)
}

// Counts damage that is found once a keeper has been opened.
fn count_damage<T>(answer: &Result<T, LoadFault>, opened: bool, damages: &mut u64)
    ensures { over.CountsDamage opened damages.old damages.new answer.now }
{
    if opened && matches!(answer, Err(LoadFault::Damaged { .. })) {
        let _failed = count_fault(damages);
    }
}

impl<D: Disk> JournalKeeper<D> {
    /// A keeper over the journal on a disk, which is not opened yet. Nothing is asked of the disk.
    pub fn new(alloc: Global, disk: D) -> JournalKeeper<D>
        ensures disk { result.journal.disk ≡ disk }
        ensures unopened { result.opened ≡ false }
        ensures damages { result.damages ≡ 0 }
    {
        JournalKeeper {
            journal: Journal::new(alloc, disk),
            opened: false,
            damages: 0,
        }
    }

    /// The disk that was handed in.
    pub fn disk(&self) -> &D
        ensures { result.now ≡ self.now.journal.disk }
    {
        self.journal.disk()
    }
}

impl<D: Disk> Keeper for JournalKeeper<D> {
    ghost use Rattle.std.specs.Prelude.{◌+◌, ◌-◌, ◌^◌, min};
    ghost use Rattle.law_keeper.specs.JournalKeepers.{holding_of, holding_is, readiness_of};

    ghost holding = { λ keeper. holding_of (D.outlook keeper.journal.disk) };

    ghost readiness = { λ keeper. readiness_of keeper.opened keeper.journal.ready };

    ghost faults = { λ keeper. min (D.faults keeper.journal.disk + keeper.damages) (2 ^ 64 - 1) };

    fn load(&mut self, cursor: u64, into: &mut Vec<u8>) -> Result<Option<u64>, LoadFault> {
        let loaded = load_at(&mut self.journal, cursor, into);
        count_damage(&loaded, self.opened, &mut self.damages);
        loaded
    }

    fn append(&mut self, alloc: Global, payload: &[u8]) -> Result<u64, KeepFault> {
        append_to(alloc, &mut self.journal, payload)
    }

    fn append_all(&mut self, alloc: Global, payloads: &[Vec<u8>]) -> Result<u64, KeepFault> {
        append_all_to(alloc, &mut self.journal, payloads)
    }

    fn reopen(&mut self, _alloc: Global) -> Result<(), LoadFault> {
        let opening = self.journal.reopen();
        count_damage(&opening, self.opened, &mut self.damages);
        self.opened |= opening.is_ok();
        opening
    }

    ghost is_holding = { λ keeper. holding_is (D.outlook keeper.journal.disk) (D.is_outlook keeper.journal.disk) };
}
