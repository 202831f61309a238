//! move_all: the payloads of one keeper, moved to another that has the first of them.

ghost use Rattle.std.specs.Prelude.{◌≡◌, List, OnOk, length, ℕ};
ghost use Rattle.std.specs.Str.{bytes_eq};
ghost use Rattle.law_journal.specs.Grammar.{is_size};
ghost use Rattle.law_keeper.specs.declared.readiness.Readiness.TheVariants.{Ready};
ghost use Rattle.law_keeper.specs.Keepers as spec;
ghost use Rattle.law_keeper.specs.Keepers.{IsSettled};
ghost use Rattle.sql_keeper.specs.Moving as moving;
ghost use Rattle.sql_keeper.specs.Moving.{Grows, IsOnTheWay, StartsAt};

use crate::MoveFault;
use law_keeper::Keeper;
use std::alloc::Global;

/// The most bytes of a payload.
const MOST: usize = 16_777_216;

// Whether two payloads are one.
fn is_one(payload: &[u8], other: &[u8]) -> bool
    ensures { result ≡ bytes_eq payload.now other.now }
{
    payload == other
}

// Whether bytes are as many as a payload may have.
fn is_payload(bytes: &[u8]) -> bool
    ensures { result ≡ is_size (length bytes.now) }
{
    !bytes.is_empty() && bytes.len() <= MOST
}

// Walks along both lists as far as the second goes, and gives the cursor of the first that stands there.
fn walk_both<A: Keeper, B: Keeper>(
    alloc: Global,
    from: &mut A,
    to: &mut B,
) -> Result<u64, MoveFault>
    requires ready { (A.readiness from.old ≡ Ready) × (B.readiness to.old ≡ Ready) }
    requires settled { IsSettled (A.holding from.old) × IsSettled (B.holding to.old) }
    ensures agreed { (A.holding from.old).tells → (B.holding to.old).tells
        → moving.Agrees (A.holding from.old).list (B.holding to.old).list (A.holding from.new).place_of result }
    ensures same { spec.Keeps (A.holding from.old) (A.holding from.new) }
    ensures same_to { spec.Keeps (B.holding to.old) (B.holding to.new) }
    ensures crash { spec.LeavesNoMore (A.holding from.old) (A.holding from.new) }
    ensures crash_to { spec.LeavesNoMore (B.holding to.old) (B.holding to.new) }
    ensures ready { OnOk result ((A.readiness from.new ≡ Ready) × (B.readiness to.new ≡ Ready)) }
    ensures settled { OnOk result (IsSettled (A.holding from.new) × IsSettled (B.holding to.new)) }
    ensures cause { moving.HasMoveCause (A.faults from.old) (A.faults from.new) (B.faults to.old) (B.faults to.new) result }
{
    let mut ours = Vec::new(alloc);
    let mut theirs = Vec::new(alloc);
    let mut cursor = 0;
    let mut cursor_to = 0;
    let mut place = 0;
    'walk: while let Some(next_to) = to.load(cursor_to, &mut theirs)? {
        let Some(next) = from.load(cursor, &mut ours)? else {
            return Err(MoveFault::Differs(place + 1));
        };
        if !is_one(theirs.as_slice(), ours.as_slice()) {
            return Err(MoveFault::Differs(place + 1));
        }
        cursor = next;
        cursor_to = next_to;
        place += 1;
    }
    Ok(cursor)
}

// Appends what the first has from a cursor on.
fn append_rest<A: Keeper, B: Keeper>(
    alloc: Global,
    from: &mut A,
    start: u64,
    to: &mut B,
) -> Result<u64, MoveFault>
    requires ready { (A.readiness from.old ≡ Ready) × (B.readiness to.old ≡ Ready) }
    requires settled { IsSettled (A.holding from.old) × IsSettled (B.holding to.old) }
    ensures added { (A.holding from.old).tells → (B.holding to.old).tells → (whole before : List (List ℕ))
        → StartsAt (A.holding from.old) start (B.holding to.old) whole before
        → moving.Adds whole before (B.holding to.new).list result }
    ensures same { spec.Keeps (A.holding from.old) (A.holding from.new) }
    ensures grows { Grows (B.holding to.old) (B.holding to.new) }
    ensures crash { spec.LeavesNoMore (A.holding from.old) (A.holding from.new) }
    ensures crash_to { (A.holding from.old).tells → (B.holding to.old).tells → (B.holding to.old).tells_crash
        → (whole before : List (List ℕ)) → StartsAt (A.holding from.old) start (B.holding to.old) whole before
        → spec.LeavesOnly (IsOnTheWay whole before) (B.holding to.old) (B.holding to.new) }
    ensures ready { OnOk result ((A.readiness from.new ≡ Ready) × (B.readiness to.new ≡ Ready)) }
    ensures settled { OnOk result (IsSettled (A.holding from.new) × IsSettled (B.holding to.new)) }
    ensures cause { moving.HasMoveCause (A.faults from.old) (A.faults from.new) (B.faults to.old) (B.faults to.new) result }
{
    let mut payload = Vec::new(alloc);
    let mut cursor = start;
    let mut count = 0;
    'rest: while let Some(next) = from.load(cursor, &mut payload)? {
        if !is_payload(payload.as_slice()) {
            return Err(MoveFault::Damaged {
                place: cursor,
                byte: None,
            });
        }
        to.append(alloc, payload.as_slice())?;
        cursor = next;
        count += 1;
    }
    Ok(count)
}

/// Opens both keepers, and appends to the second what it lacks of the payloads of the first. Gives how many were appended.
/// A move that was stopped can be made again.
pub fn move_all<A: Keeper, B: Keeper>(
    alloc: Global,
    from: &mut A,
    to: &mut B,
) -> Result<u64, MoveFault>
    ensures moved { (A.holding from.old).tells → (B.holding to.old).tells
        → moving.Moves (A.holding from.old).list (B.holding to.old).list (B.holding to.new).list result }
    ensures same { spec.Keeps (A.holding from.old) (A.holding from.new) }
    ensures grows { Grows (B.holding to.old) (B.holding to.new) }
    ensures crash { spec.LeavesOldOrSame (A.holding from.old) (A.holding from.new) }
    ensures crash_to { moving.LeavesOnTheWay (A.holding from.old) (B.holding to.old) (B.holding to.new) }
    ensures ready { OnOk result ((A.readiness from.new ≡ Ready) × (B.readiness to.new ≡ Ready)) }
    ensures settled { OnOk result (IsSettled (A.holding from.new) × IsSettled (B.holding to.new)) }
    ensures cause { moving.HasMoveCause (A.faults from.old) (A.faults from.new) (B.faults to.old) (B.faults to.new) result }
{
    from.reopen(alloc)?;
    to.reopen(alloc)?;
    let end = walk_both(alloc, from, to)?;
    append_rest(alloc, from, end, to)
}
