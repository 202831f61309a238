//! Changes of a file that wait until they are on the disk.

ghost use Rattle.std.specs.Prelude.{◌≡◌, ◌+◌, ◌^◌, ◌<◌, ◌≤◌, [], ◌∷◌, ◌++◌, Some, take, length, IfOk, OnOk};
ghost use Rattle.desk_base.specs.Streams.{HasCause};
ghost use Rattle.law_journal.specs.Disks.{CutsTo, IsSynced, LeavesCut, LeavesOnly, LeavesTorn, Only, Writes};
ghost use Rattle.law_journal.specs.Grammar.{magic};
ghost use Rattle.law_journal.specs.Journals.{AddsFrames, IsFramed, IsShort, LeavesFramesOrNot, MayAddFrames, Rests};

use crate::Disk;
use desk_base::Failed;

/// Writes bytes over what is there, and past the end, and waits until they are on the disk.
pub fn write_synced<D: Disk>(disk: &mut D, place: u64, bytes: &[u8]) -> Result<(), Failed>
    requires place { (D.outlook disk.old).tells → place ≤ length (D.outlook disk.old).seen }
    requires durable { (D.outlook disk.old).tells → Only (D.outlook disk.old).seen (D.outlook disk.old).may_leave }
    ensures written { OnOk result (Writes place bytes.now (D.outlook disk.old) (D.outlook disk.new)) }
    ensures durable { OnOk result (IsSynced (D.outlook disk.old) (D.outlook disk.new)) }
    ensures any_moment { LeavesTorn place (length bytes.now) (D.outlook disk.old) (D.outlook disk.new) }
    ensures tells { (D.outlook disk.new).tells → (D.outlook disk.old).tells }
    ensures bound { OnOk result (place + length bytes.now < 2 ^ 63) }
    ensures cause { HasCause (D.faults disk.old) (D.faults disk.new) result }
{
    disk.write_at(place, bytes)?;
    disk.sync()?;
    Ok(())
}

/// Cuts the file to a length, and waits until that is on the disk.
pub fn cut_synced<D: Disk>(disk: &mut D, len: u64) -> Result<(), Failed>
    requires len { (D.outlook disk.old).tells → len ≤ length (D.outlook disk.old).seen }
    requires durable { (D.outlook disk.old).tells → Only (D.outlook disk.old).seen (D.outlook disk.old).may_leave }
    ensures cut { OnOk result (CutsTo len (D.outlook disk.old) (D.outlook disk.new)) }
    ensures durable { OnOk result (IsSynced (D.outlook disk.old) (D.outlook disk.new)) }
    ensures any_moment { LeavesCut len (D.outlook disk.old) (D.outlook disk.new) }
    ensures tells { (D.outlook disk.new).tells → (D.outlook disk.old).tells }
    ensures cause { HasCause (D.faults disk.old) (D.faults disk.new) result }
{
    disk.cut(len)?;
    disk.sync()?;
    Ok(())
}

/// Makes a journal with no record of a file of at most nine bytes. A crash leaves one of at most nine bytes, too.
pub fn start_synced<D: Disk>(disk: &mut D) -> Result<(), Failed>
    requires short { (D.outlook disk.old).tells → length (D.outlook disk.old).seen ≤ 9 }
    requires durable { (D.outlook disk.old).tells → Only (D.outlook disk.old).seen (D.outlook disk.old).may_leave }
    ensures started { OnOk result ((D.outlook disk.old).tells → (D.outlook disk.new).seen ≡ magic ++ 0 ∷ []) }
    ensures durable { OnOk result (IsSynced (D.outlook disk.old) (D.outlook disk.new)) }
    ensures any_moment { (D.outlook disk.old).tells → LeavesOnly IsShort (D.outlook disk.old) (D.outlook disk.new) }
    ensures tells { (D.outlook disk.new).tells → (D.outlook disk.old).tells }
    ensures cause { HasCause (D.faults disk.old) (D.faults disk.new) result }
{
    disk.cut(0)?;
    disk.write_at(0, b"AKNLAW01\0")?;
    disk.sync()?;
    Ok(())
}

/// Adds the payloads of frames behind the closed gate at a place, and gives the place of the closed gate behind them.
pub fn append_at<D: Disk>(disk: &mut D, gate: u64, framed: &[u8]) -> Result<u64, Failed>
    requires bound { gate + 1 < 2 ^ 63 }
    requires rests { (D.outlook disk.old).tells → Rests (D.outlook disk.old) gate }
    requires framed { IsFramed framed.now }
    ensures place { IfOk result (λ place. place ≡ gate + length framed.now) }
    ensures bound { IfOk result (λ place. place + 1 < 2 ^ 63) }
    ensures rests { (D.outlook disk.new).tells → IfOk result (Rests (D.outlook disk.new)) }
    ensures added { OnOk result (AddsFrames framed.now (D.outlook disk.old) (D.outlook disk.new)) }
    ensures left { MayAddFrames framed.now (D.outlook disk.old) (D.outlook disk.new) }
    ensures any_moment { LeavesFramesOrNot framed.now (D.outlook disk.old) (D.outlook disk.new) }
    ensures tells { (D.outlook disk.new).tells → (D.outlook disk.old).tells }
    ensures cause { HasCause (D.faults disk.old) (D.faults disk.new) result }
{
    // The records have to be on the disk, behind the closed gate, before it is opened: it is the gate of the first one,
    // and while it is closed the open gates behind it count for nothing.
    write_synced(disk, gate + 1, framed)?;
    write_synced(disk, gate, &[1])?;
    Ok(gate + framed.len() as u64)
}
