//! What is done with a file that a crash may have left, before the journal is used.

ghost use Rattle.std.specs.Prelude.{◌≡◌, ◌+◌, ◌^◌, ◌<◌, ◌≤◌, length, OnOk, IfOk, IfErr};
ghost use Rattle.desk_base.specs.Streams.{HasCause};
ghost use Rattle.law_journal.specs.Disks.{Idles, LeavesOnly, Only};
ghost use Rattle.law_journal.specs.Grammar.{list_of};
ghost use Rattle.law_journal.specs.Journals.{HasEnd, HasLoadCause, IsSameList, IsShort, LeavesOldOrSame, LeavesSame};
ghost use Rattle.law_journal.specs.Journals.{Rests, Tells, is_started as started};
ghost use Rattle.law_journal.specs.States.{LeavesAlone};
ghost use Rattle.law_journal.specs.Windows.{IsWindow};

use crate::Disk;
use crate::scanning::{check_magic, end_of_list, fault_of};
use crate::window::Window;
use crate::writing::{cut_synced, start_synced};
use desk_base::{Failed, LoadFault};

// Whether the bytes are the magic and a closed gate, and nothing else.
fn is_started(bytes: &[u8]) -> bool
    ensures { result ≡ started bytes.now }
{
    bytes.len() == 9 && fault_of(bytes).is_none() && bytes[8] != 1
}

// A file of at most nine bytes stands for no payload: it becomes a journal with none, unless it is one.
fn settle_short<D: Disk>(disk: &mut D) -> Result<u64, Failed>
    requires short { (D.outlook disk.old).tells → length (D.outlook disk.old).seen ≤ 9 }
    requires durable { (D.outlook disk.old).tells → Only (D.outlook disk.old).seen (D.outlook disk.old).may_leave }
    ensures rests { (D.outlook disk.old).tells → IfOk result (Rests (D.outlook disk.new)) }
    ensures bound { IfOk result (λ gate. gate ≡ 8) }
    ensures any_moment { (D.outlook disk.old).tells → LeavesOnly IsShort (D.outlook disk.old) (D.outlook disk.new) }
    ensures alone { LeavesAlone (D.outlook disk.old) (D.outlook disk.new) }
    ensures tells { (D.outlook disk.new).tells → (D.outlook disk.old).tells }
    ensures cause { HasCause (D.faults disk.old) (D.faults disk.new) result }
{
    let mut bytes = [0; 9];
    let count = disk.read(0, &mut bytes)?;
    if !is_started(&bytes[..count]) {
        start_synced(disk)?;
    }
    Ok(8)
}

// What stands behind the closed gate is cut off.
fn cut_behind<D: Disk>(disk: &mut D, window: &mut Window, gate: u64, len: u64) -> Result<(), Failed>
    requires window { IsWindow (D.outlook disk.old) window.old }
    requires gate { gate < len }
    requires len { len < 2 ^ 63 }
    requires told { (D.outlook disk.old).tells → len ≡ length (D.outlook disk.old).seen }
    requires end { (D.outlook disk.old).tells → HasEnd (D.outlook disk.old).seen gate }
    requires durable { (D.outlook disk.old).tells → Only (D.outlook disk.old).seen (D.outlook disk.old).may_leave }
    ensures rests { OnOk result ((D.outlook disk.old).tells → Rests (D.outlook disk.new) gate) }
    ensures any_moment { LeavesSame (D.outlook disk.old) (D.outlook disk.new) }
    ensures alone { gate + 1 ≡ len → Idles (D.outlook disk.old) (D.outlook disk.new) }
    ensures window { OnOk result (IsWindow (D.outlook disk.new) window.new) }
    ensures tells { (D.outlook disk.new).tells → (D.outlook disk.old).tells }
    ensures cause { HasCause (D.faults disk.old) (D.faults disk.new) result }
{
    if gate + 1 < len {
        window.forget();
        cut_synced(disk, gate + 1)?;
    }
    Ok(())
}

// A file of ten bytes and more is a journal up to a closed gate, which is the last byte afterwards, or damaged.
fn settle_long<D: Disk>(disk: &mut D, window: &mut Window, len: u64) -> Result<u64, LoadFault>
    requires window { IsWindow (D.outlook disk.old) window.old }
    requires long { 9 < len }
    requires len { len < 2 ^ 63 }
    requires told { (D.outlook disk.old).tells → len ≡ length (D.outlook disk.old).seen }
    requires durable { (D.outlook disk.old).tells → Only (D.outlook disk.old).seen (D.outlook disk.old).may_leave }
    ensures rests { (D.outlook disk.old).tells → IfOk result (Rests (D.outlook disk.new)) }
    ensures damaged { (D.outlook disk.old).tells → IfErr result (Tells (list_of (D.outlook disk.old).seen)) }
    ensures first { IfOk result (λ gate. 8 ≤ gate) }
    ensures bound { IfOk result (λ gate. gate + 1 < 2 ^ 63) }
    ensures any_moment { LeavesSame (D.outlook disk.old) (D.outlook disk.new) }
    ensures alone { LeavesAlone (D.outlook disk.old) (D.outlook disk.new) }
    ensures window { OnOk result (IsWindow (D.outlook disk.new) window.new) }
    ensures tells { (D.outlook disk.new).tells → (D.outlook disk.old).tells }
    ensures cause { HasLoadCause (D.faults disk.old) (D.faults disk.new) result }
{
    check_magic(disk, window)?;
    let gate = end_of_list(disk, window, len)?;
    cut_behind(disk, window, gate, len)?;
    Ok(gate)
}

// The file as it is on the disk becomes a journal at rest.
fn settle<D: Disk>(disk: &mut D, window: &mut Window) -> Result<u64, LoadFault>
    requires window { window.old.held ≡ 0 }
    requires durable { (D.outlook disk.old).tells → Only (D.outlook disk.old).seen (D.outlook disk.old).may_leave }
    ensures rests { (D.outlook disk.old).tells → IfOk result (Rests (D.outlook disk.new)) }
    ensures damaged { (D.outlook disk.old).tells → IfErr result (Tells (list_of (D.outlook disk.old).seen)) }
    ensures first { IfOk result (λ gate. 8 ≤ gate) }
    ensures bound { IfOk result (λ gate. gate + 1 < 2 ^ 63) }
    ensures any_moment { LeavesSame (D.outlook disk.old) (D.outlook disk.new) }
    ensures alone { LeavesAlone (D.outlook disk.old) (D.outlook disk.new) }
    ensures window { OnOk result (IsWindow (D.outlook disk.new) window.new) }
    ensures tells { (D.outlook disk.new).tells → (D.outlook disk.old).tells }
    ensures cause { HasLoadCause (D.faults disk.old) (D.faults disk.new) result }
{
    let len = disk.len()?;
    if len <= 9 {
        return Ok(settle_short(disk)?);
    }
    settle_long(disk, window, len)
}

/// The file becomes a journal at rest, with the list that it stands for, or it is damaged. Gives the place of its
/// closed gate.
pub fn recover<D: Disk>(disk: &mut D, window: &mut Window) -> Result<u64, LoadFault>
    requires { window.old.held ≡ 0 }
    ensures rests { (D.outlook disk.old).tells → IfOk result (Rests (D.outlook disk.new)) }
    ensures same { (D.outlook disk.old).tells → IsSameList (D.outlook disk.old).seen (D.outlook disk.new).seen }
    ensures damaged { (D.outlook disk.old).tells → IfErr result (Tells (list_of (D.outlook disk.old).seen)) }
    ensures first { IfOk result (λ gate. 8 ≤ gate) }
    ensures bound { IfOk result (λ gate. gate + 1 < 2 ^ 63) }
    ensures any_moment { LeavesOldOrSame (D.outlook disk.old) (D.outlook disk.new) }
    ensures alone { LeavesAlone (D.outlook disk.old) (D.outlook disk.new) }
    ensures window { OnOk result (IsWindow (D.outlook disk.new) window.new) }
    ensures tells { (D.outlook disk.new).tells → (D.outlook disk.old).tells }
    ensures cause { HasLoadCause (D.faults disk.old) (D.faults disk.new) result }
{
    disk.sync()?;
    settle(disk, window)
}
