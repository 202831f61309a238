//! What is read at a gate.

ghost use Rattle.std.specs.Prelude.{◌≡◌, ◌+◌, ◌^◌, ◌<◌, ◌≤◌, take, drop, length, IfOk, IfErr, OnOk};
ghost use Rattle.law_journal.specs.Disks.{Idles};
ghost use Rattle.law_journal.specs.Journals.{HasLoadCause, IsLater, IsNoDamage, ReadsBytes, ReadsEntry, read_into};
ghost use Rattle.law_journal.specs.Windows.{IsWindow};

use crate::Disk;
use crate::scanning::step;
use crate::step::Found;
use crate::window::Window;
use desk_base::LoadFault;

// Puts so many bytes from a place on, which the file has, into a buffer in the place of its own.
fn payload_at<D: Disk>(
    disk: &mut D,
    window: &mut Window,
    place: u64,
    size: usize,
    into: &mut Vec<u8>,
) -> Result<(), LoadFault>
    requires window { IsWindow (D.outlook disk.old) window.old }
    requires bound { place + size < 2 ^ 63 }
    requires told { (D.outlook disk.old).tells → place + size < length (D.outlook disk.old).seen }
    ensures payload { OnOk result (ReadsBytes (D.outlook disk.old) place size into.new.items) }
    ensures size { OnOk result (length into.new.items ≡ size) }
    ensures no_damage { (D.outlook disk.old).tells → IfErr result IsNoDamage }
    ensures window { IsWindow (D.outlook disk.new) window.new }
    ensures idle { Idles (D.outlook disk.old) (D.outlook disk.new) }
    ensures cause { HasLoadCause (D.faults disk.old) (D.faults disk.new) result }
{
    if let Some(bytes) = window.peek(disk, place, size) {
        into.clear();
        into.extend_from_slice(bytes)?;
        return Ok(());
    }
    into.resize(size, 0)?;
    let count = window.read(disk, place, into.as_mut_slice())?;
    if count < size {
        return Err(LoadFault::Damaged {
            place: place + count as u64,
            byte: None,
        });
    }
    Ok(())
}

/// Puts the payload behind the gate at a place into a buffer, and gives the place of the next gate, in a file of `len`
/// bytes; None where the gate is closed.
pub fn entry_at<D: Disk>(
    disk: &mut D,
    window: &mut Window,
    place: u64,
    len: u64,
    into: &mut Vec<u8>,
) -> Result<Option<u64>, LoadFault>
    requires window { IsWindow (D.outlook disk.old) window.old }
    requires len { len < 2 ^ 63 }
    requires told { (D.outlook disk.old).tells → len ≡ length (D.outlook disk.old).seen }
    ensures read { ReadsEntry (D.outlook disk.old) place (read_into into.new.items result) }
    ensures later { IfOk result (IsLater place) }
    ensures window { IsWindow (D.outlook disk.new) window.new }
    ensures idle { Idles (D.outlook disk.old) (D.outlook disk.new) }
    ensures cause { HasLoadCause (D.faults disk.old) (D.faults disk.new) result }
{
    if place >= len {
        return Err(LoadFault::Damaged { place, byte: None });
    }
    match step(disk, window, place, len)? {
        Found::End => Ok(None),
        Found::Broken(place, byte) => Err(LoadFault::Damaged { place, byte }),
        Found::Entry(size) => {
            payload_at(disk, window, place + 5, size as usize, into)?;
            Ok(Some(place + 5 + size))
        }
    }
}
