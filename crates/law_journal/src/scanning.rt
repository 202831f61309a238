//! The walk over a file from gate to gate, up to the closed one or the first damage.

ghost use Rattle.std.specs.Prelude.{◌≡◌, ◌+◌, ◌^◌, ◌<◌, ◌≤◌, Some, [], take, drop, length, IfOk, OnOk, IfErr};
ghost use Rattle.desk_base.specs.Streams.{HasCause};
ghost use Rattle.law_journal.specs.Disks.{Idles};
ghost use Rattle.law_journal.specs.Grammar.{magic, magic_fault, list_of};
ghost use Rattle.law_journal.specs.Journals.{FindsAt, FitsIn, HasEnd, HasLoadCause, Tells};
ghost use Rattle.law_journal.specs.Windows.{IsWindow};

use crate::Disk;
use crate::step::{Found, found_at};
use crate::window::Window;
use desk_base::{Failed, LoadFault};

/// The bytes that begin a journal.
pub const MAGIC: [u8; 8] = *b"AKNLAW01";

/// The place of the first byte that is not the magic's, and that byte, if there is one.
pub fn fault_of(bytes: &[u8]) -> Option<(u64, Option<u8>)>
    ensures { result ≡ magic_fault 0 magic bytes.now }
{
    let mut wanted: &[u8] = &MAGIC;
    let mut left = bytes;
    let mut place = 0;
    while let [first, others @ ..] = wanted {
        match left {
            [] => return Some((place, None)),
            [byte, _rest @ ..] if byte != first => return Some((place, Some(*byte))),
            [_byte, rest @ ..] => left = rest,
        }
        wanted = others;
        place += 1;
    }
    None
}

/// A file of ten bytes and more begins with the magic, or is damaged.
pub fn check_magic<D: Disk>(disk: &mut D, window: &mut Window) -> Result<(), LoadFault>
    requires window { IsWindow (D.outlook disk.old) window.old }
    requires long { (D.outlook disk.old).tells → 9 < length (D.outlook disk.old).seen }
    ensures magic { OnOk result ((D.outlook disk.old).tells → take 8 (D.outlook disk.old).seen ≡ magic) }
    ensures damaged { (D.outlook disk.old).tells → IfErr result (Tells (list_of (D.outlook disk.old).seen)) }
    ensures window { IsWindow (D.outlook disk.new) window.new }
    ensures idle { Idles (D.outlook disk.old) (D.outlook disk.new) }
    ensures cause { HasLoadCause (D.faults disk.old) (D.faults disk.new) result }
{
    let mut front = [0; 8];
    let count = window.read(disk, 0, &mut front)?;
    match fault_of(&front[..count]) {
        None => Ok(()),
        Some((place, byte)) => Err(LoadFault::Damaged { place, byte }),
    }
}

/// What stands at the gate at a place, in a file of `len` bytes.
pub fn step<D: Disk>(
    disk: &mut D,
    window: &mut Window,
    place: u64,
    len: u64,
) -> Result<Found, Failed>
    requires window { IsWindow (D.outlook disk.old) window.old }
    requires place { place < len }
    requires len { len < 2 ^ 63 }
    requires told { (D.outlook disk.old).tells → len ≡ length (D.outlook disk.old).seen }
    ensures found { IfOk result (FindsAt (D.outlook disk.old) place) }
    ensures fits { IfOk result (FitsIn place len) }
    ensures window { IsWindow (D.outlook disk.new) window.new }
    ensures idle { Idles (D.outlook disk.old) (D.outlook disk.new) }
    ensures cause { HasCause (D.faults disk.old) (D.faults disk.new) result }
{
    let wanted = (len - place).min(5) as usize;
    if let Some(header) = window.peek(disk, place, wanted) {
        return Ok(found_at(header, place, len));
    }
    let mut header = [0; 5];
    let count = window.read(disk, place, &mut header[..wanted])?;
    Ok(found_at(&header[..count], place, len))
}

/// The place of the closed gate that ends the list of a file, or its first damage.
pub fn end_of_list<D: Disk>(disk: &mut D, window: &mut Window, len: u64) -> Result<u64, LoadFault>
    requires window { IsWindow (D.outlook disk.old) window.old }
    requires long { 9 < len }
    requires len { len < 2 ^ 63 }
    requires told { (D.outlook disk.old).tells → len ≡ length (D.outlook disk.old).seen }
    requires magic { (D.outlook disk.old).tells → take 8 (D.outlook disk.old).seen ≡ magic }
    ensures end { (D.outlook disk.old).tells → IfOk result (HasEnd (D.outlook disk.old).seen) }
    ensures damaged { (D.outlook disk.old).tells → IfErr result (Tells (list_of (D.outlook disk.old).seen)) }
    ensures first { IfOk result (λ gate. 8 ≤ gate) }
    ensures within { IfOk result (λ gate. gate < len) }
    ensures window { IsWindow (D.outlook disk.new) window.new }
    ensures idle { Idles (D.outlook disk.old) (D.outlook disk.new) }
    ensures cause { HasLoadCause (D.faults disk.old) (D.faults disk.new) result }
{
    let mut place = 8;
    while place < len {
        match step(disk, window, place, len)? {
            Found::End => return Ok(place),
            Found::Broken(place, byte) => return Err(LoadFault::Damaged { place, byte }),
            Found::Entry(size) => place += 5 + size,
        }
    }
    unreachable!()
}
