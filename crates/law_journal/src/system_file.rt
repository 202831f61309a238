//! SystemFile: the few calls of the system that a disk makes. A clause sees whether a handle is open that may be asked.

ghost use Rattle.std.specs.Prelude.{◌≡◌, ◌^◌, ◌<◌, ◌≤◌, Bool, true, length, IfOk, OnOk};

use std::io;

/// Lengths and places are below this.
pub const LIMIT: u64 = 1 << 63;

/// A file of the system, of which one handle at a time reads and writes. After a sync that failed the system may have
/// dropped what it could not write, and may answer the next sync with Ok; so that handle may not be asked again.
pub trait SystemFile {
    /// Whether a handle is open no sync of which has failed.
    ghost is_open: { Self → Bool };

    /// Locks the file, which is made where it is missing, and says whether no other process holds it. The lock is kept
    /// as long as this value is.
    fn lock(&mut self) -> io::Result<bool>;

    /// Opens a new handle in the place of the one before.
    fn open(&mut self) -> io::Result<()>
        ensures { OnOk result (is_open self.new ≡ true) };

    /// Has the system drop what it keeps of the file in memory, so that a read gives what the device has.
    fn drop_pages(&mut self) -> io::Result<()>
        requires { is_open self.old ≡ true }
        ensures { is_open self.new ≡ true };

    /// Waits until the entries of the file's folder are on the device.
    fn sync_folder(&mut self) -> io::Result<()>
        requires { is_open self.old ≡ true }
        ensures { is_open self.new ≡ true };

    /// The length, below 2^63.
    fn len(&mut self) -> io::Result<u64>
        requires { is_open self.old ≡ true }
        ensures bound { IfOk result (λ n. n < 2 ^ 63) }
        ensures open { is_open self.new ≡ true };

    /// Fills some of the front of `into` from a place on, and says how much of it; nothing at the end of the file.
    fn read_some(&mut self, place: u64, into: &mut [u8]) -> io::Result<usize>
        requires { is_open self.old ≡ true }
        ensures fits { IfOk result (λ n. n ≤ length into.new) }
        ensures open { is_open self.new ≡ true };

    /// Writes some of the front of the bytes from a place on, and says how many.
    fn write_some(&mut self, place: u64, bytes: &[u8]) -> io::Result<usize>
        requires { is_open self.old ≡ true }
        ensures fits { IfOk result (λ n. n ≤ length bytes.now) }
        ensures open { is_open self.new ≡ true };

    /// Cuts the file to a length.
    fn set_len(&mut self, len: u64) -> io::Result<()>
        requires { is_open self.old ≡ true }
        ensures { is_open self.new ≡ true };

    /// Waits until data and length are on the device.
    fn sync_all(&mut self) -> io::Result<()>
        requires { is_open self.old ≡ true }
        ensures { OnOk result (is_open self.new ≡ true) };
}
