//! Disk: where the journal's file is. A clause sees what is known of it, its outlook, and a count of faults.

ghost use Rattle.std.specs.Prelude.{ℕ, ◌+◌, ◌^◌, ◌<◌, ◌≤◌, length, IfOk, OnOk};
ghost use Rattle.desk_base.specs.Streams.{HasCause};
ghost use Rattle.law_journal.specs.Disks.{Outlook, IsOutlook, Idles, Changes, Torn, Cut, Reads};
ghost use Rattle.law_journal.specs.Disks.{IsLengthOf, Writes, CutsTo, IsSynced};

use desk_base::Failed;

/// A file on a device that a crash may stop at any moment. Between two syncs each range that was written, and
/// what is past the old end, may hold any bytes after a crash; a sync that succeeds leaves what a read gives.
pub trait Disk {
    /// What is known of it.
    ghost outlook: { Self → Outlook };

    /// How many calls have failed so far. The count stands still at 2^64 - 1.
    ghost faults: { Self → ℕ };

    /// The length, at most 2^63 - 1.
    fn len(&mut self) -> Result<u64, Failed>
        ensures length { IfOk result (IsLengthOf (outlook self.old)) }
        ensures bound { IfOk result (λ n. n < 2 ^ 63) }
        ensures idle { Idles (outlook self.old) (outlook self.new) }
        ensures cause { HasCause (faults self.old) (faults self.new) result };

    /// Fills the front of `into` with the bytes from a place on, as many as there are, and says how many.
    fn read(&mut self, place: u64, into: &mut [u8]) -> Result<usize, Failed>
        ensures given { Reads (outlook self.old) place result into.new }
        ensures fits { IfOk result (λ n. n ≤ length into.new) }
        ensures idle { Idles (outlook self.old) (outlook self.new) }
        ensures cause { HasCause (faults self.old) (faults self.new) result };

    /// Writes bytes over what is there, and past the end. A failed call may have done any part of it.
    fn write_at(&mut self, place: u64, bytes: &[u8]) -> Result<(), Failed>
        requires { (outlook self.old).tells → place ≤ length (outlook self.old).seen }
        ensures written { OnOk result (Writes place bytes.now (outlook self.old) (outlook self.new)) }
        ensures bound { OnOk result (place + length bytes.now < 2 ^ 63) }
        ensures change { Changes (Torn place (length bytes.now)) (outlook self.old) (outlook self.new) }
        ensures cause { HasCause (faults self.old) (faults self.new) result };

    /// Cuts the file to a length. A failed call may have done any part of it.
    fn cut(&mut self, len: u64) -> Result<(), Failed>
        requires { (outlook self.old).tells → len ≤ length (outlook self.old).seen }
        ensures cut { OnOk result (CutsTo len (outlook self.old) (outlook self.new)) }
        ensures change { Changes (Cut len) (outlook self.old) (outlook self.new) }
        ensures cause { HasCause (faults self.old) (faults self.new) result };

    /// Once it has succeeded, a crash leaves what a read gives.
    fn sync(&mut self) -> Result<(), Failed>
        ensures durable { OnOk result (IsSynced (outlook self.old) (outlook self.new)) }
        ensures idle { Idles (outlook self.old) (outlook self.new) }
        ensures cause { HasCause (faults self.old) (faults self.new) result };

    /// What holds of each outlook.
    ghost is_outlook: { (disk : Self) → IsOutlook (outlook disk) };
}
