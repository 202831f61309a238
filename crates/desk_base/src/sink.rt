//! Sink: where output goes. A clause sees what was written, if it tells, and a count of faults.

ghost use Rattle.std.specs.Prelude.{ℕ, List, Option};
ghost use Rattle.desk_base.specs.Streams.{HasCause, Appended};

use crate::Failed;

/// A stream of bytes to write.
pub trait Sink {
    /// The bytes written so far, where the sink tells them.
    ghost written: { Self → Option (List ℕ) };

    /// How many calls have failed so far. The count stands still at 2^64 - 1.
    ghost faults: { Self → ℕ };

    /// Writes all the bytes. A failed call may have written some of them, from the front.
    fn write_all(&mut self, bytes: &[u8]) -> Result<(), Failed>
        ensures appended { Appended (written self.old) (written self.new) bytes.now result }
        ensures cause { HasCause (faults self.old) (faults self.new) result };
}
