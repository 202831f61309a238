//! Link: a stream both ways. A clause sees of it what it sees of a source and of a sink.

ghost use Rattle.std.specs.Prelude.{◌≡◌, ℕ, List, Option};
ghost use Rattle.std.specs.Io.{ReadsAtMost};
ghost use Rattle.std.specs.Io.KnownBytes.{ReadConsumes};
ghost use Rattle.desk_base.specs.Streams.{HasCause, LowersRoom, Appended};

use crate::Failed;

/// A stream of bytes to read, and one to write.
pub trait Link {
    /// The bytes that are left to read, where the link tells them.
    ghost left: { Self → Option (List ℕ) };

    /// How many bytes it may still give.
    ghost room: { Self → ℕ };

    /// How many reads have failed so far. The count stands still at 2^64 - 1.
    ghost read_faults: { Self → ℕ };

    /// The bytes written so far, where the link tells them.
    ghost written: { Self → Option (List ℕ) };

    /// How many writes have failed so far. The count stands still at 2^64 - 1.
    ghost write_faults: { Self → ℕ };

    /// The names of what the link was lent, if anything. No call puts something else in its place.
    ghost origin: { Self → List ℕ };

    /// Reads as a source does.
    fn read(&mut self, into: &mut [u8]) -> Result<usize, Failed>
        ensures fits { ReadsAtMost result into.new }
        ensures taken { ReadConsumes (left self.old) (left self.new) result into.new }
        ensures room { LowersRoom (room self.old) (room self.new) result }
        ensures cause { HasCause (read_faults self.old) (read_faults self.new) result }
        ensures written { written self.new ≡ written self.old }
        ensures write_faults { write_faults self.new ≡ write_faults self.old }
        ensures origin { origin self.new ≡ origin self.old };

    /// Writes all the bytes, as a sink does.
    fn write_all(&mut self, bytes: &[u8]) -> Result<(), Failed>
        ensures appended { Appended (written self.old) (written self.new) bytes.now result }
        ensures cause { HasCause (write_faults self.old) (write_faults self.new) result }
        ensures left { left self.new ≡ left self.old }
        ensures room { room self.new ≡ room self.old }
        ensures read_faults { read_faults self.new ≡ read_faults self.old }
        ensures origin { origin self.new ≡ origin self.old };
}
