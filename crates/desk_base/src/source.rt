//! Source: where input comes from. A clause sees what it has left, if it tells, and counts.

ghost use Rattle.std.specs.Prelude.{◌≡◌, ℕ, ◌+◌, ◌-◌, ◌^◌, min, List, Option, length};
ghost use Rattle.std.specs.Io.{ReadsAtMost};
ghost use Rattle.std.specs.Io.KnownBytes.{ReadConsumes};
ghost use Rattle.desk_base.specs.Streams.{HasCause, LowersRoom, risen};

/// A device failed. The count of its faults rose by one in that call.
#[derive(Clone, Copy, Debug, PartialEq, Eq)]
pub struct Failed;

/// Counts one fault, and gives the failure that a call answers for it.
pub fn count_fault(faults: &mut u64) -> Failed
    ensures one_more { faults.new ≡ min (faults.old + 1) (2 ^ 64 - 1) }
    ensures risen { faults.new ≡ risen faults.old }
{
    *faults = faults.saturating_add(1);
    Failed
}

/// A stream of bytes to read.
pub trait Source {
    /// The bytes that are left, where the source tells them.
    ghost left: { Self → Option (List ℕ) };

    /// How many bytes it may still give.
    ghost room: { Self → ℕ };

    /// How many calls have failed so far. The count stands still at 2^64 - 1.
    ghost faults: { Self → ℕ };

    /// Fills the front of `into` with the bytes that come next, and says how many they are.
    ///
    /// For an `into` that is not empty, `Ok(0)` means that the input has ended. A failed call takes
    /// nothing.
    fn read(&mut self, into: &mut [u8]) -> Result<usize, Failed>
        ensures fits { ReadsAtMost result into.new }
        ensures taken { ReadConsumes (left self.old) (left self.new) result into.new }
        ensures room { LowersRoom (room self.old) (room self.new) result }
        ensures cause { HasCause (faults self.old) (faults self.new) result };
}
