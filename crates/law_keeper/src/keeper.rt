//! Keeper: where payloads are kept. A clause sees what is known of it, its holding, whether it is ready, and a count of
//! faults.

ghost use Rattle.std.specs.Prelude.{◌≡◌, ◌<◌, ℕ, length, All, Err, IfOk, IsTrue, OnErr};
ghost use Rattle.law_journal.specs.Grammar.{is_size};
ghost use Rattle.law_journal.specs.Journals.{MayBeAny, read_into};
ghost use Rattle.law_keeper.specs.declared.keep_fault.KeepFault.TheVariants as fault;
ghost use Rattle.law_keeper.specs.declared.readiness.Readiness.{Readiness};
ghost use Rattle.law_keeper.specs.declared.readiness.Readiness.TheVariants.{Ready};
ghost use Rattle.law_keeper.specs.Keepers as spec;
ghost use Rattle.law_keeper.specs.Keepers.{Holding, IsHolding, IsSettled, bytes_of};

use crate::KeepFault;
use desk_base::LoadFault;
use std::alloc::Global;

/// A list of payloads, of 1 to 16,777,216 bytes each, to which one is added at a time.
pub trait Keeper {
    /// What is known of it.
    ghost holding: { Self → Holding };

    /// Whether it can be asked for its payloads.
    ghost readiness: { Self → Readiness };

    /// How many calls have failed so far, later damage counted too. The count stands still at its last value.
    ghost faults: { Self → ℕ };

    /// Puts the payload at a cursor into a buffer, in the place of what the buffer had, and gives the next cursor; None
    /// at the end of the list. Cursor 0 is the first. After a failure or damage the keeper has to be opened again. A call
    /// that is refused may leave any bytes in the buffer.
    fn load(&mut self, cursor: u64, into: &mut Vec<u8>) -> Result<Option<u64>, LoadFault>
        requires { readiness self.old ≡ Ready }
        ensures given { spec.Gives (holding self.old) cursor (holding self.new)
            (read_into into.new.items result) }
        ensures refused { OnErr result (MayBeAny into.new.items) }
        ensures later { IfOk result (spec.MovesOn cursor) }
        ensures same { spec.Keeps (holding self.old) (holding self.new) }
        ensures crash { spec.LeavesNoMore (holding self.old) (holding self.new) }
        ensures settled { readiness self.new ≡ Ready → IsSettled (holding self.new) }
        ensures ready { readiness self.new ≡ spec.after_load result }
        ensures cause { spec.HasReadCause (readiness self.old) (faults self.old) (faults self.new) result };

    /// Adds a payload at the end of the list, and gives the cursor of the new end. After a failure the keeper has to be
    /// opened again, and then has the payload or has not. Where memory is wanting nothing was done.
    fn append(&mut self, alloc: Global, payload: &[u8]) -> Result<u64, KeepFault>
        requires ready { readiness self.old ≡ Ready }
        requires size { IsTrue (is_size (length payload.now)) }
        ensures appended { spec.Appends payload.now (holding self.old) (holding self.new) result }
        ensures crash { spec.LeavesOneOfTwo payload.now (holding self.old) (holding self.new) }
        ensures untouched { result ≡ Err fault.Memory → spec.LeavesNoMore (holding self.old) (holding self.new) }
        ensures settled { readiness self.new ≡ Ready → IsSettled (holding self.new) }
        ensures ready { readiness self.new ≡ spec.after_append result }
        ensures cause { spec.HasAppendCause (faults self.old) (faults self.new) result };

    /// Adds payloads at the end of the list, one or more, and gives the cursor of the new end. After a failure the keeper
    /// has to be opened again, and then has some of them, the first ones; where memory is wanting it has some, too.
    fn append_all(&mut self, alloc: Global, payloads: &[Vec<u8>]) -> Result<u64, KeepFault>
        requires ready { readiness self.old ≡ Ready }
        requires some { 0 < length payloads.now }
        requires sizes { All (λ payload. IsTrue (is_size (length payload.items))) payloads.now }
        ensures appended { spec.AppendsAll (bytes_of payloads.now) (holding self.old) (holding self.new) result }
        ensures crash { spec.LeavesFront (bytes_of payloads.now) (holding self.old) (holding self.new) }
        ensures settled { readiness self.new ≡ Ready → IsSettled (holding self.new) }
        ensures ready { readiness self.new ≡ spec.after_append result }
        ensures cause { spec.HasAppendCause (faults self.old) (faults self.new) result }
    {
        let mut end = self.append(alloc, payloads[0].as_slice())?;
        for payload in &payloads[1..] {
            end = self.append(alloc, payload.as_slice())?;
        }
        Ok(end)
    }

    /// Opens the keeper, or opens it again.
    fn reopen(&mut self, alloc: Global) -> Result<(), LoadFault>
        ensures found { spec.Finds (readiness self.old) (holding self.old) result }
        ensures same { spec.Keeps (holding self.old) (holding self.new) }
        ensures crash { spec.LeavesOldOrSame (holding self.old) (holding self.new) }
        ensures settled { readiness self.new ≡ Ready → IsSettled (holding self.new) }
        ensures ready { readiness self.new ≡ spec.after_opening (readiness self.old) result }
        ensures cause { spec.HasReadCause (readiness self.old) (faults self.old) (faults self.new) result };

    /// What holds of each holding.
    ghost is_holding: { (keeper : Self) → IsHolding (holding keeper) };
}
