//! PutFault: why a frame was not written.

ghost use Rattle.std.specs.Prelude.{◌≡◌};
ghost use Rattle.law_follow.specs.declared.put_fault.PutFault.TheVariants as fault;

use desk_base::{Failed, Memory};

/// Why a frame was not written.
#[derive(Clone, Copy, Debug, PartialEq, Eq)]
pub enum PutFault {
    /// The sink failed. The count of its faults rose.
    WriteFault,
    /// There was not enough memory, and nothing was written.
    Memory,
}

impl From<Failed> for PutFault {
    ghost from_gives = { λ _ e. e ≡ fault.WriteFault };

    fn from(_: Failed) -> Self {
        PutFault::WriteFault
    }
}

impl From<Memory> for PutFault {
    ghost from_gives = { λ _ e. e ≡ fault.Memory };

    fn from(_: Memory) -> Self {
        PutFault::Memory
    }
}
