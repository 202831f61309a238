//! KeepFault: why a payload was not kept.

ghost use Rattle.std.specs.Prelude.{◌≡◌};
ghost use Rattle.law_keeper.specs.declared.keep_fault.KeepFault.TheVariants as fault;

use desk_base::{Failed, Memory};
use std::alloc::{AllocError, AllocFailed};
use thiserror::Error;

/// Why a payload was not kept.
#[derive(Clone, Copy, Debug, PartialEq, Eq, Error)]
pub enum KeepFault {
    /// The device failed, and the payload may be kept or not. The count of its faults rose.
    #[error("the device failed")]
    Failed,
    /// There was not enough memory, and the payload is not kept.
    #[error("out of memory")]
    Memory,
}

impl From<Failed> for KeepFault {
    ghost from_gives = { λ _ e. e ≡ fault.Failed };

    fn from(_: Failed) -> Self {
        KeepFault::Failed
    }
}

impl From<AllocError> for KeepFault {
    ghost from_gives = { λ _ e. e ≡ fault.Memory };

    fn from(_: AllocError) -> Self {
        KeepFault::Memory
    }
}

impl<T: Drop> From<AllocFailed<T>> for KeepFault {
    ghost from_gives = { λ _ e. e ≡ fault.Memory };

    fn from(_: AllocFailed<T>) -> Self {
        KeepFault::Memory
    }
}

impl From<Memory> for KeepFault {
    ghost from_gives = { λ _ e. e ≡ fault.Memory };

    fn from(_: Memory) -> Self {
        KeepFault::Memory
    }
}
