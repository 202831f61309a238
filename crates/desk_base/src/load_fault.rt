//! LoadFault: why what was kept was not opened, or not read.

ghost use Rattle.std.specs.Prelude.{◌≡◌};
ghost use Rattle.desk_base.specs.declared.load_fault.LoadFault.TheVariants as fault;

use crate::{Failed, Memory};
use std::alloc::{AllocError, AllocFailed};
use thiserror::Error;

/// Why what was kept was not opened, or not read.
#[derive(Clone, Copy, Debug, PartialEq, Eq, Error)]
pub enum LoadFault {
    /// The device failed. The count of its faults rose.
    #[error("the device failed")]
    Failed,
    /// What was kept is damaged.
    #[error("what was kept is damaged")]
    Damaged {
        /// The first place that shows it.
        place: u64,
        /// The byte there, if there is one.
        byte: Option<u8>,
    },
    /// There was not enough memory.
    #[error("out of memory")]
    Memory,
}

impl From<Failed> for LoadFault {
    ghost from_gives = { λ _ e. e ≡ fault.Failed };

    fn from(_: Failed) -> Self {
        LoadFault::Failed
    }
}

impl From<AllocError> for LoadFault {
    ghost from_gives = { λ _ e. e ≡ fault.Memory };

    fn from(_: AllocError) -> Self {
        LoadFault::Memory
    }
}

impl<T: Drop> From<AllocFailed<T>> for LoadFault {
    ghost from_gives = { λ _ e. e ≡ fault.Memory };

    fn from(_: AllocFailed<T>) -> Self {
        LoadFault::Memory
    }
}

impl From<Memory> for LoadFault {
    ghost from_gives = { λ _ e. e ≡ fault.Memory };

    fn from(_: Memory) -> Self {
        LoadFault::Memory
    }
}
