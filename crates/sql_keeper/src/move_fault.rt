//! MoveFault: why the payloads of a keeper were not moved.

ghost use Rattle.std.specs.Prelude.{◌≡◌};
ghost use Rattle.sql_keeper.specs.Moving.{of_keep_fault, of_load_fault};

use desk_base::LoadFault;
use law_keeper::KeepFault;
use thiserror::Error;

/// Why the payloads of a keeper were not moved to another.
#[derive(Clone, Copy, Debug, PartialEq, Eq, Error)]
pub enum MoveFault {
    /// A device failed. The count of its keeper's faults rose.
    #[error("a device failed")]
    Failed,
    /// What one of both has is damaged.
    #[error("what was kept is damaged")]
    Damaged {
        /// The first place that shows it.
        place: u64,
        /// The byte there, if there is one.
        byte: Option<u8>,
    },
    /// The list of the second is no prefix of that of the first: the place, counted from 1, of its first payload that is
    /// another, or is beyond.
    #[error("the lists differ")]
    Differs(u64),
    /// There was not enough memory.
    #[error("out of memory")]
    Memory,
}

impl From<LoadFault> for MoveFault {
    ghost from_gives = { λ fault e. e ≡ of_load_fault fault };

    fn from(fault: LoadFault) -> Self {
        match fault {
            LoadFault::Failed => MoveFault::Failed,
            LoadFault::Damaged { place, byte } => MoveFault::Damaged { place, byte },
            LoadFault::Memory => MoveFault::Memory,
        }
    }
}

impl From<KeepFault> for MoveFault {
    ghost from_gives = { λ fault e. e ≡ of_keep_fault fault };

    fn from(fault: KeepFault) -> Self {
        match fault {
            KeepFault::Failed => MoveFault::Failed,
            KeepFault::Memory => MoveFault::Memory,
        }
    }
}
