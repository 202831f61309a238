//! OpenFault: why a desk was not opened.

ghost use Rattle.std.specs.Prelude.{◌≡◌};
ghost use Rattle.law_register.specs.Desk.Openings.{opening_fault};
ghost use Rattle.law_register.specs.declared.desk.open_fault.OpenFault.TheVariants as fails;

use crate::Damage;
use desk_base::{LoadFault, Memory};

/// Why a desk was not opened.
#[derive(Clone, Copy, Debug, PartialEq, Eq)]
pub enum OpenFault {
    /// The keeper failed, and its count of faults rose.
    Failed,
    /// What is kept is no register.
    Damaged(Damage),
    /// There was not enough memory.
    Memory,
}

impl From<Memory> for OpenFault {
    ghost from_gives = { λ _ e. e ≡ fails.Memory };

    fn from(_: Memory) -> Self {
        OpenFault::Memory
    }
}

impl From<LoadFault> for OpenFault {
    ghost from_gives = { λ fault e. e ≡ opening_fault fault };

    fn from(fault: LoadFault) -> Self {
        match fault {
            LoadFault::Failed => OpenFault::Failed,
            LoadFault::Damaged { place, byte } => {
                OpenFault::Damaged(Damage::Journal { place, byte })
            }
            LoadFault::Memory => OpenFault::Memory,
        }
    }
}
