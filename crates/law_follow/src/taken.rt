//! Taken: what comes of a payload that a follower is given, and why it was not taken.

ghost use Rattle.std.specs.Prelude.{◌≡◌};
ghost use Rattle.law_follow.specs.Faults.{keep_refusal, unfit_refusal};
ghost use Rattle.law_follow.specs.declared.taken.TakeFault.TheVariants as fault;

use crate::unfit::Unfit;
use desk_base::Memory;
use entry_codec::CodecFault;
use law_keeper::KeepFault;

/// What came of a payload.
#[derive(Clone, Copy, Debug, PartialEq, Eq)]
pub enum Taken {
    /// It stands behind the others now.
    Added,
    /// It is the one that stands at its number already.
    Known,
}

/// Why a payload was not taken.
#[derive(Clone, Copy, Debug, PartialEq, Eq)]
pub enum TakeFault {
    /// Those between are missing. It may come again once they have come.
    Gap {
        /// The number of the payload that comes next.
        expected: u64,
        /// The number that was given.
        got: u64,
    },
    /// Another payload stands at its number.
    Conflict {
        /// The number.
        number: u64,
    },
    /// It spells no entry.
    BadEntry(CodecFault),
    /// Its entry is not accepted behind the others.
    NotAccepted {
        /// The number of the rule: that of a reused request number where it is a repeat, and 0 where it would be
        /// accepted with another law number.
        rule: u8,
    },
    /// The keeper failed, and its count of faults rose. The payload, or an older one, is pending: the next call finds
    /// out whether it was kept.
    KeeperFault,
    /// There was not enough memory. Nothing was given to the keeper.
    Memory,
}

impl From<Memory> for TakeFault {
    ghost from_gives = { λ _ e. e ≡ fault.Memory };

    fn from(_: Memory) -> Self {
        TakeFault::Memory
    }
}

impl From<KeepFault> for TakeFault {
    ghost from_gives = { λ given e. e ≡ keep_refusal given };

    fn from(given: KeepFault) -> Self {
        match given {
            KeepFault::Failed => TakeFault::KeeperFault,
            KeepFault::Memory => TakeFault::Memory,
        }
    }
}

impl From<Unfit> for TakeFault {
    ghost from_gives = { λ given e. e ≡ unfit_refusal given };

    fn from(given: Unfit) -> Self {
        match given {
            Unfit::NoEntry(broken) => TakeFault::BadEntry(broken),
            Unfit::NotAccepted(rule) => TakeFault::NotAccepted { rule },
            Unfit::Memory => TakeFault::Memory,
        }
    }
}
