//! Followed: what comes of a stream that is followed, and why it was not followed to its end.

ghost use Rattle.std.specs.Prelude.{◌≡◌};
ghost use Rattle.law_follow.specs.Faults.{keep_stop};

use entry_codec::CodecFault;
use law_keeper::KeepFault;
use law_register::OpenFault;

/// How the frames of a stream were answered. A count stands still at its last value.
#[derive(Clone, Copy, Debug, PartialEq, Eq)]
pub struct Tally {
    /// How many were added.
    pub added: u64,
    /// How many were known.
    pub known: u64,
    /// How many were further on, and skipped.
    pub gaps: u64,
}

/// What comes of a stream that was followed to its end.
#[derive(Clone, Copy, Debug, PartialEq, Eq)]
pub struct Followed {
    /// How many payloads there are then.
    pub length: u64,
    /// How its frames were answered.
    pub tally: Tally,
}

/// Why a frame is refused.
#[derive(Clone, Copy, Debug, PartialEq, Eq)]
pub enum Refusal {
    /// It is no frame, or not there whole.
    BadFrame {
        /// Its place in the stream, from 1.
        place: u64,
    },
    /// Another payload stands at its number.
    Conflict {
        /// The number.
        number: u64,
    },
    /// Its payload spells no entry.
    BadEntry {
        /// Its number.
        number: u64,
        /// Where the payload is broken.
        broken: CodecFault,
    },
    /// The entry of its payload is not accepted.
    NotAccepted {
        /// Its number.
        number: u64,
        /// The number of the rule, as a follower tells it.
        rule: u8,
    },
}

/// Why a stream was not followed to its end.
#[derive(Clone, Copy, Debug, PartialEq, Eq)]
pub enum FollowFault {
    /// The keeper was not opened, and nothing was read.
    Open(OpenFault),
    /// A frame is refused, and nothing behind it was read. Those before it are taken.
    Refused(Refusal),
    /// The source failed. The count of its faults rose. The last of the frames before may not be taken.
    ReadFault,
    /// The keeper failed, and its count of faults rose. The last of the frames that were read may not be taken.
    KeeperFault,
    /// There was not enough memory. The last of the frames that were read may not be taken.
    Memory,
}

impl From<KeepFault> for FollowFault {
    ghost from_gives = { λ given e. e ≡ keep_stop given };

    fn from(given: KeepFault) -> Self {
        match given {
            KeepFault::Failed => FollowFault::KeeperFault,
            KeepFault::Memory => FollowFault::Memory,
        }
    }
}
