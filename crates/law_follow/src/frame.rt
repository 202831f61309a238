//! Frame: a payload with its number in the list from which it comes, as it is handed on. A frame is the byte 0x4c, the
//! number in eight bytes, the length of the payload in four, and the payload. The highest byte of a number is the first.

ghost use Rattle.std.specs.Prelude.{◌≡◌};
ghost use Rattle.law_follow.specs.declared.frame.FrameFault.TheVariants as fault;

use desk_base::{Failed, Memory};
use std::alloc::{AllocError, AllocFailed};

/// How many bytes stand in front of the payload.
pub const HEAD_SIZE: usize = 13;

/// The byte with which a frame begins.
pub const MARK: u8 = 0x4c;

/// A payload that is handed on.
#[derive(Debug, Drop)]
pub struct Frame {
    /// The number of the payload in its list, from 1.
    pub number: u64,
    /// The payload, of 1 to 16,777,216 bytes.
    pub payload: Vec<u8>,
}

/// What the head of a frame says.
#[derive(Clone, Copy)]
pub struct Head {
    /// The number of the payload.
    pub number: u64,
    /// How many bytes the payload has.
    pub size: u32,
}

/// Why no frame was read.
#[derive(Clone, Copy, Debug, PartialEq, Eq)]
pub enum FrameFault {
    /// What stands there is no frame, or it is not there whole.
    BadFrame,
    /// The source failed. The count of its faults rose.
    ReadFault,
    /// There was not enough memory.
    Memory,
}

impl From<Failed> for FrameFault {
    ghost from_gives = { λ _ e. e ≡ fault.ReadFault };

    fn from(_: Failed) -> Self {
        FrameFault::ReadFault
    }
}

impl From<AllocError> for FrameFault {
    ghost from_gives = { λ _ e. e ≡ fault.Memory };

    fn from(_: AllocError) -> Self {
        FrameFault::Memory
    }
}

impl<T: Drop> From<AllocFailed<T>> for FrameFault {
    ghost from_gives = { λ _ e. e ≡ fault.Memory };

    fn from(_: AllocFailed<T>) -> Self {
        FrameFault::Memory
    }
}

impl From<Memory> for FrameFault {
    ghost from_gives = { λ _ e. e ≡ fault.Memory };

    fn from(_: Memory) -> Self {
        FrameFault::Memory
    }
}
