//! What is heard of a stream.

ghost use Rattle.std.specs.Prelude.{◌≡◌};
ghost use Rattle.law_http.specs.declared.heard.HearFault.TheVariants as fault;

use crate::{Bytes, MessageRefusal, Target};
use desk_base::Memory;
use http::Method;
use std::alloc::{AllocError, AllocFailed};

/// A request (RFC 9112).
#[derive(Drop)]
pub struct Request {
    pub method: Method,
    /// The target as it was sent, with nothing decoded.
    pub target: Target,
    /// The bytes that Content-Length announces, and none where it is absent.
    pub body: Bytes,
    /// Whether the stream is closed after the response: a request of HTTP/1.0, or one whose Connection fields list
    /// `close`.
    pub closes: bool,
}

/// What stands in a stream where a request would begin.
#[derive(Drop)]
pub enum Heard {
    Request(Request),
    /// Nothing but empty lines: the stream has ended.
    End,
    /// Something else than a request.
    Refused(MessageRefusal),
}

/// Why nothing was heard.
#[derive(Clone, Copy, Debug, PartialEq, Eq)]
pub enum HearFault {
    /// A read of the link failed.
    ReadFault,
    /// There was not enough memory.
    Memory,
}

impl From<Memory> for HearFault {
    ghost from_gives = { λ _ e. e ≡ fault.Memory };

    fn from(_: Memory) -> Self {
        HearFault::Memory
    }
}

impl From<AllocError> for HearFault {
    ghost from_gives = { λ _ e. e ≡ fault.Memory };

    fn from(_: AllocError) -> Self {
        HearFault::Memory
    }
}

impl<T: Drop> From<AllocFailed<T>> for HearFault {
    ghost from_gives = { λ _ e. e ≡ fault.Memory };

    fn from(_: AllocFailed<T>) -> Self {
        HearFault::Memory
    }
}
