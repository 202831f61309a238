//! Why a stream holds no request at a place, and why a request gets no answer: numbers, names and statuses.

ghost use Rattle.std.specs.Prelude.{◌≡◌};
ghost use Rattle.law_http.specs.Refusals as spec;

use crate::status::{Allow, Status};

/// Why no request can be read where one would begin. The stream is closed after each of them.
#[derive(Clone, Copy, Debug, PartialEq, Eq)]
pub enum MessageRefusal {
    /// The head is no request head, or its Host or Content-Length fields are not as they have to be.
    BadHead,
    /// The head has more than 16,384 bytes.
    HeadTooLong,
    /// A POST has no Content-Length.
    LengthMissing,
    /// The body has more than 8,388,608 bytes.
    BodyTooLong,
    /// The body is sent in a transfer coding.
    TransferCoding,
    /// The stream ends inside a request.
    Truncated,
}

/// Why a request gets no answer of the desk.
#[derive(Clone, Copy, Debug, PartialEq, Eq)]
pub enum RequestRefusal {
    /// There is no such path.
    NoRoute,
    /// The path has another method, which is this one.
    WrongMethod(Allow),
    /// The query or the body breaks a rule of its form, with the number of the rule and the place.
    BadForm { form: u8, place: u32 },
}

impl MessageRefusal {
    /// The number that a client sees.
    pub fn number(self) -> u8
        ensures { result ≡ spec.message_number self }
    {
        match self {
            MessageRefusal::BadHead => 1,
            MessageRefusal::HeadTooLong => 2,
            MessageRefusal::LengthMissing => 3,
            MessageRefusal::BodyTooLong => 4,
            MessageRefusal::TransferCoding => 5,
            MessageRefusal::Truncated => 9,
        }
    }

    /// The name that a client sees.
    pub fn name(self) -> &'static str
        ensures { result.now ≡ spec.message_name self }
    {
        match self {
            MessageRefusal::BadHead => "BadHead",
            MessageRefusal::HeadTooLong => "HeadTooLong",
            MessageRefusal::LengthMissing => "LengthMissing",
            MessageRefusal::BodyTooLong => "BodyTooLong",
            MessageRefusal::TransferCoding => "TransferCoding",
            MessageRefusal::Truncated => "Truncated",
        }
    }

    /// The status of its response (RFC 9110, section 15, and RFC 6585, section 5).
    pub fn status(self) -> Status
        ensures { result ≡ spec.message_status self }
    {
        match self {
            MessageRefusal::BadHead | MessageRefusal::Truncated => Status::BadRequest,
            MessageRefusal::HeadTooLong => Status::FieldsTooLarge,
            MessageRefusal::LengthMissing => Status::LengthRequired,
            MessageRefusal::BodyTooLong => Status::ContentTooLarge,
            MessageRefusal::TransferCoding => Status::NotImplemented,
        }
    }
}
