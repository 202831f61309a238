//! What the fields of a head say of its body: how long it is (RFC 9112, section 6).

ghost use Rattle.std.specs.Prelude.{◌≡◌, ◌≤◌, ◌++◌, ◌∷◌, [], List, length, map, All, IfOk};
ghost use Rattle.httparse.specs.Spans.{IsHeaderWithin, header_bytes};
ghost use Rattle.http1.specs.Fields.{Header, known_fields};
ghost use Rattle.law_http.specs.Framing as spec;

use crate::MessageRefusal;
use http1::fields::{ContentLength, KnownFields, TransferEncoding};
use http1::text::eq_ignore_case;
use httparse::spans::HeaderSpan;

/// The largest body, in bytes.
pub(crate) const MAX_BODY: u64 = 8_388_608;

// The most digits that a length may have, so that it always is below 2^64.
const MAX_DIGITS: usize = 19;

/// What the Content-Length fields of a head come to.
#[derive(Clone, Copy, Debug, PartialEq, Eq)]
pub(crate) enum Announced {
    /// There is none.
    Nothing,
    Bytes(u64),
    /// There are several, or the one is no length.
    Broken,
}

fn written_length(value: &[u8]) -> Announced
    ensures { result ≡ spec.written_length value.now }
{
    if value.len() > MAX_DIGITS {
        return Announced::Broken;
    }
    let mut known = KnownFields::new();
    known.add(b"content-length", value);
    match known.content_length {
        ContentLength::Value(length) => Announced::Bytes(length),
        _ => Announced::Broken,
    }
}

impl Announced {
    // Takes one more field into account.
    fn with(self, name: &[u8], value: &[u8]) -> Announced
        ensures { (before : List Header) → self ≡ spec.announced (spec.lengths before)
            → result ≡ spec.announced (spec.lengths (before ++ (name.now, value.now) ∷ [])) }
    {
        if !eq_ignore_case(name, b"content-length") {
            return self;
        }
        match self {
            Announced::Nothing => written_length(value),
            _ => Announced::Broken,
        }
    }
}

fn announced_length(bytes: &[u8], headers: &[HeaderSpan]) -> Announced
    requires { All (IsHeaderWithin (length bytes.now)) headers.now }
    ensures { result ≡ spec.announced (spec.lengths (map (header_bytes bytes.now) headers.now)) }
{
    let mut announced = Announced::Nothing;
    for header in headers {
        announced = announced.with(header.name.of(bytes), header.value.of(bytes));
    }
    announced
}

// Whether there are as many Host fields as the version wants: one, or in HTTP/1.0 none.
fn hosts_fit(minor: u8, hosts: u8) -> bool
    ensures { result ≡ spec.hosts_fit minor hosts }
{
    hosts == 1 || (hosts == 0 && minor == 0)
}

fn within_limit(method: &[u8], announced: Announced) -> Result<u64, MessageRefusal>
    ensures value { result ≡ spec.within_limit method.now announced }
    ensures limit { IfOk result (λ n. n ≤ MAX_BODY) }
{
    match announced {
        Announced::Nothing if method == b"POST".as_slice() => Err(MessageRefusal::LengthMissing),
        Announced::Nothing => Ok(0),
        Announced::Bytes(length) if length > MAX_BODY => Err(MessageRefusal::BodyTooLong),
        Announced::Bytes(length) => Ok(length),
        Announced::Broken => Err(MessageRefusal::BadHead),
    }
}

/// How long the body of a request is, from its method, its minor version and its fields.
pub(crate) fn body_length(
    method: &[u8],
    minor: u8,
    known: &KnownFields,
    bytes: &[u8],
    headers: &[HeaderSpan],
) -> Result<u64, MessageRefusal>
    requires within { All (IsHeaderWithin (length bytes.now)) headers.now }
    requires known { known.now ≡ known_fields (map (header_bytes bytes.now) headers.now) }
    ensures value { result ≡ spec.body_length method.now minor (map (header_bytes bytes.now) headers.now) }
    ensures limit { IfOk result (λ n. n ≤ MAX_BODY) }
{
    let announced = announced_length(bytes, headers);
    if announced == Announced::Broken || !hosts_fit(minor, known.hosts) {
        return Err(MessageRefusal::BadHead);
    }
    if known.transfer_encoding != TransferEncoding::Absent {
        return Err(MessageRefusal::TransferCoding);
    }
    within_limit(method, announced)
}
