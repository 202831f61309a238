//! The head of a request, as the grammar of httparse has it.

ghost use Rattle.std.specs.Prelude.{◌≡◌, ◌≤◌, length, map, IfOk, IsUtf8, All};
ghost use Rattle.httparse.specs.Grammar.{IsToken};
ghost use Rattle.httparse.specs.Spans.{IsHeaderWithin, IsWithin, header_bytes, span_bytes};
ghost use Rattle.law_http.specs.Heads as spec;

use crate::framing::body_length;
use crate::{MessageRefusal, Target};
use desk_base::Memory;
use http::Method;
use http::method::MethodError;
use http1::fields::KnownFields;
use httparse::Status;
use httparse::spans::{EMPTY_HEADER_SPAN, HeaderSpan, RequestSpans, parse_request};
use std::alloc::Global;
use std::str;

/// The most fields that a head has.
pub(crate) const MAX_FIELDS: usize = 64;

/// A request but for its body, of which it says the length.
#[derive(Drop)]
pub(crate) struct Framing {
    pub method: Method,
    pub target: Target,
    pub closes: bool,
    pub length: u64,
}

fn method_of(alloc: Global, token: &[u8]) -> Result<Method, Memory>
    requires { IsToken token.now }
    ensures { IfOk result (λ method. method ≡ token.now) }
{
    Method::from_bytes(alloc, token).map_err(|_| Memory)
}

fn target_of(alloc: Global, bytes: &[u8]) -> Result<Target, Memory>
    requires { IsUtf8 bytes.now }
    ensures { IfOk result (λ target. target ≡ bytes.now) }
{
    Target::copy_of(alloc, str::from_utf8(bytes).unwrap())
}

// What the parts of a head say.
fn framed(
    alloc: Global,
    method: &[u8],
    target: &[u8],
    minor: u8,
    bytes: &[u8],
    headers: &[HeaderSpan],
) -> Result<Result<Framing, MessageRefusal>, Memory>
    requires within { All (IsHeaderWithin (length bytes.now)) headers.now }
    requires method { IsToken method.now }
    requires target { IsUtf8 target.now }
    ensures value { IfOk result (spec.IsFramed method.now target.now minor (map (header_bytes bytes.now) headers.now)) }
    ensures limit { IfOk result spec.HasLimit }
{
    let known = KnownFields::from_spans(bytes, headers);
    let length = match body_length(method, minor, &known, bytes, headers) {
        Ok(length) => length,
        Err(refusal) => return Ok(Err(refusal)),
    };
    Ok(Ok(Framing {
        method: method_of(alloc, method)?,
        target: target_of(alloc, target)?,
        closes: minor == 0 || known.close,
        length,
    }))
}

/// What the bytes say as a head, all of them.
pub(crate) fn read_head(
    alloc: Global,
    bytes: &[u8],
) -> Result<Result<Framing, MessageRefusal>, Memory>
    ensures said { IfOk result (spec.IsSaid bytes.now) }
    ensures limit { IfOk result spec.HasLimit }
{
    let mut headers = [EMPTY_HEADER_SPAN; MAX_FIELDS];
    let spans = match parse_request(bytes, &mut headers) {
        Ok(Status::Complete(spans)) => spans,
        _ => return Ok(Err(MessageRefusal::BadHead)),
    };
    if spans.len != bytes.len() {
        return Ok(Err(MessageRefusal::BadHead));
    }
    let method = spans.method.of(bytes);
    let target = spans.path.of(bytes);
    framed(
        alloc,
        method,
        target,
        spans.version,
        bytes,
        &headers[..spans.headers],
    )
}
