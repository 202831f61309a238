//! Hearing the next request of a stream.

ghost use Rattle.std.specs.Prelude.{◌≡◌, ◌≤◌, ◌<◌, ◌+◌, ◌^◌, max, length, drop, Ok, IfOk, OnErr};
ghost use Rattle.law_http.specs.Cutting.{after_empty_lines, head_length};
ghost use Rattle.law_http.specs.Hearing as spec;
ghost use Rattle.law_http.specs.Streams.{HasHearCause, KeepsBytes, KeepsStream, KeepsWithPiece};

use crate::buffer::Buffer;
use crate::cutting::MAX_HEAD;
use crate::framing::MAX_BODY;
use crate::head::{Framing, read_head};
use crate::reading::{await_bytes, await_head};
use crate::{Bytes, HearFault, Heard, MessageRefusal, Request, Rest};
use desk_base::{Link, Memory};
use std::alloc::Global;

// Takes a request off the front of the bytes, if they hold it whole.
fn take_request(
    alloc: Global,
    bytes: &mut Buffer,
    head: usize,
    framing: Framing,
) -> Result<Heard, Memory>
    requires some { 0 < head }
    requires fits { head + framing.length < 2 ^ 64 }
    ensures heard { IfOk result
        (λ heard. spec.Makes (spec.with_body head framing bytes.old) heard bytes.new) }
    ensures spent { IfOk result (spec.Spends (length bytes.old) (length bytes.new)) }
    ensures kept { OnErr result (bytes.new ≡ bytes.old) }
    ensures held { length bytes.new ≤ length bytes.old }
{
    let end = head + framing.length as usize;
    if bytes.len() < end {
        return Ok(Heard::Refused(MessageRefusal::Truncated));
    }
    let body = Bytes::copy_of(alloc, &bytes.as_slice()[head..end])?;
    bytes.skip(end);
    Ok(Heard::Request(Request {
        method: framing.method,
        target: framing.target,
        body,
        closes: framing.closes,
    }))
}

// What is heard where a head of so many bytes stands in front.
#[tactic(auto, using(crate::proofs::WithPieces::head_refused, crate::proofs::WithPieces::front_kept, crate::proofs::WithPieces::same_kept))]
fn hear_body<L: Link>(
    alloc: Global,
    link: &mut L,
    bytes: &mut Buffer,
    head: usize,
) -> Result<Heard, HearFault>
    requires some { 0 < head }
    requires within { head ≤ length bytes.old }
    requires limit { head ≤ MAX_HEAD }
    requires begins { after_empty_lines bytes.old ≡ bytes.old }
    requires found { head_length bytes.old ≡ Ok head }
    ensures heard { IfOk result
        (spec.HearsBody head bytes.old (L.left link.old) bytes.new (L.left link.new)) }
    ensures heard_of_own { IfOk result (spec.HearsBodyWithPiece head bytes.old bytes.new) }
    ensures unheard { spec.HeldNoRequest result bytes.new }
    ensures kept { OnErr result (KeepsBytes bytes.old (L.left link.old) bytes.new (L.left link.new)) }
    ensures kept_own { OnErr result (KeepsWithPiece bytes.old bytes.new) }
    ensures spent { IfOk result
        (spec.Spends (length bytes.old + L.room link.old) (length bytes.new + L.room link.new)) }
    ensures taken { length bytes.new + L.room link.new ≤ length bytes.old + L.room link.old }
    ensures held { length bytes.new ≤ max (length bytes.old) (MAX_HEAD + MAX_BODY) }
    ensures cause { HasHearCause (L.read_faults link.old) (L.read_faults link.new) result }
    ensures written { L.written link.new ≡ L.written link.old }
    ensures write_faults { L.write_faults link.new ≡ L.write_faults link.old }
    ensures origin { L.origin link.new ≡ L.origin link.old }
{
    let framing = match read_head(alloc, &bytes.as_slice()[..head])? {
        Ok(framing) => framing,
        Err(refusal) => return Ok(Heard::Refused(refusal)),
    };
    await_bytes(link, bytes, head + framing.length as usize)?;
    Ok(take_request(alloc, bytes, head, framing)?)
}

// What is heard of bytes that were read, and of those that a link has left.
#[tactic(auto, using(crate::proofs::WithPieces::end_with_piece))]
fn hear<L: Link>(alloc: Global, link: &mut L, bytes: &mut Buffer) -> Result<Heard, HearFault>
    ensures heard { IfOk result (spec.Hears bytes.old (L.left link.old) bytes.new (L.left link.new)) }
    ensures heard_of_own { IfOk result (spec.HearsWithPiece bytes.old bytes.new) }
    ensures unheard { spec.HeldNoRequest result bytes.new }
    ensures kept { OnErr result (KeepsStream bytes.old (L.left link.old) bytes.new (L.left link.new)) }
    ensures kept_own { OnErr result (KeepsWithPiece bytes.old bytes.new) }
    ensures spent { IfOk result
        (spec.Spends (length bytes.old + L.room link.old) (length bytes.new + L.room link.new)) }
    ensures taken { length bytes.new + L.room link.new ≤ length bytes.old + L.room link.old }
    ensures held { length bytes.new ≤ max (length bytes.old) (MAX_HEAD + MAX_BODY) }
    ensures cause { HasHearCause (L.read_faults link.old) (L.read_faults link.new) result }
    ensures written { L.written link.new ≡ L.written link.old }
    ensures write_faults { L.write_faults link.new ≡ L.write_faults link.old }
    ensures origin { L.origin link.new ≡ L.origin link.old }
{
    let head = await_head(link, bytes)?;
    if bytes.len() == 0 {
        return Ok(Heard::End);
    }
    match head {
        Ok(head) => hear_body(alloc, link, bytes, head),
        Err(refusal) => Ok(Heard::Refused(refusal)),
    }
}

/// Hears what comes next in a stream: a request (RFC 9112, section 3), the end of the stream, or why no request can be
/// read there. The stream is what `rest` holds and then what the link gives, in whatever pieces it gives it; what was
/// read behind a request stays in `rest`.
///
/// After a refusal the stream is as it was but for empty lines. So it is after an error: `ReadFault` where a read
/// failed before a whole request had come, and `Memory`.
pub fn read_request<L: Link>(
    alloc: Global,
    link: &mut L,
    rest: &mut Rest,
) -> Result<Heard, HearFault>
    ensures heard { IfOk result (spec.Hears rest.old (L.left link.old) rest.new (L.left link.new)) }
    ensures unheard { spec.HeldNoRequest result rest.new }
    ensures kept { OnErr result (KeepsStream rest.old (L.left link.old) rest.new (L.left link.new)) }

    // The bytes of a rest are its own: what is said of them holds of a link that does not tell what it has left, too.
    ensures heard_of_own { IfOk result (spec.HearsWithPiece rest.old rest.new) }
    ensures kept_own { OnErr result (KeepsWithPiece rest.old rest.new) }

    // A request takes a byte at least, so a loop over requests ends.
    ensures spent { IfOk result (spec.Spends (length rest.old + L.room link.old) (length rest.new + L.room link.new)) }
    ensures taken { length rest.new + L.room link.new ≤ length rest.old + L.room link.old }
    ensures held { length rest.new ≤ max (length rest.old) (MAX_HEAD + MAX_BODY) }

    ensures cause { HasHearCause (L.read_faults link.old) (L.read_faults link.new) result }
    ensures written { L.written link.new ≡ L.written link.old }
    ensures write_faults { L.write_faults link.new ≡ L.write_faults link.old }
    ensures origin { L.origin link.new ≡ L.origin link.old }
{
    let mut bytes = rest.take(alloc);
    let heard = hear(alloc, link, &mut bytes);
    rest.put(bytes);
    heard
}
