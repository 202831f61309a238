//! Streaming: a stream is served to its end, each request before more is read.

ghost use Rattle.std.specs.Prelude.{◌≡◌, ◌≤◌, ◌+◌, ℕ, List, Option, length};
ghost use Rattle.std.specs.Io.KnownBytes.{prepend_known};
ghost use Rattle.law_http.specs.Hearing.{IsHeardOf, Spends};
ghost use Rattle.law_http.specs.Streaming as stream;
ghost use Rattle.law_http.specs.ServedMembers as spec;

use crate::putting::{MemberServed, either, end_where, is_fault, leave, put_before, refuse};
use crate::responding::respond_by;
use crate::{Heard, MessageRefusal, Request, Rest, Routes, read_request};
use desk_base::{Link, Steps};
use law_register::Desk;
use std::alloc::Global;
use std::sync::ledger::Ledger;

/// How a stream ended.
#[derive(Clone, Copy, Debug, PartialEq, Eq)]
pub enum StreamEnd {
    /// Every request was answered, to the end of the stream or to the first that closes it.
    End,
    /// Something else than a request stood behind the last, and was refused.
    Refused(MessageRefusal),
    /// A read failed.
    ReadFault,
    /// A write failed.
    WriteFault,
    /// There was not enough memory.
    Memory,
}

/// What was served of a stream.
#[derive(Clone, Copy, Debug, PartialEq, Eq)]
pub struct Served {
    /// How it ended.
    pub end: StreamEnd,
    /// Whether some response said that the keeper failed.
    pub faulted: bool,
}

fn answer<K: Link, D: Desk, L: Ledger>(
    alloc: Global,
    routes: Option<&Routes>,
    link: &mut K,
    desk: &mut D,
    request: &Request,
    steps: &mut Steps<L>,
) -> MemberServed
    ensures served { (left rest over : Option (List ℕ)) → IsHeardOf left rest (Heard.Request request.now)
        → spec.IsMemberServed (spec.ServesCounted D.state D.crashes D.past D.judging) left rest over (K.written link.old) (K.written link.new)
        (desk.old, steps.old) (desk.new, steps.new) result.faulted result.end }
    ensures reads { spec.HasMemberCause stream.HasReadCause result.end
        (K.read_faults link.old) (K.read_faults link.new) }
    ensures writes { spec.HasMemberCause stream.HasWriteCause result.end
        (K.write_faults link.old) (K.write_faults link.new) }
    ensures left { K.left link.new ≡ K.left link.old }
    ensures room { K.room link.new ≡ K.room link.old }
    ensures origin { K.origin link.new ≡ K.origin link.old }
{
    let response = respond_by(alloc, routes, desk, request, steps);
    let end = put_before(link, &response, end_where(request.closes));
    let faulted = is_fault(&response);
    MemberServed { end, faulted }
}

// What comes of a member of the stream.
fn act_on<K: Link, D: Desk, L: Ledger>(
    alloc: Global,
    routes: Option<&Routes>,
    link: &mut K,
    desk: &mut D,
    heard: &Heard,
    steps: &mut Steps<L>,
) -> MemberServed
    ensures served { (left rest over : Option (List ℕ)) → IsHeardOf left rest heard.now
        → spec.IsMemberServed (spec.ServesCounted D.state D.crashes D.past D.judging) left rest over (K.written link.old) (K.written link.new)
        (desk.old, steps.old) (desk.new, steps.new) result.faulted result.end }
    ensures spent { (before now : ℕ) → Spends before now heard.now → spec.SpendsMember result.end before now }
    ensures reads { spec.HasMemberCause stream.HasReadCause result.end
        (K.read_faults link.old) (K.read_faults link.new) }
    ensures writes { spec.HasMemberCause stream.HasWriteCause result.end
        (K.write_faults link.old) (K.write_faults link.new) }
    ensures left { K.left link.new ≡ K.left link.old }
    ensures room { K.room link.new ≡ K.room link.old }
    ensures origin { K.origin link.new ≡ K.origin link.old }
{
    match heard {
        Heard::Request(request) => answer(alloc, routes, link, desk, request, steps),
        Heard::End => MemberServed {
            end: Some(StreamEnd::End),
            faulted: false,
        },
        Heard::Refused(refusal) => MemberServed {
            end: refuse(alloc, link, *refusal),
            faulted: false,
        },
    }
}

fn serve_member<K: Link, D: Desk, L: Ledger>(
    alloc: Global,
    routes: Option<&Routes>,
    link: &mut K,
    rest: &mut Rest,
    desk: &mut D,
    steps: &mut Steps<L>,
) -> MemberServed
    ensures served { spec.IsMemberServed (spec.ServesCounted D.state D.crashes D.past D.judging)
        (prepend_known rest.old (K.left link.old)) (prepend_known rest.new (K.left link.new)) (K.left link.new)
        (K.written link.old) (K.written link.new) (desk.old, steps.old) (desk.new, steps.new) result.faulted result.end }
    ensures spent { spec.SpendsMember result.end
        (length rest.old + K.room link.old) (length rest.new + K.room link.new) }
    ensures reads { spec.HasMemberCause stream.HasReadCause result.end
        (K.read_faults link.old) (K.read_faults link.new) }
    ensures writes { spec.HasMemberCause stream.HasWriteCause result.end
        (K.write_faults link.old) (K.write_faults link.new) }
    ensures origin { K.origin link.new ≡ K.origin link.old }
{
    match read_request(alloc, link, rest) {
        Ok(heard) => act_on(alloc, routes, link, desk, &heard, steps),
        Err(fault) => MemberServed {
            end: leave(link, fault),
            faulted: false,
        },
    }
}

/// Reads requests from a link and answers each before more is read, to the end of the stream, to the first request that
/// closes it, to what is no request, to a failure, or until there is not enough memory, which the fixed 500 says. Where a
/// read fails, each request that had come whole has been answered.
pub fn serve_stream<K: Link, D: Desk, L: Ledger>(
    alloc: Global,
    link: &mut K,
    desk: &mut D,
    steps: &mut Steps<L>,
) -> Served
    ensures served { stream.IsStreamed D.state D.crashes D.past D.judging (K.left link.old) (K.left link.new)
        (K.written link.old) (K.written link.new) desk.old desk.new steps.old steps.new result }
    ensures reads { stream.HasReadCause result.end (K.read_faults link.old) (K.read_faults link.new) }
    ensures writes { stream.HasWriteCause result.end (K.write_faults link.old) (K.write_faults link.new) }
    ensures room { K.room link.new ≤ K.room link.old }
    ensures origin { K.origin link.new ≡ K.origin link.old }
    ensures desk_origin { (D.state desk.new).origin ≡ (D.state desk.old).origin }
{
    let routes = Routes::new(alloc).ok();
    let mut rest = Rest::new();
    let mut faulted = false;
    'members: loop {
        let member = serve_member(alloc, routes.as_ref(), link, &mut rest, desk, steps);
        faulted = either(faulted, member.faulted);
        match member.end {
            Some(end) => return Served { end, faulted },
            None => continue,
        }
    }
}
