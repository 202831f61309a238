//! Putting: what comes of a response that is put, and how a stream then ends, or goes on.

ghost use Rattle.std.specs.Prelude.{◌≡◌, ◌≢◌, ◌↔◌, ◌||◌, IsTrue};
ghost use Rattle.std.specs.Bool.{then_some};
ghost use Rattle.law_http.specs.Streaming as stream;
ghost use Rattle.law_http.specs.ServedMembers as spec;
ghost use Rattle.law_http.specs.declared.streaming.StreamEnd.TheVariants as ends;

use crate::streaming::StreamEnd;
use crate::{HearFault, MessageRefusal, Response, put_response, refused_message};
use desk_base::{Failed, Link};
use std::alloc::Global;

/// What came of a member of the stream: how the stream ended, if it did, and whether the response said that the keeper failed.
#[derive(Clone, Copy)]
pub(crate) struct MemberServed {
    pub(crate) end: Option<StreamEnd>,
    pub(crate) faulted: bool,
}

fn end_behind(response: &Response, end: Option<StreamEnd>) -> Option<StreamEnd>
    ensures { result ≡ spec.end_behind response.now end }
{
    match response {
        Response::Made { .. } => end,
        Response::MemoryFault => Some(StreamEnd::Memory),
        Response::KeeperFault { .. } => end,
    }
}

fn end_after(put: Result<(), Failed>, end: Option<StreamEnd>) -> Option<StreamEnd>
    ensures { result ≡ spec.end_after put end }
{
    match put {
        Ok(()) => end,
        Err(_) => Some(StreamEnd::WriteFault),
    }
}

/// How the stream ends behind a request, if it is closed after it.
pub(crate) fn end_where(closes: bool) -> Option<StreamEnd>
    ensures { result ≡ then_some closes ends.End }
{
    closes.then_some(StreamEnd::End)
}

/// Whether the response says that the keeper failed.
pub(crate) fn is_fault(response: &Response) -> bool
    ensures { IsTrue result ↔ (stream.fault_told response.now ≢ 0) }
{
    match response {
        Response::Made { .. } => false,
        Response::MemoryFault => false,
        Response::KeeperFault { .. } => true,
    }
}

/// Writes a response, behind which the stream ends so, or goes on.
pub(crate) fn put_before<K: Link>(
    link: &mut K,
    response: &Response,
    end: Option<StreamEnd>,
) -> Option<StreamEnd>
    ensures puts { spec.PutsBefore (K.written link.old) (K.written link.new) response.now
        (K.write_faults link.old) (K.write_faults link.new) end result }
    ensures left { K.left link.new ≡ K.left link.old }
    ensures room { K.room link.new ≡ K.room link.old }
    ensures read_faults { K.read_faults link.new ≡ K.read_faults link.old }
    ensures origin { K.origin link.new ≡ K.origin link.old }
{
    let put = put_response(link, response);
    end_after(put, end_behind(response, end))
}

/// Refuses what is no request.
pub(crate) fn refuse<K: Link>(
    alloc: Global,
    link: &mut K,
    refusal: MessageRefusal,
) -> Option<StreamEnd>
    ensures refuses { spec.Refuses (K.written link.old) (K.written link.new) refusal
        (K.write_faults link.old) (K.write_faults link.new) result }
    ensures left { K.left link.new ≡ K.left link.old }
    ensures room { K.room link.new ≡ K.room link.old }
    ensures read_faults { K.read_faults link.new ≡ K.read_faults link.old }
    ensures origin { K.origin link.new ≡ K.origin link.old }
{
    let response = refused_message(alloc, refusal);
    put_before(link, &response, Some(StreamEnd::Refused(refusal)))
}

/// Ends the stream where nothing was heard.
pub(crate) fn leave<K: Link>(link: &mut K, fault: HearFault) -> Option<StreamEnd>
    ensures leaves { spec.Leaves (K.written link.old) (K.written link.new) fault
        (K.write_faults link.old) (K.write_faults link.new) result }
    ensures left { K.left link.new ≡ K.left link.old }
    ensures room { K.room link.new ≡ K.room link.old }
    ensures read_faults { K.read_faults link.new ≡ K.read_faults link.old }
    ensures origin { K.origin link.new ≡ K.origin link.old }
{
    match fault {
        HearFault::ReadFault => Some(StreamEnd::ReadFault),
        HearFault::Memory => put_before(link, &Response::MemoryFault, Some(StreamEnd::Memory)),
    }
}

/// Whether one of both is so.
pub(crate) fn either(a: bool, b: bool) -> bool
    ensures { result ≡ (a || b) }
{
    a || b
}
