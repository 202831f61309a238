//! Frames are read from a source, piece by piece.

ghost use Rattle.std.specs.Prelude.{◌≡◌, ◌+◌, ◌<◌, ◌≤◌, take, length, IfErr, IfOk, IfSome, OnErr};
ghost use Rattle.std.specs.Int.{w32, w64, from_be_bytes};
ghost use Rattle.law_follow.specs.Frames as spec;

use crate::frame::{Frame, FrameFault, HEAD_SIZE, Head, MARK};
use desk_base::Source;
use std::alloc::Global;

// Fills the front of `into` with what comes next, and says how much that is: all of it, unless the input ends.
fn fill<S: Source>(source: &mut S, into: &mut [u8]) -> Result<usize, FrameFault>
    requires { 1 ≤ length into.old }
    ensures taken { IfOk result (λ n. spec.IsPieceOf (length into.old) (S.left source.old) (S.left source.new) (take n into.new)) }
    ensures most { IfOk result (λ n. n ≤ length into.old) }
    ensures long { length into.new ≡ length into.old }
    ensures device { IfErr result spec.IsOfDevice }
    ensures fewer { OnErr result (spec.TakesFewerOf (length into.old) (S.left source.old) (S.left source.new)) }
    ensures room { IfOk result (λ n. S.room source.new + n ≡ S.room source.old) }
    ensures cause { spec.HasReadCause (S.faults source.old) (S.faults source.new) result }
{
    let mut filled = 0;
    while filled < into.len() {
        let count = source.read(&mut into[filled..])?;
        if count == 0 {
            break;
        }
        filled += count;
    }
    Ok(filled)
}

// Reads so many bytes, and fewer only where the input ends.
fn read_bytes<S: Source>(alloc: Global, source: &mut S, size: usize) -> Result<Vec<u8>, FrameFault>
    requires { 1 ≤ size }
    ensures taken { IfOk result (λ bytes. spec.IsPieceOf size (S.left source.old) (S.left source.new) bytes.items) }
    ensures most { IfOk result (λ bytes. length bytes.items ≤ size) }
    ensures device { IfErr result spec.IsOfDevice }
    ensures fewer { OnErr result (spec.TakesFewerOf size (S.left source.old) (S.left source.new)) }
    ensures room { IfOk result (λ bytes. S.room source.new + length bytes.items ≡ S.room source.old) }
    ensures cause { spec.HasReadCause (S.faults source.old) (S.faults source.new) result }
{
    let mut bytes = Vec::new(alloc);
    bytes.resize(size, 0)?;
    let count = fill(source, bytes.as_mut_slice())?;
    bytes.truncate(count);
    Ok(bytes)
}

fn number32(bytes: &[u8]) -> u32
    requires { length bytes.now ≡ 4 }
    ensures { result ≡ from_be_bytes w32 bytes.now }
{
    u32::from_be_bytes([bytes[0], bytes[1], bytes[2], bytes[3]])
}

fn number64(bytes: &[u8]) -> u64
    requires { length bytes.now ≡ 8 }
    ensures { result ≡ from_be_bytes w64 bytes.now }
{
    u64::from_be_bytes([
        bytes[0], bytes[1], bytes[2], bytes[3], bytes[4], bytes[5], bytes[6], bytes[7],
    ])
}

// What a head says that keeps its rules.
#[tactic(auto, unfolding(crate::specs::Frames::head_in))]
fn head_in(head: &[u8]) -> Option<Head>
    ensures { result ≡ spec.head_in head.now }
{
    if head.len() != HEAD_SIZE || head[0] != MARK {
        return None;
    }
    let number = number64(&head[1..9]);
    let size = number32(&head[9..13]);
    if number == 0 || size == 0 || size > 16_777_216 {
        return None;
    }
    Some(Head { number, size })
}

// Reads the payload behind a head.
fn read_payload<S: Source>(alloc: Global, source: &mut S, head: Head) -> Result<Frame, FrameFault>
    requires { 1 ≤ head.size }
    ensures read { spec.ReadsPayload head.number head.size (S.left source.old) (S.left source.new) result }
    ensures frame { IfOk result (λ f. (f.number ≡ head.number) × (length f.payload.items ≡ head.size)) }
    ensures room { IfOk result (λ f. S.room source.new ≤ S.room source.old) }
    ensures cause { spec.HasReadCause (S.faults source.old) (S.faults source.new) result }
{
    let payload = read_bytes(alloc, source, head.size as usize)?;
    if payload.len() < head.size as usize {
        return Err(FrameFault::BadFrame);
    }
    Ok(Frame {
        number: head.number,
        payload,
    })
}

// A frame that was read is what comes next.
fn framed(read: Result<Frame, FrameFault>) -> Result<Option<Frame>, FrameFault>
    ensures { result ≡ spec.framed read }
{
    match read {
        Ok(frame) => Ok(Some(frame)),
        Err(fault) => Err(fault),
    }
}

/// Reads the frame that comes next. `None`: the input has ended.
///
/// A frame whose payload is not there whole is none, and so is one with a number or a length that none has. Of what is none
/// the bytes of a head are lost, or all that is there. After a fault of the source a part of the frame is lost, and for want
/// of memory too.
pub fn read_frame<S: Source>(alloc: Global, source: &mut S) -> Result<Option<Frame>, FrameFault>
    ensures read { spec.Reads (S.left source.old) (S.left source.new) result }
    ensures message { IfOk result (λ o. IfSome o (λ f. spec.IsMessage (spec.message_of f))) }
    ensures room { IfOk result (λ o. IfSome o (λ f. S.room source.new < S.room source.old)) }
    ensures cause { spec.HasReadCause (S.faults source.old) (S.faults source.new) result }
{
    let mut bytes = [0; HEAD_SIZE];
    let count = fill(source, &mut bytes)?;
    if count == 0 {
        return Ok(None);
    }
    match head_in(&bytes[..count]) {
        Some(head) => framed(read_payload(alloc, source, head)),
        None => Err(FrameFault::BadFrame),
    }
}
