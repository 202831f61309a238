//! Frames are written to a sink, each by one call.

ghost use Rattle.std.specs.Prelude.{◌≡◌, ◌≤◌, ◌+◌, ◌++◌, IsTrue, OnErr, OnOk, length, vec_capacity};
ghost use Rattle.desk_base.specs.Streams.{Appended};
ghost use Rattle.law_journal.specs.Grammar.{is_size};
ghost use Rattle.law_follow.specs.Frames.{frame_of};
ghost use Rattle.law_follow.specs.Writing as spec;

use crate::frame::{HEAD_SIZE, MARK};
use crate::put_fault::PutFault;
use desk_base::{Memory, Sink};

/// Puts bytes behind those that are there, for which there is room.
pub(crate) fn put_behind(bytes: &mut Vec<u8>, more: &[u8])
    requires { length bytes.old.items + length more.now ≤ vec_capacity bytes.old }
    ensures items { bytes.new.items ≡ bytes.old.items ++ more.now }
    ensures room { vec_capacity bytes.old ≤ vec_capacity bytes.new }
{
    match bytes.extend_from_slice(more) {
        Ok(()) => {}
        Err(_) => unreachable!(),
    }
}

// Puts a head in front of a payload, in the room behind it.
fn add_head(number: u64, bytes: &mut Vec<u8>) -> Result<(), Memory>
    requires { IsTrue (is_size (length bytes.old.items)) }
    ensures ok { OnOk result (bytes.new.items ≡ frame_of number bytes.old.items) }
    ensures err { OnErr result (bytes.new.items ≡ bytes.old.items) }
{
    let size = bytes.len() as u32;
    bytes.reserve_exact(HEAD_SIZE)?;
    put_behind(bytes, &[MARK]);
    put_behind(bytes, &number.to_be_bytes());
    put_behind(bytes, &size.to_be_bytes());
    bytes.rotate_right(HEAD_SIZE);
    Ok(())
}

/// Writes the frame of a payload of 1 to 16,777,216 bytes by one call. Its bytes are made in the buffer of the payload, which
/// has the frame then; for want of memory it has the payload still, and nothing was done with the sink.
pub fn put_frame<W: Sink>(sink: &mut W, number: u64, payload: &mut Vec<u8>) -> Result<(), PutFault>
    requires { IsTrue (is_size (length payload.old.items)) }
    ensures written { Appended (W.written sink.old) (W.written sink.new) (frame_of number payload.old.items) result }
    ensures buffer { payload.new.items ≡ spec.buffer_after number payload.old.items result }
    ensures wanting { spec.LeavesSink sink.old sink.new result }
    ensures cause { spec.HasPutCause (W.faults sink.old) (W.faults sink.new) result }
{
    add_head(number, payload)?;
    sink.write_all(payload.as_slice())?;
    Ok(())
}
