//! Exporting: the frames of what a keeper has.

ghost use Rattle.std.specs.Prelude.{◌≡◌};
ghost use Rattle.law_keeper.specs.Keepers.{Keeps, LeavesOldOrSame};
ghost use Rattle.law_follow.specs.Exporting as spec;
ghost use Rattle.law_follow.specs.Exporting.{Exports, Puts};
ghost use Rattle.law_follow.specs.Messages.{messages_above};
ghost use Rattle.law_follow.specs.Opening.{spellings};
ghost use Rattle.law_follow.specs.Writing.{HasPutCause};

use crate::put_fault::PutFault;
use crate::replica::Replica;
use crate::taking::spelled;
use crate::writing::put_frame;
use desk_base::Sink;
use law_keeper::Keeper;
use law_register::{OpenFault, Register};
use std::alloc::Global;
use std::mem::forget;

/// Why the frames of a keeper were not written.
#[derive(Clone, Copy, Debug, PartialEq, Eq)]
pub enum ExportFault {
    /// The keeper was not opened. Nothing was written.
    Open(OpenFault),
    /// The sink failed. The count of its faults rose.
    WriteFault,
    /// There was not enough memory.
    Memory,
}

// Writes the frames of all payloads of a register above a number, in order.
fn put_above<W: Sink>(
    alloc: Global,
    register: &Register,
    sink: &mut W,
    from: usize,
) -> Result<(), PutFault>
    ensures written { Puts (W.written sink.old) (W.written sink.new)
        (messages_above from (spellings register.now.entries)) result }
    ensures cause { HasPutCause (W.faults sink.old) (W.faults sink.new) result }
{
    for index in from..register.len() {
        let mut payload = spelled(alloc, register, index)?;
        put_frame(sink, index as u64 + 1, &mut payload)?;
    }
    Ok(())
}

// How an export ends, once its payloads were written or not.
fn exported(put: Result<(), PutFault>) -> Result<(), ExportFault>
    ensures { result ≡ spec.exported put }
{
    match put {
        Ok(()) => Ok(()),
        Err(PutFault::WriteFault) => Err(ExportFault::WriteFault),
        Err(PutFault::Memory) => Err(ExportFault::Memory),
    }
}

/// Opens a keeper, and writes the frames of all payloads above a number, in order, each by one call. All of them are judged
/// before the first is written. No payload changes, and a crash at any moment leaves a list that it could leave before, or
/// the list itself. A program ends with it, and the register's memory goes with the program.
pub fn export<K: Keeper, W: Sink>(
    alloc: Global,
    keeper: &mut K,
    sink: &mut W,
    from: u64,
) -> Result<(), ExportFault>
    ensures exports { Exports from (K.holding keeper.old) (W.written sink.old) (W.written sink.new) result }
    ensures unwritten { spec.LeavesSink sink.old sink.new result }
    ensures same { Keeps (K.holding keeper.old) (K.holding keeper.new) }
    ensures crash { LeavesOldOrSame (K.holding keeper.old) (K.holding keeper.new) }
    ensures sink_cause { spec.HasSinkCause (W.faults sink.old) (W.faults sink.new) result }
    ensures keeper_cause { spec.HasKeeperCause (K.holding keeper.old) (K.faults keeper.old) (K.faults keeper.new) result }
{
    match Replica::open(alloc, keeper) {
        Ok(replica) => {
            let put = put_above(alloc, &replica.register, sink, from as usize);
            forget(replica);
            exported(put)
        }
        Err(fault) => Err(ExportFault::Open(fault)),
    }
}
