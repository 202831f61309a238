//! Exporting: the frames of what is kept are written.

ghost use Rattle.lawdesk.specs.Exporting.{RanExport};

use crate::telling::tell_unopened;
use desk_base::Sink;
use law_follow::{ExportFault, export};
use law_keeper::Keeper;
use std::alloc::Global;

/// Opens the register that is kept, writes the frames of all its payloads above a number, or what is damaged, and gives the status
/// to end with. What is kept stays as it is.
pub fn export_above<W: Sink, K: Keeper>(
    alloc: Global,
    from: u64,
    sink: &mut W,
    keeper: &mut K,
) -> u8
    ensures { RanExport K.holding K.faults W.written W.faults keeper.old keeper.new sink.old sink.new from result }
{
    match export(alloc, keeper, sink, from) {
        Ok(()) => 0,
        Err(ExportFault::Open(fault)) => tell_unopened(alloc, sink, fault),
        Err(ExportFault::WriteFault) => 4,
        Err(ExportFault::Memory) => 7,
    }
}
