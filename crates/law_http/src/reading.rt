//! Reading a link until a head has come, or a body.

ghost use Rattle.std.specs.Prelude.{◌≡◌, ◌≤◌, ◌<◌, ◌+◌, max, length, take, IfOk, OnOk, OnErr};
ghost use Rattle.std.specs.Io.KnownBytes.{IsAtEnd};
ghost use Rattle.std.specs.Vec.{vec_len};
ghost use Rattle.desk_base.specs.Streams.{LowersRoom};
ghost use Rattle.law_http.specs.Cutting.{IsHeadOf, after_empty_lines};
ghost use Rattle.law_http.specs.Hearing.{HeldNoRequest};
ghost use Rattle.law_http.specs.Streams as spec;

use crate::buffer::Buffer;
use crate::cutting::{MAX_HEAD, head_length, skip_empty_lines};
use crate::{HearFault, MessageRefusal};
use desk_base::Link;

#[tactic(auto, using(crate::proofs::EmptyLines::after_after, crate::proofs::EmptyLines::after_short, crate::proofs::WithPieces::same_kept))]
// Reads a piece of a head, and takes away the empty lines in front.
fn read_on<L: Link>(link: &mut L, bytes: &mut Buffer) -> Result<usize, HearFault>
    requires { length bytes.old < MAX_HEAD }
    ensures stream { spec.KeepsStream bytes.old (L.left link.old) bytes.new (L.left link.new) }
    ensures begins { OnOk result (after_empty_lines bytes.new ≡ bytes.new) }
    ensures unread { OnErr result (bytes.new ≡ bytes.old) }
    ensures piece { spec.KeepsWithPiece bytes.old bytes.new }
    ensures end { IfOk result (λ n. n ≡ 0 → IsAtEnd (L.left link.new)) }
    ensures taken { length bytes.new + L.room link.new ≤ length bytes.old + L.room link.old }
    ensures held { length bytes.new ≤ MAX_HEAD }
    ensures room { LowersRoom (L.room link.old) (L.room link.new) result }
    ensures cause { spec.HasHearCause (L.read_faults link.old) (L.read_faults link.new) result }
    ensures written { L.written link.new ≡ L.written link.old }
    ensures write_faults { L.write_faults link.new ≡ L.write_faults link.old }
    ensures origin { L.origin link.new ≡ L.origin link.old }
{
    let count = bytes.read_piece(link, MAX_HEAD - bytes.len())?;
    skip_empty_lines(bytes);
    Ok(count)
}

/// Reads until a head has come, or what can't become one, and says how long it is. Empty lines in front are taken away.
#[tactic(auto, using(crate::proofs::EmptyLines::after_after, crate::proofs::EmptyLines::after_short))]
pub(crate) fn await_head<L: Link>(
    link: &mut L,
    bytes: &mut Buffer,
) -> Result<Result<usize, MessageRefusal>, HearFault>
    ensures stream { spec.KeepsStream bytes.old (L.left link.old) bytes.new (L.left link.new) }
    ensures piece { spec.KeepsWithPiece bytes.old bytes.new }
    ensures ready { OnOk result (spec.IsReady bytes.new (L.left link.new)) }
    ensures begins { OnOk result (after_empty_lines bytes.new ≡ bytes.new) }
    ensures unheard { HeldNoRequest result bytes.new }
    ensures head { IfOk result (λ head. IsHeadOf bytes.new head) }
    ensures taken { length bytes.new + L.room link.new ≤ length bytes.old + L.room link.old }
    ensures held { length bytes.new ≤ max (length bytes.old) MAX_HEAD }
    ensures cause { spec.HasHearCause (L.read_faults link.old) (L.read_faults link.new) result }
    ensures written { L.written link.new ≡ L.written link.old }
    ensures write_faults { L.write_faults link.new ≡ L.write_faults link.old }
    ensures origin { L.origin link.new ≡ L.origin link.old }
{
    skip_empty_lines(bytes);
    let mut head = head_length(bytes.as_slice());
    while bytes.len() < MAX_HEAD && head.is_err() {
        let count = read_on(link, bytes)?;
        head = head_length(bytes.as_slice());
        if count == 0 {
            break;
        }
    }
    Ok(head)
}

/// Reads until so many bytes have come, or the stream has ended.
#[tactic(auto, using(crate::proofs::Pieces::front_of_more))]
pub(crate) fn await_bytes<L: Link>(
    link: &mut L,
    bytes: &mut Buffer,
    wanted: usize,
) -> Result<(), HearFault>
    ensures stream { spec.KeepsBytes bytes.old (L.left link.old) bytes.new (L.left link.new) }
    ensures end { OnOk result (length bytes.new < wanted → IsAtEnd (L.left link.new)) }
    ensures wanting { OnErr result (length bytes.new < wanted) }
    ensures front { take (length bytes.old) bytes.new ≡ bytes.old }
    ensures grown { length bytes.old ≤ length bytes.new }
    ensures room { length bytes.new + L.room link.new ≡ length bytes.old + L.room link.old }
    ensures held { length bytes.new ≤ max (length bytes.old) wanted }
    ensures cause { spec.HasHearCause (L.read_faults link.old) (L.read_faults link.new) result }
    ensures written { L.written link.new ≡ L.written link.old }
    ensures write_faults { L.write_faults link.new ≡ L.write_faults link.old }
    ensures origin { L.origin link.new ≡ L.origin link.old }
{
    while bytes.len() < wanted {
        let count = bytes.read_piece(link, wanted - bytes.len())?;
        if count == 0 {
            break;
        }
    }
    Ok(())
}
