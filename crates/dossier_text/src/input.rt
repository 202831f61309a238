//! Reading a source to its end, or past a limit.

ghost use Rattle.std.specs.Prelude.{◌≡◌, ◌≤◌, ◌<◌, ◌+◌, ◌^◌, IfOk, IfErr};
ghost use Rattle.dossier_text.specs.Input.{IsInputOf, IsInputStop};

use crate::stop::Stop;
use desk_base::Source;
use std::alloc::Global;

/// The bytes of a source to its end. It reads at most one byte more than `limit`, and stops there.
pub fn read_input<S: Source>(alloc: Global, source: &mut S, limit: usize) -> Result<Vec<u8>, Stop>
    requires { limit < 2 ^ 32 }
    ensures read { IfOk result (λ input. IsInputOf limit (S.left source.old) (S.left source.new) input.items) }
    ensures taken { S.room source.old ≤ S.room source.new + (limit + 1) }
    ensures counted { IfOk result (λ input. S.faults source.new ≡ S.faults source.old) }
    ensures stopped { IfErr result (IsInputStop (S.faults source.old) (S.faults source.new)) }
{
    let mut input = Vec::new(alloc);
    let mut piece = [0; 65_536];
    while input.len() <= limit {
        let room = piece.len().min(limit + 1 - input.len());
        let n = source.read(&mut piece[..room]).map_err(|_| Stop::Source)?;
        if n == 0 {
            break;
        }
        input.extend_from_slice(&piece[..n])?;
    }
    Ok(input)
}
