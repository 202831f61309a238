//! A line of what is written.

ghost use Rattle.std.specs.Prelude.{◌≡◌, ◌++◌, ◌∷◌, [], IfOk};

use desk_base::Memory;

/// A line of these bytes.
pub fn line(mut bytes: Vec<u8>) -> Result<Vec<u8>, Memory>
    ensures { IfOk result (λ line. line.items ≡ bytes.items ++ 10 ∷ []) }
{
    bytes.push(b'\n')?;
    Ok(bytes)
}
