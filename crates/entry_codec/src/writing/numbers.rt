//! Numbers of two, four and eight bytes, the highest byte first.

ghost use Rattle.std.specs.Prelude.{◌≡◌, ◌++◌, min, OnOk};
ghost use Rattle.entry_codec.specs.Values as spec;
ghost use Rattle.entry_codec.specs.Typed as typed;

use desk_base::Memory;

#[tactic(auto, unfolding(crate::specs::Values::number16))]
pub(super) fn put_number16(out: &mut Vec<u8>, number: u16) -> Result<(), Memory>
    ensures bytes { OnOk result (out.new.items ≡ out.old.items ++ spec.number16.spell number) }
    ensures typed { OnOk result (typed.IsNumber16 number) }
{
    out.extend_from_slice(&number.to_be_bytes())?;
    Ok(())
}

#[tactic(auto, unfolding(crate::specs::Values::number32))]
pub(super) fn put_number32(out: &mut Vec<u8>, number: u32) -> Result<(), Memory>
    ensures bytes { OnOk result (out.new.items ≡ out.old.items ++ spec.number32.spell number) }
    ensures typed { OnOk result (typed.IsNumber32 number) }
{
    out.extend_from_slice(&number.to_be_bytes())?;
    Ok(())
}

#[tactic(auto, unfolding(crate::specs::Values::number64))]
pub(super) fn put_number64(out: &mut Vec<u8>, number: u64) -> Result<(), Memory>
    ensures bytes { OnOk result (out.new.items ≡ out.old.items ++ spec.number64.spell number) }
    ensures typed { OnOk result (typed.IsNumber64 number) }
{
    out.extend_from_slice(&number.to_be_bytes())?;
    Ok(())
}

/// A length or a count in two bytes. It stands at the greatest of them for what is longer, which no entry has that can be
/// spelled.
pub(super) fn put_count(out: &mut Vec<u8>, count: usize) -> Result<(), Memory>
    ensures { OnOk result (out.new.items ≡ out.old.items ++ spec.number16.spell (min count 65535)) }
{
    put_number16(out, count.min(65_535) as u16)
}
