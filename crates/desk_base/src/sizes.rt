//! Sizes: how many bytes a part of an entry takes where entries are kept. Each part is added to a size so far, and a size stops at
//! the greatest `u64`.

ghost use Rattle.std.specs.Prelude.{◌≡◌, ◌+◌, ◌-◌, ◌^◌, min};
ghost use Rattle.desk_base.specs.Sizes as spec;

/// The bytes of a day.
pub const DAY_SIZE: u64 = 4;

/// The bytes of an id: four for its law number, two for its item.
pub const ID_SIZE: u64 = 6;

/// The bytes of a period: two days, whether it ends or not.
pub const PERIOD_SIZE: u64 = 8;

/// A size with that of a num or of a drafter's name, behind its length in one byte.
pub fn plus_name(size: u64, name: &str) -> u64
    ensures { result ≡ min (size + spec.name_size name.now) (2 ^ 64 - 1) }
{
    size.saturating_add(1 + name.len() as u64)
}

/// A size with that of a text, behind its length in two bytes.
pub fn plus_text(size: u64, text: &str) -> u64
    ensures { result ≡ min (size + spec.text_size text.now) (2 ^ 64 - 1) }
{
    size.saturating_add(2 + text.len() as u64)
}
