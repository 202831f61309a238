//! What stands at a gate of the journal.

ghost use Rattle.std.specs.Prelude.{◌≡◌, ◌+◌, ◌^◌, ◌<◌, ◌≤◌, length};
ghost use Rattle.law_journal.specs.Steps as spec;

/// What stands at a gate.
#[derive(Clone, Copy, Debug, PartialEq, Eq)]
pub enum Found {
    /// The end of the list.
    End,
    /// A payload of so many bytes, and the next gate behind it.
    Entry(u64),
    /// Damage, with its place and the byte there, if there is one.
    Broken(u64, Option<u8>),
}

// The number of four bytes.
fn number_of(a: u8, b: u8, c: u8, d: u8) -> u64
    ensures { result ≡ spec.number_of a b c d }
{
    16_777_216 * a as u64 + 65_536 * b as u64 + 256 * c as u64 + d as u64
}

// What stands at an open gate, of a length, in a file of `len` bytes.
fn sized(size: u64, first: u8, place: u64, len: u64) -> Found
    requires place { place ≤ len }
    requires len { len < 2 ^ 63 }
    ensures { result ≡ spec.sized size first place len }
{
    if size < 1 || 16_777_216 < size {
        Found::Broken(place + 1, Some(first))
    } else if place + 5 + size < len {
        Found::Entry(size)
    } else {
        Found::Broken(len, None)
    }
}

/// What stands at the gate at a place, of the first five bytes from there on, or as many as there are, in a file of
/// `len` bytes.
pub fn found_at(header: &[u8], place: u64, len: u64) -> Found
    requires place { place ≤ len }
    requires len { len < 2 ^ 63 }
    ensures { result ≡ spec.found_at header.now place len }
{
    match header {
        [] => Found::Broken(len, None),
        [1, a, b, c, d, ..] => sized(number_of(*a, *b, *c, *d), *a, place, len),
        [1, ..] => Found::Broken(len, None),
        _ => Found::End,
    }
}
