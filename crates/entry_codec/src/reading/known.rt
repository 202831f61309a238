//! Names that are known: where one of them comes again, its text is shared and not read anew.

ghost use Rattle.std.specs.Prelude.{◌≡◌, ◌≤◌, IfSome, IsTrue, Ok, drop, length};
ghost use Rattle.std.specs.Str.{IsUtf8};
ghost use Rattle.law_register.specs.Register.Drafters.{is_drafter};
ghost use Rattle.entry_codec.specs.Fields.{chunk_read};
ghost use Rattle.entry_codec.specs.Values.{is_work, ruled_text};

use desk_base::Memory;
use frbr_names::WorkName;
use law_register::{Drafter, laws};

// Whether so many bytes are a text.
fn begin_with(bytes: &[u8], len: usize, text: &str) -> bool
    ensures chunk { IsTrue result → chunk_read len bytes.now ≡ Ok (text.now, drop len bytes.now) }
    ensures within { IsTrue result → len ≤ length bytes.now }
    ensures utf8 { IsUtf8 text.now }
{
    if text.len() != len || bytes.len() < len {
        return false;
    }
    &bytes[..len] == text.as_bytes()
}

/// A drafter who is known, where so many bytes are his name.
pub(super) fn known_drafter(bytes: &[u8], len: usize, known: Option<&Drafter>) -> Option<Drafter>
    ensures read { IfSome result (λ d. (ruled_text is_drafter len).read bytes.now ≡ Ok (d, drop len bytes.now)) }
    ensures within { IfSome result (λ d. len ≤ length bytes.now) }
{
    let known = known?;
    if !begin_with(bytes, len, known.as_str()) {
        return None;
    }
    laws::drafters_are_named(known);
    match known.copy() {
        Ok(drafter) => Some(drafter),
        Err(Memory) => None,
    }
}

/// A work that is known, where so many bytes are its IRI.
pub(super) fn known_work(bytes: &[u8], len: usize, known: Option<&WorkName>) -> Option<WorkName>
    ensures read { IfSome result (λ w. (ruled_text is_work len).read bytes.now ≡ Ok (w, drop len bytes.now)) }
    ensures within { IfSome result (λ w. len ≤ length bytes.now) }
{
    let known = known?;
    if !begin_with(bytes, len, known.as_str()) {
        return None;
    }
    let _ = known.date();
    match known.copy() {
        Ok(work) => Some(work),
        Err(Memory) => None,
    }
}
