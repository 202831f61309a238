//! What stands between `__` in a text.

ghost use Rattle.std.specs.Prelude.{◌≡◌, ◌+◌, ◌∷◌, length, option_map, slice_get};
ghost use Rattle.eid_paths.specs.Parts.{parts_of, parts_left, length_left};

// What stands before the first `__` of a text, and what stands behind it, if the text has one.
pub(crate) fn first_part(text: &str) -> (&str, Option<&str>)
    ensures parts { parts_of text.now ≡ result.0.now ∷ parts_left (option_map (λ s. s.now) result.1) }
    ensures lengths { length result.0.now + length_left (option_map (λ s. s.now) result.1) ≡ length text.now }
{
    match text.split_once("__") {
        Some((part, rest)) => (part, Some(rest)),
        None => (text, None),
    }
}

// The part at an index. `None`: there are fewer.
pub(crate) fn nth_part(text: &str, index: usize) -> Option<&str>
    ensures { option_map (λ s. s.now) result ≡ slice_get (parts_of text.now) index }
{
    let mut left = index;
    let mut rest = Some(text);
    'parts: while let Some(text) = rest {
        let (part, behind) = first_part(text);
        if left == 0 {
            return Some(part);
        }
        left -= 1;
        rest = behind;
    }
    None
}
