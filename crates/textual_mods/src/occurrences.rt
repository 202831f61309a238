//! Where a text occurs in another.

ghost use Rattle.std.specs.Prelude.{◌≡◌, IfOk, option_map, string_bytes};
ghost use Rattle.textual_mods.specs.Occurrences as spec;

use desk_base::Memory;
use std::alloc::Global;

// What stands before the first occurrence of `old` in a text, and what stands behind it.
fn parted_at_first<'a>(old: &str, text: &'a str) -> Option<(&'a str, &'a str)>
    ensures { option_map (λ parts. (parts.0.now, parts.1.now)) result ≡ spec.parted_at_first old.now text.now }
{
    text.split_once(old)
}

/// What stands before an occurrence of `old` in a text, and what stands behind it. `None`: the text has fewer.
pub fn parted_at<'a>(
    alloc: Global,
    old: &str,
    number: u16,
    text: &'a str,
) -> Result<Option<(String, &'a str)>, Memory>
    ensures { IfOk result (λ r. option_map (λ parts. (string_bytes parts.0, parts.1.now)) r
        ≡ spec.parted_at old.now number text.now) }
{
    if number == 0 {
        return Ok(None);
    }
    let mut front = String::new(alloc);
    let mut rest = text;
    let mut others = number - 1;
    while others > 0 {
        let Some((before, behind)) = parted_at_first(old, rest) else {
            return Ok(None);
        };
        front.push_str(before)?;
        front.push_str(old)?;
        rest = behind;
        others -= 1;
    }
    match parted_at_first(old, rest) {
        Some((before, behind)) => {
            front.push_str(before)?;
            Ok(Some((front, behind)))
        }
        None => Ok(None),
    }
}
