//! eIds: a provision that stands where it was enacted shares its wId with its eId.

ghost use Rattle.std.specs.Prelude.{◌≡◌, ◌++◌, ◌∷◌, IsTrue, IfOk, option_map};
ghost use Rattle.act_tree.specs.Eids as spec;
ghost use Rattle.eid_paths.specs.Levels.{level_text};

use act_tree::eid_below;
use desk_base::{Memory, Text};
use eid_paths::{Element, Num, Numbering};
use std::alloc::Global;

// Whether a text spells the level of an element and a num.
fn is_level(text: &[u8], element: Element, num: &Num) -> bool
    ensures { IsTrue result → text.now ≡ level_text element num.now }
{
    let Some(behind) = text.strip_prefix(element.word().as_bytes()) else {
        return false;
    };
    let Some(rest) = behind.strip_prefix(b"_") else {
        return false;
    };
    rest == num.as_bytes()
}

// Whether a text spells a level behind an eId and `__`.
fn is_level_behind(text: &[u8], above: &[u8], element: Element, num: &Num) -> bool
    ensures { IsTrue result → text.now ≡ above.now ++ 95 ∷ 95 ∷ level_text element num.now }
{
    let Some(behind) = text.strip_prefix(above) else {
        return false;
    };
    let Some(next) = behind.strip_prefix(b"_") else {
        return false;
    };
    let Some(rest) = next.strip_prefix(b"_") else {
        return false;
    };
    is_level(rest, element, num)
}

// Whether a text is the eId of a node below the one of the eId `above`, or right below the root where that is `None`.
fn is_eid_below(
    text: &[u8],
    numbering: Numbering,
    above: Option<&str>,
    element: Element,
    num: &Num,
) -> bool
    ensures { IsTrue result
        → text.now ≡ spec.eid_below numbering (option_map (λ s. s.now) above.entry) element num.now }
{
    let Some(above) = above else {
        return is_level(text, element, num);
    };
    if numbering.has(element) {
        return is_level(text, element, num);
    }
    is_level_behind(text, above.as_bytes(), element, num)
}

/// The eId of a node below the one of the eId `above`, or right below the root where that is `None`. Where it is the wId, the
/// text is shared.
pub fn eid_by_wid(
    alloc: Global,
    numbering: Numbering,
    above: Option<&str>,
    element: Element,
    num: &Num,
    wid: &Text,
) -> Result<Text, Memory>
    ensures { IfOk result (λ t. t ≡ spec.eid_below numbering (option_map (λ s. s.now) above.entry) element num.now) }
{
    if is_eid_below(wid.as_str().as_bytes(), numbering, above, element, num) {
        return wid.copy();
    }
    eid_below(alloc, numbering, above, element, num)
}
