//! Level: one step of an eId, a provision's element and its num.

ghost use Rattle.std.specs.Prelude.{◌≡◌, option_map};
ghost use Rattle.eid_paths.specs.Levels as spec;

use crate::{EidRule, Element, Num};

/// A level of an eId: an element, and the num of a provision of that element.
#[derive(Debug, Drop)]
pub struct Level {
    /// The element.
    pub element: Element,
    /// The num.
    pub num: Num,
}

// What stands before the first `_` of a text, and what stands behind it. `None`: it has no `_`.
fn word_and_num(text: &str) -> Option<(&str, &str)>
    ensures { option_map (λ h. (h.0.now, h.1.now)) result ≡ spec.word_and_num text.now }
{
    text.split_once('_')
}

// The level that a text spells, or the rule that it breaks.
pub(crate) fn level_of(text: &str) -> Result<Level, EidRule>
    ensures { result ≡ spec.level_of text.now }
{
    if text.is_empty() {
        return Err(EidRule::EmptyLevel);
    }
    let Some((word, num)) = word_and_num(text) else {
        return Err(EidRule::UnknownElement);
    };
    let Some(element) = Element::of_word(word) else {
        return Err(EidRule::UnknownElement);
    };
    match Num::from_text(num) {
        Some(num) => Ok(Level { element, num }),
        None => Err(EidRule::BadNum),
    }
}
