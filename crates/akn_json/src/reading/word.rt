//! Words of the forms, and what each of them names.

ghost use Rattle.std.specs.Prelude.{◌≡◌, ℕ, List, find};
ghost use Rattle.std.specs.Str.{bytes_eq};

/// One of several things that have words.
pub(crate) trait Worded: Copy {
    /// The word for each.
    ghost spelled: { Self → List ℕ };

    /// The word for it.
    fn word(self) -> &'static str
        ensures { result.now ≡ spelled self };
}

/// The first of these that has the word. `None`: none of them has it.
pub(super) fn named<W: Worded>(all: &[W], word: &str) -> Option<W>
    ensures { result ≡ find (λ one. bytes_eq (W.spelled one) word.now) all.now }
{
    for one in all {
        if one.word() == word {
            return Some(*one);
        }
    }
    None
}
