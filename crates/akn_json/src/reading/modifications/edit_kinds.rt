//! The kinds of textual modification, and the words for them.

ghost use Rattle.std.specs.Prelude.{◌≡◌};
ghost use Rattle.akn_json.specs.Reading.Modifications.EditKinds.{kind_named, kind_word};

use crate::reading::word::{Worded, named};

/// A kind of textual modification.
#[derive(Clone, Copy)]
pub(crate) enum EditKind {
    Repeal,
    Substitution,
    Insertion,
    Renumbering,
    Split,
    Join,
}

impl EditKind {
    const ALL: [EditKind; 6] = [
        EditKind::Repeal,
        EditKind::Substitution,
        EditKind::Insertion,
        EditKind::Renumbering,
        EditKind::Split,
        EditKind::Join,
    ];

    /// The kind that a word names. `None`: it names none.
    pub(super) fn from_word(word: &str) -> Option<EditKind>
        ensures { result ≡ kind_named word.now }
    {
        named(&EditKind::ALL, word)
    }
}

impl Worded for EditKind {
    ghost spelled = { kind_word };

    fn word(self) -> &'static str {
        match self {
            EditKind::Repeal => "repeal",
            EditKind::Substitution => "substitution",
            EditKind::Insertion => "insertion",
            EditKind::Renumbering => "renumbering",
            EditKind::Split => "split",
            EditKind::Join => "join",
        }
    }
}
