//! The kinds of force and of efficacy modification, and the words for them.

ghost use Rattle.std.specs.Prelude.{◌≡◌};
ghost use Rattle.akn_json.specs.Reading.Modifications.BearingKinds as spec;

use crate::reading::word::{Worded, named};

/// A kind of force modification.
#[derive(Clone, Copy)]
pub(crate) enum ForceKind {
    Entry,
    Postponement,
    End,
    Prorogation,
    ReEnactment,
}

impl ForceKind {
    const ALL: [ForceKind; 5] = [
        ForceKind::Entry,
        ForceKind::Postponement,
        ForceKind::End,
        ForceKind::Prorogation,
        ForceKind::ReEnactment,
    ];

    /// The kind that a word names. `None`: it names none.
    pub(super) fn from_word(word: &str) -> Option<ForceKind>
        ensures { result ≡ spec.force_named word.now }
    {
        named(&ForceKind::ALL, word)
    }
}

impl Worded for ForceKind {
    ghost spelled = { spec.force_word };

    fn word(self) -> &'static str {
        match self {
            ForceKind::Entry => "entryIntoForce",
            ForceKind::Postponement => "postponementOfEntryIntoForce",
            ForceKind::End => "endOfEnactment",
            ForceKind::Prorogation => "prorogationOfForce",
            ForceKind::ReEnactment => "reEnactment",
        }
    }
}

/// A kind of efficacy modification.
#[derive(Clone, Copy)]
pub(crate) enum EfficacyKind {
    Entry,
    End,
    Retroactivity,
    Postponement,
    Prorogation,
    ExtraEfficacy,
    Inapplication,
}

impl EfficacyKind {
    const ALL: [EfficacyKind; 7] = [
        EfficacyKind::Entry,
        EfficacyKind::End,
        EfficacyKind::Retroactivity,
        EfficacyKind::Postponement,
        EfficacyKind::Prorogation,
        EfficacyKind::ExtraEfficacy,
        EfficacyKind::Inapplication,
    ];

    /// The kind that a word names. `None`: it names none.
    pub(super) fn from_word(word: &str) -> Option<EfficacyKind>
        ensures { result ≡ spec.efficacy_named word.now }
    {
        named(&EfficacyKind::ALL, word)
    }
}

impl Worded for EfficacyKind {
    ghost spelled = { spec.efficacy_word };

    fn word(self) -> &'static str {
        match self {
            EfficacyKind::Entry => "entryIntoEfficacy",
            EfficacyKind::End => "endOfEfficacy",
            EfficacyKind::Retroactivity => "retroactivity",
            EfficacyKind::Postponement => "postponementOfEfficacy",
            EfficacyKind::Prorogation => "prorogationOfEfficacy",
            EfficacyKind::ExtraEfficacy => "extraefficacy",
            EfficacyKind::Inapplication => "inapplication",
        }
    }
}
