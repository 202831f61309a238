//! Modifications of an act, each with its source.

ghost use Rattle.std.specs.Prelude.{◌≡◌, IfOk};

use crate::series::Series;
use bearing_mods::{EfficacyEffect, ForceEffect};
use desk_base::{Day, Id, Memory, Period, Text};
use frbr_names::WorkName;
use std::alloc::Global;
use textual_mods::TextualMod;

/// Where a modification comes from: the act that makes it, the order within it, and perhaps the provision.
#[derive(Debug, PartialEq, Eq, Drop)]
pub struct ModSource {
    /// The IRI of the work that modifies.
    pub href: WorkName,
    /// The place of the modification among those of its source.
    pub place: u16,
    /// The wId of the provision of that work that modifies, where one is named: a portion, as it stands in the IRI of an
    /// expression.
    pub provision: Option<Text>,
}

// The same text or none; the text is shared.
fn shared(text: &Option<Text>) -> Result<Option<Text>, Memory>
    ensures { IfOk result (λ copy. copy ≡ text.now) }
{
    match text {
        Some(text) => Ok(Some(text.copy()?)),
        None => Ok(None),
    }
}

impl ModSource {
    /// The same source; its text is shared.
    pub fn copy(&self) -> Result<ModSource, Memory>
        ensures { IfOk result (λ source. source ≡ self.now) }
    {
        Ok(ModSource {
            href: self.href.copy()?,
            place: self.place,
            provision: shared(&self.provision)?,
        })
    }
}

/// What a modification of force or efficacy is directed at.
#[derive(Debug, PartialEq, Eq, Hash, Drop)]
pub enum Destination {
    /// A textual modification of the same work.
    Modification(Id),
    /// A provision, by its wId; `body` is the act itself.
    Node(Text),
}

impl Destination {
    /// The same destination; its text is shared.
    pub fn copy(&self) -> Result<Destination, Memory>
        ensures { IfOk result (λ destination. destination ≡ self.now) }
    {
        match self {
            Destination::Modification(id) => Ok(Destination::Modification(*id)),
            Destination::Node(wid) => Ok(Destination::Node(wid.copy()?)),
        }
    }
}

/// The kinds of modifications.
#[derive(Clone, Copy, Debug, PartialEq, Eq)]
pub enum Kind {
    /// It makes an edit of the text.
    Textual,
    /// It changes when something is in force.
    Force,
    /// It changes when something has efficacy.
    Efficacy,
}

/// A modification of an act.
#[derive(Debug, PartialEq, Eq, Drop)]
pub enum Modification {
    /// A textual modification: while its force period includes a day, it makes one edit.
    Textual {
        /// Where it comes from.
        source: ModSource,
        /// When it is in force.
        force: Period,
        /// What it makes of the text.
        edit: TextualMod,
    },
    /// A force modification: it changes when its destination is in force.
    Force {
        /// Where it comes from.
        source: ModSource,
        /// What it is directed at.
        destination: Destination,
        /// The day from which it is counted.
        on: Day,
        /// What it does to the period.
        effect: ForceEffect,
    },
    /// An efficacy modification: it changes when its destination has efficacy.
    Efficacy {
        /// Where it comes from.
        source: ModSource,
        /// What it is directed at.
        destination: Destination,
        /// The day from which it is counted; of a retroactivity, its date.
        on: Day,
        /// What it does to the period, or on which days it takes efficacy away.
        effect: EfficacyEffect,
    },
}

impl Modification {
    ghost use Rattle.law_register.specs.Law.Kinds.{kind_of};
    ghost use Rattle.law_register.specs.Law.Sources.{source_of};

    /// Its kind.
    pub fn kind(&self) -> Kind
        ensures { result ≡ kind_of self.now }
    {
        match self {
            Modification::Textual { .. } => Kind::Textual,
            Modification::Force { .. } => Kind::Force,
            Modification::Efficacy { .. } => Kind::Efficacy,
        }
    }

    /// Where it comes from.
    pub fn source(&self) -> &ModSource
        ensures { result.now ≡ source_of self.now }
    {
        match self {
            Modification::Textual { source, .. }
            | Modification::Force { source, .. }
            | Modification::Efficacy { source, .. } => source,
        }
    }

    /// The same modification; its texts and nodes are shared.
    pub fn copy(&self, alloc: Global) -> Result<Modification, Memory>
        ensures { IfOk result (λ modification. modification ≡ self.now) }
    {
        match self {
            Modification::Textual {
                source,
                force,
                edit,
            } => Ok(Modification::Textual {
                source: source.copy()?,
                force: *force,
                edit: edit.copy(alloc)?,
            }),
            Modification::Force {
                source,
                destination,
                on,
                effect,
            } => Ok(Modification::Force {
                source: source.copy()?,
                destination: destination.copy()?,
                on: *on,
                effect: *effect,
            }),
            Modification::Efficacy {
                source,
                destination,
                on,
                effect,
            } => Ok(Modification::Efficacy {
                source: source.copy()?,
                destination: destination.copy()?,
                on: *on,
                effect: *effect,
            }),
        }
    }
}

/// Modifications in order.
pub type Mods = Series<Modification>;

impl Mods {
    /// The same modifications; their texts and nodes are shared.
    pub fn copy(&self, alloc: Global) -> Result<Mods, Memory>
        ensures { IfOk result (λ copy. copy ≡ self.now) }
    {
        let mut copies = Mods::new(alloc);
        for body in self.as_slice() {
            copies.push(body.copy(alloc)?)?;
        }
        Ok(copies)
    }
}
