//! The tables of keys: of each kind of object those at which it has members, and those at which it may have them.
//! The definitions of the forms cite these tables.

use super::key::Key::{
    self, Act, Body, Child, Children, Command, Content, Date, Days, Destination, Drafter,
    EfficacyMod, Element, Force, ForceMod, FrbrDate, FrbrLanguage, FrbrUri, From, Heading, Href,
    Id, Item, Modification, Modifications, New, NodeLimit, Num, Numbering, Occurrence, Old, On,
    Place, Pos, Provision, Refs, Renumber, Request, Second, Seen, Separator, Source, TextualMod,
    Type, Until, Wid, Work,
};

/// The keys of an object.
#[derive(Clone, Copy)]
pub(super) struct Keys<const R: usize, const O: usize> {
    /// Those at which it has members.
    pub required: [Key; R],
    /// Those at which it may have members besides.
    pub optional: [Key; O],
}

pub(super) const DOSSIER: Keys<2, 0> = Keys {
    required: [Act, Modifications],
    optional: [],
};

pub(super) const ACT: Keys<5, 2> = Keys {
    required: [FrbrUri, FrbrDate, FrbrLanguage, Force, Body],
    optional: [Numbering, NodeLimit],
};

pub(super) const NODE: Keys<2, 4> = Keys {
    required: [Element, Num],
    optional: [Heading, Content, Refs, Children],
};

pub(super) const PERIOD: Keys<1, 1> = Keys {
    required: [From],
    optional: [Until],
};

// A modification has exactly one of these.
pub(super) const MODIFICATION: Keys<0, 3> = Keys {
    required: [],
    optional: [TextualMod, ForceMod, EfficacyMod],
};

pub(super) const SOURCE: Keys<2, 1> = Keys {
    required: [Href, Place],
    optional: [Provision],
};

// What a modification is directed at: a provision, a position at one, or another modification.

pub(super) const PROVISION: Keys<1, 0> = Keys {
    required: [Wid],
    optional: [],
};

pub(super) const ANCHOR: Keys<2, 0> = Keys {
    required: [Wid, Pos],
    optional: [],
};

pub(super) const OTHER_MODIFICATION: Keys<1, 0> = Keys {
    required: [Modification],
    optional: [],
};

// Textual modifications.

pub(super) const REPEAL: Keys<4, 0> = Keys {
    required: [Type, Source, Force, Destination],
    optional: [],
};

pub(super) const SUBSTITUTION_OF_NODES: Keys<5, 0> = Keys {
    required: [Type, Source, Force, Destination, New],
    optional: [],
};

pub(super) const SUBSTITUTION_OF_TEXT: Keys<6, 1> = Keys {
    required: [Type, Source, Force, Destination, Old, New],
    optional: [Occurrence],
};

pub(super) const INSERTION_OF_NODES: Keys<5, 0> = Keys {
    required: [Type, Source, Force, Destination, New],
    optional: [],
};

pub(super) const INSERTION_AT_AN_END: Keys<5, 0> = Keys {
    required: [Type, Source, Force, Destination, New],
    optional: [],
};

pub(super) const INSERTION_BESIDE_A_TEXT: Keys<6, 1> = Keys {
    required: [Type, Source, Force, Destination, New, Old],
    optional: [Occurrence],
};

pub(super) const RENUMBERING: Keys<4, 0> = Keys {
    required: [Type, Source, Force, Renumber],
    optional: [],
};

pub(super) const NEW_NUM: Keys<2, 0> = Keys {
    required: [Wid, Num],
    optional: [],
};

pub(super) const SPLIT_AT_A_CHILD: Keys<6, 1> = Keys {
    required: [Type, Source, Force, Destination, Child, Num],
    optional: [Heading],
};

pub(super) const SPLIT_AT_A_TEXT: Keys<6, 2> = Keys {
    required: [Type, Source, Force, Destination, Old, Num],
    optional: [Occurrence, Heading],
};

pub(super) const JOIN: Keys<5, 1> = Keys {
    required: [Type, Source, Force, Destination, Second],
    optional: [Separator],
};

// Modifications of force and of efficacy: all but three kinds have a day and a date.

pub(super) const DATED: Keys<5, 0> = Keys {
    required: [Type, Source, Destination, On, Date],
    optional: [],
};

pub(super) const RETROACTIVITY: Keys<4, 0> = Keys {
    required: [Type, Source, Destination, Date],
    optional: [],
};

pub(super) const EXTRA_EFFICACY: Keys<4, 0> = Keys {
    required: [Type, Source, Destination, On],
    optional: [],
};

pub(super) const INAPPLICATION: Keys<5, 0> = Keys {
    required: [Type, Source, Destination, On, Days],
    optional: [],
};

// Commands.

pub(super) const ENACT: Keys<4, 0> = Keys {
    required: [Drafter, Request, Command, Act],
    optional: [],
};

pub(super) const RECORD: Keys<5, 0> = Keys {
    required: [Drafter, Request, Command, Work, Modifications],
    optional: [],
};

pub(super) const CORRECT: Keys<5, 0> = Keys {
    required: [Drafter, Request, Command, Id, Modification],
    optional: [],
};

pub(super) const WITHDRAW: Keys<4, 0> = Keys {
    required: [Drafter, Request, Command, Id],
    optional: [],
};

pub(super) const RESTORE: Keys<4, 0> = Keys {
    required: [Drafter, Request, Command, Id],
    optional: [],
};

pub(super) const DRAFT_ADD: Keys<5, 0> = Keys {
    required: [Drafter, Request, Command, Work, Modification],
    optional: [],
};

pub(super) const DRAFT_DROP: Keys<4, 0> = Keys {
    required: [Drafter, Request, Command, Item],
    optional: [],
};

pub(super) const FILE: Keys<5, 0> = Keys {
    required: [Drafter, Request, Command, Work, Seen],
    optional: [],
};
