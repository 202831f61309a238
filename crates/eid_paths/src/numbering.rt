//! Numbering: which elements an act numbers throughout.

ghost use Rattle.std.specs.Prelude.{◌≡◌};
ghost use Rattle.eid_paths.specs.Elements.{is_throughout};
ghost use Rattle.eid_paths.specs.Numberings.{numbering_of};

use crate::Element;

/// The elements that are numbered throughout an act, so that their nums alone tell them apart.
#[derive(Clone, Copy, Debug, PartialEq, Eq)]
pub struct Numbering {
    /// For each element in their order, whether it is one of these.
    pub throughout: [bool; 14],
}

impl Numbering {
    /// Articles and sections: the numbering of an act that states none.
    pub const DEFAULT: Numbering = Numbering {
        throughout: [
            true, true, false, false, false, false, false, false, false, false, false, false,
            false, false,
        ],
    };

    /// The numbering of an act that numbers these elements throughout. Their order does not matter, nor does
    /// an element that stands among them more than once.
    pub fn of(elements: &[Element]) -> Numbering
        ensures { result ≡ numbering_of elements.now }
    {
        let mut throughout = [false; 14];
        for element in elements {
            throughout[element.place()] = true;
        }
        Numbering { throughout }
    }

    /// Whether an element is numbered throughout.
    pub fn has(&self, element: Element) -> bool
        ensures { result ≡ is_throughout self.now element }
    {
        self.throughout[element.place()]
    }
}
