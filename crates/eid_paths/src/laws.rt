//! Laws of eIds, of numberings and of equality. Each law is a function that does nothing, whose clause is the law.

ghost use Rattle.std.specs.Prelude.{◌≡◌, ◌<◌, ◌↔◌, ℕ, List, Ok, IsTrue, Contains, length, [], ◌∷◌};
ghost use Rattle.eid_paths.specs.Eids.{eid_of, eid_text};
ghost use Rattle.eid_paths.specs.Elements.{is_throughout};
ghost use Rattle.eid_paths.specs.Levels.{have_nums};
ghost use Rattle.eid_paths.specs.Numberings.{numbering_of};
ghost use Rattle.eid_paths.specs.declared.element.Element.{Element as ElementValue};
ghost use Rattle.eid_paths.specs.declared.numbering.Numbering.{Numbering as NumberingValue};

use crate::{Element, Level, Num, Numbering};

/// What levels spell is read as those levels.
pub fn spelled_eid_is_read(_levels: &[Level])
    requires some { 0 < length _levels.now }
    requires nums { IsTrue (have_nums _levels.now) }
    ensures { eid_of (eid_text _levels.now) ≡ Ok _levels.now }
{}

/// What is read as levels is what those levels spell, so that an eId has one spelling.
pub fn read_eid_is_spelled(_text: &[u8], _levels: &[Level])
    requires { eid_of _text.now ≡ Ok _levels.now }
    ensures text { _text.now ≡ eid_text _levels.now }
    ensures nums { IsTrue (have_nums _levels.now) }
{}

/// A numbering that is made of elements has exactly those.
pub fn numbered_are_those_named(_elements: &[Element], _element: Element)
    ensures { IsTrue (is_throughout (numbering_of _elements.now) _element) ↔ Contains _elements.now _element }
{}

/// The numbering of an act that states none has articles and sections.
pub fn articles_and_sections_by_default()
    ensures { Numbering.DEFAULT ≡ numbering_of (Element.Article ∷ Element.Section ∷ []) }
{}

/// `==` holds of nums, elements and numberings exactly where they are equal.
#[tactic(auto, using(crate::proofs::Equality::numberings_decide))]
pub fn equality_is_decided()
    ensures nums { (a b : List ℕ) → IsTrue (⟦<Num as PartialEq>⟧.eq a b) ↔ (a ≡ b) }
    ensures elements { (a b : ElementValue) → IsTrue (⟦<Element as PartialEq>⟧.eq a b) ↔ (a ≡ b) }
    ensures numberings { (a b : NumberingValue) → IsTrue (⟦<Numbering as PartialEq>⟧.eq a b) ↔ (a ≡ b) }
{}
