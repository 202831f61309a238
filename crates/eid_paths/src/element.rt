//! Element: the kinds of provision.

ghost use Rattle.std.specs.Prelude.{◌≡◌, find, slice_get};
ghost use Rattle.std.specs.Str.{bytes_eq};
ghost use Rattle.eid_paths.specs.Elements.{all_elements, element_name, element_word, element_named, element_of_word, element_place};

/// One of the fourteen elements that a provision may be, in their order.
#[derive(Clone, Copy, Debug, PartialEq, Eq)]
pub enum Element {
    Article,
    Section,
    Chapter,
    Paragraph,
    Subparagraph,
    Subsection,
    Clause,
    Subclause,
    Alinea,
    Part,
    Title,
    Book,
    Point,
    Indent,
}

impl Element {
    /// The elements in their order.
    const ALL: [Element; 14] = [
        Element::Article,
        Element::Section,
        Element::Chapter,
        Element::Paragraph,
        Element::Subparagraph,
        Element::Subsection,
        Element::Clause,
        Element::Subclause,
        Element::Alinea,
        Element::Part,
        Element::Title,
        Element::Book,
        Element::Point,
        Element::Indent,
    ];

    /// The name that Akoma Ntoso gives the element.
    pub fn name(&self) -> &'static str
        ensures { result.now ≡ element_name self.now }
    {
        match self {
            Element::Article => "article",
            Element::Section => "section",
            Element::Chapter => "chapter",
            Element::Paragraph => "paragraph",
            Element::Subparagraph => "subparagraph",
            Element::Subsection => "subsection",
            Element::Clause => "clause",
            Element::Subclause => "subclause",
            Element::Alinea => "alinea",
            Element::Part => "part",
            Element::Title => "title",
            Element::Book => "book",
            Element::Point => "point",
            Element::Indent => "indent",
        }
    }

    /// The word by which an eId names the element.
    pub fn word(&self) -> &'static str
        ensures { result.now ≡ element_word self.now }
    {
        match self {
            Element::Article => "art",
            Element::Section => "sec",
            Element::Chapter => "chp",
            Element::Paragraph => "para",
            Element::Subparagraph => "subpara",
            Element::Subsection => "subsec",
            Element::Clause => "cl",
            Element::Subclause => "subcl",
            Element::Alinea => "al",
            Element::Part => "part",
            Element::Title => "title",
            Element::Book => "book",
            Element::Point => "point",
            Element::Indent => "indent",
        }
    }

    /// The place of the element in their order, from 0.
    pub fn place(self) -> usize
        ensures { result ≡ element_place self }
    {
        self as usize
    }

    /// The element at a place in their order, from 0. `None`: there are fourteen.
    pub fn at(place: usize) -> Option<Element>
        ensures { result ≡ slice_get all_elements place }
    {
        element_at(&Element::ALL, place)
    }

    /// The element of a name. `None`: no element has it.
    pub fn from_name(text: &str) -> Option<Element>
        ensures { result ≡ element_named text.now }
    {
        named(&Element::ALL, text)
    }

    // The element that a word of eIds names. `None`: it names none.
    pub(crate) fn of_word(word: &str) -> Option<Element>
        ensures { result ≡ element_of_word word.now }
    {
        with_word(&Element::ALL, word)
    }
}

// The element at a place among these.
fn element_at(elements: &[Element], place: usize) -> Option<Element>
    ensures { result ≡ slice_get elements.now place }
{
    match elements.get(place) {
        Some(element) => Some(*element),
        None => None,
    }
}

// The first of these elements that has the name.
fn named(elements: &[Element], text: &str) -> Option<Element>
    ensures { result ≡ find (λ e. bytes_eq (element_name e) text.now) elements.now }
{
    for element in elements {
        if element.name() == text {
            return Some(*element);
        }
    }
    None
}

// The first of these elements that has the word.
fn with_word(elements: &[Element], word: &str) -> Option<Element>
    ensures { result ≡ find (λ e. bytes_eq (element_word e) word.now) elements.now }
{
    for element in elements {
        if element.word() == word {
            return Some(*element);
        }
    }
    None
}
