//! WorkIri: a clause sees one as its text and the parts of it.

ghost use Rattle.std.specs.Prelude.{◌≡◌, Ok};
ghost use Rattle.frbr_names.specs.Works.{work_of};

use crate::date::IriDate;

/// The IRI of a work, in parts of the text that it was read from.
#[derive(Clone, Copy, Debug)]
pub struct WorkIri<'a> {
    /// All of it.
    pub text: &'a str,
    /// The jurisdiction: a country, perhaps with a subdivision.
    pub jurisdiction: &'a str,
    /// The date.
    pub date: IriDate,
    /// The number.
    pub number: &'a str,
    pub ghost is_read: { work_of text.now
        ≡ Ok (record { text = text.now; jurisdiction = jurisdiction.now; date = date; number = number.now }) },
}
