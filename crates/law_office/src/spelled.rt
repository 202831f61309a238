//! Spelled: the IRI of a work as a text that is looked up.

ghost use Rattle.std.proofs.Common.{ap};
ghost use Rattle.std.specs.Cmp.Lexicographic.{bytes_decides, nat_list_eq_equiv};
ghost use Rattle.std.specs.Hash as fed;
ghost use Rattle.std.specs.Str.{bytes_eq};

use frbr_names::WorkName;
use indexmap::Equivalent;
use std::hash::Hash;

/// The IRI of a work.
#[derive(Clone, Copy, PartialEq, Eq, Hash)]
pub(crate) struct Spelled<'a> {
    /// Its text.
    pub text: &'a str,
}

impl Equivalent<WorkName> for Spelled<'_> {
    ghost equivalent = { λ s work. bytes_eq s.text.now work };

    ghost respects_hash = { λ s work h. ap fed.str ((bytes_decides s.text.now work).0 h) };

    ghost respects_eq = { λ s x y. nat_list_eq_equiv.congr s.text.now x y };

    fn equivalent(&self, key: &WorkName) -> bool {
        self.text == key.as_str()
    }
}
