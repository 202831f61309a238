//! Text: a clause sees one as the list of its UTF-8 bytes.

ghost use Rattle.std.specs.Prelude.{◌≡◌, IfOk, string_bytes};
ghost use Rattle.std.proofs.Common.{rules};
ghost use Rattle.std.specs.Cmp.{partial_order_from_own_ties};
ghost use Rattle.std.specs.Cmp.Rules.{comparing, hashing};
ghost use Rattle.std.specs.Cmp.Lexicographic.{slice_cmp, pointwise};
ghost use Rattle.std.specs.Ordering.{nat_cmp, as_partial_cmp};
ghost use Rattle.std.specs.Prelude.{◌==◌};
ghost use Rattle.std.specs.Hash as fed;

use crate::Memory;
use std::alloc::Global;
use std::cmp::Ordering;
use std::hash::{Hash, Hasher};
use std::marker::Model;
use std::sync::ArcStr;

/// A text that its copies share: a copy costs a count, and no bytes.
#[derive(Debug, Drop)]
pub struct Text {
    text: ArcStr,
}

impl Model for Text {
    ghost use Rattle.std.specs.Prelude.{ℕ, List};
    ghost use Rattle.std.specs.Arc.{arc_str_bytes};

    ghost Value = { List ℕ };

    ghost view = { λ t. arc_str_bytes t.text };
}

impl Text {
    /// The same text, in memory of its own.
    pub fn copy_of(alloc: Global, text: &str) -> Result<Text, Memory>
        ensures { IfOk result (λ t. t ≡ text.now) }
    {
        Ok(Text {
            text: ArcStr::from_str(alloc, text)?,
        })
    }

    /// The text that a string spells, with no copy of its bytes.
    pub fn from_string(text: String) -> Result<Text, Memory>
        ensures { IfOk result (λ t. t ≡ string_bytes text) }
    {
        Ok(Text {
            text: ArcStr::from_string(text)?,
        })
    }

    /// The text as Rust's.
    pub fn as_str(&self) -> &str
        ensures { result.now ≡ self.now }
    {
        self.text.as_str()
    }

    /// The same text, shared.
    pub fn copy(&self) -> Result<Text, Memory>
        ensures { IfOk result (λ t. t ≡ self.now) }
    {
        Ok(Text {
            text: self.text.clone()?,
        })
    }
}

impl PartialEq for Text {
    ghost eq = { pointwise ◌==◌ };

    ghost laws = { Prim.search (comparing, rules) };

    fn eq(&self, other: &Text) -> bool {
        self.as_str() == other.as_str()
    }
}

impl Eq for Text {
    ghost laws = { Prim.search (comparing, rules) };
}

impl Ord for Text {
    ghost cmp = { slice_cmp nat_cmp };

    ghost total = { Prim.search (comparing, rules) };

    ghost matches_partial_cmp = { Prim.search (comparing, rules) };

    ghost matches_eq = { Prim.search (comparing, rules) };

    fn cmp(&self, other: &Text) -> Ordering {
        self.as_str().cmp(other.as_str())
    }
}

impl PartialOrd for Text {
    ghost partial_cmp = { as_partial_cmp (slice_cmp nat_cmp) };

    ghost laws = { partial_order_from_own_ties (Prim.search (comparing, rules)) (Prim.search (comparing, rules)) };

    fn partial_cmp(&self, other: &Text) -> Option<Ordering> {
        Some(self.cmp(other))
    }
}

impl Hash for Text {
    ghost hash_input = { fed.str };

    ghost respects_eq = { Prim.search (hashing, rules) };

    fn hash<H: Hasher>(&self, state: &mut H) {
        self.as_str().hash(state);
    }
}
