//! Pairs: a clause sees them as a list of pairs, each a wId and the num that its provision gets.

ghost use Rattle.std.specs.Prelude.{◌≡◌, [], ◌++◌, ◌∷◌, IfOk, OnOk, OnErr};
ghost use Rattle.std.specs.Cmp.{decided, partial_equiv_from_equiv};
ghost use Rattle.textual_mods.specs.SamePairs.{same_pairs, pairs_decide};

use desk_base::{Memory, Text};
use eid_paths::Num;
use std::alloc::Global;
use std::marker::Model;

/// Provisions by their wIds, each with the num that it gets, in order.
#[derive(Debug, Drop)]
pub struct Pairs {
    items: Vec<(Text, Num)>,
}

impl Model for Pairs {
    ghost use Rattle.std.specs.Prelude.{ℕ, List};

    ghost Value = { List (List ℕ × List ℕ) };

    ghost view = { λ p. p.items.items };
}

impl Pairs {
    /// No pairs. It takes no memory.
    pub fn new(alloc: Global) -> Pairs
        ensures { result ≡ [] }
    {
        Pairs {
            items: Vec::new(alloc),
        }
    }

    /// Adds a pair behind the others.
    pub fn push(&mut self, wid: Text, num: Num) -> Result<(), Memory>
        ensures ok { OnOk result (self.new ≡ self.old ++ (wid, num) ∷ []) }
        ensures err { OnErr result (self.new ≡ self.old) }
    {
        self.items.push((wid, num))?;
        Ok(())
    }

    /// The pairs as a slice.
    pub fn as_slice(&self) -> &[(Text, Num)]
        ensures { result.now ≡ self.now }
    {
        self.items.as_slice()
    }
    /// The same pairs; texts are shared.
    pub fn copy(&self, alloc: Global) -> Result<Pairs, Memory>
        ensures { IfOk result (λ pairs. pairs ≡ self.now) }
    {
        let mut copies = Pairs::new(alloc);
        for (wid, num) in self.as_slice() {
            copies.push(wid.copy()?, num.copy())?;
        }
        Ok(copies)
    }
}

impl PartialEq for Pairs {
    ghost eq = { same_pairs };

    ghost laws = { partial_equiv_from_equiv (decided same_pairs pairs_decide) };

    fn eq(&self, other: &Pairs) -> bool {
        self.as_slice() == other.as_slice()
    }
}

impl Eq for Pairs {
    ghost laws = { decided same_pairs pairs_decide };
}
