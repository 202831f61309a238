//! Refs: a clause sees them as the list of their texts.

ghost use Rattle.std.specs.Prelude.{◌≡◌, ◌==◌, [], ◌++◌, ◌∷◌, OnOk, OnErr, IfOk};
ghost use Rattle.std.specs.Cmp.Lexicographic.{pointwise};
ghost use Rattle.std.specs.Cmp.Rules.{comparing};
ghost use Rattle.std.proofs.Common.{rules};

use desk_base::{Memory, Text};
use std::alloc::Global;
use std::marker::Model;

/// The refs of a provision, in order: expression IRIs.
#[derive(Debug, Drop)]
pub struct Refs {
    items: Vec<Text>,
}

impl Model for Refs {
    ghost use Rattle.std.specs.Prelude.{ℕ, List};

    ghost Value = { List (List ℕ) };

    ghost view = { λ r. r.items.items };
}

impl Refs {
    /// No refs. It takes no memory.
    pub fn new(alloc: Global) -> Refs
        ensures { result ≡ [] }
    {
        Refs {
            items: Vec::new(alloc),
        }
    }

    /// The refs as a slice.
    pub fn as_slice(&self) -> &[Text]
        ensures { result.now ≡ self.now }
    {
        self.items.as_slice()
    }

    /// Adds a ref behind the others.
    pub fn push(&mut self, iri: Text) -> Result<(), Memory>
        ensures ok { OnOk result (self.new ≡ self.old ++ iri ∷ []) }
        ensures err { OnErr result (self.new ≡ self.old) }
    {
        self.items.push(iri)?;
        Ok(())
    }

    /// The same refs.
    pub fn copy(&self, alloc: Global) -> Result<Refs, Memory>
        ensures { IfOk result (λ refs. refs ≡ self.now) }
    {
        let mut items = Vec::new(alloc);
        for iri in &self.items {
            items.push(iri.copy()?)?;
        }
        Ok(Refs { items })
    }

    /// These refs, and behind them others.
    pub fn joined(&self, alloc: Global, more: &Refs) -> Result<Refs, Memory>
        ensures { IfOk result (λ refs. refs ≡ self.now ++ more.now) }
    {
        let mut refs = self.copy(alloc)?;
        for iri in more.as_slice() {
            refs.push(iri.copy()?)?;
        }
        Ok(refs)
    }
}

impl PartialEq for Refs {
    ghost eq = { pointwise (pointwise ◌==◌) };

    ghost laws = { Prim.search (comparing, rules) };

    fn eq(&self, other: &Refs) -> bool {
        self.as_slice() == other.as_slice()
    }
}

impl Eq for Refs {
    ghost laws = { Prim.search (comparing, rules) };
}
