//! Works: the IRIs of works, each once, looked up without a walk. A clause sees them as a list.

ghost use Rattle.std.specs.Prelude.{◌≡◌, [], OnOk};
ghost use Rattle.std.proofs.Common.{ap};
ghost use Rattle.std.specs.Cmp.Lexicographic.{bytes_decides, nat_list_eq_equiv};
ghost use Rattle.std.specs.Hash as fed;
ghost use Rattle.std.specs.Str.{bytes_eq};
ghost use Rattle.law_refs.specs.Names.{is_among, with_name};

use desk_base::Memory;
use frbr_names::{WorkIri, WorkName};
use indexmap::{Equivalent, IndexSet};
use std::alloc::Global;
use std::hash::Hash;
use std::marker::Model;

/// Works, each once.
#[derive(Debug, Drop)]
pub struct Works {
    names: IndexSet<WorkName>,
}

impl Model for Works {
    ghost use Rattle.std.specs.Prelude.{ℕ, List};

    ghost Value = { List (List ℕ) };

    ghost view = { λ works. works.names.keys };
}

// The IRI of a work as a text that is looked up.
#[derive(Clone, Copy, PartialEq, Eq, Hash)]
struct Spelled<'a> {
    text: &'a str,
}

impl Equivalent<WorkName> for Spelled<'_> {
    ghost equivalent = { λ s work. bytes_eq s.text.now work };

    ghost respects_hash = { λ s work h. ap fed.str ((bytes_decides s.text.now work).0 h) };

    ghost respects_eq = { λ s x y. nat_list_eq_equiv.congr s.text.now x y };

    fn equivalent(&self, key: &WorkName) -> bool {
        self.text == key.as_str()
    }
}

impl Works {
    /// No works. It takes no memory.
    pub fn new(alloc: Global) -> Works
        ensures { result ≡ [] }
    {
        Works {
            names: IndexSet::new(alloc),
        }
    }

    /// Adds a work, if it is not there.
    pub fn insert(&mut self, work: WorkName) -> Result<(), Memory>
        ensures { OnOk result (self.new ≡ with_name self.old work) }
    {
        self.names.insert(work)?;
        Ok(())
    }

    /// Adds a work by its IRI, if it is not there. Only then it takes memory.
    pub fn note(&mut self, alloc: Global, work: &WorkIri<'_>) -> Result<(), Memory>
        ensures { OnOk result (self.new ≡ with_name self.old work.now.text.now) }
    {
        if self.has(work.text) {
            return Ok(());
        }
        self.insert(WorkName::copy_of(alloc, work)?)?;
        Ok(())
    }

    /// Whether the IRI of one of them is this text.
    pub fn has(&self, text: &str) -> bool
        ensures { result ≡ is_among text.now self.now }
    {
        self.names.contains(Spelled { text })
    }

    /// The works, in the order in which they were added.
    pub fn as_slice(&self) -> &[WorkName]
        ensures { result.now ≡ self.now }
    {
        self.names.as_slice()
    }
}
