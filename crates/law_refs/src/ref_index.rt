//! RefIndex: a clause sees one as the works that have references, in the order of their IRIs, each with what is kept of it.

ghost use Rattle.std.specs.Prelude.{◌≡◌, []};

use crate::kept_work::KeptWork;
use frbr_names::WorkName;
use std::alloc::Global;
use std::collections::BTreeMap;
use std::marker::Model;

/// What is kept of works, by their names.
pub type KeptWorks = BTreeMap<WorkName, KeptWork>;

/// The references of all works by day, each with the rule that its target breaks.
#[derive(Debug, Drop)]
pub struct RefIndex {
    pub(crate) works: KeptWorks,
}

impl Model for RefIndex {
    ghost use Rattle.law_refs.specs.Index.{Kept};

    ghost Value = { Kept };

    ghost view = { λ index. index.works.entries };
}

/// What an index is to be once a revision of it is committed. A clause sees it as that.
#[derive(Debug, Drop)]
pub struct RefRevision {
    pub(crate) works: KeptWorks,
}

impl Model for RefRevision {
    ghost use Rattle.law_refs.specs.Index.{Kept};

    ghost Value = { Kept };

    ghost view = { λ revision. revision.works.entries };
}

impl RefIndex {
    /// An index of no works. It takes no memory.
    pub fn new(alloc: Global) -> RefIndex
        ensures { result ≡ [] }
    {
        RefIndex {
            works: BTreeMap::new(alloc),
        }
    }

    /// Takes a revision of this index. It takes no memory.
    pub fn commit(&mut self, revision: RefRevision)
        ensures { self.new ≡ revision }
    {
        let RefRevision { works } = revision;
        self.works = works;
    }
}
