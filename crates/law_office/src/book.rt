//! Book: what an office writes down: its register, how far its keeper is known to go, what is pending, the marks of
//! faults, what it keeps of works, so that it need not be replayed, which of them may name a provision, and its index of references.

use frbr_names::WorkName;
use indexmap::{IndexMap, IndexSet};
use law_refs::{RefIndex, RefRevision};
use law_register::{Entry, FaultMark, Register};
use version_cache::{Table, WorkRevision, WorkTables};
use viewpoints::PastTables;

/// What is kept of the works that law entries enact, by their names.
pub type KeptWorks = IndexMap<WorkName, WorkTables>;

/// Works that may name a provision, each once.
pub type Naming = IndexSet<WorkName>;

/// What becomes of what is kept once an entry stands behind the others. A clause sees what is kept then (`applied`).
#[derive(Drop)]
pub struct Changes {
    /// The work that it enacts, if it enacts one, and what is to be kept of it.
    pub enacted: Option<(WorkName, WorkTables)>,
    /// The works of which something else is known with it, each with the revision of what is kept.
    pub revised: Vec<(WorkName, WorkRevision)>,
    /// What the index of references is to be with it. `None`: it stays as it is.
    pub refs: Option<RefRevision>,
}

/// An entry of which it is not known whether the keeper has it.
#[derive(Drop)]
pub struct Pending {
    /// The entry, which is accepted behind those of the register.
    pub entry: Entry,
    /// The bytes that spell it.
    pub bytes: Vec<u8>,
    /// What becomes of what is kept once it stands there.
    pub changes: Changes,
}

/// What an office writes down.
#[derive(Drop)]
pub struct Book {
    /// The entries.
    pub register: Register,
    /// The keeper's cursor of the end of these entries.
    pub end: u64,
    /// What is pending behind them.
    pub pending: Option<Pending>,
    /// The marks of the commands that a fault of the keeper answered.
    pub marks: Vec<FaultMark>,
    /// What is kept of each work that these entries enact.
    pub tables: KeptWorks,
    /// The works that may name a provision: each of which what is kept names one is among these.
    pub naming: Naming,
    /// What is kept of past viewpoints.
    pub past: PastTables<Table>,
    /// The references of these works, each with the rule that its target breaks.
    pub refs: RefIndex,
}
