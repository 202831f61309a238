//! PastKey: under which key a table is kept.

ghost use Rattle.std.specs.Prelude.{◌≡◌, ◌++◌, IfOk};
ghost use Rattle.std.proofs.Common.{rules};
ghost use Rattle.std.specs.Cmp.Rules.{comparing, hashing};
ghost use Rattle.std.specs.Hash as fed;
ghost use Rattle.law_register.specs.Answer.PastKeys.{is_same_key, key_of};

use crate::{Question, Reading};
use desk_base::Memory;
use frbr_names::WorkName;
use std::hash::{Hash, Hasher};

/// A work as it is known at a viewpoint, in a reading.
#[derive(Debug, Drop)]
pub struct PastKey {
    /// The IRI of the work.
    pub work: WorkName,
    /// The number of law entries that are known.
    pub viewpoint: u32,
    /// What counts as bearing.
    pub reading: Reading,
}

impl PastKey {
    /// The key of a question, whatever the day of its version.
    pub fn of(question: &Question) -> Result<PastKey, Memory>
        ensures { IfOk result (λ key. key ≡ key_of question.now) }
    {
        Ok(PastKey {
            work: question.work.copy()?,
            viewpoint: question.viewpoint,
            reading: question.reading,
        })
    }
}

impl PartialEq for PastKey {
    ghost eq = { is_same_key };

    ghost laws = { Prim.search (comparing, rules) };

    fn eq(&self, other: &PastKey) -> bool {
        self.work == other.work
            && self.viewpoint == other.viewpoint
            && self.reading == other.reading
    }
}

impl Eq for PastKey {
    ghost laws = { Prim.search (comparing, rules) };
}

// Both readings of a work at a viewpoint have one hash.
impl Hash for PastKey {
    ghost hash_input = { λ key. fed.str key.work ++ fed.u32 key.viewpoint };

    ghost respects_eq = { Prim.search (hashing, rules) };

    fn hash<H: Hasher>(&self, state: &mut H) {
        self.work.hash(state);
        self.viewpoint.hash(state);
    }
}
