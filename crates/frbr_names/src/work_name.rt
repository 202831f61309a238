//! WorkName: a clause sees one as the bytes of a work's IRI.

ghost use Rattle.std.specs.Prelude.{◌≡◌, Some, IfOk};
ghost use Rattle.std.specs.Option.{option_map};
ghost use Rattle.std.specs.Prelude.{◌==◌};
ghost use Rattle.std.proofs.Common.{rules};
ghost use Rattle.std.specs.Cmp.{partial_order_from_own_ties};
ghost use Rattle.std.specs.Cmp.Rules.{comparing, hashing};
ghost use Rattle.std.specs.Cmp.Lexicographic.{pointwise, slice_cmp};
ghost use Rattle.std.specs.Ordering.{as_partial_cmp, nat_cmp};
ghost use Rattle.std.specs.Hash as fed;
ghost use Rattle.frbr_names.specs.Dates.{first_day};
ghost use Rattle.frbr_names.specs.Works.{date_named};

use crate::date::{IriDate, first_day};
use crate::work_iri::WorkIri;
use desk_base::{Day, Memory, Text};
use std::alloc::Global;
use std::cmp::Ordering;
use std::hash::{Hash, Hasher};
use std::marker::Model;

/// The IRI of a work, in a text that its copies share.
#[derive(Debug, Drop)]
pub struct WorkName {
    text: Text,
    date: IriDate,
}

impl Model for WorkName {
    ghost use Rattle.std.specs.Prelude.{◌≡◌, ℕ, List, Some};
    ghost use Rattle.frbr_names.specs.Works.{date_named};

    ghost Value = { List ℕ };

    ghost view = { λ name. name.text };

    ghost invariant = { λ name. date_named name.text ≡ Some name.date };
}

impl WorkName {
    /// The name of a work, in memory of its own.
    pub fn copy_of(alloc: Global, iri: &WorkIri<'_>) -> Result<WorkName, Memory>
        ensures { IfOk result (λ name. name ≡ iri.now.text.now) }
    {
        Ok(WorkName {
            text: Text::copy_of(alloc, iri.text)?,
            date: iri.date,
        })
    }

    /// The IRI as Rust's text.
    pub fn as_str(&self) -> &str
        ensures { result.now ≡ self.now }
    {
        self.text.as_str()
    }

    /// The same name, shared.
    pub fn copy(&self) -> Result<WorkName, Memory>
        ensures { IfOk result (λ name. name ≡ self.now) }
    {
        Ok(WorkName {
            text: self.text.copy()?,
            date: self.date,
        })
    }

    /// The date of the work, as the IRI gives it.
    pub fn date(&self) -> IriDate
        ensures { date_named self.now ≡ Some result }
    {
        self.date
    }

    /// The day that stands for the date of the work: 1 January where the IRI gives a year alone.
    pub fn day(&self) -> Day
        ensures { option_map first_day (date_named self.now) ≡ Some result }
    {
        first_day(self.date)
    }
}

impl PartialEq for WorkName {
    ghost eq = { pointwise ◌==◌ };

    ghost laws = { Prim.search (comparing, rules) };

    fn eq(&self, other: &WorkName) -> bool {
        self.as_str() == other.as_str()
    }
}

impl Eq for WorkName {
    ghost laws = { Prim.search (comparing, rules) };
}

impl Ord for WorkName {
    ghost cmp = { slice_cmp nat_cmp };

    ghost total = { Prim.search (comparing, rules) };

    ghost matches_partial_cmp = { Prim.search (comparing, rules) };

    ghost matches_eq = { Prim.search (comparing, rules) };

    fn cmp(&self, other: &WorkName) -> Ordering {
        self.as_str().cmp(other.as_str())
    }
}

impl PartialOrd for WorkName {
    ghost partial_cmp = { as_partial_cmp (slice_cmp nat_cmp) };

    ghost laws = { partial_order_from_own_ties (Prim.search (comparing, rules)) (Prim.search (comparing, rules)) };

    fn partial_cmp(&self, other: &WorkName) -> Option<Ordering> {
        Some(self.cmp(other))
    }
}

impl Hash for WorkName {
    ghost hash_input = { fed.str };

    ghost respects_eq = { Prim.search (hashing, rules) };

    fn hash<H: Hasher>(&self, state: &mut H) {
        self.as_str().hash(state);
    }
}
