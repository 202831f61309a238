//! Which references dangle on a day: those of the row of that day whose target breaks a rule.

ghost use Rattle.std.specs.Prelude.{◌≡◌, ◌++◌, IfOk, OnOk};
ghost use Rattle.law_refs.specs.Listed as spec;
ghost use Rattle.law_refs.specs.Rows as rows;

use crate::{DayRefs, JudgedRef, RefIndex, RefList, WorkRefs};
use desk_base::{Day, Memory, Text};
use frbr_names::WorkName;
use std::alloc::Global;

/// A reference that dangles.
#[derive(Debug, Drop)]
pub struct DanglingRef {
    /// The work on whose node it stands.
    pub work: WorkName,
    /// The eId of the node.
    pub eid: Text,
    /// The reference as it was recorded.
    pub iri: Text,
    /// The number of the rule that its target breaks.
    pub cause: u8,
}

/// References that dangle: works in the order of their IRIs, the references of a work in the order of its text.
pub type Dangling = RefList<DanglingRef>;

#[tactic(auto, unfolding(crate::specs::Rows::has_begun))]
fn has_begun(from: Option<Day>, day: Day) -> bool
    ensures { result ≡ rows.has_begun from day }
{
    match from {
        Some(from) => from <= day,
        None => true,
    }
}

// The references of the last row that has begun by a day.
fn refs_on(all: &[DayRefs], day: Day) -> &[JudgedRef]
    ensures { result.now ≡ rows.refs_on day all.now }
{
    for index in (0..all.len()).rev() {
        let row = &all[index];
        if has_begun(row.from, day) {
            return row.refs.as_slice();
        }
    }
    &[]
}

fn add(found: &mut Dangling, work: &WorkName, kept: &JudgedRef) -> Result<(), Memory>
    ensures { OnOk result (found.new ≡ found.old ++ spec.listed work.now kept.now kept.now.cause) }
{
    match kept.cause {
        Some(cause) => found.push(DanglingRef {
            work: work.copy()?,
            eid: kept.eid.copy()?,
            iri: kept.iri.copy()?,
            cause,
        }),
        None => Ok(()),
    }
}

fn add_all(found: &mut Dangling, work: &WorkName, refs: &[JudgedRef]) -> Result<(), Memory>
    ensures { OnOk result (found.new ≡ found.old ++ spec.all_listed work.now refs.now) }
{
    for kept in refs {
        add(found, work, kept)?;
    }
    Ok(())
}

#[tactic(auto, unfolding(crate::specs::Listed::listed_of))]
fn add_work(found: &mut Dangling, day: Day, work: &WorkName, kept: &WorkRefs) -> Result<(), Memory>
    ensures { OnOk result (found.new ≡ found.old ++ spec.listed_of day work.now kept.now) }
{
    if kept.act_day <= day {
        add_all(found, work, refs_on(kept.rows.as_slice(), day))
    } else {
        Ok(())
    }
}

impl RefIndex {
    /// The references that dangle on a day.
    pub fn dangling(&self, alloc: Global, day: Day) -> Result<Dangling, Memory>
        ensures { IfOk result (λ dangling. dangling ≡ spec.dangling_on day self.now) }
    {
        let mut found = RefList::new(alloc);
        for (work, kept) in &self.works {
            add_work(&mut found, day, work, kept.refs())?;
        }
        Ok(found)
    }
}
