//! Judging references: one after another, by what targets say.

ghost use Rattle.std.specs.Prelude.{◌≡◌, ◌+◌, ◌≤◌, [], ◌∷◌, IfOk, OnOk, ◌==◌, length, map};
ghost use Rattle.std.specs.List.{list_any, starts_with};
ghost use Rattle.law_refs.specs.Covering as covering;
ghost use Rattle.law_refs.specs.Judging as spec;
ghost use Rattle.law_refs.specs.Counting.{moved_refs};

use crate::{JudgedRef, NodeRef, RefList, SharedList, Targets, Works};
use desk_base::{Memory, Steps};
use frbr_names::laws::read_expression_is_spelled;
use frbr_names::{WorkName, parse_expression};
use std::alloc::Global;
use std::sync::ledger::Ledger;

#[tactic(auto, unfolding(crate::specs::Judging::cause_of))]
fn cause_of<T: Targets, L: Ledger>(
    alloc: Global,
    targets: &T,
    iri: &str,
    steps: &mut Steps<L>,
) -> Result<Option<u8>, Memory>
    ensures cause { IfOk result (λ cause. cause ≡ spec.cause_of (T.broken_rule targets.now) iri.now) }
    ensures steps { steps.new ≤ steps.old + 1 }
{
    match parse_expression(iri) {
        Ok(target) => targets.broken(alloc, &target, steps),
        Err(_) => Ok(None),
    }
}

// Whether a text begins with the IRI of a work.
fn begins_with(work: &WorkName, iri: &str) -> bool
    ensures { result ≡ starts_with ◌==◌ iri.now work.now }
{
    iri.as_bytes().starts_with(work.as_str().as_bytes())
}

// Whether a text begins with the IRI of one of these works.
fn begins_with_one(works: &Works, iri: &str) -> bool
    ensures { result ≡ list_any (λ work. starts_with ◌==◌ iri.now work) works.now }
{
    for work in works.as_slice() {
        if begins_with(work, iri) {
            return true;
        }
    }
    false
}

// Whether the target that a text is read as is of one of these works.
#[tactic(auto, unfolding(crate::specs::Judging::names_one))]
fn is_of_one(works: &Works, iri: &str) -> bool
    ensures { result ≡ spec.names_one works.now iri.now }
{
    match parse_expression(iri) {
        Ok(target) => works.has(target.work.text),
        Err(_) => false,
    }
}

/// Whether what a reference refers to is of one of these works. What does not begin with the IRI of one is not read.
pub fn names_one(works: &Works, iri: &str) -> bool
    ensures { result ≡ spec.names_one works.now iri.now }
{
    read_expression_is_spelled(iri.as_bytes());
    if begins_with_one(works, iri) {
        return is_of_one(works, iri);
    }
    false
}

// What breaks the target of a reference, whose work is noted.
#[tactic(auto, unfolding(crate::specs::Judging::cause_of, crate::specs::Covering::noted))]
fn cause_noting<T: Targets, L: Ledger>(
    alloc: Global,
    targets: &T,
    iri: &str,
    works: &mut Works,
    steps: &mut Steps<L>,
) -> Result<Option<u8>, Memory>
    ensures cause { IfOk result (λ cause. cause ≡ spec.cause_of (T.broken_rule targets.now) iri.now) }
    ensures noted { OnOk result (works.new ≡ covering.noted works.old iri.now) }
    ensures steps { steps.new ≤ steps.old + 1 }
{
    match parse_expression(iri) {
        Ok(target) => {
            works.note(alloc, &target.work)?;
            let cause = targets.broken(alloc, &target, steps)?;
            Ok(cause)
        }
        Err(_) => Ok(None),
    }
}

// Whether a reference that was judged is this one of a text.
#[tactic(auto, unfolding(crate::specs::Judging::is_that))]
fn is_that(kept: &JudgedRef, one: &NodeRef) -> bool
    ensures { result ≡ spec.is_that kept.now one.now }
{
    kept.eid == one.eid && kept.iri == one.iri
}

/// Whether references that were judged are those of a text, in its order.
pub fn are_those(kept: &[JudgedRef], refs: &[NodeRef]) -> bool
    ensures { result ≡ spec.are_those kept.now refs.now }
{
    let mut left = kept;
    for one in refs {
        let [first, rest @ ..] = left else {
            return false;
        };
        if !is_that(first, one) {
            return false;
        }
        left = rest;
    }
    match left {
        [] => true,
        [_first, ..] => false,
    }
}

#[tactic(auto, unfolding(crate::specs::Judging::judged))]
fn judge<T: Targets, L: Ledger>(
    alloc: Global,
    targets: &T,
    placed: &NodeRef,
    works: &mut Works,
    steps: &mut Steps<L>,
) -> Result<JudgedRef, Memory>
    ensures judged { IfOk result (λ judged. judged ≡ spec.judged (T.broken_rule targets.now) placed.now) }
    ensures noted { OnOk result (works.new ≡ covering.noted works.old placed.now.iri) }
    ensures steps { steps.new ≤ steps.old + 1 }
{
    let cause = cause_noting(alloc, targets, placed.iri.as_str(), works, steps)?;
    Ok(JudgedRef {
        eid: placed.eid.copy()?,
        iri: placed.iri.copy()?,
        cause,
    })
}

/// References, judged in order. The works that they name are noted.
pub fn judge_all<T: Targets, L: Ledger>(
    alloc: Global,
    targets: &T,
    refs: &[NodeRef],
    works: &mut Works,
    steps: &mut Steps<L>,
) -> Result<SharedList<JudgedRef>, Memory>
    ensures judged { IfOk result (λ judged. judged ≡ map (spec.judged (T.broken_rule targets.now)) refs.now) }
    ensures noted { OnOk result (works.new ≡ covering.all_noted works.old refs.now) }
    ensures steps { steps.new ≤ steps.old + length refs.now }
{
    let mut judged = RefList::new(alloc);
    for one in refs {
        judged.push(judge(alloc, targets, one, works, steps)?)?;
    }
    let shared = SharedList::new(alloc, judged)?;
    Ok(shared)
}

// What breaks a reference now, where these works moved.
fn cause_now<T: Targets, L: Ledger>(
    alloc: Global,
    targets: &T,
    moved: &Works,
    kept: &JudgedRef,
    steps: &mut Steps<L>,
) -> Result<Option<u8>, Memory>
    ensures cause { IfOk result
        (λ cause. cause ≡ spec.cause_now (T.broken_rule targets.now) moved.now kept.now) }
    ensures steps { steps.new ≤ steps.old + moved_refs moved.now (kept.now ∷ []) }
{
    let iri = kept.iri.as_str();
    if names_one(moved, iri) {
        cause_of(alloc, targets, iri, steps)
    } else {
        Ok(kept.cause)
    }
}

#[tactic(auto, unfolding(crate::specs::Judging::judged_again))]
fn judge_again<T: Targets, L: Ledger>(
    alloc: Global,
    targets: &T,
    moved: &Works,
    kept: &JudgedRef,
    steps: &mut Steps<L>,
) -> Result<JudgedRef, Memory>
    ensures judged { IfOk result
        (λ judged. judged ≡ spec.judged_again (T.broken_rule targets.now) moved.now kept.now) }
    ensures steps { steps.new ≤ steps.old + moved_refs moved.now (kept.now ∷ []) }
{
    let cause = cause_now(alloc, targets, moved, kept, steps)?;
    Ok(JudgedRef {
        eid: kept.eid.copy()?,
        iri: kept.iri.copy()?,
        cause,
    })
}

/// References that were judged, those again whose target is of a work that moved.
pub fn judge_all_again<T: Targets, L: Ledger>(
    alloc: Global,
    targets: &T,
    moved: &Works,
    refs: &[JudgedRef],
    steps: &mut Steps<L>,
) -> Result<SharedList<JudgedRef>, Memory>
    ensures judged { IfOk result
        (λ judged. judged ≡ map (spec.judged_again (T.broken_rule targets.now) moved.now) refs.now) }
    ensures steps { steps.new ≤ steps.old + moved_refs moved.now refs.now }
{
    let mut judged = RefList::new(alloc);
    for one in refs {
        judged.push(judge_again(alloc, targets, moved, one, steps)?)?;
    }
    SharedList::new(alloc, judged)
}
