//! Needing: the works of a line on which one depends, directly or through others.

ghost use Rattle.std.specs.Prelude.{◌≡◌, ◌||◌, IfOk, OnOk, map};
ghost use Rattle.std.specs.List.{list_any};
ghost use Rattle.held_provisions.specs.Needing as needing;
ghost use Rattle.law_register.specs.Provisions.Depending as depending;

use crate::InLine;
use crate::looking::depends;
use desk_base::Memory;
use frbr_names::WorkName;
use law_register::Known;
use std::alloc::Global;

fn one_depends<T: InLine>(works: &[T], needed: &[Known], other: &WorkName) -> bool
    ensures { result ≡ list_any (λ one. depending.depends (map T.known_of works.now) one other.now) needed.now }
{
    for one in needed {
        if depends(works, one, other) {
            return true;
        }
    }
    false
}

// Whether a work, or one of others, depends on a work.
fn is_wanted<T: InLine>(works: &[T], known: &Known, needed: &[Known], other: &WorkName) -> bool
    ensures { result ≡ needing.is_wanted (map T.known_of works.now) known.now needed.now other.now }
{
    depends(works, known, other) || one_depends(works, needed, other)
}

// Puts a work in front of others, where it is wanted.
fn add_wanted<T: InLine>(
    alloc: Global,
    works: &[T],
    known: &Known,
    needed: &mut Vec<Known>,
    other: &Known,
) -> Result<(), Memory>
    ensures { OnOk result (needed.new.items
        ≡ needing.with_wanted (map T.known_of works.now) known.now other.now needed.old.items) }
{
    if is_wanted(works, known, needed.as_slice(), &other.act.work) {
        Ok(needed.insert(0, other.copy(alloc)?)?)
    } else {
        Ok(())
    }
}

/// The works of a line on which one depends, directly or through others, in its order.
pub fn needed<T: InLine>(alloc: Global, works: &[T], known: &Known) -> Result<Vec<Known>, Memory>
    ensures { IfOk result (λ needed. needed.items
        ≡ needing.needed_in (map T.known_of works.now) known.now (map T.known_of works.now)) }
{
    let mut needed = Vec::new(alloc);
    for index in (0..works.len()).rev() {
        add_wanted(alloc, works, known, &mut needed, works[index].known())?;
    }
    Ok(needed)
}
