//! Drafting: the items of a drafter's draft that modify one work.

ghost use Rattle.std.specs.Prelude.{◌≡◌, ◌≤◌, IfOk, length};
ghost use Rattle.law_register.specs.Register.Drafts.{draft_of, items_of};
ghost use Rattle.law_register.specs.declared.register.limits.TheConstants.{MOST_DRAFT_ITEMS};

use crate::register::contents;
use crate::{Draft, Drafter, Register};
use desk_base::Memory;
use frbr_names::WorkName;
use std::alloc::Global;

impl Register {
    /// The items of a drafter's draft that modify a work, in order. No other item is copied.
    pub fn draft_on(
        &self,
        alloc: Global,
        drafter: &Drafter,
        work: &WorkName,
    ) -> Result<Draft, Memory>
        ensures items { IfOk result
            (λ draft. draft ≡ items_of work.now (draft_of drafter.now self.now.entries)) }
        ensures most { IfOk result (λ draft. length draft ≤ MOST_DRAFT_ITEMS) }
    {
        match self.indexes.drafter(drafter) {
            Some(mark) => {
                let marks = contents::items_of(&self.entries, &mark.items, work);
                contents::items_told(alloc, &self.entries, &marks)
            }
            None => Ok(Draft::new(alloc)),
        }
    }
}
