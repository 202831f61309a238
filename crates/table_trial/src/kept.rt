//! Kept: what is kept of a work, which is revised with each entry.

ghost use Rattle.std.specs.Prelude.{◌≡◌, ◌+◌, ◌≤◌, Some, IfOk, IfSome, OnOk};
ghost use Rattle.law_register.specs.Answer.Soundness.{IsSound};
ghost use Rattle.law_register.specs.Register.KnownIds as known;
ghost use Rattle.law_register.specs.Register.LawList.{front};
ghost use Rattle.version_cache.specs.Seen.{table_view, work_view};
ghost use Rattle.version_cache.specs.Works.{AreRightUntil, IsFor, table_in};
ghost use Rattle.law_register.specs.Answer.Renewing.{both_costs};

use desk_base::{Day, Memory, Steps};
use frbr_names::WorkName;
use law_register::{Known, Reading, Register, known_at};
use replay_core::FromEnacted;
use std::alloc::Global;
use std::sync::ledger::Ledger;
use version_cache::{Table, WorkTables};

/// A work, its tables, and the reading in which they are asked.
#[derive(Debug, Drop)]
pub struct Kept {
    /// The work.
    pub work: WorkName,
    /// The reading.
    pub reading: Reading,
    /// What is kept of the work.
    pub tables: WorkTables,
}

impl Kept {
    /// The table that is asked.
    pub fn table(&self) -> &Table
        ensures { table_view result.now ≡ table_in self.now.reading (work_view self.now.tables) }
    {
        self.tables.table(self.reading)
    }
}

/// What a register knows of a work at its front.
pub fn known_now(
    alloc: Global,
    register: &Register,
    work: &WorkName,
) -> Result<Option<Known>, Memory>
    ensures known { IfOk result
        (λ found. found ≡ known.known_at register.now.entries work.now (front register.now.entries)) }
    ensures sound { IfOk result (λ found. IfSome found IsSound) }
{
    known_at(alloc, register, work, register.front())
}

/// What is kept of a work of which this is known.
pub fn make<L: Ledger>(
    alloc: Global,
    known: Known,
    work: WorkName,
    reading: Reading,
    steps: &mut Steps<L>,
) -> Result<Kept, Memory>
    requires { IsSound known }
    ensures work { IfOk result (λ kept. kept.work ≡ work) }
    ensures right { IfOk result (λ kept. IsFor known (work_view kept.tables)) }
    ensures steps { steps.new ≤ steps.old + both_costs known (Some 0) }
{
    match WorkTables::make(alloc, &FromEnacted, known, steps) {
        Ok(tables) => Ok(Kept {
            work,
            reading,
            tables,
        }),
        Err(Memory) => {
            drop(work);
            Err(Memory)
        }
    }
}

/// Revises tables from the touched day on, if there is one, for what is known now.
pub fn revise<L: Ledger>(
    alloc: Global,
    known: Known,
    tables: &mut WorkTables,
    touched: Option<Day>,
    steps: &mut Steps<L>,
) -> Result<(), Memory>
    requires sound { IsSound known }
    requires right { AreRightUntil known touched (work_view tables.old) }
    ensures right { OnOk result (IsFor known (work_view tables.new)) }
    ensures steps { steps.new ≤ steps.old + both_costs known touched }
{
    let revision = tables.revise(alloc, &FromEnacted, known, touched, steps)?;
    tables.commit(revision);
    Ok(())
}
