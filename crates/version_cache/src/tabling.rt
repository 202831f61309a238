//! Making a table.

ghost use Rattle.std.specs.Prelude.{◌≡◌, ◌+◌, ◌≤◌, IfOk};
ghost use Rattle.law_register.specs.Answer.Breakpoints.{breakpoints};
ghost use Rattle.law_register.specs.Answer.Costs.{revision_cost};
ghost use Rattle.law_register.specs.Answer.Soundness.{IsSound};
ghost use Rattle.version_cache.specs.Seen.{table_view};
ghost use Rattle.version_cache.specs.Tables.{IsRight, table_of};

use crate::Table;
use crate::making::{Course, Start, add_rows, keep_enacted};
use desk_base::{Day, Memory, Steps};
use law_register::{Ids, Known, Reading, Replayer};
use std::alloc::Global;
use std::sync::ledger::Ledger;

impl Table {
    // The table of a work of which this is known, whose breakpoints these are.
    #[tactic(auto, unfolding(law_register::specs::Answer::Costs::revision_cost))]
    pub(crate) fn make_on<P: Replayer, L: Ledger>(
        alloc: Global,
        replayer: &P,
        known: &Known,
        reading: Reading,
        days: &[Day],
        steps: &mut Steps<L>,
    ) -> Result<Table, Memory>
        requires sound { IsSound known.now }
        requires days { days.now ≡ breakpoints known.now }
        ensures table { IfOk result (λ table. table_view table ≡ table_of known.now reading) }
        ensures right { IfOk result (λ table. IsRight known.now (table_view table)) }
        ensures steps { steps.new ≤ steps.old + revision_cost known.now reading 0 }
    {
        let orders = replayer.orders_at(alloc, known, reading, days)?;
        let enacted = keep_enacted(alloc, known)?;
        let mut working = enacted.version().copy(alloc)?;
        let mut rows = Vec::new(alloc);
        let course = Course {
            known,
            reading,
            enacted: &enacted,
        };
        let start = Start {
            ids: Ids::new(alloc),
            last: &enacted,
        };
        add_rows(
            alloc,
            &course,
            start,
            days,
            orders,
            &mut working,
            &mut rows,
            steps,
        )?;
        Ok(Table {
            reading,
            enacted,
            rows,
            working: None,
        })
    }
    /// The table of a work of which this is known: a row for each breakpoint. At each only those modifications are applied that
    /// were not at the one before, where they follow those.
    pub fn make<P: Replayer, L: Ledger>(
        alloc: Global,
        replayer: &P,
        known: &Known,
        reading: Reading,
        steps: &mut Steps<L>,
    ) -> Result<Table, Memory>
        requires { IsSound known.now }
        ensures table { IfOk result (λ table. table_view table ≡ table_of known.now reading) }
        ensures right { IfOk result (λ table. IsRight known.now (table_view table)) }
        ensures steps { steps.new ≤ steps.old + revision_cost known.now reading 0 }
    {
        let days = replayer.breakpoints(alloc, known)?;
        Table::make_on(alloc, replayer, known, reading, days.as_slice(), steps)
    }
}
