//! A table is what law_register asks of the versions of a work by day.

ghost use Rattle.std.specs.Prelude.{◌≡◌, ℕ};
ghost use Rattle.version_cache.specs.Seen.{table_view};
ghost use Rattle.version_cache.specs.Tables as tables;

use crate::Table;
use desk_base::{Day, Memory, Steps};
use law_register::{Dated, Known, Reading, Replayer, Version};
use std::alloc::Global;
use std::sync::ledger::Ledger;

impl Dated for Table {
    ghost version_on = { λ table day. tables.version_on (table_view table) day };

    fn make<P: Replayer, L: Ledger>(
        alloc: Global,
        replayer: &P,
        known: &Known,
        reading: Reading,
        steps: &mut Steps<L>,
    ) -> Result<Self, Memory> {
        Table::make(alloc, replayer, known, reading, steps)
    }

    fn on(&self, day: Day) -> &Version {
        Table::on(self, day)
    }
}
