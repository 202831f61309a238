//! What it costs to revise a table.

use desk_base::{Day, Id, Memory};
use law_register::{Ids, Known, Reading, Replayer};
use replay_core::FromEnacted;
use std::alloc::Global;

// How many ids are applied on a day after those of the day before.
fn ids_applied(before: &[Id], ids: &[Id]) -> u64 {
    if ids.starts_with(before) {
        (ids.len() - before.len()) as u64
    } else {
        ids.len() as u64
    }
}

// A cost with that of a day more, if it is counted, up to the greatest number.
fn with_day(cost: u64, is_counted: bool, before: &[Id], ids: &[Id]) -> u64 {
    if is_counted {
        cost.saturating_add(ids_applied(before, ids))
    } else {
        cost
    }
}

/// What it costs to revise the versions of a work from a day on, up to the greatest number.
pub fn cost_from(
    alloc: Global,
    known: &Known,
    reading: Reading,
    touched: Day,
) -> Result<u64, Memory> {
    let days = FromEnacted.breakpoints(alloc, known)?;
    let mut before = Ids::new(alloc);
    let mut cost = 0_u64;
    for day in days.as_slice() {
        let ids = FromEnacted.order_at(alloc, known, reading, *day)?;
        cost = with_day(cost, touched <= *day, before.as_slice(), ids.as_slice());
        before = ids;
    }
    Ok(cost)
}

/// What it costs to revise them from the touched day on, if there is one.
pub fn cost_touched(
    alloc: Global,
    known: &Known,
    reading: Reading,
    touched: &Option<Day>,
) -> Result<u64, Memory> {
    match touched {
        Some(day) => cost_from(alloc, known, reading, *day),
        None => Ok(0),
    }
}
