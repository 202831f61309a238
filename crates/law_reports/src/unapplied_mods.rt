//! What could not be applied on a day, as a table: a row for each modification of each work.

ghost use Rattle.std.specs.Prelude.{◌≡◌, ◌++◌, ◌∷◌, [], IfOk, OnOk, map};
ghost use Rattle.law_register.specs.declared.answer.question.Reading.TheVariants.{Force};
ghost use Rattle.law_register.specs.Answer.Replay.{replay_on};
ghost use Rattle.law_register.specs.Answer.Soundness.{IsSound};
ghost use Rattle.law_reports.specs.Tables.{IsOpen, row, rows_text, table_text, written};
ghost use Rattle.law_reports.specs.Unapplied as spec;
ghost use Rattle.law_reports.specs.Unapplied.{IsUnapplied};

use crate::table::Table;
use act_tree::Cause;
use desk_base::{Day, Id, Memory, Steps};
use frbr_names::WorkName;
use law_register::{Carrier, Known, Reading, Register, Replayer, known_held};
use std::alloc::Global;
use std::sync::ledger::Ledger;

fn add_fields(table: &mut Table, work: &str, id: &str, cause: &str) -> Result<(), Memory>
    requires { IsOpen table.old }
    ensures rows { OnOk result (written table.new ≡ written table.old ++ row (work.now ∷ id.now ∷ cause.now ∷ [])) }
    ensures ready { OnOk result (IsOpen table.new) }
{
    table.add(&[work.as_bytes(), id.as_bytes(), cause.as_bytes()])
}

fn add_one(
    alloc: Global,
    table: &mut Table,
    work: &WorkName,
    id: Id,
    cause: Cause,
) -> Result<(), Memory>
    requires { IsOpen table.old }
    ensures rows { OnOk result
        (written table.new ≡ written table.old ++ row (spec.unapplied_row work.now (id, cause))) }
    ensures ready { OnOk result (IsOpen table.new) }
{
    let id = id.spelled(alloc)?;
    add_fields(table, work.as_str(), id.as_str(), cause.name())
}

// Adds the rows of what could not be applied to a work.
fn add_all(
    alloc: Global,
    table: &mut Table,
    work: &WorkName,
    unapplied: &[(Id, Cause)],
) -> Result<(), Memory>
    requires { IsOpen table.old }
    ensures rows { OnOk result
        (written table.new ≡ written table.old ++ rows_text (map (spec.unapplied_row work.now) unapplied.now)) }
    ensures ready { OnOk result (IsOpen table.new) }
{
    for one in unapplied {
        add_one(alloc, table, work, one.0, one.1)?;
    }
    Ok(())
}

// Adds the rows of a work on a day that its act does not come after.
fn add_replayed<P: Replayer, L: Ledger>(
    alloc: Global,
    replayer: &P,
    table: &mut Table,
    work: &WorkName,
    known: &Known,
    day: Day,
    steps: &mut Steps<L>,
) -> Result<(), Memory>
    requires ready { IsOpen table.old }
    requires sound { IsSound known.now }
    ensures rows { OnOk result (written table.new
        ≡ written table.old ++ rows_text (map (spec.unapplied_row work.now) (replay_on known.now Force day).unapplied)) }
    ensures ready { OnOk result (IsOpen table.new) }
{
    let version = replayer.replay(alloc, known, Reading::Force, day, steps)?;
    add_all(alloc, table, work, version.unapplied.as_slice())
}

// Adds the rows of a work that is known.
fn add_known<P: Replayer, L: Ledger>(
    alloc: Global,
    replayer: &P,
    table: &mut Table,
    work: &WorkName,
    known: &Known,
    day: Day,
    steps: &mut Steps<L>,
) -> Result<(), Memory>
    requires ready { IsOpen table.old }
    requires sound { IsSound known.now }
    ensures rows { OnOk result
        (written table.new ≡ written table.old ++ rows_text (spec.rows_on day work.now known.now)) }
    ensures ready { OnOk result (IsOpen table.new) }
{
    if day < known.act.day {
        return Ok(());
    }
    add_replayed(alloc, replayer, table, work, known, day, steps)
}

// Adds the rows of a work.
fn add_work<P: Replayer, H: Carrier, L: Ledger>(
    alloc: Global,
    replayer: &P,
    carrier: &H,
    table: &mut Table,
    register: &Register,
    work: &WorkName,
    day: Day,
    steps: &mut Steps<L>,
) -> Result<(), Memory>
    requires { IsOpen table.old }
    ensures rows { OnOk result
        (written table.new ≡ written table.old ++ rows_text (spec.rows_of register.now.entries day work.now)) }
    ensures ready { OnOk result (IsOpen table.new) }
{
    match known_held(alloc, carrier, register, work, register.front(), steps)? {
        Some(known) => add_known(alloc, replayer, table, work, &known, day, steps),
        None => Ok(()),
    }
}

// The table of works, one work after another.
fn table_of<P: Replayer, H: Carrier, L: Ledger>(
    alloc: Global,
    replayer: &P,
    carrier: &H,
    register: &Register,
    works: &[WorkName],
    day: Day,
    steps: &mut Steps<L>,
) -> Result<Vec<u8>, Memory>
    ensures { IfOk result (λ bytes. bytes.items
        ≡ table_text spec.unapplied_names (spec.rows_of_all register.now.entries day works.now)) }
{
    let mut table = Table::new(alloc);
    table.add(&[b"work", b"id", b"cause"])?;
    for work in works {
        add_work(
            alloc, replayer, carrier, &mut table, register, work, day, steps,
        )?;
    }
    table.into_bytes()
}

/// What could not be applied on a day, as a table: of each work that was enacted by then, in the order of the bytes of their IRIs,
/// what of its text in force could not be applied, by what stands at the front. It replays each work once.
pub fn unapplied<P: Replayer, H: Carrier, L: Ledger>(
    alloc: Global,
    replayer: &P,
    carrier: &H,
    register: &Register,
    day: Day,
    steps: &mut Steps<L>,
) -> Result<Vec<u8>, Memory>
    ensures { IfOk result (λ bytes. IsUnapplied register.now.entries day bytes.items) }
{
    let works = register.works(alloc)?;
    table_of(alloc, replayer, carrier, register, &works, day, steps)
}
