//! Which references dangle on a day, as a table: a row for each.

ghost use Rattle.std.specs.Prelude.{◌≡◌, ◌++◌, ◌∷◌, [], ℕ, List, IfOk, OnOk, map};
ghost use Rattle.law_register.specs.declared.register.entry.Entry.{Entry};
ghost use Rattle.law_refs.specs.Missing.{IsDangling};
ghost use Rattle.law_reports.specs.Dangling as spec;
ghost use Rattle.law_reports.specs.Dangling.{IsDanglingTable};
ghost use Rattle.law_reports.specs.Tables.{IsOpen, row, rows_text, written};

use crate::table::Table;
use desk_base::Memory;
use law_refs::{Dangling, DanglingRef};
use std::alloc::Global;

// The name of a cause by its number.
fn cause_named(number: u8) -> &'static str
    ensures { result.now ≡ spec.cause_named number }
{
    match number {
        1 => "UnknownWork",
        2 => "ViewpointAhead",
        3 => "NotYetEnacted",
        4 => "OtherLanguage",
        _ => "UnknownPortion",
    }
}

fn add_fields(
    table: &mut Table,
    work: &str,
    eid: &str,
    iri: &str,
    cause: &str,
) -> Result<(), Memory>
    requires { IsOpen table.old }
    ensures rows { OnOk result
        (written table.new ≡ written table.old ++ row (work.now ∷ eid.now ∷ iri.now ∷ cause.now ∷ [])) }
    ensures ready { OnOk result (IsOpen table.new) }
{
    table.add(&[
        work.as_bytes(),
        eid.as_bytes(),
        iri.as_bytes(),
        cause.as_bytes(),
    ])
}

fn add_one(table: &mut Table, one: &DanglingRef) -> Result<(), Memory>
    requires { IsOpen table.old }
    ensures rows { OnOk result (written table.new ≡ written table.old ++ row (spec.dangling_row one.now)) }
    ensures ready { OnOk result (IsOpen table.new) }
{
    add_fields(
        table,
        one.work.as_str(),
        one.eid.as_str(),
        one.iri.as_str(),
        cause_named(one.cause),
    )
}

fn add_all(table: &mut Table, found: &[DanglingRef]) -> Result<(), Memory>
    requires { IsOpen table.old }
    ensures rows { OnOk result
        (written table.new ≡ written table.old ++ rows_text (map spec.dangling_row found.now)) }
    ensures ready { OnOk result (IsOpen table.new) }
{
    for one in found {
        add_one(table, one)?;
    }
    Ok(())
}

#[tactic(auto, unfolding(crate::specs::Dangling::dangling_table))]
fn table_of(alloc: Global, found: &[DanglingRef]) -> Result<Vec<u8>, Memory>
    ensures { IfOk result (λ bytes. bytes.items ≡ spec.dangling_table found.now) }
{
    let mut table = Table::new(alloc);
    table.add(&[b"work", b"eId", b"ref", b"cause"])?;
    add_all(&mut table, found)?;
    table.into_bytes()
}

/// The table of references that dangle: a row for each, in their order, with its cause by name. Where they are all that dangle on a day
/// by a register, it is its table of that day.
pub fn dangling_refs(alloc: Global, found: &Dangling) -> Result<Vec<u8>, Memory>
    ensures table { IfOk result (λ bytes. bytes.items ≡ spec.dangling_table found.now) }
    ensures whole { (entries : List Entry) (day : ℕ) → IsDangling entries day found.now
        → IfOk result (λ bytes. IsDanglingTable entries day bytes.items) }
{
    table_of(alloc, found.as_slice())
}
