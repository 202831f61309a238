//! The statements of a keeper, one a function. A clause sees whether one was refused, which is counted.

ghost use Rattle.std.specs.Prelude.{◌≡◌, ◌<◌, ◌^◌, [], ◌∷◌, pos, is_some, Err, IsTrue, IfErr, IfOk, OnOk};
ghost use Rattle.sqlite.specs.Held.{state};
ghost use Rattle.sqlite.specs.Order.{column};
ghost use Rattle.sqlite.specs.Value.{owned};
ghost use Rattle.sqlite.specs.State.{Executes, HasCleanDisk};
ghost use Rattle.sqlite.specs.declared.types.Value.TheVariants.{Blob, Int};
ghost use Rattle.sql_keeper.specs.Connections.{IsChecked, StepsOn, MakesTable, CountsRows, GivesRow, PutsRow};
ghost use Rattle.sql_keeper.specs.Tables as table;
ghost use Rattle.law_journal.specs.Journals.{HasLoadCause};
ghost use Rattle.sql_keeper.specs.Openers.{HasRefusalCause, WantsMemory};
ghost use Rattle.sql_keeper.specs.declared.open_refused.OpenRefused.TheVariants as refusal;

use crate::OpenRefused;
use crate::open_refused::refusal_of;
use desk_base::{LoadFault, count_fault};
use sqlite::types::ValueRef;
use sqlite::{Alter, Connection, Row, Rows, params};

/// The most bytes of a payload.
const MOST: usize = 16_777_216;

/// Makes the table where it is missing.
pub(crate) fn make_table<S: Alter>(
    connection: &mut Connection<S>,
    faults: &mut u64,
) -> Result<(), OpenRefused>
    ensures made { MakesTable (state S.Store connection.old) (state S.Store connection.new) result }
    ensures wants { WantsMemory result (λ e. HasCleanDisk (state S.Store connection.new)
        → Executes table.create_text [] (state S.Store connection.old) (state S.Store connection.new) (Err e)) }
    ensures cause { HasRefusalCause faults.old faults.new result }
{
    match connection.execute(
        "CREATE TABLE IF NOT EXISTS entry (number INTEGER PRIMARY KEY, payload BLOB NOT NULL) STRICT",
        &[],
    ) {
        Ok(_) => Ok(()),
        Err(error) => Err(refusal_of(error, faults)),
    }
}

// Whether a value is a number.
fn is_number(found: ValueRef<'_>, number: u64) -> bool
    ensures { result ≡ table.is_number number (owned found.entry) }
{
    match found {
        ValueRef::Int(id) => u64::try_from(id) == Ok(number),
        _ => false,
    }
}

// Whether a value is a payload of 1 to 16,777,216 bytes.
fn is_payload(found: ValueRef<'_>) -> bool
    ensures { result ≡ is_some (table.payload_in (owned found.entry)) }
{
    match found {
        ValueRef::Blob(payload) => !payload.is_empty() && payload.len() <= MOST,
        _ => false,
    }
}

// Whether a row is the entry of a number.
fn is_entry(row: &Row, number: u64) -> bool
    ensures { result ≡ is_some (table.entry_of number row.now) }
{
    match (row.get_ref(0), row.get_ref(1)) {
        (Ok(found), Ok(payload)) => is_number(found, number) && is_payload(payload),
        _ => false,
    }
}

// A row has to be the entry of a number.
fn check_entry(row: &Row, number: u64) -> Result<bool, LoadFault>
    ensures { IsChecked number row.now result }
{
    if is_entry(row, number) {
        Ok(true)
    } else {
        Err(LoadFault::Damaged {
            place: number,
            byte: None,
        })
    }
}

// Whether there is a row more, which has to be the entry of a number.
fn has_entry<S: Alter>(
    rows: &mut Rows<'_, S>,
    number: u64,
    faults: &mut u64,
) -> Result<bool, LoadFault>
    ensures same_reference { rows.new.conn.ghost_name ≡ rows.old.conn.ghost_name }
    ensures was_open { IsTrue (state S.Store rows.new.conn.now).is_open → IsTrue (state S.Store rows.old.conn.now).is_open }
    ensures steps { StepsOn S.Store rows.old.conn.now rows.new.conn.now number result }
    ensures cause { HasLoadCause faults.old faults.new result }
{
    if let Err(error) = rows.advance() {
        return Err(LoadFault::from(refusal_of(error, faults)));
    }
    match rows.get() {
        Some(row) => check_entry(row, number),
        None => Ok(false),
    }
}

/// Counts the rows, which have to be the entries of the numbers from 1 on.
pub(crate) fn count_rows<S: Alter>(
    connection: &mut Connection<S>,
    faults: &mut u64,
) -> Result<u64, LoadFault>
    ensures counted { CountsRows (state S.Store connection.old) (state S.Store connection.new) result }
    ensures cause { HasLoadCause faults.old faults.new result }
{
    let mut rows = match connection.query(
        "SELECT number, payload FROM entry ORDER BY number",
        &[],
    ) {
        Ok(rows) => rows,
        Err(error) => return Err(LoadFault::from(refusal_of(error, faults))),
    };
    'rows: for number in 1..u64::MAX {
        if !has_entry(&mut rows, number, faults)? {
            return Ok(number - 1);
        }
    }
    Err(LoadFault::from(count_fault(faults)))
}

// Puts the payload of a row into a buffer.
fn copy_payload(row: &Row, into: &mut Vec<u8>, faults: &mut u64) -> Result<(), OpenRefused>
    ensures copied { OnOk result (column row.now 0 ≡ Blob into.new.items) }
    ensures cause { HasRefusalCause faults.old faults.new result }
{
    match row.get_ref(0) {
        Ok(ValueRef::Blob(payload)) => {
            into.clear();
            into.extend_from_slice(payload)?;
            Ok(())
        }
        _ => Err(OpenRefused::from(count_fault(faults))),
    }
}

// A number as SQLite has numbers.
fn id_of(number: u64, faults: &mut u64) -> Result<i64, OpenRefused>
    ensures value { IfOk result (λ id. id ≡ pos number) }
    ensures fits { IfOk result (λ _. number < 2 ^ 63) }
    ensures refused { IfErr result (λ refused. refused ≡ refusal.Failed) }
    ensures cause { HasRefusalCause faults.old faults.new result }
{
    match i64::try_from(number) {
        Ok(id) => Ok(id),
        Err(_) => Err(OpenRefused::from(count_fault(faults))),
    }
}

/// Puts the payload of a number into a buffer. That there is none is a refusal.
pub(crate) fn load_row<S: Alter>(
    connection: &mut Connection<S>,
    number: u64,
    into: &mut Vec<u8>,
    faults: &mut u64,
) -> Result<(), OpenRefused>
    ensures given { GivesRow (state S.Store connection.old) (state S.Store connection.new) number into.new.items result }
    ensures cause { HasRefusalCause faults.old faults.new result }
{
    let id = id_of(number, faults)?;
    match connection.query_row("SELECT payload FROM entry WHERE number = ?1", params![id]) {
        Ok(row) => copy_payload(&row, into, faults),
        Err(error) => Err(refusal_of(error, faults)),
    }
}

/// Adds a row.
pub(crate) fn insert_row<S: Alter>(
    connection: &mut Connection<S>,
    number: u64,
    payload: &[u8],
    faults: &mut u64,
) -> Result<(), OpenRefused>
    ensures put { PutsRow (state S.Store connection.old) (state S.Store connection.new) number payload.now result }
    ensures wants { WantsMemory result (λ e. HasCleanDisk (state S.Store connection.new)
        → Executes table.insert_text (Int (pos number) ∷ Blob payload.now ∷ []) (state S.Store connection.old)
        (state S.Store connection.new) (Err e)) }
    ensures cause { HasRefusalCause faults.old faults.new result }
{
    let id = id_of(number, faults)?;
    match connection.execute(
        "INSERT INTO entry (number, payload) VALUES (?1, ?2)",
        params![id, payload],
    ) {
        Ok(_) => Ok(()),
        Err(error) => Err(refusal_of(error, faults)),
    }
}
