//! SqlKeeper: a keeper over a table of SQLite. A clause sees its opener, its connection, whether it is
//! ready, how many rows it has counted, and the faults that it counted.

ghost use Rattle.std.specs.Prelude.{◌≡◌, None, IfOk};
ghost use Rattle.law_journal.specs.Grammar.{Listing};
ghost use Rattle.law_journal.specs.Journals.{HasLoadCause, read_into};
ghost use Rattle.law_keeper.specs.declared.readiness.Readiness.TheVariants.{Unopened};
ghost use Rattle.law_keeper.specs.Keepers as spec;
ghost use Rattle.sql_keeper.specs.Openers.{FindsSame, HasRefusalCause};
ghost use Rattle.sql_keeper.specs.SqlKeepers.{AppendsRow, Connects, CountsDamage, ListsRows, LoadsRow, sum_of};

use crate::statements::{count_rows, insert_row, load_row, make_table};
use crate::{OpenRefused, Opener};
use desk_base::{LoadFault, count_fault};
use law_keeper::{KeepFault, Keeper, Readiness};
use sqlite::{Alter, Connection};
use std::alloc::Global;
use std::marker::Model;

/// Payloads in the table `entry` of a database, in rows of the numbers from 1 on. Once the table has been opened, damage
/// that is found is a fault. Faults are counted, and so are statements that SQLite refused for another cause than memory.
#[derive(Drop)]
pub struct SqlKeeper<O: Opener> {
    opener: O,
    connection: Option<Connection<O::Store>>,
    readiness: Readiness,
    rows: u64,
    faults: u64,
}

impl<O: Opener> Model for SqlKeeper<O> {
    ghost use Rattle.sql_keeper.specs.SqlKeepers.{HeldKeeper, held_keeper_code, IsKept};

    ghost Value = { HeldKeeper O O.Store };

    ghost coded = { held_keeper_code O.code O.Store.code };

    ghost view = { λ k. record {
      opener = k.opener;
      connection = k.connection;
      readiness = k.readiness;
      rows = k.rows;
      faults = k.faults;
    } };

    ghost invariant = { λ k. O.tells k.opener → IsKept O.Store.Store (O.list k.opener) k.connection k.readiness k.rows };
}

// Opens the connection where there is none.
fn connect<O: Opener>(
    opener: &mut O,
    connection: &mut Option<Connection<O::Store>>,
) -> Result<(), OpenRefused>
    ensures connected { Connects O.Store.Store (O.tells opener.old) (O.list opener.old) connection.old connection.new }
    ensures same { FindsSame (O.tells opener.old) (O.list opener.old) (O.tells opener.new) (O.list opener.new) }
    ensures cause { HasRefusalCause (O.faults opener.old) (O.faults opener.new) result }
{
    if connection.is_none() {
        *connection = Some(opener.open()?);
    }
    Ok(())
}

// Makes the table where it is missing, and counts its rows.
fn list_rows<S: Alter>(
    connection: &mut Option<Connection<S>>,
    faults: &mut u64,
) -> Result<u64, LoadFault>
    ensures listed { (found : Listing) → ListsRows S.Store found connection.old connection.new result }
    ensures cause { HasLoadCause faults.old faults.new result }
{
    let Some(connection) = connection else {
        return Err(LoadFault::from(count_fault(faults)));
    };
    make_table(connection, faults)?;
    count_rows(connection, faults)
}

// Opens the connection where there is none, and counts the rows of its table.
fn open_rows<O: Opener>(
    opener: &mut O,
    connection: &mut Option<Connection<O::Store>>,
    faults: &mut u64,
) -> Result<u64, LoadFault>
    ensures opened { O.tells opener.old → ListsRows O.Store.Store (O.list opener.old) connection.old connection.new result }
    ensures same { FindsSame (O.tells opener.old) (O.list opener.old) (O.tells opener.new) (O.list opener.new) }
    ensures cause { HasLoadCause (sum_of (O.faults opener.old) faults.old) (sum_of (O.faults opener.new) faults.new) result }
{
    connect(opener, connection)?;
    list_rows(connection, faults)
}

// Gives the payload behind so many others, where there are more.
fn load_at<S: Alter>(
    connection: &mut Option<Connection<S>>,
    rows: u64,
    cursor: u64,
    into: &mut Vec<u8>,
    faults: &mut u64,
) -> Result<Option<u64>, LoadFault>
    ensures given { LoadsRow S.Store connection.old connection.new rows cursor (read_into into.new.items result) }
    ensures later { IfOk result (spec.MovesOn cursor) }
    ensures cause { HasLoadCause faults.old faults.new result }
{
    if cursor >= rows {
        return Ok(None);
    }
    let Some(connection) = connection else {
        return Err(LoadFault::from(count_fault(faults)));
    };
    load_row(connection, cursor + 1, into, faults)?;
    Ok(Some(cursor + 1))
}

// Adds a payload behind so many others, and gives how many there are then.
fn append_to<S: Alter>(
    connection: &mut Option<Connection<S>>,
    rows: u64,
    payload: &[u8],
    faults: &mut u64,
) -> Result<u64, OpenRefused>
    ensures appended { AppendsRow S.Store connection.old connection.new rows payload.now result }
    ensures cause { HasRefusalCause faults.old faults.new result }
{
    let Some(number) = rows.checked_add(1) else {
        return Err(OpenRefused::from(count_fault(faults)));
    };
    let Some(connection) = connection else {
        return Err(OpenRefused::from(count_fault(faults)));
    };
    insert_row(connection, number, payload, faults)?;
    Ok(number)
}

// Counts damage that is found once a keeper has been opened.
fn count_damage<T>(answer: &Result<T, LoadFault>, readiness: Readiness, faults: &mut u64)
    ensures { CountsDamage readiness faults.old faults.new answer.now }
{
    if readiness != Readiness::Unopened && matches!(answer, Err(LoadFault::Damaged { .. })) {
        let _failed = count_fault(faults);
    }
}

// What a keeper that is ready is after a load.
fn after_load<T>(answer: &Result<T, LoadFault>) -> Readiness
    ensures { result ≡ spec.after_load answer.now }
{
    match answer {
        Ok(_) | Err(LoadFault::Memory) => Readiness::Ready,
        Err(LoadFault::Failed | LoadFault::Damaged { .. }) => Readiness::Stopped,
    }
}

// What a keeper is after an opening was refused.
fn after_refusal(readiness: Readiness) -> Readiness
    ensures { result ≡ spec.after_refusal readiness }
{
    match readiness {
        Readiness::Unopened => Readiness::Unopened,
        Readiness::Ready | Readiness::Stopped => Readiness::Stopped,
    }
}

impl<O: Opener> SqlKeeper<O> {
    /// A keeper over the database that an opener opens. Nothing is asked of it yet.
    pub fn new(opener: O) -> SqlKeeper<O>
        ensures { result ≡ record { opener = opener; connection = None; readiness = Unopened; rows = 0; faults = 0 } }
    {
        SqlKeeper {
            opener,
            connection: None,
            readiness: Readiness::Unopened,
            rows: 0,
            faults: 0,
        }
    }
}

impl<O: Opener> Keeper for SqlKeeper<O> {
    ghost use Rattle.sql_keeper.specs.SqlKeepers.{holding_of, told_is};

    ghost holding = { λ keeper. holding_of O.Store.Store (O.tells keeper.opener) (O.list keeper.opener) keeper.connection };

    ghost readiness = { λ keeper. keeper.readiness };

    ghost faults = { λ keeper. sum_of (O.faults keeper.opener) keeper.faults };

    fn load(&mut self, cursor: u64, into: &mut Vec<u8>) -> Result<Option<u64>, LoadFault> {
        let loaded = load_at(
            &mut self.connection,
            self.rows,
            cursor,
            into,
            &mut self.faults,
        );
        count_damage(&loaded, Readiness::Ready, &mut self.faults);
        self.readiness = after_load(&loaded);
        loaded
    }

    fn append(&mut self, _alloc: Global, payload: &[u8]) -> Result<u64, KeepFault> {
        match append_to(&mut self.connection, self.rows, payload, &mut self.faults) {
            Ok(rows) => {
                self.rows = rows;
                Ok(rows)
            }
            Err(OpenRefused::Failed) => {
                self.readiness = Readiness::Stopped;
                Err(KeepFault::Failed)
            }
            Err(OpenRefused::Memory) => Err(KeepFault::Memory),
        }
    }

    fn reopen(&mut self, _alloc: Global) -> Result<(), LoadFault> {
        let opening = open_rows(&mut self.opener, &mut self.connection, &mut self.faults);
        count_damage(&opening, self.readiness, &mut self.faults);
        match opening {
            Ok(rows) => {
                self.rows = rows;
                self.readiness = Readiness::Ready;
                Ok(())
            }
            Err(fault) => {
                self.readiness = after_refusal(self.readiness);
                Err(fault)
            }
        }
    }

    ghost is_holding = { λ keeper. told_is _ _ _ };
}
