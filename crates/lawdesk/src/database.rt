//! Database: the database of the working folder, as a keeper of the program's own.

use desk_base::LoadFault;
use law_keeper::{KeepFault, Keeper};
use sql_keeper::{FileOpener, SqlKeeper};
use std::alloc::Global;
use std::rt::HostRuntime;

/// The database of the working folder. What it is made of stays in here: whoever is generic in a keeper sees one type
/// with no parameters, and not all of SQLite.
#[derive(Drop)]
pub struct Database<'a> {
    keeper: SqlKeeper<FileOpener<'a>>,
}

impl<'a> Database<'a> {
    /// Nothing is asked of it yet.
    pub fn new(files: &'a HostRuntime) -> Database<'a> {
        Database {
            keeper: SqlKeeper::new(FileOpener::new(files)),
        }
    }
}

impl<'a> Keeper for Database<'a> {
    ghost use Rattle.sql_keeper.specs.SqlKeepers.{told_is};

    ghost holding = { λ database. ⟦<SqlKeeper<FileOpener<'a>> as Keeper>⟧.holding database.keeper };

    ghost readiness = { λ database. ⟦<SqlKeeper<FileOpener<'a>> as Keeper>⟧.readiness database.keeper };

    ghost faults = { λ database. ⟦<SqlKeeper<FileOpener<'a>> as Keeper>⟧.faults database.keeper };

    fn load(&mut self, cursor: u64, into: &mut Vec<u8>) -> Result<Option<u64>, LoadFault> {
        self.keeper.load(cursor, into)
    }

    fn append(&mut self, alloc: Global, payload: &[u8]) -> Result<u64, KeepFault> {
        self.keeper.append(alloc, payload)
    }

    fn reopen(&mut self, alloc: Global) -> Result<(), LoadFault> {
        self.keeper.reopen(alloc)
    }

    ghost is_holding = { λ database. told_is _ _ _ };
}
