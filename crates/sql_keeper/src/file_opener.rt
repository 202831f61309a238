//! FileOpener: an opener of a database file. A clause sees its count of faults.

ghost use Rattle.std.specs.Prelude.{◌≡◌};

use crate::open_refused::opened;
use crate::{OpenRefused, Opener};
use sqlite::{Connection, FileFrom, FileStore, Wary};
use std::rt::HostRuntime;

/// The name of the file.
const NAME: &str = "lawdesk.db";

/// Opens `lawdesk.db` in the working folder, and makes it where it is missing. The connection holds the lock of SQLite on
/// it, so another process that opens it is refused, and may find anything in it only once this one has let it go.
#[derive(Drop)]
pub struct FileOpener<'a> {
    rt: &'a HostRuntime,
    faults: u64,
}

impl<'a> FileOpener<'a> {
    /// Nothing is asked of the file yet.
    pub fn new(rt: &'a HostRuntime) -> FileOpener<'a>
        ensures { result.faults ≡ 0 }
    {
        FileOpener { rt, faults: 0 }
    }
}

impl Opener for FileOpener<'_> {
    type Store = FileStore<FileFrom<Wary>>;

    ghost use Rattle.std.specs.Prelude.{[], Ok};

    ghost tells = { λ opener. ⊥ };

    ghost list = { λ opener. Ok [] };

    ghost faults = { λ opener. opener.faults };

    fn open(&mut self) -> Result<Connection<FileStore<FileFrom<Wary>>>, OpenRefused> {
        opened(
            Connection::open_from(self.rt, NAME, false, Wary),
            &mut self.faults,
        )
    }

    ghost stays_open = { λ opener told. absurd told };
}
