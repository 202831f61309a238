//! Opener: who opens the connection of a keeper. A clause sees whether it tells what
//! its connections hold, the list that an opening finds, and a count of the openings that failed.

ghost use Rattle.std.specs.Prelude.{ℕ, IfOk, IsTrue};
ghost use Rattle.law_journal.specs.Grammar.{Listing};
ghost use Rattle.sqlite.specs.Held.{Held, state};
ghost use Rattle.sql_keeper.specs.Openers.{FindsSame, HasRefusalCause, IsFound};

use crate::OpenRefused;
use sqlite::{Alter, Connection};

/// Who opens the connection of a keeper.
pub trait Opener {
    /// Where the database is.
    type Store: Alter + Drop;

    /// Whether it tells what its connections hold; nothing more is known of one that does not.
    ghost tells: { Self → Type 0 };

    /// The list that an opening finds.
    ghost list: { Self → Listing };

    /// How many openings have failed so far. The count stands still at its last value.
    ghost faults: { Self → ℕ };

    /// Opens a connection.
    fn open(&mut self) -> Result<Connection<Self::Store>, OpenRefused>
        ensures found { tells self.old → IfOk result (IsFound Self.Store.Store (list self.old)) }
        ensures same { FindsSame (tells self.old) (list self.old) (tells self.new) (list self.new) }
        ensures cause { HasRefusalCause (faults self.old) (faults self.new) result };

    /// No failure shuts a connection of one that tells.
    ghost stays_open: { (opener : Self) → tells opener → (connection : Held Self.Store) → IsTrue (state Self.Store.Store connection).is_open };
}
