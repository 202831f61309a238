//! What holds of the tables of past viewpoints. Each law is a function that does nothing, whose clause is the law.

ghost use Rattle.std.specs.Prelude.{◌++◌, List};
ghost use Rattle.law_register.specs.declared.register.entry.Entry.{Entry};
ghost use Rattle.viewpoints.specs.Right.{IsRight};

use crate::PastTables;
use law_register::Dated;

/// What is right for the entries of a register stays right whatever entries come behind them.
pub fn right_tables_stay_right<T: Dated>(_past: &PastTables<T>)
    ensures { (entries more : List Entry) → IsRight T.version_on entries _past.now
        → IsRight T.version_on (entries ++ more) _past.now }
{}
