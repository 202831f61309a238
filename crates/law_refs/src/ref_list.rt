//! RefList: values in order, of one type. A clause sees them as a list.

ghost use Rattle.std.specs.Prelude.{◌≡◌, [], ◌++◌, ◌∷◌, OnOk, OnErr};

use desk_base::Memory;
use std::alloc::Global;
use std::marker::Model;

/// Values in order.
#[derive(Debug, Drop)]
pub struct RefList<T> {
    items: Vec<T>,
}

impl<T> Model for RefList<T> {
    ghost use Rattle.std.specs.Prelude.{List};
    ghost use Rattle.std.specs.Coded.{coded_list};

    ghost Value = { List T };

    ghost coded = { coded_list T.code };

    ghost view = { λ l. l.items.items };
}

impl<T> RefList<T> {
    /// No values. It takes no memory.
    pub fn new(alloc: Global) -> RefList<T>
        ensures { result ≡ [] }
    {
        RefList {
            items: Vec::new(alloc),
        }
    }

    /// The values as a slice.
    pub fn as_slice(&self) -> &[T]
        ensures { result.now ≡ self.now }
    {
        self.items.as_slice()
    }
}

impl<T: Drop> RefList<T> {
    /// Adds a value behind the others.
    pub fn push(&mut self, item: T) -> Result<(), Memory>
        ensures ok { OnOk result (self.new ≡ self.old ++ item ∷ []) }
        ensures err { OnErr result (self.new ≡ self.old) }
    {
        self.items.push(item)?;
        Ok(())
    }
}
