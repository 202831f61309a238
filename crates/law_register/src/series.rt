//! Series: values in order, of one type. A clause sees them as a list.

ghost use Rattle.std.specs.Prelude.{◌≡◌, [], ◌++◌, ◌∷◌, OnOk, OnErr};

use desk_base::Memory;
use std::alloc::Global;
use std::marker::Model;

/// Values in order.
#[derive(Debug, Drop)]
pub struct Series<T> {
    pub(crate) items: Vec<T>,
}

impl<T> Model for Series<T> {
    ghost use Rattle.std.specs.Prelude.{List};
    ghost use Rattle.std.specs.Coded.{coded_list};

    ghost Value = { List T };

    ghost coded = { coded_list T.code };

    ghost view = { λ s. s.items.items };
}

impl<T> Series<T> {
    /// No values. It takes no memory.
    pub fn new(alloc: Global) -> Series<T>
        ensures { result ≡ [] }
    {
        Series {
            items: Vec::new(alloc),
        }
    }

    /// The values as a slice.
    pub fn as_slice(&self) -> &[T]
        ensures { result.now ≡ self.now }
    {
        self.items.as_slice()
    }

    /// The vector of the values.
    pub fn into_vec(self) -> Vec<T>
        ensures { result.items ≡ self }
    {
        self.items
    }
}

impl<T: Drop> Series<T> {
    /// Adds a value behind the others.
    pub fn push(&mut self, item: T) -> Result<(), Memory>
        ensures ok { OnOk result (self.new ≡ self.old ++ item ∷ []) }
        ensures err { OnErr result (self.new ≡ self.old) }
    {
        self.items.push(item)?;
        Ok(())
    }
}

impl<T> From<Vec<T>> for Series<T> {
    ghost from_gives = { λ items series. series ≡ items.items };

    fn from(items: Vec<T>) -> Self {
        Series { items }
    }
}

impl<T: PartialEq> PartialEq for Series<T> {
    ghost use Rattle.std.specs.Cmp.Lexicographic.{pointwise, lists_per};

    ghost eq = { pointwise T.eq };

    ghost laws = { lists_per T.laws };

    fn eq(&self, other: &Self) -> bool {
        self.as_slice() == other.as_slice()
    }
}

impl<T: Eq> Eq for Series<T> {
    ghost use Rattle.std.specs.Cmp.Lexicographic.{lists_equiv};

    ghost laws = { lists_equiv T.Eq.laws };
}
