//! A piece of a list, which lists share: a clause sees it as the list of its values.

ghost use Rattle.std.specs.Prelude.{◌≡◌, ◌<◌, [], ◌∷◌, ◌++◌, length, slice_set, IfOk, OnOk, OnErr};

use crate::copied::{Copied, copies};
use desk_base::Memory;
use std::alloc::Global;
use std::marker::Model;
use std::sync::Arc;

/// Values in order, which are shared. A piece that is shared is never changed: another one is made in its place.
#[derive(Debug, Drop)]
pub struct Piece<T> {
    items: Arc<Vec<T>>,
}

impl<T> Model for Piece<T> {
    ghost use Rattle.std.specs.Prelude.{List};
    ghost use Rattle.std.specs.Coded.{coded_list};
    ghost use Rattle.std.specs.Arc.{arc_value};

    ghost Value = { List T };

    ghost coded = { coded_list T.code };

    ghost view = { λ p. (arc_value p.items).items };
}

impl<T> Piece<T> {
    /// The values as a slice.
    pub fn as_slice(&self) -> &[T]
        ensures { result.now ≡ self.now }
    {
        self.items.as_slice()
    }
}

impl<T: Drop> Piece<T> {
    /// The values, behind a count.
    pub fn new(alloc: Global, items: Vec<T>) -> Result<Piece<T>, Memory>
        ensures { IfOk result (λ p. p ≡ items.items) }
    {
        Ok(Piece {
            items: Arc::new(alloc, items)?,
        })
    }

    /// The same piece, shared.
    pub fn copy(&self) -> Result<Piece<T>, Memory>
        ensures { IfOk result (λ p. p ≡ self.now) }
    {
        Ok(Piece {
            items: self.items.clone()?,
        })
    }
}

impl<T: Copied> Piece<T> {
    /// Puts another value in the place of one. `Err`: there was not enough memory, and nothing has changed.
    pub fn set(&mut self, alloc: Global, place: usize, value: T) -> Result<(), Memory>
        requires { place < length self.old }
        ensures ok { OnOk result (self.new ≡ slice_set self.old place value) }
        ensures err { OnErr result (self.new ≡ self.old) }
    {
        match Arc::get_mut(&mut self.items) {
            Some(items) => items[place] = value,
            None => {
                let mut items = copies(alloc, self.as_slice(), 0)?;
                items[place] = value;
                self.items = Arc::new(alloc, items)?;
            }
        }
        Ok(())
    }

    /// Adds a value behind the others. `Err`: there was not enough memory, and nothing has changed.
    pub fn push(&mut self, alloc: Global, value: T) -> Result<(), Memory>
        ensures ok { OnOk result (self.new ≡ self.old ++ value ∷ []) }
        ensures err { OnErr result (self.new ≡ self.old) }
    {
        match Arc::get_mut(&mut self.items) {
            Some(items) => items.push(value)?,
            None => {
                let mut items = copies(alloc, self.as_slice(), 1)?;
                items.push(value)?;
                self.items = Arc::new(alloc, items)?;
            }
        }
        Ok(())
    }
}
