//! What a list of pieces asks of its values: each can be copied.

ghost use Rattle.std.specs.Prelude.{◌≡◌, ◌++◌, IfOk, OnOk};

use crate::piece::Piece;
use desk_base::{Memory, Text};
use std::alloc::Global;

/// Values of which there may be two alike.
pub trait Copied: Drop + Sized {
    /// The same value.
    fn copied(&self, alloc: Global) -> Result<Self, Memory>
        ensures { IfOk result (λ copy. copy ≡ self.now) };

    /// Adds copies of these values behind others.
    fn add_copies(alloc: Global, items: &[Self], all: &mut Vec<Self>) -> Result<(), Memory>
        ensures { OnOk result (all.new.items ≡ all.old.items ++ items.now) }
    {
        for item in items {
            all.push(item.copied(alloc)?)?;
        }
        Ok(())
    }
}

impl Copied for u32 {
    fn copied(&self, _alloc: Global) -> Result<u32, Memory> {
        Ok(*self)
    }

    fn add_copies(_alloc: Global, items: &[u32], all: &mut Vec<u32>) -> Result<(), Memory> {
        all.extend_from_slice(items)?;
        Ok(())
    }
}

impl<T: Drop> Copied for Piece<T> {
    fn copied(&self, _alloc: Global) -> Result<Piece<T>, Memory> {
        self.copy()
    }
}

impl Copied for Text {
    fn copied(&self, _alloc: Global) -> Result<Text, Memory> {
        self.copy()
    }
}

/// The same values, with room for so many more.
pub fn copies<T: Copied>(alloc: Global, items: &[T], more: usize) -> Result<Vec<T>, Memory>
    ensures { IfOk result (λ v. v.items ≡ items.now) }
{
    let mut copies = Vec::with_capacity(alloc, items.len().saturating_add(more))?;
    T::add_copies(alloc, items, &mut copies)?;
    Ok(copies)
}
