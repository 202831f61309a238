//! Notes: a list that is held, with a hash of its entries.

ghost use Rattle.std.specs.Prelude.{◌≡◌, []};
ghost use mathlib.Core.List.{IsPrefix};

use std::alloc::{AllocError, Global};
use turn_lock::Held;

/// A list of numbers.
#[derive(Drop)]
pub struct Notes {
    entries: Vec<u64>,
    hash: u64,
}

/// How much of a list was seen: its length and the hash of its entries.
#[derive(Clone, Copy, PartialEq, Eq)]
pub struct Mark {
    pub length: usize,
    pub hash: u64,
}

impl Held for Notes {
    type Item = u64;

    ghost history = { λ notes. notes.entries.items };

    ghost origin = { λ notes. [] };

    fn count(&self) -> u64 {
        self.entries.len() as u64
    }
}

impl Notes {
    /// A list with room for so many entries.
    pub fn with_room(alloc: Global, entries: usize) -> Result<Notes, AllocError> {
        Ok(Notes {
            entries: Vec::with_capacity(alloc, entries)?,
            hash: 0,
        })
    }

    /// Adds an entry, if there is room.
    pub fn note(&mut self, entry: u64)
        ensures { IsPrefix self.old.entries.items self.new.entries.items }
    {
        if self.entries.len() < self.entries.capacity() {
            self.entries.push_reserved(entry);
            self.hash = hash_on(self.hash, entry);
        }
    }

    /// What there is of it.
    pub fn mark(&self) -> Mark {
        Mark {
            length: self.entries.len(),
            hash: self.hash,
        }
    }

    /// Whether each mark is of a front of the list, and none is shorter than the one before it.
    pub fn has_fronts(&self, marks: &[Mark]) -> bool {
        let mut front = Mark { length: 0, hash: 0 };
        for mark in marks {
            if mark.length < front.length || mark.length > self.entries.len() {
                return false;
            }
            for entry in &self.entries.as_slice()[front.length..mark.length] {
                front.hash = hash_on(front.hash, *entry);
            }
            front.length = mark.length;
            if front != *mark {
                return false;
            }
        }
        true
    }
}

fn hash_on(hash: u64, entry: u64) -> u64 {
    (hash ^ entry).wrapping_mul(0x0100_0000_01b3)
}
