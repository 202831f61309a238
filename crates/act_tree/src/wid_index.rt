//! Wid index: the wIds of all numbers, so that the last number of a wId is found. A clause sees the list of the wIds, in
//! the order of the numbers, and whether the index is own.

ghost use Rattle.std.specs.Prelude.{◌≡◌, true, false, ◌≤◌, ◌^◌, [], ◌∷◌, ◌++◌, length, IfOk, OnOk, OnErr};
ghost use Rattle.act_tree.specs.LastNumbers.{last_named};

use crate::NodeId;
use crate::hash_index::HashIndex;
use crate::kept_list::KeptList;
use crate::level_hash::hash_on;
use desk_base::{Memory, Text};
use std::alloc::Global;
use std::marker::Model;

/// The wId of each number.
#[derive(Debug, Drop)]
pub struct WidIndex {
    // The wIds, which are shared.
    wids: KeptList<Text, 16>,
    // The numbers by the hashes of their wIds.
    chains: HashIndex,
}

impl Model for WidIndex {
    ghost use Rattle.std.specs.Prelude.{◌≡◌, map};
    ghost use Rattle.act_tree.specs.LevelHashes.{hash_on};
    ghost use Rattle.act_tree.specs.WidIndexes.{WidIndexValue};

    ghost Value = { WidIndexValue };

    ghost view = { λ a. record { wids = a.wids.items; is_own = a.wids.is_own } };

    ghost invariant = { λ a. (a.chains.hashes ≡ map (hash_on 0) a.wids.items) × (a.chains.is_own ≡ a.wids.is_own) };
}

impl WidIndex {
    /// No wIds, own. It takes no memory.
    pub fn new(alloc: Global) -> WidIndex
        ensures wids { result.wids ≡ [] }
        ensures own { result.is_own ≡ true }
    {
        WidIndex {
            wids: KeptList::new(alloc),
            chains: HashIndex::new(alloc),
        }
    }

    /// Adds the wId of the next number. `Err`: there was not enough memory, and nothing was added.
    pub fn add(&mut self, wid: Text) -> Result<(), Memory>
        requires { self.old.is_own ≡ true }
        ensures own { self.new.is_own ≡ true }
        ensures ok { OnOk result (self.new.wids ≡ self.old.wids ++ wid ∷ []) }
        ensures err { OnErr result (self.new.wids ≡ self.old.wids) }
    {
        self.wids.reserve()?;
        self.chains.reserve()?;
        self.chains.add(hash_on(0, wid.as_str().as_bytes()));
        self.wids.push_reserved(wid);
        Ok(())
    }

    /// The last number of a wId. `None`: no number has it. (The numbers that share the hash of the wId are visited, and no
    /// others.)
    pub fn last(&self, wid: &[u8]) -> Option<NodeId>
        requires { length self.now.wids ≤ 2 ^ 32 }
        ensures { result ≡ last_named self.now.wids wid.now }
    {
        let mut end = self.chains.last(hash_on(0, wid));
        while end > 0 {
            let place = end - 1;
            if wid == self.wids[place].as_str().as_bytes() {
                return NodeId::of_place(place);
            }
            end = self.chains.previous(place);
        }
        None
    }

    /// The same index, own.
    pub fn own_copy(&self, alloc: Global) -> Result<WidIndex, Memory>
        ensures wids { IfOk result (λ index. index.wids ≡ self.now.wids) }
        ensures own { IfOk result (λ index. index.is_own ≡ true) }
    {
        Ok(WidIndex {
            wids: self.wids.own_copy(alloc)?,
            chains: self.chains.own_copy(alloc)?,
        })
    }

    /// The same index, kept. What was not written since it was kept last is shared.
    pub fn keep(&mut self, alloc: Global) -> Result<WidIndex, Memory>
        ensures same { self.new ≡ self.old }
        ensures wids { IfOk result (λ index. index.wids ≡ self.old.wids) }
        ensures kept { IfOk result (λ index. index.is_own ≡ false) }
    {
        Ok(WidIndex {
            wids: self.wids.keep(alloc)?,
            chains: self.chains.keep(alloc)?,
        })
    }
}
