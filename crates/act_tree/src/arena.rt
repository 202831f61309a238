//! Arena: the provisions of a tree in slots, each with the number of the one above it and the numbers of those below
//! it, an index that leads from a wId to a number, and one of the numbers by the hashes of their levels. Slots are added
//! and never taken away. An own arena is written to; a kept one shares pieces of all its lists with others.

ghost use Rattle.std.specs.Prelude.{◌≡◌, true, map, ℕ, List, [], ◌∷◌, ◌++◌, ◌<◌, ◌≤◌, ◌^◌, IfOk, OnOk, OnErr, None, length};
ghost use Rattle.act_tree.specs.LevelHashes.{slot_hash};

use crate::hash_index::HashIndex;
use crate::kept_list::KeptList;
use crate::level_hash::level_hash;
use crate::numbers::Numbers;
use crate::wid_index::WidIndex;
use crate::{NodeId, Refs};
use desk_base::{Memory, Text};
use eid_paths::{Element, Num};
use std::alloc::Global;

/// A provision of a tree.
#[derive(Debug, Drop)]
pub struct Slot {
    /// Its wId, which never changes.
    pub wid: Text,
    /// The kind of provision.
    pub element: Element,
    /// Its number.
    pub num: Num,
    /// Its heading, empty where it has none.
    pub heading: Text,
    /// Its text, empty where it has none.
    pub content: Text,
    /// The expressions that it refers to.
    pub refs: Refs,
    /// The node right above it, or its own number where it was taken off.
    pub above: NodeId,
    /// The nodes right below it, in order.
    pub below: Numbers,
}

/// The provisions of an arena. Pieces are small, since a provision takes more bytes than a number.
pub type Slots = KeptList<Slot, 8>;

/// The provisions of a tree, and the indexes of their wIds and of their levels.
#[derive(Debug, Drop)]
pub struct Arena {
    /// The provision of each number; the first is the root.
    pub slots: Slots,
    /// The wId of each number; those of provisions that were taken off stay.
    pub numbers: WidIndex,
    /// The numbers by the hashes of their levels; those of provisions that were taken off stay.
    pub levels: HashIndex,
    ghost hashed: { levels.hashes ≡ map slot_hash slots.items },
    ghost noted: { length numbers.wids ≡ length levels.hashes },
    ghost alike: { slots.is_own ≡ numbers.is_own },
    ghost levels_alike: { levels.is_own ≡ numbers.is_own },
}

impl Arena {
    ghost use Rattle.std.specs.Prelude.{ℕ, ◌==◌, not, filter};
    ghost use Rattle.act_tree.specs.Arena.{climbs, climbs_past, above_in, below_in};
    ghost use Rattle.act_tree.specs.TakenOff.{with_above, with_below, IsTakenOff};
    ghost use Rattle.act_tree.specs.Planted.{IsAdded};
    ghost use Rattle.act_tree.specs.Slots.{at, number, size, provision_of, IsOwn, LeadsTo};

    /// No provisions, own. It takes no memory.
    pub fn new(alloc: Global) -> Arena
        ensures slots { result.slots.items ≡ [] }
        ensures numbers { (w : List ℕ) → number result w ≡ None }
        ensures own { IsOwn result }
    {
        Arena {
            slots: KeptList::new(alloc),
            numbers: WidIndex::new(alloc),
            levels: HashIndex::new(alloc),
        }
    }

    /// Adds a provision, and lets the indexes lead to it. `Err`: there was not enough memory, and nothing was added.
    #[tactic(auto, using(crate::proofs::OwnArenas::slots_own, crate::proofs::OwnArenas::levels_own))]
    pub fn add(&mut self, slot: Slot) -> Result<NodeId, Memory>
        requires { IsOwn self.old }
        ensures own { IsOwn self.new }
        ensures id { IfOk result (λ id. id ≡ length self.old.slots.items) }
        ensures slots { OnOk result (self.new.slots.items ≡ self.old.slots.items ++ slot ∷ []) }
        ensures numbers { OnOk result (LeadsTo self.old self.new slot.wid (length self.old.slots.items)) }
        ensures fits { OnOk result (size self.new ≤ 2 ^ 32) }
        ensures slots_kept { OnErr result (self.new.slots.items ≡ self.old.slots.items) }
        ensures numbers_kept { OnErr result ((w : List ℕ) → number self.new w ≡ number self.old w) }
    {
        let id = NodeId::of_place(self.slots.len()).ok_or(Memory)?;
        self.slots.reserve()?;
        self.levels.reserve()?;
        self.numbers.add(slot.wid.copy()?)?;
        self.levels.add(level_hash(slot.element, &slot.num));
        self.slots.push_reserved(slot);
        Ok(id)
    }

    /// Adds a provision that is right above itself, with nothing below it, and lets the index lead to it. `Err`: there was
    /// not enough memory, and nothing was added.
    #[tactic(auto, using(crate::proofs::OwnArenas::still_own))]
    pub fn add_alone(&mut self, slot: Slot) -> Result<NodeId, Memory>
        requires bare { slot.below.items ≡ [] }
        requires own { IsOwn self.old }
        ensures own { IsOwn self.new }
        ensures id { IfOk result (λ id. id ≡ size self.old) }
        ensures added { OnOk result (IsAdded self.old self.new (provision_of slot)) }
        ensures slots_kept { OnErr result (self.new.slots.items ≡ self.old.slots.items) }
        ensures numbers_kept { OnErr result ((w : List ℕ) → number self.new w ≡ number self.old w) }
    {
        let id = self.add(slot)?;
        self.set_above(id, id);
        Ok(id)
    }

    /// Whether the way up from a number ends at the root.
    pub fn climbs(&self, id: NodeId) -> bool
        ensures { result ≡ climbs (size self.now) (at self.now) id }
    {
        self.climbs_past(NodeId::root(), id)
    }

    /// Whether the way up from a number ends at the root and does not pass another one. Where that is the root, it is no
    /// hindrance.
    pub fn climbs_past(&self, gone: NodeId, id: NodeId) -> bool
        ensures { result ≡ climbs_past (size self.now) (at self.now) gone id }
    {
        let mut id = id;
        let mut steps = self.slots.len();
        while steps > 0 {
            if id.place() == 0 {
                return true;
            }
            if id == gone {
                return false;
            }
            let Some(slot) = self.slots.get(id.place()) else {
                return false;
            };
            if slot.above == id {
                return false;
            }
            id = slot.above;
            steps -= 1;
        }
        false
    }

    /// Sets the number right above one.
    #[tactic(auto, using(crate::proofs::HashedLevels::still_hashed, crate::proofs::OwnArenas::slots_own))]
    pub fn set_above(&mut self, id: NodeId, above: NodeId)
        requires within { id < size self.old }
        requires own { IsOwn self.old }
        ensures numbers { self.new.numbers ≡ self.old.numbers }
        ensures size { size self.new ≡ size self.old }
        ensures here { at self.new id ≡ with_above above (at self.old id) }
        ensures others { (k : ℕ) → (k ≡ id → ⊥) → at self.new k ≡ at self.old k }
    {
        self.slots.at_mut(id.place()).above = above;
    }

    // Takes a number out of the list of those right below another.
    #[tactic(auto, using(crate::proofs::HashedLevels::still_hashed, crate::proofs::OwnArenas::slots_own))]
    fn unlist(&mut self, above: NodeId, id: NodeId)
        requires within { above < size self.old }
        requires own { IsOwn self.old }
        ensures numbers { self.new.numbers ≡ self.old.numbers }
        ensures size { size self.new ≡ size self.old }
        ensures here { at self.new above
            ≡ with_below (filter (λ k. not (k == id)) (below_in (at self.old above))) (at self.old above) }
        ensures others { (k : ℕ) → (k ≡ above → ⊥) → at self.new k ≡ at self.old k }
    {
        self.slots.at_mut(above.place()).below.leave_out(id);
    }

    /// Takes a number off: it is right above itself from now on, and the one above it lists it no more. It needs no
    /// memory.
    #[tactic(auto, using(crate::proofs::OwnArenas::still_own))]
    pub fn take_off(&mut self, id: NodeId)
        requires own { IsOwn self.old }
        requires within { id < size self.old }
        requires above { above_in (at self.old id) < size self.old }
        requires apart { above_in (at self.old id) ≡ id → ⊥ }
        ensures numbers { self.new.numbers ≡ self.old.numbers }
        ensures size { size self.new ≡ size self.old }
        ensures taken { IsTakenOff (at self.old) (at self.new) id }
    {
        let above = self.slots[id.place()].above;
        self.unlist(above, id);
        self.set_above(id, id);
    }
}
