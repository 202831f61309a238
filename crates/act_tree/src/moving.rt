//! Provisions that move: their children get another place, and so another number right above them.

ghost use Rattle.std.specs.Prelude.{◌≡◌};
ghost use Rattle.act_tree.specs.Siblings as spec;

use crate::arena::Arena;
use crate::numbers::Numbers;
use crate::{NodeId, Refs};
use desk_base::{Memory, Text};
use std::alloc::Global;

// The number right behind another in a list.
fn number_behind(numbers: &[NodeId], id: NodeId) -> Option<NodeId>
    ensures { result ≡ spec.number_behind id numbers.now }
{
    for place in 0..numbers.len() {
        if numbers[place] == id {
            return numbers.get(place + 1).copied();
        }
    }
    None
}

impl Arena {
    ghost use Rattle.std.specs.Prelude.{◌≡◌, ◌==◌, ◌<◌, ◌++◌, IfOk};
    ghost use Rattle.act_tree.specs.Arena.{above_in, below_in, provision_in};
    ghost use Rattle.act_tree.specs.Moved.{CanJoin, IsFilled, IsJoined};
    ghost use Rattle.act_tree.specs.Slots.{at, own_at, size, IsOwn};

    /// The number right behind one among those right below the number above it.
    pub fn next(&self, id: NodeId) -> Option<NodeId>
        requires within { id < size self.now }
        requires above { above_in (at self.now id) < size self.now }
        ensures { result ≡ spec.number_behind id (below_in (at self.now (above_in (at self.now id)))) }
    {
        let above = self.slots[id.place()].above;
        number_behind(self.slots[above.place()].below.as_slice(), id)
    }

    /// The refs of two provisions, one after the other.
    pub fn refs_of_both(&self, alloc: Global, id: NodeId, next: NodeId) -> Result<Refs, Memory>
        requires within { id < size self.now }
        requires next { next < size self.now }
        ensures { IfOk result (λ refs. refs ≡ (own_at self.now id).refs ++ (own_at self.now next).refs) }
    {
        self.slots[id.place()]
            .refs
            .joined(alloc, &self.slots[next.place()].refs)
    }

    /// The numbers right below two, one after the other.
    pub fn below_both(&self, alloc: Global, id: NodeId, next: NodeId) -> Result<Vec<NodeId>, Memory>
        requires within { id < size self.now }
        requires next { next < size self.now }
        ensures { IfOk result (λ numbers. numbers.items ≡ below_in (at self.now id) ++ below_in (at self.now next)) }
    {
        let mut below = self.slots[id.place()].below.as_slice().to_vec(alloc)?;
        below.extend_from_slice(self.slots[next.place()].below.as_slice())?;
        Ok(below)
    }

    // Gives a provision another content and refs, and sets the numbers right below it.
    #[tactic(auto, using(crate::proofs::HashedLevels::still_hashed, crate::proofs::OwnArenas::slots_own))]
    fn fill(&mut self, id: NodeId, content: Text, refs: Refs, below: Vec<NodeId>)
        requires within { id < size self.old }
        requires own { IsOwn self.old }
        ensures numbers { self.new.numbers ≡ self.old.numbers }
        ensures size { size self.new ≡ size self.old }
        ensures filled { IsFilled (at self.old) (at self.new) id
            (record (own_at self.old id) { content = content; refs = refs }) below.items }
    {
        let slot = self.slots.at_mut(id.place());
        slot.content = content;
        slot.refs = refs;
        slot.below = Numbers::of(below);
    }

    /// Takes a number off, and gives another one the content, the refs, and all those right below it.
    #[tactic(auto, using(crate::proofs::OwnArenas::still_own))]
    pub fn join(&mut self, id: NodeId, next: NodeId, content: Text, refs: Refs, below: Vec<NodeId>)
        requires can { CanJoin (at self.old) (size self.old) id next below.items }
        requires own { IsOwn self.old }
        ensures numbers { self.new.numbers ≡ self.old.numbers }
        ensures size { size self.new ≡ size self.old }
        ensures joined { IsJoined self.old self.new id next
            (record (own_at self.old id) { content = content; refs = refs }) below.items }
    {
        self.take_off(next);
        self.take_all(next);
        self.fill(id, content, refs, below);
        self.settle(id);
    }
}
