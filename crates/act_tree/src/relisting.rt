//! Lists of those right below a number that become others: those that leave it are taken off, and those that come have
//! it right above them.

use crate::NodeId;
use crate::arena::Arena;
use crate::numbers::Numbers;

impl Arena {
    ghost use Rattle.std.specs.Prelude.{ℕ, ◌≡◌, ◌==◌, ◌<◌, ◌≤◌, false, [], take, drop, length};
    ghost use Rattle.std.specs.List.{All, list_any};
    ghost use Rattle.act_tree.specs.Arena.{below_in};
    ghost use Rattle.act_tree.specs.Moved.{IsFilled};
    ghost use Rattle.act_tree.specs.Relisted.{IsRaised, IsRelisted};
    ghost use Rattle.act_tree.specs.Slots.{at, own_at, size, IsOwn};

    /// Lets those right below a number, from one place on, be right above themselves. It needs no memory.
    #[tactic(auto, using(crate::proofs::OwnArenas::still_own))]
    pub fn release(&mut self, id: NodeId, first: usize)
        requires own { IsOwn self.old }
        requires within { id < size self.old }
        requires place { first ≤ length (below_in (at self.old id)) }
        requires children { All (λ k. k < size self.old) (below_in (at self.old id)) }
        ensures numbers { self.new.numbers ≡ self.old.numbers }
        ensures size { size self.new ≡ size self.old }
        ensures raised { IsRaised (at self.old) (at self.new) (drop first (below_in (at self.old id))) (λ k. k) }
    {
        for place in first..self.slots[id.place()].below.len() {
            let child = self.slots[id.place()].below[place];
            self.set_above(child, child);
        }
    }

    /// Lets each of those right below a number have it right above them. It needs no memory.
    #[tactic(auto, using(crate::proofs::OwnArenas::still_own))]
    pub fn settle(&mut self, id: NodeId)
        requires own { IsOwn self.old }
        requires within { id < size self.old }
        requires children { All (λ k. k < size self.old) (below_in (at self.old id)) }
        ensures numbers { self.new.numbers ≡ self.old.numbers }
        ensures size { size self.new ≡ size self.old }
        ensures raised { IsRaised (at self.old) (at self.new) (below_in (at self.old id)) (λ k. id) }
    {
        for place in 0..self.slots[id.place()].below.len() {
            let child = self.slots[id.place()].below[place];
            self.set_above(child, id);
        }
    }

    // Lets numbers have one right above them.
    #[tactic(auto, using(crate::proofs::OwnArenas::still_own))]
    fn raise(&mut self, ids: &[NodeId], above: NodeId)
        requires come { All (λ k. k < size self.old) ids.now }
        requires own { IsOwn self.old }
        ensures numbers { self.new.numbers ≡ self.old.numbers }
        ensures size { size self.new ≡ size self.old }
        ensures raised { IsRaised (at self.old) (at self.new) ids.now (λ k. above) }
    {
        for id in ids {
            self.set_above(*id, above);
        }
    }

    /// Sets the numbers right below one.
    #[tactic(auto, using(crate::proofs::HashedLevels::still_hashed, crate::proofs::OwnArenas::slots_own))]
    pub fn relist(&mut self, id: NodeId, below: Vec<NodeId>)
        requires within { id < size self.old }
        requires own { IsOwn self.old }
        ensures numbers { self.new.numbers ≡ self.old.numbers }
        ensures size { size self.new ≡ size self.old }
        ensures filled { IsFilled (at self.old) (at self.new) id (own_at self.old id) below.items }
    {
        self.slots.at_mut(id.place()).below = Numbers::of(below);
    }

    /// Gives a number others right below it, which have it right above them. It needs no memory.
    #[tactic(auto, using(crate::proofs::OwnArenas::still_own))]
    pub fn hold(&mut self, id: NodeId, below: Vec<NodeId>)
        requires own { IsOwn self.old }
        requires within { id < size self.old }
        requires come { All (λ k. k < size self.old) below.items }
        requires apart { list_any (λ j. j == id) below.items ≡ false }
        ensures numbers { self.new.numbers ≡ self.old.numbers }
        ensures size { size self.new ≡ size self.old }
        ensures relisted { IsRelisted (at self.old) (at self.new) id (own_at self.old id) [] below.items below.items }
    {
        self.relist(id, below);
        self.settle(id);
    }

    /// Gives a number another list of those right below it; those of it that come have the number right above them. It
    /// needs no memory.
    #[tactic(auto, using(crate::proofs::OwnArenas::still_own))]
    pub fn take_in(&mut self, id: NodeId, come: &[NodeId], list: Vec<NodeId>)
        requires own { IsOwn self.old }
        requires within { id < size self.old }
        requires come { All (λ k. k < size self.old) come.now }
        requires apart { list_any (λ j. j == id) come.now ≡ false }
        ensures numbers { self.new.numbers ≡ self.old.numbers }
        ensures size { size self.new ≡ size self.old }
        ensures relisted { IsRelisted (at self.old) (at self.new) id (own_at self.old id) [] come.now list.items }
    {
        self.relist(id, list);
        self.raise(come, id);
    }

    // Leaves a number none of those right below it.
    #[tactic(auto, using(crate::proofs::HashedLevels::still_hashed, crate::proofs::OwnArenas::slots_own))]
    fn empty(&mut self, id: NodeId)
        requires within { id < size self.old }
        requires own { IsOwn self.old }
        ensures numbers { self.new.numbers ≡ self.old.numbers }
        ensures size { size self.new ≡ size self.old }
        ensures filled { IsFilled (at self.old) (at self.new) id (own_at self.old id) [] }
    {
        self.slots.at_mut(id.place()).below.clear();
    }

    /// Takes all those right below a number off. It needs no memory.
    #[tactic(auto, using(crate::proofs::OwnArenas::still_own))]
    pub fn take_all(&mut self, id: NodeId)
        requires own { IsOwn self.old }
        requires within { id < size self.old }
        requires children { All (λ k. k < size self.old) (below_in (at self.old id)) }
        requires apart { list_any (λ j. j == id) (below_in (at self.old id)) ≡ false }
        ensures numbers { self.new.numbers ≡ self.old.numbers }
        ensures size { size self.new ≡ size self.old }
        ensures relisted { IsRelisted (at self.old) (at self.new) id (own_at self.old id) (below_in (at self.old id)) [] [] }
    {
        self.release(id, 0);
        self.empty(id);
    }
}
