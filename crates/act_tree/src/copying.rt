//! Copying and keeping: the slots as they lie, and the indexes with them. Where most of the slots are of what was taken off,
//! the text is laid down anew, so that a copy of a copy does not hold that for ever.

ghost use Rattle.std.specs.Prelude.{◌≡◌, ◌≤◌, true, IfOk};
ghost use Rattle.act_tree.specs.Arena.{IsWhole, below_in, branches_below};
ghost use Rattle.act_tree.specs.Branches.{heights};
ghost use Rattle.act_tree.specs.Planted.{IsLaid};
ghost use Rattle.act_tree.specs.Seen.{tree_view, has_node, branch_at, below_at};
ghost use Rattle.act_tree.specs.Slots.{at, number, size, IsOwn};
ghost use Rattle.act_tree.specs.declared.limits.TheConstants.{MAX_DEPTH};
ghost use Rattle.eid_paths.specs.Nums.{is_num};

use crate::arena::{Arena, Slot};
use crate::copied::Copied;
use crate::{NodeId, Tree};
use desk_base::Memory;
use std::alloc::Global;

impl Slot {
    // The same slot. What its provision says is shared.
    fn copy(&self, alloc: Global) -> Result<Slot, Memory>
        ensures same { IfOk result (λ s. s ≡ self.now) }
        ensures num { IfOk result (λ s. is_num s.num ≡ true) }
    {
        Ok(Slot {
            wid: self.wid.copy()?,
            element: self.element,
            num: self.num.copy(),
            heading: self.heading.copy()?,
            content: self.content.copy()?,
            refs: self.refs.copy(alloc)?,
            above: self.above,
            below: self.below.copy(alloc)?,
        })
    }
}

impl Copied for Slot {
    fn copied(&self, alloc: Global) -> Result<Slot, Memory> {
        self.copy(alloc)
    }
}

impl Arena {
    /// Whether more than half of the slots are of what was taken off.
    pub fn is_mostly_gone(&self) -> bool {
        let mut stand: usize = 0;
        for place in 0..self.slots.len() {
            if self.climbs(self.slots[place].above) {
                stand = stand.saturating_add(1);
            }
        }
        stand < self.slots.len() / 2
    }

    /// The same slots under the same numbers, with the same indexes, own.
    pub fn own_copy(&self, alloc: Global) -> Result<Arena, Memory>
        ensures own { IfOk result (λ a. IsOwn a) }
        ensures slots { IfOk result (λ a. a.slots.items ≡ self.now.slots.items) }
        ensures numbers { IfOk result (λ a. a.numbers.wids ≡ self.now.numbers.wids) }
    {
        Ok(Arena {
            slots: self.slots.own_copy(alloc)?,
            numbers: self.numbers.own_copy(alloc)?,
            levels: self.levels.own_copy(alloc)?,
        })
    }

    /// The same slots under the same numbers, with the same indexes, kept: what was not written since they were kept last is
    /// shared.
    #[tactic(auto, using(crate::proofs::OwnArenas::same_hashed, crate::proofs::OwnArenas::same_noted))]
    pub fn keep(&mut self, alloc: Global) -> Result<Arena, Memory>
        ensures slots_same { self.new.slots ≡ self.old.slots }
        ensures numbers_same { self.new.numbers ≡ self.old.numbers }
        ensures slots { IfOk result (λ a. a.slots.items ≡ self.old.slots.items) }
        ensures numbers { IfOk result (λ a. a.numbers.wids ≡ self.old.numbers.wids) }
    {
        Ok(Arena {
            slots: self.slots.keep(alloc)?,
            numbers: self.numbers.keep(alloc)?,
            levels: self.levels.keep(alloc)?,
        })
    }
}

// Lays down a node of a tree in another arena, right above itself there, and all that stands beneath it, each child by a
// call of its own.
#[tactic(auto, using(crate::proofs::OwnArenas::laid_own, crate::proofs::OwnArenas::all_laid_own))]
fn lay_again(alloc: Global, arena: &mut Arena, tree: &Tree, node: NodeId) -> Result<NodeId, Memory>
    requires node { has_node tree.now node ≡ true }
    requires own { IsOwn arena.old }
    requires depth { heights (below_at tree.now node) ≤ MAX_DEPTH }
    ensures { IfOk result (λ id. IsLaid arena.old arena.new id (branch_at tree.now node)) }
{
    let mut slot = tree.slot(node).copy(alloc)?;
    slot.below.clear();
    let id = arena.add_alone(slot)?;
    let children = tree.children(node);
    let mut below = Vec::with_capacity(alloc, children.len())?;
    for child in children {
        let laid = lay_again(alloc, arena, tree, *child)?;
        below.push(laid)?;
    }
    arena.hold(id, below);
    Ok(id)
}

/// An arena of the text of a tree, with no slots but those that it takes.
pub fn arena_of_text(alloc: Global, tree: &Tree) -> Result<Arena, Memory>
    ensures own { IfOk result (λ a. IsOwn a) }
    ensures whole { IfOk result (λ a. IsWhole (at a) (number a) (size a)) }
    ensures reads { IfOk result (λ a. branches_below (size a) (at a) (below_in (at a 0)) ≡ (tree_view tree.now).body) }
{
    let mut arena = Arena::new(alloc);
    let root = tree.root();
    let _root = lay_again(alloc, &mut arena, tree, root)?;
    Ok(arena)
}
