//! Parting: a provision keeps the first of its children, and the others go to a new one right behind it.

ghost use Rattle.std.specs.Prelude.{◌≡◌, IfOk};
ghost use Rattle.act_tree.specs.Siblings as spec;

use crate::arena::{Arena, Slot};
use crate::grafting::bringer;
use crate::numbers::Numbers;
use crate::{NONE_THROUGHOUT, NodeId, Refs, eid_below};
use desk_base::{Id, Memory, Text};
use eid_paths::Num;
use std::alloc::Global;

// Numbers with another one right behind each that is this one.
fn put_behind(
    alloc: Global,
    numbers: &[NodeId],
    id: NodeId,
    other: NodeId,
) -> Result<Vec<NodeId>, Memory>
    ensures { IfOk result (λ v. v.items ≡ spec.put_behind id other numbers.now) }
{
    let mut all = Vec::new(alloc);
    for number in numbers {
        all.push(*number)?;
        if *number != id {
            continue;
        }
        all.push(other)?;
    }
    Ok(all)
}

impl Arena {
    ghost use Rattle.eid_paths.specs.Nums.{is_num};
    ghost use Rattle.std.specs.Prelude.{ℕ, List, [], ◌≡◌, ◌<◌, ◌≤◌, ◌+◌, ◌^◌, true, IfOk, OnOk, OnErr, Some, take, drop, length, if◌then◌else◌};
    ghost use Rattle.std.specs.Str.{bytes_eq};
    ghost use Rattle.act_tree.specs.Arena.{above_in, below_in, provision_in};
    ghost use Rattle.act_tree.specs.Brought as brought;
    ghost use Rattle.act_tree.specs.Moved.{IsFilled};
    ghost use Rattle.act_tree.specs.Parted.{CanGive, CanPart, IsGiven, IsParted};
    ghost use Rattle.act_tree.specs.Slots.{at, number, size, provision_of, own_at, IsOwn};

    /// The numbers right below a provision, behind the first so many.
    pub fn below_behind(
        &self,
        alloc: Global,
        id: NodeId,
        first_child: usize,
    ) -> Result<Vec<NodeId>, Memory>
        requires within { id < size self.now }
        requires place { first_child ≤ length (below_in (at self.now id)) }
        ensures { IfOk result (λ numbers. numbers.items ≡ drop first_child (below_in (at self.now id))) }
    {
        Ok(self.slots[id.place()].below.as_slice()[first_child..].to_vec(alloc)?)
    }

    /// The second part of a provision, without children.
    pub fn second_part(
        &self,
        alloc: Global,
        id: NodeId,
        tail: Text,
        num: &Num,
        heading: Text,
        by: Id,
    ) -> Result<Slot, Memory>
        requires within { id < size self.now }
        ensures provision { IfOk result (λ s. provision_of s
            ≡ brought.second_part by (own_at self.now id).element num.now heading tail) }
        ensures num { IfOk result (λ s. is_num s.num ≡ true) }
        ensures below { IfOk result (λ s. s.below.items ≡ []) }
    {
        let slot = &self.slots[id.place()];
        let name = bringer(alloc, by)?;
        let wid = eid_below(
            alloc,
            NONE_THROUGHOUT,
            Some(name.as_str()),
            slot.element,
            num,
        )?;
        Ok(Slot {
            wid,
            element: slot.element,
            num: num.copy(),
            heading,
            content: tail,
            refs: Refs::new(alloc),
            above: id,
            below: Numbers::new(alloc),
        })
    }

    // Gives a provision another content, and leaves it the first so many of those right below it.
    #[tactic(auto, using(crate::proofs::HashedLevels::still_hashed, crate::proofs::OwnArenas::slots_own))]
    fn keep_first(&mut self, id: NodeId, first_child: usize, content: Text)
        requires within { id < size self.old }
        requires own { IsOwn self.old }
        ensures numbers { self.new.numbers ≡ self.old.numbers }
        ensures size { size self.new ≡ size self.old }
        ensures filled { IsFilled (at self.old) (at self.new) id
            (record (own_at self.old id) { content = content }) (take first_child (below_in (at self.old id))) }
    {
        let slot = self.slots.at_mut(id.place());
        slot.content = content;
        slot.below.truncate(first_child);
    }

    // Gives the last of those right below a provision to another one, and that one a place in a list.
    #[tactic(auto, using(crate::proofs::OwnArenas::still_own))]
    fn give(
        &mut self,
        id: NodeId,
        first_child: usize,
        head: Text,
        other: NodeId,
        moved: Vec<NodeId>,
        above: NodeId,
        list: Vec<NodeId>,
    )
        requires can { CanGive (at self.old) (size self.old) id first_child other moved.items above }
        requires own { IsOwn self.old }
        ensures numbers { self.new.numbers ≡ self.old.numbers }
        ensures size { size self.new ≡ size self.old }
        ensures given { IsGiven self.old self.new id first_child head other moved.items above list.items }
    {
        self.release(id, first_child);
        self.keep_first(id, first_child, head);
        self.hold(other, moved);
        self.relist(above, list);
        self.set_above(other, above);
    }

    /// Parts a provision: it has another content and the first so many of those right below it, and right behind it
    /// stands its second part with the others. `Err`: there was not enough memory, and nothing has changed.
    #[tactic(auto, using(crate::proofs::OwnArenas::still_own))]
    pub fn part(
        &mut self,
        alloc: Global,
        id: NodeId,
        first_child: usize,
        head: Text,
        second: Slot,
        moved: Vec<NodeId>,
    ) -> Result<(), Memory>
        requires can { CanPart (at self.old) (size self.old) id first_child moved.items }
        requires bare { second.below.items ≡ [] }
        requires own { IsOwn self.old }
        ensures own { IsOwn self.new }
        ensures parted { OnOk result (IsParted self.old self.new id first_child head (provision_of second) moved.items) }
        ensures slots_kept { OnErr result (self.new.slots.items ≡ self.old.slots.items) }
        ensures numbers_kept { OnErr result ((w : List ℕ) → number self.new w ≡ number self.old w) }
    {
        let above = self.slots[id.place()].above;
        let number = NodeId::of_place(self.slots.len()).ok_or(Memory)?;
        let list = put_behind(
            alloc,
            self.slots[above.place()].below.as_slice(),
            id,
            number,
        )?;
        let other = self.add_alone(second)?;
        self.give(id, first_child, head, other, moved, above, list);
        Ok(())
    }
}
