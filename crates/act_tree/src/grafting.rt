//! Grafting: the nodes that a modification brings are laid down in an arena, and put among those below a number.

ghost use Rattle.std.specs.Prelude.{◌≡◌, ◌++◌, ◌≤◌, IfOk, take, drop, length};
ghost use Rattle.act_tree.specs.Brought as spec;
ghost use Rattle.act_tree.specs.Grafted.{place_from};

use crate::arena::Arena;
use crate::laying::lay_all;
use crate::{NONE_THROUGHOUT, NodeId, Nodes};
use desk_base::{Id, Memory, Text};
use std::alloc::Global;

/// The name of a modification in wIds.
pub fn bringer(alloc: Global, by: Id) -> Result<Text, Memory>
    ensures { IfOk result (λ t. t ≡ spec.bringer by) }
{
    let law = by.law;
    let item = by.item;
    Text::from_string(format!(in alloc; "m{law}-{item}")?)
}

// Numbers with others among them, behind the first so many.
fn put_numbers(
    alloc: Global,
    numbers: &[NodeId],
    place: usize,
    others: &[NodeId],
) -> Result<Vec<NodeId>, Memory>
    requires { place ≤ length numbers.now }
    ensures { IfOk result (λ v. v.items ≡ take place numbers.now ++ (others.now ++ drop place numbers.now)) }
{
    let mut all = Vec::new(alloc);
    all.extend_from_slice(&numbers[..place])?;
    all.extend_from_slice(others)?;
    all.extend_from_slice(&numbers[place..])?;
    Ok(all)
}

/// The place of a number among others, or their number where it is none of them.
pub fn place_in(numbers: &[NodeId], id: NodeId) -> usize
    ensures { result ≡ place_from 0 id numbers.now }
{
    for (place, number) in numbers.iter().enumerate() {
        if *number == id {
            return place;
        }
    }
    numbers.len()
}

impl Arena {
    ghost use Rattle.std.specs.Prelude.{ℕ, List, ◌<◌, OnOk, OnErr};
    ghost use Rattle.act_tree.specs.Branches.{branches_of};
    ghost use Rattle.act_tree.specs.Arena.{below_in};
    ghost use Rattle.act_tree.specs.Brought.{brought_under};
    ghost use Rattle.act_tree.specs.Grafted.{IsGrafted};
    ghost use Rattle.act_tree.specs.Planted.{HasGrown};
    ghost use Rattle.act_tree.specs.Slots.{at, size, IsOwn};
    ghost use Rattle.act_tree.specs.Wids.{all_wids};

    /// Lays nodes down, and puts them among those below a number, behind the first so many. `Err`: there was not enough
    /// memory; some of them may have been laid down behind what the arena had, none of them below the number.
    pub fn graft(
        &mut self,
        alloc: Global,
        parent: NodeId,
        place: usize,
        name: &str,
        nodes: &Nodes,
    ) -> Result<(), Memory>
        requires own { IsOwn self.old }
        requires within { parent < size self.old }
        requires place { place ≤ length (below_in (at self.old parent)) }
        ensures own { IsOwn self.new }
        ensures grafted { OnOk result (IsGrafted self.old self.new parent place
            (brought_under name.now (branches_of nodes.now))) }
        ensures kept { OnErr result (HasGrown self.old self.new
            (all_wids (brought_under name.now (branches_of nodes.now)))) }
    {
        let ids = lay_all(alloc, self, NONE_THROUGHOUT, Some(name), nodes)?;
        let below = put_numbers(
            alloc,
            self.slots[parent.place()].below.as_slice(),
            place,
            &ids,
        )?;
        self.take_in(parent, &ids, below);
        Ok(())
    }
}
