//! The numbers right below another: a clause sees them as a list, so that a copy is equal to what it was made of.

ghost use Rattle.std.specs.Prelude.{◌≡◌, ◌==◌, ◌<◌, not, [], filter, length, slice_index_or, take, IfOk};

use crate::NodeId;
use desk_base::Memory;
use std::alloc::Global;
use std::marker::Model;
use std::ops::Index;

/// The numbers right below another, in order.
#[derive(Debug, Drop)]
pub struct Numbers {
    items: Vec<NodeId>,
}

impl Model for Numbers {
    ghost use Rattle.act_tree.specs.NumberLists.{NumberList};

    ghost Value = { NumberList };

    ghost view = { λ n. record { items = n.items.items } };
}

// Leaves a number out of a list.
fn leave_out(numbers: &mut Vec<NodeId>, id: NodeId)
    ensures { numbers.new.items ≡ filter (λ k. not (k == id)) numbers.old.items }
{
    numbers.retain(|number| *number != id);
}

impl Numbers {
    /// No numbers. It takes no memory.
    pub fn new(alloc: Global) -> Numbers
        ensures { result.items ≡ [] }
    {
        Numbers {
            items: Vec::new(alloc),
        }
    }

    /// These numbers.
    pub fn of(items: Vec<NodeId>) -> Numbers
        ensures { result.items ≡ items.items }
    {
        Numbers { items }
    }

    /// The numbers as a slice.
    pub fn as_slice(&self) -> &[NodeId]
        ensures { result.now ≡ self.now.items }
    {
        self.items.as_slice()
    }

    /// How many there are.
    pub fn len(&self) -> usize
        ensures { result ≡ length self.now.items }
    {
        self.items.len()
    }

    /// Leaves a number out.
    pub fn leave_out(&mut self, id: NodeId)
        ensures { self.new.items ≡ filter (λ k. not (k == id)) self.old.items }
    {
        leave_out(&mut self.items, id);
    }

    /// Keeps the first so many.
    pub fn truncate(&mut self, count: usize)
        ensures { self.new.items ≡ take count self.old.items }
    {
        self.items.truncate(count);
    }

    /// Leaves none.
    pub fn clear(&mut self)
        ensures { self.new.items ≡ [] }
    {
        self.items.clear();
    }

    /// The same numbers.
    pub fn copy(&self, alloc: Global) -> Result<Numbers, Memory>
        ensures { IfOk result (λ numbers. numbers ≡ self.now) }
    {
        Ok(Numbers {
            items: Vec::from_slice(alloc, &self.items)?,
        })
    }
}

impl Index<usize> for Numbers {
    type Output = NodeId;

    ghost can_index = { λ n place. place < length n.items };

    ghost index_gives = { λ n place id. id ≡ slice_index_or n.items place id };

    fn index(&self, place: usize) -> &NodeId {
        &self.items[place]
    }
}
