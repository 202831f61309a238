//! NodeId: a clause sees one as its number, which is 0 at the root.

ghost use Rattle.std.specs.Prelude.{◌≡◌, ◌<◌, ◌^◌, ◌↔◌, IfSome, is_some, true};

use std::marker::Model;

/// A node of one tree. A node keeps its id through all changes of the tree.
#[derive(Clone, Copy, Debug, PartialEq, Eq)]
pub struct NodeId {
    number: u32,
}

impl Model for NodeId {
    ghost use Rattle.std.specs.Prelude.{ℕ};

    ghost Value = { ℕ };

    ghost view = { λ n. n.number };

    ghost inverse = { λ n. record { number = n } };
}

impl NodeId {
    /// The id of the root.
    pub(crate) fn root() -> NodeId
        ensures { result ≡ 0 }
    {
        NodeId { number: 0 }
    }

    /// The id of a place among slots. `None`: no id is as large.
    pub(crate) fn of_place(place: usize) -> Option<NodeId>
        ensures id { IfSome result (λ id. id ≡ place) }
        ensures fits { is_some result ≡ true ↔ place < 2 ^ 32 }
    {
        match u32::try_from(place) {
            Ok(number) => Some(NodeId { number }),
            Err(_) => None,
        }
    }

    /// The place among slots.
    pub(crate) fn place(self) -> usize
        ensures { result ≡ self }
    {
        self.number as usize
    }
}
