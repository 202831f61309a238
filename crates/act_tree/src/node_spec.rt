//! Nodes as an act or a payload brings them: a clause sees them as a list of nested branches.

ghost use Rattle.std.specs.Prelude.{◌≡◌, ◌≤◌, [], ◌++◌, ◌∷◌, OnOk, OnErr};
ghost use Rattle.act_tree.specs.Branches.{height};
ghost use Rattle.act_tree.specs.Specs.{spec_view};
ghost use Rattle.act_tree.specs.declared.limits.TheConstants.{MAX_NESTED};

use crate::Refs;
use desk_base::{Memory, Text};
use eid_paths::{Element, Num};
use std::alloc::Global;
use std::marker::Model;

/// A node that an act or a payload brings, with all beneath it. It has no wId yet.
#[derive(Debug, Drop)]
#[cycle(nodes)]
pub struct NodeSpec {
    /// The kind of provision.
    pub element: Element,
    /// Its number.
    pub num: Num,
    /// Its heading, empty where it has none.
    pub heading: Text,
    /// Its text, empty where it has none.
    pub content: Text,
    /// The expressions that it refers to.
    pub refs: Refs,
    /// The nodes right beneath it.
    pub children: Nodes,
}

/// Nodes side by side, in order. They nest at most `MAX_NESTED` levels, at each level of a nest: so deep goes each walk over them.
#[derive(Debug, Drop)]
#[cycle(nodes)]
pub struct Nodes {
    /// The nodes.
    pub items: Vec<NodeSpec>,
}

impl Model for Nodes {
    ghost use Rattle.std.specs.Prelude.{◌≤◌, List};
    ghost use Rattle.act_tree.specs.Branches.{Branch, tallest};
    ghost use Rattle.act_tree.specs.declared.limits.TheConstants.{MAX_NESTED};
    ghost use Rattle.act_tree.specs.Provisions.{Own};
    ghost use Rattle.act_tree.specs.OwnCode.{own_code};
    ghost use Rattle.act_tree.specs.Codes.{branches_code};

    ghost Value = { List (Branch Own) };

    ghost coded = { branches_code own_code };

    ghost use Rattle.act_tree.specs.Specs.{specs_view};

    ghost view = { λ a. specs_view a.items.items };

    ghost invariant = { λ a. tallest (specs_view a.items.items) ≤ MAX_NESTED };

    ghost size = { tallest };

    ghost use Rattle.std.proofs.Common.{arith};
    ghost use Rattle.act_tree.specs.SpecsFall.{most_le-tallest};

    ghost size_decreases = { λ a h. omega (arith, most_le-tallest a.items.items) };
}

impl Nodes {
    /// No nodes. It takes no memory.
    pub fn new(alloc: Global) -> Nodes
        ensures { result ≡ [] }
    {
        Nodes {
            items: Vec::new(alloc),
        }
    }

    /// Adds a node behind the others.
    pub fn push(&mut self, node: NodeSpec) -> Result<(), Memory>
        requires depth { height (spec_view node) ≤ MAX_NESTED }
        ensures ok { OnOk result (self.new ≡ self.old ++ spec_view node ∷ []) }
        ensures err { OnErr result (self.new ≡ self.old) }
    {
        self.items.push(node)?;
        Ok(())
    }
}
