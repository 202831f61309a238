//! Equal nodes: those that say the same of themselves, with equal nodes beneath them.

ghost use Rattle.std.specs.Prelude.{◌≡◌, ◌≤◌};
ghost use Rattle.std.specs.Cmp.{decided, partial_equiv_from_equiv};
ghost use Rattle.act_tree.specs.Branches.{branches_of, heights};
ghost use Rattle.act_tree.specs.SameNodes as spec;
ghost use Rattle.act_tree.specs.Specs.{own_of, spec_view};
ghost use Rattle.act_tree.specs.declared.limits.TheConstants.{MAX_NESTED};

use crate::{NodeSpec, Nodes};

fn is_same_own(a: &NodeSpec, b: &NodeSpec) -> bool
    ensures { result ≡ spec.same_own (own_of a.now) (own_of b.now) }
{
    a.element == b.element
        && a.num == b.num
        && a.heading == b.heading
        && a.content == b.content
        && a.refs == b.refs
}

#[cycle(same)]
fn is_same_node(a: &NodeSpec, b: &NodeSpec) -> bool
    ensures { result ≡ spec.same_branch spec.same_own (spec_view a.now) (spec_view b.now) }
{
    is_same_own(a, b) && are_same_nodes(&a.children, &b.children)
}

#[cycle(same)]
#[tactic(auto, using(crate::proofs::LowSpecs::heights_listed))]
fn are_same_nodes(a: &Nodes, b: &Nodes) -> bool
    ensures depth { heights (branches_of a.now) ≤ MAX_NESTED }
    ensures same { result ≡ spec.same_nodes a.now b.now }
{
    if a.items.len() != b.items.len() {
        return false;
    }
    for i in 0..a.items.len() {
        if !is_same_node(&a.items[i], &b.items[i]) {
            return false;
        }
    }
    true
}

impl PartialEq for Nodes {
    ghost eq = { spec.same_nodes };

    ghost laws = { partial_equiv_from_equiv (decided spec.same_nodes spec.nodes_decide) };

    fn eq(&self, other: &Nodes) -> bool {
        are_same_nodes(self, other)
    }
}

impl Eq for Nodes {
    ghost laws = { decided spec.same_nodes spec.nodes_decide };
}
