//! Sizes of nodes: how many bytes they take where they are kept, behind a size so far.

ghost use Rattle.std.specs.Prelude.{◌≡◌, ◌≤◌, ◌+◌, ◌-◌, ◌^◌, min};
ghost use Rattle.act_tree.specs.Branches.{branches_of, heights};
ghost use Rattle.act_tree.specs.NodeSizes as spec;
ghost use Rattle.act_tree.specs.Specs.{spec_view};
ghost use Rattle.act_tree.specs.declared.limits.TheConstants.{MAX_NESTED};

use crate::{NodeSpec, Nodes};
use desk_base::{Text, plus_name, plus_text};

fn plus_texts(size: u64, texts: &[Text]) -> u64
    ensures { result ≡ min (size + (2 + spec.texts_size texts.now)) (2 ^ 64 - 1) }
{
    let mut sum = size.saturating_add(2);
    for text in texts {
        sum = plus_text(sum, text.as_str());
    }
    sum
}

impl NodeSpec {
    /// A size with that of the node and all beneath it, at most the greatest `u64`.
    #[cycle(sizes)]
    pub fn plus_size(&self, size: u64) -> u64
        ensures { result ≡ min (size + spec.node_size (spec_view self.now)) (2 ^ 64 - 1) }
    {
        let size = plus_name(size.saturating_add(1), self.num.as_str());
        let size = plus_text(size, self.heading.as_str());
        let size = plus_text(size, self.content.as_str());
        let size = plus_texts(size, self.refs.as_slice());
        self.children.plus_size(size)
    }
}

impl Nodes {
    /// A size with that of the nodes, behind their count, at most the greatest `u64`.
    #[cycle(sizes)]
    #[tactic(auto, using(crate::proofs::LowSpecs::heights_listed))]
    pub fn plus_size(&self, size: u64) -> u64
        ensures depth { heights (branches_of self.now) ≤ MAX_NESTED }
        ensures size { result ≡ min (size + spec.payload_size self.now) (2 ^ 64 - 1) }
    {
        let mut sum = size.saturating_add(2);
        for node in &self.items {
            sum = node.plus_size(sum);
        }
        sum
    }
}
