//! Limits of a text, and of what an act or an edit brings. `laws::limits_in_numbers` pins them.

ghost use Rattle.std.specs.Prelude.{◌≡◌, ◌≤◌};
ghost use Rattle.act_tree.specs.Branches.{branches_of, heights};
ghost use Rattle.act_tree.specs.Limits as spec;
ghost use Rattle.act_tree.specs.NodeLimits.{most_nodes};
ghost use Rattle.act_tree.specs.Specs.{spec_view};

use crate::{NodeSpec, Nodes};

/// The most levels of a text; a child of the root has depth 1.
pub const MAX_DEPTH: u32 = 12;

/// The most levels of nodes that an act or an edit brings, before it is judged whether they make a text.
pub const MAX_NESTED: u32 = 64;

/// The most provisions of a plain act, and of what an edit brings.
pub const MAX_NODES: u32 = 4_096;

/// The most provisions of a wide act.
pub const MAX_WIDE_NODES: u32 = 8_192;

/// The most refs of a node.
pub const MAX_REFS: usize = 16;

/// The most bytes of a wId.
pub const MAX_WID_BYTES: usize = 512;

/// The most bytes of a heading, a content, or a text that an edit brings or looks for.
pub const MAX_TEXT_BYTES: usize = 16_384;

/// How many provisions the text of an act may have, which the act says.
#[derive(Clone, Copy, Debug, PartialEq, Eq)]
pub enum NodeLimit {
    /// At most `MAX_NODES`.
    Plain,
    /// At most `MAX_WIDE_NODES`.
    Wide,
}

impl NodeLimit {
    /// The most provisions of a text of this limit, the root not counted.
    pub fn most(self) -> u32
        ensures { result ≡ most_nodes self }
    {
        match self {
            NodeLimit::Plain => MAX_NODES,
            NodeLimit::Wide => MAX_WIDE_NODES,
        }
    }
}

/// Whether a text has as many bytes as a wId may have.
pub fn is_wid(wid: &str) -> bool
    ensures { result ≡ spec.is_wid wid.now }
{
    0 < wid.len() && wid.len() <= MAX_WID_BYTES
}

impl NodeSpec {
    /// Whether the node has no more refs than a node may have, and each beneath it.
    #[cycle(refs)]
    pub fn has_few_refs(&self) -> bool
        ensures { result ≡ spec.has_few_refs (spec_view self.now) }
    {
        self.refs.as_slice().len() <= MAX_REFS && self.children.have_few_refs()
    }
}

impl Nodes {
    /// Whether none of these nodes has more refs than a node may have, nor any beneath them.
    #[cycle(refs)]
    #[tactic(auto, using(crate::proofs::LowSpecs::heights_listed))]
    pub fn have_few_refs(&self) -> bool
        ensures depth { heights (branches_of self.now) ≤ MAX_NESTED }
        ensures few { result ≡ spec.have_few_refs (branches_of self.now) }
    {
        for node in &self.items {
            if !node.has_few_refs() {
                return false;
            }
        }
        true
    }
}
