//! A reference as a text has it, and one that was judged.

use crate::RefList;
use desk_base::Text;

/// A reference of a text: the node on which it stands, and what it refers to.
#[derive(Debug, Drop)]
pub struct NodeRef {
    /// The eId of the node.
    pub eid: Text,
    /// The reference as it was recorded.
    pub iri: Text,
}

/// The references of a text, each node before its children, and those of a node in order.
pub type NodeRefs = RefList<NodeRef>;

/// A reference with the rule that its target breaks.
#[derive(Debug, Drop)]
pub struct JudgedRef {
    /// The eId of the node.
    pub eid: Text,
    /// The reference as it was recorded.
    pub iri: Text,
    /// The number of the rule. `None`: it does not dangle.
    pub cause: Option<u8>,
}
