//! The text of an act as a tree of provisions.
#![tactic(auto)]

mod arena;
mod build_fault;
mod cause;
mod copied;
mod copying;
mod depths;
mod eid;
mod eid_ways;
mod eids;
mod grafting;
mod hash_index;
mod kept_list;
pub mod laws;
mod laying;
mod level_hash;
mod levels;
mod limits;
mod moving;
mod node_id;
mod node_sizes;
mod node_spec;
mod numbers;
mod parting;
mod piece;
mod piece_list;
mod refs;
mod relisting;
mod restating;
mod same_nodes;
mod seeking;
mod shared_nodes;
mod survey;
mod surveying;
mod tree;
mod walks;
mod wid_index;

pub use build_fault::{BuildFail, BuildFault};
pub use cause::Cause;
pub use eid::eid_below;
pub use limits::{
    MAX_DEPTH, MAX_NESTED, MAX_NODES, MAX_REFS, MAX_TEXT_BYTES, MAX_WID_BYTES, MAX_WIDE_NODES,
    NodeLimit, is_wid,
};
pub use node_id::NodeId;
pub use node_spec::{NodeSpec, Nodes};
pub use refs::Refs;
pub use shared_nodes::SharedNodes;
pub use surveying::{NONE_THROUGHOUT, check_nodes, fault_of};
pub use tree::{NodeView, ProvisionView, Tree};
