//! The references between acts, and which of them dangle on a day: kept by work and day, and judged anew only where a target moved.
#![tactic(auto)]

mod dangling;
mod judging;
mod kept_work;
pub mod laws;
mod node_ref;
mod ref_index;
mod ref_list;
mod ref_row;
mod revising;
mod shared_list;
mod targets;
mod works;

pub use dangling::{Dangling, DanglingRef};
pub use node_ref::{JudgedRef, NodeRef, NodeRefs};
pub use ref_index::{RefIndex, RefRevision};
pub use ref_list::RefList;
pub use ref_row::{DayRefs, RefRow, RefRows, WorkRefs};
pub use shared_list::SharedList;
pub use targets::Targets;
pub use works::Works;
