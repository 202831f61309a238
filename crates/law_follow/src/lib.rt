//! A follower of a register: another keeper that holds a front of the same list, whatever is lost, repeated or late of
//! what it is sent.
#![tactic(auto)]

mod batch;
mod exporting;
mod followed;
mod follower;
mod following;
mod frame;
mod gathering;
mod judging;
pub mod laws;
mod opening;
mod put_fault;
mod reading;
mod replica;
mod taken;
mod taking;
mod unfit;
mod writing;

pub use exporting::{ExportFault, export};
pub use followed::{FollowFault, Followed, Refusal, Tally};
pub use follower::{Follower, FollowerRefused};
pub use following::follow;
pub use frame::{Frame, FrameFault};
pub use put_fault::PutFault;
pub use reading::read_frame;
pub use replica::{Pending, Replica};
pub use taken::{TakeFault, Taken};
pub use writing::put_frame;
