//! A desk is served over connections that come in through four gates, all at once, each by a worker of its own.
#![tactic(auto)]

mod duty;
mod gates;
mod hand;
mod outcome;
mod serve_job;
mod sharing;
mod working;

pub use gates::{Shut, serve_gates};
pub use outcome::Outcome;
pub use serve_job::ServeJob;
