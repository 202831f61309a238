//! How a provision is named by its place in an act: elements, nums, numbering, and the eIds made of them.
#![tactic(auto)]

mod eid;
mod eid_fault;
mod element;
pub mod laws;
mod level;
mod num;
mod numbering;
mod parts;
mod spelling;
#[cfg(test)]
mod tests;

pub use eid::{Eid, parse_eid};
pub use eid_fault::{EidFault, EidRule};
pub use element::Element;
pub use level::Level;
pub use num::Num;
pub use numbering::Numbering;
pub use spelling::put_eid;
