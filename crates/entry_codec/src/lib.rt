//! The bytes in which an entry is kept: one spelling for each, and for other bytes the first fault.
#![tactic(auto)]

mod fault;
pub mod laws;
mod reading;
mod typed;
mod writing;

pub use fault::{CodecFault, DecodeFail};
pub use reading::{decode, decode_knowing};
pub use writing::encode;
