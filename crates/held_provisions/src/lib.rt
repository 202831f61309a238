//! What a desk reckons of provisions that make modifications: when they stand, what a work carries of them, and what an entry touches.
#![tactic(auto)]

mod carrying;
mod in_line;
mod knowing;
pub mod laws;
mod lines;
mod looking;
mod making;
mod needing;
mod source;
mod sources;
mod spans;
mod touching;

pub use carrying::carry;
pub use in_line::InLine;
pub use knowing::FromLine;
pub use lines::{line_at, line_of_register, line_with};
pub use looking::{depends, looked_at};
pub use source::Source;
pub use sources::Sources;
pub use spans::{spans_in_table, stands_in, version_after};
pub use touching::{touched_in_lines, touched_works};
