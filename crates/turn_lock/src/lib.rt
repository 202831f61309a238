//! A lock whose contract says what a caller has seen: each caller has a pass, and what he finds in his turn begins with
//! all that his pass had seen before.
#![tactic(auto)]

mod held;
pub mod laws;
mod pass;
mod sharing;
mod steps;
#[cfg(test)]
mod tests;
mod turning;
mod turns;
mod view;

pub use held::Held;
pub use pass::Pass;
pub use turns::{Turns, TurnsRefused};
pub use view::MOST_CALLERS;
