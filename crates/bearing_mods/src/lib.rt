//! In which period a thing is in force and has efficacy as of a day, and whether it bears on that day.
#![tactic(auto)]

mod bearing;
mod efficacy;
mod force;
pub mod laws;

pub use bearing::bears;
pub use efficacy::{CountedEfficacy, Efficacy, EfficacyEffect, efficacy_at};
pub use force::{CountedForce, ForceEffect, force_at};
