//! The generator of large valid registers: a seed determines commands, which are given to a desk one after another, and
//! what becomes of them.
#![tactic(auto)]

mod choice;
mod commanding;
mod days;
mod draws;
mod enacting;
mod generate_fault;
mod generated;
mod generating;
mod names;

pub use days::first_day;
pub use generate_fault::GenerateFault;
pub use generated::Generated;
pub use generating::generate;
