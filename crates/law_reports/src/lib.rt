//! Reports: tables of what became of acts, as text that a spreadsheet opens.
#![tactic(auto)]

mod correspondences;
mod dangling_rows;
mod events;
pub mod laws;
mod lifecycles;
mod table;
mod unapplied_mods;

pub use correspondences::correspondence;
pub use dangling_rows::dangling_refs;
pub use events::EventKind;
pub use lifecycles::lifecycle;
pub use unapplied_mods::unapplied;
