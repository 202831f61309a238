//! Laws of the textual modifications of an act: what an edit leaves, what undoes it, and which edits go in either order.
#![tactic(auto)]

pub mod laws;
