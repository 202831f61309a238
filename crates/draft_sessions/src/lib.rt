//! Draft sessions: what a drafter sees before he files, his draft and what an act will say with it.
#![tactic(auto)]

mod previewing;

pub use law_register::known_at;
pub use previewing::{draft_of, preview};
