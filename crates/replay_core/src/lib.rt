//! Replay from scratch: the text of an act on a day is always made from the act as enacted.
#![tactic(auto)]

mod answering;
mod breakpoints;
mod counted;
mod eids;
mod from_enacted;
mod on_day;
mod order;
mod orders;
mod replaying;
mod showing;
mod standing;
mod touched;

pub use from_enacted::FromEnacted;
pub use touched::{touched_day, touched_day_of, touched_days, work_entered};
