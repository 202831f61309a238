//! Provisions of later acts that make the modifications of a work: which of them are looked at, and when they stand.
#![tactic(auto)]

pub mod laws;
