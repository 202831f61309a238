//! A dossier: an act and the modifications made to it.

use law_register::{Act, Mods};

/// An act with its modifications, in the order in which they were recorded.
#[derive(Debug, Drop)]
pub struct Dossier {
    /// The act.
    pub act: Act,
    /// What was recorded on it.
    pub mods: Mods,
}
