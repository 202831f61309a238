//! A command as it is asked for: who asks, and under which number.

use law_register::{Command, Drafter};

/// A command with its drafter and the number that the drafter gave it.
#[derive(Debug, Drop)]
pub struct Asked {
    /// Who asks for it.
    pub drafter: Drafter,
    /// The number by which the drafter tells this command from others, and asks for it again.
    pub request: u64,
    /// What is asked for.
    pub command: Command,
}
