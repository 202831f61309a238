//! Readiness: whether a keeper can be asked for its payloads.

/// Whether a keeper can be asked for its payloads, and whether it ever could.
#[derive(Clone, Copy, Debug, PartialEq, Eq)]
pub enum Readiness {
    /// It has not been opened yet.
    Unopened,
    /// It was opened, and has not failed since.
    Ready,
    /// It was opened once, and has to be opened again.
    Stopped,
}
