//! Outcome: what came of serving at several gates.

/// What came of serving at several gates.
#[derive(Clone, Copy, Debug, PartialEq, Eq)]
pub struct Outcome {
    /// Some gate failed.
    pub failed: bool,
    /// There was not enough memory, for what was to be done or of some connection.
    pub wanting: bool,
}
