//! ServeJob: over how many connections the register is served, and where.

/// A port, and how many connections each gate serves.
#[derive(Clone, Copy, Debug, PartialEq, Eq)]
pub struct ServeJob {
    /// The port, from 1 to 65,535.
    pub port: u16,
    /// How many connections each gate serves, from 1 to 1,000,000.
    pub connections: u32,
}
