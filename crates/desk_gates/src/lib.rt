//! Through what connections come in: gates in memory, and gates of this machine's own address.
#![tactic(auto)]

mod gate;
pub mod laws;
mod list_gate;
mod tcp_gate;
mod tcp_link;
#[cfg(test)]
mod tests;

pub use gate::Gate;
pub use list_gate::ListGate;
pub use tcp_gate::{MOST_SILENT_SECONDS, TcpGate};
pub use tcp_link::{MOST_READS_BEHIND, MOST_SECONDS_BEHIND, TcpLink};
