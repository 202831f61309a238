//! Stop: why the input was not told of to its end.

use desk_base::Memory;
use std::io::{Error, ErrorKind};

/// Why the input was not told of to its end.
#[derive(Clone, Copy, Debug, PartialEq, Eq)]
pub enum Stop {
    /// The source failed.
    Source,
    /// The sink failed.
    Sink,
    /// There was not enough memory.
    Memory,
}

impl From<Memory> for Stop {
    fn from(_: Memory) -> Self {
        Stop::Memory
    }
}

impl Stop {
    /// What an error of the source stands for.
    pub fn of_source(error: Error) -> Stop {
        match error.kind() {
            ErrorKind::OutOfMemory => Stop::Memory,
            _ => Stop::Source,
        }
    }

    /// What an error of the sink stands for.
    pub fn of_sink(error: Error) -> Stop {
        match error.kind() {
            ErrorKind::OutOfMemory => Stop::Memory,
            _ => Stop::Sink,
        }
    }

    /// The status to end with.
    pub fn status(self) -> u8 {
        match self {
            Stop::Source => 3,
            Stop::Sink => 4,
            Stop::Memory => 7,
        }
    }
}
