//! Driven: what is called by lines.

use desk_base::Memory;
use std::alloc::Global;

/// What is called by lines, a journal or a disk.
pub trait Driven {
    /// Makes the call that a line asks for, and gives what came of it as a line.
    fn told(&mut self, alloc: Global, line: &str) -> Result<String, Memory>;
}
