//! A report: a status, and the bytes that are written with it.

/// What the program tells of its input.
#[derive(Debug, Drop)]
pub struct Report {
    /// The status that the program ends with, if the bytes are written.
    pub status: u8,
    /// The bytes to write.
    pub bytes: Vec<u8>,
}
