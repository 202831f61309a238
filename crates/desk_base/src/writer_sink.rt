//! A sink over any of Rust's writers, as standard output. It counts each refusal.

ghost use Rattle.std.specs.Prelude.{◌≡◌};

#[cfg(test)]
mod tests;

use crate::source::count_fault;
use crate::{Failed, Sink};
use std::io::Write;

/// A writer as a sink. It tells what is written where the writer does.
#[derive(Drop)]
pub struct WriterSink<W> {
    writer: W,
    faults: u64,
}

impl<W: Write> WriterSink<W> {
    /// The writer as it stands, with no faults so far.
    pub fn new(writer: W) -> WriterSink<W>
        ensures written { ⟦<WriterSink<W> as Sink>⟧.written result ≡ W.contents writer }
        ensures faults { ⟦<WriterSink<W> as Sink>⟧.faults result ≡ 0 }
    {
        WriterSink { writer, faults: 0 }
    }
}

impl<W: Write> Sink for WriterSink<W> {
    ghost written = { λ s. W.contents s.writer };

    ghost faults = { λ s. s.faults };

    fn write_all(&mut self, bytes: &[u8]) -> Result<(), Failed> {
        let mut at = 0;
        while at < bytes.len() {
            match self.writer.write(&bytes[at..]) {
                Ok(0) => return Err(count_fault(&mut self.faults)),
                Ok(n) => at += n,
                Err(_) => return Err(count_fault(&mut self.faults)),
            }
        }
        match self.writer.flush() {
            Ok(()) => Ok(()),
            Err(_) => Err(count_fault(&mut self.faults)),
        }
    }
}
