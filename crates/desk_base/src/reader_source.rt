//! A source over any of Rust's readers, as standard input. It counts each refusal.

ghost use Rattle.std.specs.Prelude.{◌≡◌, ◌≤◌, ◌-◌, ◌^◌, min, IfOk, OnErr, OnOk, length};
ghost use Rattle.desk_base.specs.Streams.{HasCause, Rose};

#[cfg(test)]
mod tests;

use crate::source::count_fault;
use crate::{Failed, Source};
use std::io::Read;

/// A reader as a source. It tells what is left where the reader does.
///
/// It gives at most 2^64 - 1 bytes in all; a read after that is a fault, so that each loop that reads
/// comes to an end.
#[derive(Drop)]
pub struct ReaderSource<R> {
    reader: R,
    room: u64,
    faults: u64,
}

impl<R: Read> ReaderSource<R> {
    /// The reader's bytes from here on, with no faults so far.
    pub fn new(reader: R) -> ReaderSource<R>
        ensures left { ⟦<ReaderSource<R> as Source>⟧.left result ≡ R.remaining reader }
        ensures room { ⟦<ReaderSource<R> as Source>⟧.room result ≡ 2 ^ 64 - 1 }
        ensures faults { ⟦<ReaderSource<R> as Source>⟧.faults result ≡ 0 }
    {
        ReaderSource {
            reader,
            room: u64::MAX,
            faults: 0,
        }
    }
}

impl<R: Read> Source for ReaderSource<R> {
    ghost left = { λ s. R.remaining s.reader };

    ghost room = { λ s. s.room };

    ghost faults = { λ s. s.faults };

    fn read(&mut self, into: &mut [u8]) -> Result<usize, Failed> {
        if self.room == 0 {
            return Err(count_fault(&mut self.faults));
        }
        let most = (into.len() as u64).min(self.room) as usize;
        match self.reader.read(&mut into[..most]) {
            Ok(n) => {
                self.room -= n as u64;
                Ok(n)
            }
            Err(_) => Err(count_fault(&mut self.faults)),
        }
    }
}
