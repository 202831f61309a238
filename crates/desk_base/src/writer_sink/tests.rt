//! A writer whose calls are counted, one of which fails: no call is made again, its failure is one fault, and all is handed on.

use crate::{Sink, WriterSink};
use std::io::{self, ErrorKind, Write};
use std::test::Fail;

// What was written, three bytes at a time, and how much of it was handed on; the number of the call that fails.
#[derive(Drop)]
struct Counted {
    bytes: Vec<u8>,
    flushed: usize,
    calls: u64,
    failing: u64,
}

impl Counted {
    fn count(&mut self) -> io::Result<()> {
        self.calls = self.calls.saturating_add(1);
        if self.calls == self.failing {
            return Err(io::Error::from(ErrorKind::Interrupted));
        }
        Ok(())
    }
}

impl Write for Counted {
    fn write(&mut self, bytes: &[u8]) -> io::Result<usize> {
        self.count()?;
        self.bytes.write(&bytes[..bytes.len().min(3)])
    }

    fn flush(&mut self) -> io::Result<()> {
        self.count()?;
        self.flushed = self.bytes.len();
        Ok(())
    }
}

#[test]
fn failed_write_is_one_fault(rt: HostRuntime) -> Result<(), Fail> {
    // Seven bytes are three writes and a flush: the call that fails, what is written then, and how much is handed on.
    for (failing, written, flushed) in [(1, 0, 0), (2, 3, 0), (3, 6, 0), (4, 7, 0), (5, 7, 7)] {
        let mut sink = WriterSink::new(Counted {
            bytes: Vec::new(rt.alloc()),
            flushed: 0,
            calls: 0,
            failing,
        });
        assert_eq!(rt; sink.write_all(b"abcdefg").is_ok(), failing == 5);
        assert_eq!(rt; sink.writer.bytes.as_slice(), &b"abcdefg"[..written]);
        assert_eq!(rt; sink.writer.flushed, flushed, "{failing}");
        assert_eq!(rt; sink.writer.calls, failing.min(4));
        assert_eq!(rt; sink.faults, u64::from(failing <= 4), "{failing}");
    }
    Ok(())
}
