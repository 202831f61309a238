//! A reader whose calls are counted, one of which fails: it is asked once for each read, its failure is one fault, and no byte is lost.

use crate::{ReaderSource, Source};
use std::io::{self, ErrorKind, Read};
use std::test::Fail;

// Bytes, three at a time, and the number of the call that fails.
#[derive(Drop)]
struct Counted {
    left: &'static [u8],
    calls: u64,
    failing: u64,
}

impl Read for Counted {
    fn read(&mut self, into: &mut [u8]) -> io::Result<usize> {
        self.calls = self.calls.saturating_add(1);
        if self.calls == self.failing {
            return Err(io::Error::from(ErrorKind::Interrupted));
        }
        let most = into.len().min(3);
        self.left.read(&mut into[..most])
    }
}

#[test]
fn failed_read_is_one_fault(rt: HostRuntime) -> Result<(), Fail> {
    for failing in 1..=5 {
        let mut source = ReaderSource::new(Counted {
            left: b"abcdefg",
            calls: 0,
            failing,
        });
        let mut got = Vec::new(rt.alloc());
        let mut into = [0; 8];
        for call in 1..=5 {
            let answer = source.read(&mut into);
            assert_eq!(rt; answer.is_err(), call == failing, "{call}, {failing}");
            assert_eq!(rt; source.reader.calls, call, "{failing}");
            assert_eq!(rt; source.faults, u64::from(failing <= call), "{call}");
            got.extend_from_slice(&into[..answer.unwrap_or(0)])?;
        }
        assert_eq!(rt; got.as_slice(), b"abcdefg".as_slice(), "{failing}");
    }
    Ok(())
}
