//! Clocks and links through their bounds.

use crate::{
    BytesSink, BytesSource, Clock, Day, Failed, Link, ListClock, MemoryLink, Pair, UtcClock,
};
use std::cell::Cell;
use std::io;
use std::test::Fail;
use std::time::{self, Duration};

// The number of the day that a clock gives.
fn next_day<C: Clock>(clock: &mut C) -> i32 {
    clock.today().number()
}

// A machine's clock, which can be read but for its first and its third call.
struct Machine {
    calls: Cell<u8>,
}

impl time::Clock for Machine {
    fn monotonic(&self) -> io::Result<Duration> {
        Ok(Duration::ZERO)
    }

    fn since_1970(&self) -> io::Result<Duration> {
        let calls = self.calls.get();
        self.calls.set(calls.saturating_add(1));
        match calls {
            // The last second of 2024-02-29, and one past 9999-12-31.
            1 => Ok(Duration::from_secs(1_709_251_199)),
            3 => Ok(Duration::from_secs(253_402_300_800)),
            _ => Err(io::Error::from(io::ErrorKind::Unsupported)),
        }
    }
}

#[test]
fn clocks_give_days(rt: HostRuntime) -> Result<(), Fail> {
    let first = Day::from_text("2010-05-01").expect(&rt, "a day");
    let second = Day::from_text("2010-05-02").expect(&rt, "a day");
    let mut clock = ListClock::new(rt.alloc(), &[first, second])?;
    for day in [first, second, second] {
        assert_eq!(rt; next_day(&mut clock), day.number());
    }

    let machine = Machine {
        calls: Cell::new(0),
    };
    let mut clock = UtcClock::new(&machine);
    for number in [719_163, 738_945, 738_945, 3_652_059] {
        assert_eq!(rt; next_day(&mut clock), number);
    }
    let Machine { calls: _ } = machine;
    // The real one, after 2024-02-29.
    assert!(rt; next_day(&mut UtcClock::new(&rt)) > 738_945);
    Ok(())
}

// A read and a write through the bound.
fn next<L: Link>(link: &mut L, into: &mut [u8]) -> Result<usize, Failed> {
    link.read(into)
}

fn put<L: Link>(link: &mut L, bytes: &[u8]) -> Result<(), Failed> {
    link.write_all(bytes)
}

#[test]
fn links_read_and_write(rt: HostRuntime) -> Result<(), Fail> {
    let mut into = [0; 4];
    let mut link = MemoryLink::new(rt.alloc(), b"abc", 2, 3, &[2], &[1])?;
    for read in [Ok(2), Err(Failed), Ok(1), Ok(0)] {
        assert_eq!(rt; next(&mut link, &mut into), read);
    }
    for write in [Err(Failed), Ok(()), Err(Failed)] {
        assert_eq!(rt; put(&mut link, b"xy"), write);
    }
    assert_eq!(rt; link.written(), b"xyx".as_slice());

    let mut source = BytesSource::new(rt.alloc(), b"ab", 2, &[])?;
    let mut sink = BytesSink::new(rt.alloc(), 2, &[])?;
    let mut link = Pair::new(&mut source, &mut sink);
    assert_eq!(rt; next(&mut link, &mut into), Ok(2));
    assert_eq!(rt; put(&mut link, b"xy"), Ok(()));
    assert_eq!(rt; sink.bytes(), b"xy".as_slice());
    Ok(())
}
