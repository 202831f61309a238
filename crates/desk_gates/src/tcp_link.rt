//! TcpLink: a link over a stream both ways, as a connection of TCP. It counts each refusal, and tells no bytes.

ghost use Rattle.std.specs.Prelude.{◌≡◌, ◌-◌, ◌^◌, [], None};

use desk_base::{Failed, Link, count_fault};
use std::io::{Read, Write};
use std::net::{OpenStream, Shutdown};
use std::time::Duration;

/// For how many seconds nothing may come of what a peer still sends when its connection is ended.
pub const MOST_SECONDS_BEHIND: u64 = 2;

/// How many reads, each of at most 16,384 bytes, take what a peer still sends when its connection is ended.
pub const MOST_READS_BEHIND: u32 = 16_384;

/// A stream that is read and written, as a link.
///
/// It gives at most 2^64 - 1 bytes in all; a read after that is a fault, so that each loop that reads comes to an end.
#[derive(Drop)]
pub struct TcpLink<S> {
    stream: S,
    room: u64,
    read_faults: u64,
    write_faults: u64,
}

impl<S: Read + Write> TcpLink<S> {
    /// The stream from here on, with no faults so far.
    pub fn new(stream: S) -> TcpLink<S>
        ensures room { ⟦<TcpLink<S> as Link>⟧.room result ≡ 2 ^ 64 - 1 }
        ensures read_faults { ⟦<TcpLink<S> as Link>⟧.read_faults result ≡ 0 }
        ensures write_faults { ⟦<TcpLink<S> as Link>⟧.write_faults result ≡ 0 }
    {
        TcpLink {
            stream,
            room: u64::MAX,
            read_faults: 0,
            write_faults: 0,
        }
    }
}

impl<S: Read + Write + OpenStream + Drop> TcpLink<S> {
    /// Ends the connection in stages, as RFC 9112 advises (section 9.6): nothing more is written, and what the peer still
    /// sends is read and let go before the connection is closed, up to 16,384 pieces of it and to 2 seconds in which
    /// nothing comes. Were it closed at once, this machine would break it, and the peer might lose the last response.
    /// After a fault it is closed at once.
    pub(crate) fn close(self) {
        let TcpLink {
            mut stream,
            read_faults,
            write_faults,
            ..
        } = self;
        if read_faults > 0 || write_faults > 0 {
            return;
        }
        let wait = Some(Duration::from_secs(MOST_SECONDS_BEHIND));
        if stream.shutdown(Shutdown::Write).is_ok() && stream.set_read_timeout(wait).is_ok() {
            let_go(&mut stream);
        }
    }
}

// Reads to the end, and keeps nothing of it.
fn let_go<S: Read>(stream: &mut S) {
    let mut bytes = [0; 16_384];
    for _ in 0..MOST_READS_BEHIND {
        match stream.read(&mut bytes) {
            Ok(0) | Err(_) => return,
            Ok(_) => (),
        }
    }
}

// Writes all the bytes, and asks nothing again that was refused.
fn put_all<W: Write>(stream: &mut W, bytes: &[u8]) -> Result<(), Failed> {
    let mut at = 0;
    while at < bytes.len() {
        match stream.write(&bytes[at..]) {
            Ok(0) => return Err(Failed),
            Ok(n) => at += n,
            Err(_) => return Err(Failed),
        }
    }
    match stream.flush() {
        Ok(()) => Ok(()),
        Err(_) => Err(Failed),
    }
}

impl<S: Read + Write> Link for TcpLink<S> {
    ghost left = { λ link. None };

    ghost room = { λ link. link.room };

    ghost read_faults = { λ link. link.read_faults };

    ghost written = { λ link. None };

    ghost write_faults = { λ link. link.write_faults };

    ghost origin = { λ link. [] };

    fn read(&mut self, into: &mut [u8]) -> Result<usize, Failed> {
        if self.room == 0 {
            return Err(count_fault(&mut self.read_faults));
        }
        let most = (into.len() as u64).min(self.room) as usize;
        match self.stream.read(&mut into[..most]) {
            Ok(n) => {
                self.room -= n as u64;
                Ok(n)
            }
            Err(_) => Err(count_fault(&mut self.read_faults)),
        }
    }

    fn write_all(&mut self, bytes: &[u8]) -> Result<(), Failed> {
        match put_all(&mut self.stream, bytes) {
            Ok(()) => Ok(()),
            Err(Failed) => Err(count_fault(&mut self.write_faults)),
        }
    }
}
