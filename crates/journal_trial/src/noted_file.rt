//! NotedFile: a file in memory that notes each call, of which one fails, and takes and gives bytes in small pieces. What
//! is written waits in a cache for a sync. After a sync that failed the cache counts as written, as it does in a system.

ghost use Rattle.std.specs.Prelude.{◌≡◌};

use law_journal::SystemFile;
use std::alloc::{AllocError, Global};
use std::fmt::{Display, Formatter, Write};
use std::{fmt, io};

/// A call of the system.
#[derive(Clone, Copy, Debug, PartialEq, Eq)]
pub enum Call {
    Lock,
    Open,
    DropPages,
    SyncFolder,
    Len,
    Read(u64),
    Write(u64),
    Cut(u64),
    Sync,
}

impl Display for Call {
    fn fmt<W: Write>(&self, f: &mut Formatter<W>) -> fmt::Result {
        match self {
            Call::Lock => write!(f, "lock"),
            Call::Open => write!(f, "open"),
            Call::DropPages => write!(f, "drop-pages"),
            Call::SyncFolder => write!(f, "sync-folder"),
            Call::Len => write!(f, "len"),
            Call::Read(place) => write!(f, "read:{place}"),
            Call::Write(place) => write!(f, "write:{place}"),
            Call::Cut(len) => write!(f, "cut:{len}"),
            Call::Sync => write!(f, "sync"),
        }
    }
}

/// A file in memory.
#[derive(Drop)]
pub struct NotedFile {
    cache: Vec<u8>,
    /// Whether something was written since the last sync, be it one that failed.
    waiting: bool,
    pub device: Vec<u8>,
    pub calls: Vec<Call>,
    /// The number of the call that fails, counted from 1.
    failing: usize,
    /// A read or a write takes at most so many bytes.
    piece: usize,
    /// How many bytes were read.
    pub given: usize,
    opened: bool,
}

// The failure of a call.
fn failure() -> io::Error {
    io::Error::from(io::ErrorKind::Other)
}

// Writes bytes over those that are there, and past their end.
fn overwrite(bytes: &mut Vec<u8>, place: usize, new: &[u8]) -> Result<(), AllocError> {
    for (index, byte) in new.iter().enumerate() {
        match bytes.get_mut(place.saturating_add(index)) {
            Some(old) => *old = *byte,
            None => bytes.push(*byte)?,
        }
    }
    Ok(())
}

impl NotedFile {
    /// A file of these bytes, all of them on the device.
    pub fn of(
        alloc: Global,
        bytes: &[u8],
        failing: usize,
        piece: usize,
    ) -> Result<NotedFile, AllocError> {
        Ok(NotedFile {
            cache: bytes.to_vec(alloc)?,
            waiting: false,
            device: bytes.to_vec(alloc)?,
            calls: Vec::new(alloc),
            failing,
            piece,
            given: 0,
            opened: false,
        })
    }

    // Notes a call, which may be the one that fails.
    fn note(&mut self, call: Call) -> io::Result<()>
        ensures { self.new.opened ≡ self.old.opened }
    {
        if self.calls.push(call).is_err() || self.calls.len() == self.failing {
            return Err(failure());
        }
        Ok(())
    }
}

impl SystemFile for NotedFile {
    ghost is_open = { λ f. f.opened };

    fn lock(&mut self) -> io::Result<bool> {
        self.note(Call::Lock)?;
        Ok(true)
    }

    fn open(&mut self) -> io::Result<()> {
        self.opened = false;
        self.note(Call::Open)?;
        self.opened = true;
        Ok(())
    }

    fn drop_pages(&mut self) -> io::Result<()> {
        self.note(Call::DropPages)?;
        if !self.waiting {
            self.cache.truncate(0);
            return self
                .cache
                .extend_from_slice(&self.device)
                .map_err(|_| failure());
        }
        Ok(())
    }

    fn sync_folder(&mut self) -> io::Result<()> {
        self.note(Call::SyncFolder)
    }

    fn len(&mut self) -> io::Result<u64> {
        self.note(Call::Len)?;
        Ok(self.cache.len() as u64)
    }

    fn read_some(&mut self, place: u64, into: &mut [u8]) -> io::Result<usize> {
        self.note(Call::Read(place))?;
        let start = (place as usize).min(self.cache.len());
        let count = into.len().min(self.piece).min(self.cache.len() - start);
        into[..count].copy_from_slice(&self.cache[start..start + count]);
        self.given = self.given.saturating_add(count);
        Ok(count)
    }

    fn write_some(&mut self, place: u64, bytes: &[u8]) -> io::Result<usize> {
        self.note(Call::Write(place))?;
        let count = bytes.len().min(self.piece);
        self.waiting = true;
        match overwrite(&mut self.cache, place as usize, &bytes[..count]) {
            Ok(()) => Ok(count),
            Err(_) => Err(failure()),
        }
    }

    fn set_len(&mut self, len: u64) -> io::Result<()> {
        self.note(Call::Cut(len))?;
        self.waiting = true;
        self.cache.truncate(len as usize);
        Ok(())
    }

    fn sync_all(&mut self) -> io::Result<()> {
        let waiting = self.waiting;
        self.waiting = false;
        if self.note(Call::Sync).is_err() {
            self.opened = false;
            return Err(failure());
        }
        if waiting {
            self.device.truncate(0);
            return self
                .device
                .extend_from_slice(&self.cache)
                .map_err(|_| failure());
        }
        Ok(())
    }
}
