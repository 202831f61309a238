//! NamedFile: a file of a folder by its name, over std. Each method makes the call of the system that it is named for.

ghost use Rattle.std.specs.Prelude.{◌≡◌, ◌^◌, ◌<◌, true, is_none, IfOk};

use crate::system_file::{LIMIT, SystemFile};
use std::fs::{File, Files, OpenOptions, TryLockError};
use std::os::fd::AsRawFd;
use std::os::unix::fs::{FileExt, MetadataExt};
use std::{fs, io};

/// The highest number of a standard stream's descriptor.
const LAST_STREAM: i32 = 2;

/// A file of a folder. One handle holds the lock and is asked nothing else; another one reads and writes.
#[derive(Drop)]
pub struct NamedFile<'a, R: Files<File = File>> {
    files: &'a R,
    folder: &'a str,
    name: &'a str,
    lock: Option<File>,
    handle: Option<File>,
}

// Opens a file to read and write it, and makes it where it is missing if it may.
fn open_file<R: Files<File = File>>(files: &R, name: &str, may_make: bool) -> io::Result<File> {
    let file = OpenOptions::new()
        .read(true)
        .write(true)
        .create(may_make)
        .open(files, name)?;
    // Where a standard stream was closed, what is meant for it must not land in the file.
    if file.as_raw_fd() <= LAST_STREAM {
        file.try_clone()
    } else {
        Ok(file)
    }
}

// Whether two handles are of one file.
fn is_same(one: &File, other: &File) -> io::Result<bool> {
    let (one, other) = (one.metadata()?, other.metadata()?);
    Ok(one.dev() == other.dev() && one.ino() == other.ino())
}

// The length of a file, which is below the limit.
fn length_of(file: &File) -> io::Result<u64>
    ensures { IfOk result (λ n. n < 2 ^ 63) }
{
    let len = file.metadata()?.len();
    if len < LIMIT {
        Ok(len)
    } else {
        Err(io::Error::from(io::ErrorKind::InvalidData))
    }
}

impl<'a, R: Files<File = File>> NamedFile<'a, R> {
    /// The file of that name, a path as the system takes it, whose entry stands in that folder. Nothing is asked yet.
    pub fn new(files: &'a R, folder: &'a str, name: &'a str) -> NamedFile<'a, R>
        ensures files { result.files.now ≡ files.now }
        ensures folder { result.folder.now ≡ folder.now }
        ensures name { result.name.now ≡ name.now }
        ensures unlocked { is_none result.lock ≡ true }
        ensures unopened { is_none result.handle ≡ true }
    {
        NamedFile {
            files,
            folder,
            name,
            lock: None,
            handle: None,
        }
    }

    // The handle that reads and writes.
    fn handle(&self) -> io::Result<&File> {
        match &self.handle {
            Some(file) => Ok(file),
            None => Err(io::Error::from(io::ErrorKind::NotFound)),
        }
    }
}

impl<'a, R: Files<File = File>> SystemFile for NamedFile<'a, R> {
    ghost use Rattle.std.specs.Prelude.{is_some};

    ghost is_open = { λ f. is_some f.handle };

    fn lock(&mut self) -> io::Result<bool> {
        if self.lock.is_some() {
            return Ok(true);
        }
        let file = open_file(self.files, self.name, true)?;
        match file.try_lock() {
            Ok(()) => {
                self.lock = Some(file);
                Ok(true)
            }
            Err(TryLockError::WouldBlock) => Ok(false),
            Err(TryLockError::Error(error)) => Err(error),
        }
    }

    fn open(&mut self) -> io::Result<()> {
        self.handle = None;
        let file = open_file(self.files, self.name, false)?;
        if let Some(lock) = &self.lock
            && !is_same(lock, &file)?
        {
            return Err(io::Error::from(io::ErrorKind::NotFound));
        }
        self.handle = Some(file);
        Ok(())
    }

    fn drop_pages(&mut self) -> io::Result<()> {
        let descriptor = self.handle()?.as_raw_fd();
        match libc::posix_fadvise(descriptor, 0, 0, libc::POSIX_FADV_DONTNEED) {
            0 => Ok(()),
            number => Err(io::Error::from_raw_os_error(number)),
        }
    }

    fn sync_folder(&mut self) -> io::Result<()> {
        fs::open(self.files, self.folder)?.sync_all()
    }

    fn len(&mut self) -> io::Result<u64> {
        length_of(self.handle()?)
    }

    fn read_some(&mut self, place: u64, into: &mut [u8]) -> io::Result<usize> {
        self.handle()?.read_at(into, place)
    }

    fn write_some(&mut self, place: u64, bytes: &[u8]) -> io::Result<usize> {
        self.handle()?.write_at(bytes, place)
    }

    fn set_len(&mut self, len: u64) -> io::Result<()> {
        self.handle()?.set_len(len)
    }

    fn sync_all(&mut self) -> io::Result<()> {
        let answer = self.handle()?.sync_all();
        if answer.is_err() {
            self.handle = None;
        }
        answer
    }
}
