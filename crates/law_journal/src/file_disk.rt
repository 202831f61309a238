//! FileDisk: a file of the system as a disk. A clause sees nothing of it but its count of faults.

ghost use Rattle.std.specs.Prelude.{◌≡◌, ◌^◌, ◌<◌, ◌≤◌, true, false, is_none, length, IfOk};
ghost use Rattle.desk_base.specs.Streams.{HasCause};

use crate::Disk;
use crate::handle::Handle;
use crate::named_file::NamedFile;
use crate::system_file::SystemFile;
use desk_base::Failed;
use std::fs::{File, Files};

/// A file that is locked and opened, or made, at the first call, and held until the disk is dropped. Each call that the
/// system answers with a fault raises the count; what had come of it before is not known. Once a sync has failed, or an
/// opening, the next sync opens the file anew, and each other call before it is such a fault.
#[derive(Drop)]
pub struct FileDisk<F: SystemFile> {
    handle: Handle<F>,
    pub(crate) faults: u64,
}

impl<'a, R: Files<File = File>> FileDisk<NamedFile<'a, R>> {
    /// The file of that name in the working folder. Nothing is asked of it yet.
    pub fn new(files: &'a R, name: &'a str) -> FileDisk<NamedFile<'a, R>>
        ensures files { result.handle.file.files.now ≡ files.now }
        ensures name { result.handle.file.name.now ≡ name.now }
        ensures unlocked { is_none result.handle.file.lock ≡ true }
        ensures unopened { is_none result.handle.file.handle ≡ true }
        ensures faults { result.faults ≡ 0 }
    {
        FileDisk::over(NamedFile::new(files, ".", name))
    }
}

impl<F: SystemFile> FileDisk<F> {
    /// A disk over a file of the system. Nothing is asked of it yet.
    pub fn over(file: F) -> FileDisk<F>
        ensures file { result.handle.file ≡ file }
        ensures free { result.handle.held ≡ false }
        ensures faults { result.faults ≡ 0 }
    {
        FileDisk {
            handle: Handle::new(file),
            faults: 0,
        }
    }

    /// Whether the last opening failed because another process held the file.
    pub fn is_held(&self) -> bool
        ensures { result ≡ self.now.handle.held }
    {
        self.handle.is_held()
    }

    /// The file.
    pub fn file(&self) -> &F
        ensures { result.now ≡ self.now.handle.file }
    {
        self.handle.file()
    }
}

impl<F: SystemFile> Disk for FileDisk<F> {
    ghost use Rattle.law_journal.specs.Unknown.{unknown, unknown_is};

    ghost outlook = { λ d. unknown };

    ghost faults = { λ d. d.faults };

    fn len(&mut self) -> Result<u64, Failed> {
        self.handle.len(&mut self.faults)
    }

    fn read(&mut self, place: u64, into: &mut [u8]) -> Result<usize, Failed> {
        self.handle.read(place, into, &mut self.faults)
    }

    fn write_at(&mut self, place: u64, bytes: &[u8]) -> Result<(), Failed> {
        self.handle.write(place, bytes, &mut self.faults)
    }

    fn cut(&mut self, len: u64) -> Result<(), Failed> {
        self.handle.cut(len, &mut self.faults)
    }

    fn sync(&mut self) -> Result<(), Failed> {
        self.handle.sync(&mut self.faults)
    }

    ghost is_outlook = { λ d. unknown_is };
}
