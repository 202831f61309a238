//! Shown: what a disk shows beside its answers.

use crate::answers::{digits, said};
use crate::noted_file::NotedFile;
use desk_base::{Memory, decimal_number};
use law_journal::{FileDisk, MemoryDisk, NamedFile, SystemFile};
use std::alloc::Global;
use std::fs::{File, Files};

/// What shows more than its calls answer.
pub trait Shown {
    /// What a line asks to be shown. `None`: it asks for nothing that there is.
    fn shown(&self, alloc: Global, word: &str, rest: &str) -> Result<Option<String>, Memory>;
}

impl Shown for MemoryDisk {
    fn shown(&self, alloc: Global, word: &str, rest: &str) -> Result<Option<String>, Memory> {
        match word {
            "bytes" => Ok(Some(digits(alloc, "bytes", self.bytes())?)),
            "image" => image_shown(alloc, self, rest),
            _ => Ok(None),
        }
    }
}

// The image that a crash may leave, picked by a word.
fn image_shown(alloc: Global, disk: &MemoryDisk, word: &str) -> Result<Option<String>, Memory> {
    match decimal_number(word, 255) {
        Some(pick) => {
            let image = disk.image(alloc, pick as u8)?;
            Ok(Some(digits(alloc, "image", image.as_slice())?))
        }
        None => Ok(None),
    }
}

impl Shown for NotedFile {
    fn shown(&self, alloc: Global, word: &str, _rest: &str) -> Result<Option<String>, Memory> {
        match word {
            "bytes" => Ok(Some(digits(alloc, "bytes", self.device.as_slice())?)),
            "calls" => Ok(Some(calls_shown(alloc, self)?)),
            "given" => {
                let given = self.given;
                Ok(Some(format!(in alloc; "given {given}")?))
            }
            _ => Ok(None),
        }
    }
}

// The calls that a file was asked, in order.
fn calls_shown(alloc: Global, file: &NotedFile) -> Result<String, Memory> {
    let mut line = String::from_str(alloc, "calls")?;
    for call in &file.calls {
        line.push_str(format!(in alloc; " {call}")?.as_str())?;
    }
    Ok(line)
}

impl<'a, R: Files<File = File>> Shown for NamedFile<'a, R> {
    fn shown(&self, _alloc: Global, _word: &str, _rest: &str) -> Result<Option<String>, Memory> {
        Ok(None)
    }
}

impl<F: SystemFile + Shown> Shown for FileDisk<F> {
    fn shown(&self, alloc: Global, word: &str, rest: &str) -> Result<Option<String>, Memory> {
        if word != "held" {
            return self.file().shown(alloc, word, rest);
        }
        let told = if self.is_held() { "held" } else { "not held" };
        Ok(Some(said(alloc, told)?))
    }
}
