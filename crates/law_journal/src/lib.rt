//! The journal: payloads in a file, each on the disk before it is acknowledged, whatever moment a crash comes.
#![tactic(auto)]

mod disk;
mod effect;
mod file_disk;
mod framing;
mod handle;
mod history;
mod journal;
pub mod laws;
mod memory_disk;
mod named_file;
mod reading;
mod recovering;
mod scanning;
mod step;
mod system_file;
mod window;
mod writing;

pub use disk::Disk;
pub use effect::Effect;
pub use file_disk::FileDisk;
pub use framing::{frame, frames};
pub use journal::{Journal, JournalRefused};
pub use memory_disk::MemoryDisk;
pub use named_file::NamedFile;
pub use system_file::SystemFile;
