//! The law as it is brought: acts, modifications, and the commands that hold them.

mod act;
pub(crate) mod bounds;
mod command;
mod format;
mod modification;
pub(crate) mod sizes;

pub use act::Act;
pub use command::Command;
pub use format::EntryFormat;
pub use modification::{Destination, Kind, ModSource, Modification, Mods};
pub use sizes::entry_size;
