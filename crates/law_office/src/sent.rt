//! Sent: a command as it was sent.

ghost use Rattle.std.specs.Prelude.{◌≡◌, None};
ghost use Rattle.law_register.specs.Register.Entering.{entry_of};

use desk_base::Day;
use law_register::{Command, Drafter, Entry};

/// A command as it was sent.
#[derive(Drop)]
pub struct Sent {
    /// Who sent it.
    pub drafter: Drafter,
    /// The number that the drafter gave it.
    pub request: u64,
    /// The command.
    pub command: Command,
}

impl Sent {
    // The entry that it becomes on a day, whose law number is not known yet.
    pub(crate) fn on(self, day: Day) -> Entry
        ensures { result ≡ entry_of self.drafter self.request day None self.command }
    {
        let Sent {
            drafter,
            request,
            command,
        } = self;
        Entry {
            drafter,
            request,
            day,
            law: None,
            command,
        }
    }
}
