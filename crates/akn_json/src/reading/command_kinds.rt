//! The kinds of command, and the words for them.

ghost use Rattle.std.specs.Prelude.{◌≡◌};
ghost use Rattle.akn_json.specs.Reading.CommandKinds as spec;

use super::word::{Worded, named};

/// A kind of command.
#[derive(Clone, Copy)]
pub(super) enum CommandKind {
    Enact,
    Record,
    Correct,
    Withdraw,
    Restore,
    DraftAdd,
    DraftDrop,
    File,
}

impl CommandKind {
    const ALL: [CommandKind; 8] = [
        CommandKind::Enact,
        CommandKind::Record,
        CommandKind::Correct,
        CommandKind::Withdraw,
        CommandKind::Restore,
        CommandKind::DraftAdd,
        CommandKind::DraftDrop,
        CommandKind::File,
    ];

    /// The kind that a word names. `None`: it names none.
    pub(super) fn from_word(word: &str) -> Option<CommandKind>
        ensures { result ≡ spec.command_named word.now }
    {
        named(&CommandKind::ALL, word)
    }
}

impl Worded for CommandKind {
    ghost spelled = { spec.command_word };

    fn word(self) -> &'static str {
        match self {
            CommandKind::Enact => "enact",
            CommandKind::Record => "record",
            CommandKind::Correct => "correct",
            CommandKind::Withdraw => "withdraw",
            CommandKind::Restore => "restore",
            CommandKind::DraftAdd => "draftAdd",
            CommandKind::DraftDrop => "draftDrop",
            CommandKind::File => "file",
        }
    }
}
