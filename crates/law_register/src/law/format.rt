//! The formats in which entries are spelled.

ghost use Rattle.std.specs.Prelude.{◌≡◌};
ghost use Rattle.std.specs.List.{list_any};
ghost use Rattle.law_register.specs.Law.Formats as spec;
ghost use Rattle.law_register.specs.Law.Sources.{names_provision};

use crate::{Command, Modification};
use act_tree::NodeLimit;

/// The formats in which an entry may be spelled.
#[derive(Clone, Copy, Debug, PartialEq, Eq)]
pub enum EntryFormat {
    /// Acts are plain, and no source names a provision.
    First = 1,
    /// An act says how many provisions it may have, and a source the provision that modifies.
    Second,
}

impl EntryFormat {
    /// The byte with which a spelling in the format begins.
    pub fn number(self) -> u8
        ensures { result ≡ spec.format_number self }
    {
        self as u8
    }
}

fn one_names_provision(mods: &[Modification]) -> bool
    ensures { result ≡ list_any names_provision mods.now }
{
    mods.iter().any(|m| m.source().provision.is_some())
}

impl Command {
    /// Whether the act that the command brings is wide, or one of its sources names a provision.
    #[tactic(auto, unfolding(crate::specs::Law::Formats::asks_second))]
    pub fn asks_second_format(&self) -> bool
        ensures { result ≡ spec.asks_second self.now }
    {
        match self {
            Command::Enact { act } => act.limit == NodeLimit::Wide,
            Command::Record { mods, .. } => one_names_provision(mods.as_slice()),
            Command::Correct { body, .. } | Command::DraftAdd { body, .. } => {
                body.source().provision.is_some()
            }
            _ => false,
        }
    }

    /// The format in which an entry of the command is spelled: the second where the command asks for it, else the first.
    pub fn format(&self) -> EntryFormat
        ensures { result ≡ spec.format_of self.now }
    {
        if self.asks_second_format() {
            EntryFormat::Second
        } else {
            EntryFormat::First
        }
    }
}
