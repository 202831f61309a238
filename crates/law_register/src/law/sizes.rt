//! Sizes of entries: how many bytes each takes where it is kept. Each part is added to a size so far, and a size stops at the
//! greatest `u64`.

ghost use Rattle.std.specs.Prelude.{◌≡◌, ◌+◌, ◌-◌, ◌^◌, min};
ghost use Rattle.law_register.specs.Law.Sizes as spec;

use crate::{
    Act, Command, Destination, Drafter, Entry, EntryFormat, ModSource, Modification, Mods,
};
use desk_base::{DAY_SIZE, ID_SIZE, PERIOD_SIZE, plus_name, plus_text};

// The bytes of the limit of an act, which only the second format says.
fn limit_size(format: EntryFormat) -> u64
    ensures { result ≡ spec.limit_size format }
{
    match format {
        EntryFormat::First => 0,
        EntryFormat::Second => 2,
    }
}

impl Act {
    /// A size with that of the act.
    pub fn plus_size(&self, format: EntryFormat, size: u64) -> u64
        ensures { result ≡ min (size + spec.act_size format self.now) (2 ^ 64 - 1) }
    {
        let size = plus_text(size, self.work.as_str()).saturating_add(limit_size(format));
        self.body
            .plus_size(size.saturating_add(3 + DAY_SIZE + 2 + PERIOD_SIZE))
    }
}

impl ModSource {
    /// A size with that of the source.
    pub fn plus_size(&self, format: EntryFormat, size: u64) -> u64
        ensures { result ≡ min (size + spec.source_size format self.now) (2 ^ 64 - 1) }
    {
        let size = plus_text(size, self.href.as_str()).saturating_add(2);
        match format {
            EntryFormat::First => size,
            EntryFormat::Second => match &self.provision {
                Some(provision) => plus_text(size, provision.as_str()),
                None => plus_text(size, ""),
            },
        }
    }
}

impl Destination {
    /// A size with that of the destination.
    pub fn plus_size(&self, size: u64) -> u64
        ensures { result ≡ min (size + spec.destination_size self.now) (2 ^ 64 - 1) }
    {
        match self {
            Destination::Modification(_) => size.saturating_add(1 + ID_SIZE),
            Destination::Node(wid) => plus_text(size.saturating_add(1), wid.as_str()),
        }
    }
}

impl Modification {
    /// A size with that of the modification.
    pub fn plus_size(&self, format: EntryFormat, size: u64) -> u64
        ensures { result ≡ min (size + spec.modification_size format self.now) (2 ^ 64 - 1) }
    {
        let size = size.saturating_add(1);
        match self {
            Modification::Textual { source, edit, .. } => {
                edit.plus_size(source.plus_size(format, size).saturating_add(PERIOD_SIZE))
            }
            Modification::Force {
                source,
                destination,
                effect,
                ..
            } => destination
                .plus_size(source.plus_size(format, size))
                .saturating_add(DAY_SIZE + effect.size()),
            Modification::Efficacy {
                source,
                destination,
                effect,
                ..
            } => destination
                .plus_size(source.plus_size(format, size))
                .saturating_add(DAY_SIZE + effect.size()),
        }
    }
}

impl Mods {
    /// A size with that of the modifications, behind their count.
    pub fn plus_size(&self, format: EntryFormat, size: u64) -> u64
        ensures { result ≡ min (size + (2 + spec.modifications_size format self.now)) (2 ^ 64 - 1) }
    {
        let mut sum = size.saturating_add(2);
        for modification in self.as_slice() {
            sum = modification.plus_size(format, sum);
        }
        sum
    }
}

impl Command {
    /// A size with that of the command.
    pub fn plus_size(&self, format: EntryFormat, size: u64) -> u64
        ensures { result ≡ min (size + spec.command_size format self.now) (2 ^ 64 - 1) }
    {
        let size = size.saturating_add(1);
        match self {
            Command::Enact { act } => act.plus_size(format, size),
            Command::Record { work, mods } => {
                mods.plus_size(format, plus_text(size, work.as_str()))
            },
            Command::Correct { body, .. } => {
                body.plus_size(format, size.saturating_add(ID_SIZE))
            },
            Command::Withdraw { .. } | Command::Restore { .. } => size.saturating_add(ID_SIZE),
            Command::DraftAdd { work, body } => {
                body.plus_size(format, plus_text(size, work.as_str()))
            },
            Command::DraftDrop { .. } => size.saturating_add(4),
            Command::File { work, .. } => plus_text(size, work.as_str()).saturating_add(4),
        }
    }
}

/// How many bytes the entry of a drafter's command takes, at most the greatest `u64`.
pub fn size_of(drafter: &Drafter, command: &Command) -> u64
    ensures { result ≡ min (spec.size_of drafter.now command.now) (2 ^ 64 - 1) }
{
    let size = plus_name(1, drafter.as_str()).saturating_add(8 + DAY_SIZE + 4);
    command.plus_size(command.format(), size)
}

/// How many bytes an entry takes where it is kept, at most the greatest `u64`: its format in one byte, its drafter, request,
/// day and law number, and its command.
pub fn entry_size(entry: &Entry) -> u64
    ensures { result ≡ min (spec.entry_size entry.now) (2 ^ 64 - 1) }
{
    size_of(&entry.drafter, &entry.command)
}
