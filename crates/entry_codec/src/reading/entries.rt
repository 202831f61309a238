//! Entries.

ghost use Rattle.std.specs.Prelude.{◌≡◌};
ghost use Rattle.entry_codec.specs.Reads.{Reads};
ghost use Rattle.entry_codec.specs.Fields.{kind_read};
ghost use Rattle.entry_codec.specs.Formats.{format_in};
ghost use Rattle.entry_codec.specs.Entries as spec;

use super::reader::{Reader, Stop};
use law_register::{Entry, EntryFormat};
use std::alloc::Global;

impl<'a> Reader<'a> {
    // The fields of an entry behind the byte for its format.
    #[tactic(auto, unfolding(crate::specs::Entries::fields))]
    fn fields(&mut self, alloc: Global, format: EntryFormat) -> Result<Entry, Stop>
        ensures { Reads (λ e. e) result self.new.left.now ((spec.fields (format_in format)).read self.old.left.now) }
    {
        let drafter = self.drafter(alloc)?;
        let request = self.number64()?;
        let day = self.day()?;
        let law = self.law()?;
        let command = self.command(alloc, format)?;
        Ok(Entry {
            drafter,
            request,
            day,
            law,
            command,
        })
    }

    fn standing(&mut self, alloc: Global, format: EntryFormat) -> Result<(EntryFormat, Entry), Stop>
        ensures { Reads (λ e. e) result self.new.left.now (kind_read (spec.standing format) self.old.left.now) }
    {
        let entry = self.fields(alloc, format)?;
        Ok((format, entry))
    }

    /// An entry, with the format that its first byte tells.
    #[tactic(auto, unfolding(crate::specs::Entries::entry))]
    pub fn entry(&mut self, alloc: Global) -> Result<(EntryFormat, Entry), Stop>
        ensures { Reads (λ e. e) result self.new.left.now (spec.entry.read self.old.left.now) }
    {
        let start = self.left.len();
        match self.byte()? {
            1 => self.standing(alloc, EntryFormat::First),
            2 => self.standing(alloc, EntryFormat::Second),
            _ => Err(Stop::Broken(start)),
        }
    }
}
