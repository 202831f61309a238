//! Modifications: textual ones, and those of force and efficacy.

ghost use Rattle.std.specs.Prelude.{◌≡◌};
ghost use Rattle.entry_codec.specs.Reads.{Reads};
ghost use Rattle.entry_codec.specs.Fields.{each, kind_read};
ghost use Rattle.entry_codec.specs.Formats.{format_in};
ghost use Rattle.entry_codec.specs.Modifications as spec;

use super::reader::{Reader, Stop};
use law_register::{EntryFormat, ModSource, Modification, Mods};
use std::alloc::Global;

impl<'a> Reader<'a> {
    #[tactic(auto, unfolding(crate::specs::Modifications::source))]
    fn source(&mut self, alloc: Global, format: EntryFormat) -> Result<ModSource, Stop>
        ensures { Reads (λ s. s) result self.new.left.now ((spec.source (format_in format)).read self.old.left.now) }
    {
        let href = self.work(alloc)?;
        let place = self.number16()?;
        let provision = self.provision(alloc, format)?;
        Ok(ModSource {
            href,
            place,
            provision,
        })
    }

    fn textual(&mut self, alloc: Global, format: EntryFormat) -> Result<Modification, Stop>
        ensures { Reads (λ m. m) result self.new.left.now (kind_read (spec.textual (format_in format)) self.old.left.now) }
    {
        let source = self.source(alloc, format)?;
        let force = self.period()?;
        let edit = self.edit(alloc)?;
        Ok(Modification::Textual {
            source,
            force,
            edit,
        })
    }

    fn force(&mut self, alloc: Global, format: EntryFormat) -> Result<Modification, Stop>
        ensures { Reads (λ m. m) result self.new.left.now (kind_read (spec.forced (format_in format)) self.old.left.now) }
    {
        let source = self.source(alloc, format)?;
        let destination = self.destination(alloc)?;
        let (on, effect) = self.force_effect()?;
        Ok(Modification::Force {
            source,
            destination,
            on,
            effect,
        })
    }

    fn efficacy(&mut self, alloc: Global, format: EntryFormat) -> Result<Modification, Stop>
        ensures { Reads (λ m. m) result self.new.left.now (kind_read (spec.effective (format_in format)) self.old.left.now) }
    {
        let source = self.source(alloc, format)?;
        let destination = self.destination(alloc)?;
        let (on, effect) = self.efficacy_effect()?;
        Ok(Modification::Efficacy {
            source,
            destination,
            on,
            effect,
        })
    }

    #[tactic(auto, unfolding(crate::specs::Modifications::modification))]
    pub fn modification(&mut self, alloc: Global, format: EntryFormat) -> Result<Modification, Stop>
        ensures { Reads (λ m. m) result self.new.left.now ((spec.modification (format_in format)).read self.old.left.now) }
    {
        let start = self.left.len();
        match self.byte()? {
            1 => self.textual(alloc, format),
            2 => self.force(alloc, format),
            3 => self.efficacy(alloc, format),
            _ => Err(Stop::Broken(start)),
        }
    }

    fn each_modification(
        &mut self,
        alloc: Global,
        format: EntryFormat,
        count: u16,
    ) -> Result<Mods, Stop>
        ensures { Reads (λ m. m) result self.new.left.now ((each (spec.modification (format_in format)) count).read self.old.left.now) }
    {
        let mut mods = Mods::new(alloc);
        for _ in 0..count {
            mods.push(self.modification(alloc, format)?)?;
        }
        Ok(mods)
    }

    #[tactic(auto, unfolding(crate::specs::Modifications::modifications))]
    pub fn modifications(&mut self, alloc: Global, format: EntryFormat) -> Result<Mods, Stop>
        ensures { Reads (λ m. m) result self.new.left.now ((spec.modifications (format_in format)).read self.old.left.now) }
    {
        let count = self.number16()?;
        self.each_modification(alloc, format, count)
    }
}
