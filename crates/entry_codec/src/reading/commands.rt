//! Acts and commands.

ghost use Rattle.std.specs.Prelude.{◌≡◌};
ghost use Rattle.entry_codec.specs.Reads.{Reads};
ghost use Rattle.entry_codec.specs.Fields.{kind_read};
ghost use Rattle.entry_codec.specs.Acts as acts;
ghost use Rattle.entry_codec.specs.Formats.{format_in};
ghost use Rattle.entry_codec.specs.Commands as spec;

use super::reader::{Reader, Stop};
use law_register::{Act, Command, EntryFormat};
use std::alloc::Global;

impl<'a> Reader<'a> {
    #[tactic(auto, unfolding(crate::specs::Acts::act, crate::specs::Acts::act_rest))]
    fn act(&mut self, alloc: Global, format: EntryFormat) -> Result<Act, Stop>
        ensures { Reads (λ a. a) result self.new.left.now ((acts.act (format_in format)).read self.old.left.now) }
    {
        let work = self.work(alloc)?;
        let language = self.language()?;
        let day = self.act_day(&work)?;
        let numbering = self.numbering()?;
        let limit = self.limit(format)?;
        let force = self.period()?;
        let body = self.payload(alloc)?;
        Ok(Act {
            work,
            language,
            day,
            numbering,
            limit,
            force,
            body,
        })
    }

    fn enact(&mut self, alloc: Global, format: EntryFormat) -> Result<Command, Stop>
        ensures { Reads (λ c. c) result self.new.left.now (kind_read (spec.enact (format_in format)) self.old.left.now) }
    {
        let act = self.act(alloc, format)?;
        Ok(Command::Enact { act })
    }

    fn recorded(&mut self, alloc: Global, format: EntryFormat) -> Result<Command, Stop>
        ensures { Reads (λ c. c) result self.new.left.now (kind_read (spec.recorded (format_in format)) self.old.left.now) }
    {
        let work = self.work(alloc)?;
        let mods = self.modifications(alloc, format)?;
        Ok(Command::Record { work, mods })
    }

    fn correct(&mut self, alloc: Global, format: EntryFormat) -> Result<Command, Stop>
        ensures { Reads (λ c. c) result self.new.left.now (kind_read (spec.correct (format_in format)) self.old.left.now) }
    {
        let id = self.id()?;
        let body = self.modification(alloc, format)?;
        Ok(Command::Correct { id, body })
    }

    fn withdraw(&mut self) -> Result<Command, Stop>
        ensures { Reads (λ c. c) result self.new.left.now (kind_read spec.withdraw self.old.left.now) }
    {
        let id = self.id()?;
        Ok(Command::Withdraw { id })
    }

    fn restore(&mut self) -> Result<Command, Stop>
        ensures { Reads (λ c. c) result self.new.left.now (kind_read spec.restore self.old.left.now) }
    {
        let id = self.id()?;
        Ok(Command::Restore { id })
    }

    fn draft_add(&mut self, alloc: Global, format: EntryFormat) -> Result<Command, Stop>
        ensures { Reads (λ c. c) result self.new.left.now (kind_read (spec.draft_add (format_in format)) self.old.left.now) }
    {
        let work = self.work(alloc)?;
        let body = self.modification(alloc, format)?;
        Ok(Command::DraftAdd { work, body })
    }

    fn draft_drop(&mut self) -> Result<Command, Stop>
        ensures { Reads (λ c. c) result self.new.left.now (kind_read spec.draft_drop self.old.left.now) }
    {
        let item = self.number32()?;
        Ok(Command::DraftDrop { item })
    }

    fn file(&mut self, alloc: Global) -> Result<Command, Stop>
        ensures { Reads (λ c. c) result self.new.left.now (kind_read spec.file self.old.left.now) }
    {
        let work = self.work(alloc)?;
        let seen = self.number32()?;
        Ok(Command::File { work, seen })
    }

    #[tactic(auto, unfolding(crate::specs::Commands::command))]
    pub fn command(&mut self, alloc: Global, format: EntryFormat) -> Result<Command, Stop>
        ensures { Reads (λ c. c) result self.new.left.now ((spec.command (format_in format)).read self.old.left.now) }
    {
        let start = self.left.len();
        match self.byte()? {
            1 => self.enact(alloc, format),
            2 => self.recorded(alloc, format),
            3 => self.correct(alloc, format),
            4 => self.withdraw(),
            5 => self.restore(),
            6 => self.draft_add(alloc, format),
            7 => self.draft_drop(),
            8 => self.file(alloc),
            _ => Err(Stop::Broken(start)),
        }
    }
}
