//! What the formats spell in ways of their own: the limit of an act, and the provision of a source.

ghost use Rattle.std.specs.Prelude.{◌≡◌};
ghost use Rattle.entry_codec.specs.Reads.{Reads};
ghost use Rattle.entry_codec.specs.Fields.{made_read};
ghost use Rattle.entry_codec.specs.Values.{ruled_text};
ghost use Rattle.entry_codec.specs.Formats as spec;
ghost use Rattle.entry_codec.specs.Formats.{format_in};

use super::reader::{Reader, Stop};
use act_tree::NodeLimit;
use desk_base::Text;
use frbr_names::is_portion;
use law_register::EntryFormat;
use std::alloc::Global;

impl<'a> Reader<'a> {
    #[tactic(auto, unfolding(crate::specs::Formats::limit))]
    fn stated_limit(&mut self) -> Result<NodeLimit, Stop>
        ensures { Reads (λ l. l) result self.new.left.now (spec.limit.read self.old.left.now) }
    {
        let start = self.left.len();
        match self.number16()? {
            4096 => Ok(NodeLimit::Plain),
            8192 => Ok(NodeLimit::Wide),
            _ => Err(Stop::Broken(start)),
        }
    }

    /// The limit of an act, which format 1 does not say.
    pub fn limit(&mut self, format: EntryFormat) -> Result<NodeLimit, Stop>
        ensures { Reads (λ l. l) result self.new.left.now ((format_in format).limit.read self.old.left.now) }
    {
        match format {
            EntryFormat::First => Ok(NodeLimit::Plain),
            EntryFormat::Second => self.stated_limit(),
        }
    }

    fn provision_of(&mut self, alloc: Global, len: usize) -> Result<Option<Text>, Stop>
        ensures { Reads (λ p. p) result self.new.left.now
            (made_read spec.some_but_empty (ruled_text spec.is_empty_or_portion len).read self.old.left.now) }
    {
        let start = self.left.len();
        let text = self.text_of(len)?;
        if text.is_empty() {
            return Ok(None);
        }
        if !is_portion(text.as_bytes()) {
            return Err(Stop::Broken(start));
        }
        Ok(Some(Text::copy_of(alloc, text)?))
    }

    #[tactic(auto, unfolding(crate::specs::Formats::provision))]
    fn stated_provision(&mut self, alloc: Global) -> Result<Option<Text>, Stop>
        ensures { Reads (λ p. p) result self.new.left.now (spec.provision.read self.old.left.now) }
    {
        let len = self.number16()?;
        self.provision_of(alloc, len as usize)
    }

    /// The provision that a source names, which format 1 does not say.
    pub fn provision(&mut self, alloc: Global, format: EntryFormat) -> Result<Option<Text>, Stop>
        ensures { Reads (λ p. p) result self.new.left.now ((format_in format).provision.read self.old.left.now) }
    {
        match format {
            EntryFormat::First => Ok(None),
            EntryFormat::Second => self.stated_provision(alloc),
        }
    }
}
