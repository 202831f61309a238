//! The edits of textual modifications.

ghost use Rattle.std.specs.Prelude.{◌≡◌};
ghost use Rattle.entry_codec.specs.Reads.{Reads};
ghost use Rattle.entry_codec.specs.Fields.{each, kind_read};
ghost use Rattle.entry_codec.specs.Modifications as spec;

use super::reader::{Reader, Stop};
use desk_base::Text;
use eid_paths::Num;
use std::alloc::Global;
use textual_mods::{Pairs, Pos, SplitAt, TextPos, TextualMod};

impl<'a> Reader<'a> {
    #[tactic(auto, unfolding(crate::specs::Modifications::pos))]
    fn pos(&mut self) -> Result<Pos, Stop>
        ensures { Reads (λ p. p) result self.new.left.now (spec.pos.read self.old.left.now) }
    {
        let start = self.left.len();
        match self.byte()? {
            0 => Ok(Pos::Before),
            1 => Ok(Pos::After),
            2 => Ok(Pos::Start),
            3 => Ok(Pos::End),
            _ => Err(Stop::Broken(start)),
        }
    }

    #[tactic(auto, unfolding(crate::specs::Modifications::text_pos))]
    fn text_pos(&mut self, alloc: Global) -> Result<TextPos, Stop>
        ensures { Reads (λ p. p) result self.new.left.now (spec.text_pos.read self.old.left.now) }
    {
        let start = self.left.len();
        match self.byte()? {
            0 => Ok(TextPos::Before(self.spot(alloc)?)),
            1 => Ok(TextPos::After(self.spot(alloc)?)),
            2 => Ok(TextPos::Start),
            3 => Ok(TextPos::End),
            _ => Err(Stop::Broken(start)),
        }
    }

    #[tactic(auto, unfolding(crate::specs::Modifications::split_at))]
    fn split_at(&mut self, alloc: Global) -> Result<SplitAt, Stop>
        ensures { Reads (λ s. s) result self.new.left.now (spec.split_at.read self.old.left.now) }
    {
        let start = self.left.len();
        match self.byte()? {
            0 => Ok(SplitAt::Text(self.spot(alloc)?)),
            1 => Ok(SplitAt::Child(self.text(alloc)?)),
            _ => Err(Stop::Broken(start)),
        }
    }

    // A provision by its wId, with the num that it gets.
    #[tactic(auto, unfolding(crate::specs::Modifications::num_pair))]
    fn num_pair(&mut self, alloc: Global) -> Result<(Text, Num), Stop>
        ensures { Reads (λ p. p) result self.new.left.now (spec.num_pair.read self.old.left.now) }
    {
        let wid = self.text(alloc)?;
        let num = self.num()?;
        Ok((wid, num))
    }

    fn each_pair(&mut self, alloc: Global, count: u16) -> Result<Pairs, Stop>
        ensures { Reads (λ p. p) result self.new.left.now ((each spec.num_pair count).read self.old.left.now) }
    {
        let mut pairs = Pairs::new(alloc);
        for _ in 0..count {
            let (wid, num) = self.num_pair(alloc)?;
            pairs.push(wid, num)?;
        }
        Ok(pairs)
    }

    fn repeal(&mut self, alloc: Global) -> Result<TextualMod, Stop>
        ensures { Reads (λ e. e) result self.new.left.now (kind_read spec.repeal self.old.left.now) }
    {
        let wid = self.text(alloc)?;
        Ok(TextualMod::Repeal { wid })
    }

    fn substitute_nodes(&mut self, alloc: Global) -> Result<TextualMod, Stop>
        ensures { Reads (λ e. e) result self.new.left.now (kind_read spec.substitute_nodes self.old.left.now) }
    {
        let wid = self.text(alloc)?;
        let new = self.payload(alloc)?;
        Ok(TextualMod::SubstituteNodes { wid, new })
    }

    fn substitute_text(&mut self, alloc: Global) -> Result<TextualMod, Stop>
        ensures { Reads (λ e. e) result self.new.left.now (kind_read spec.substitute_text self.old.left.now) }
    {
        let wid = self.text(alloc)?;
        let spot = self.spot(alloc)?;
        let new = self.text(alloc)?;
        Ok(TextualMod::SubstituteText { wid, spot, new })
    }

    fn insert_nodes(&mut self, alloc: Global) -> Result<TextualMod, Stop>
        ensures { Reads (λ e. e) result self.new.left.now (kind_read spec.insert_nodes self.old.left.now) }
    {
        let wid = self.text(alloc)?;
        let pos = self.pos()?;
        let new = self.payload(alloc)?;
        Ok(TextualMod::InsertNodes { wid, pos, new })
    }

    fn insert_text(&mut self, alloc: Global) -> Result<TextualMod, Stop>
        ensures { Reads (λ e. e) result self.new.left.now (kind_read spec.insert_text self.old.left.now) }
    {
        let wid = self.text(alloc)?;
        let at = self.text_pos(alloc)?;
        let new = self.text(alloc)?;
        Ok(TextualMod::InsertText { wid, at, new })
    }

    #[tactic(auto, unfolding(crate::specs::Modifications::num_pairs))]
    fn renumber(&mut self, alloc: Global) -> Result<TextualMod, Stop>
        ensures { Reads (λ e. e) result self.new.left.now (kind_read spec.renumber self.old.left.now) }
    {
        let count = self.number16()?;
        let pairs = self.each_pair(alloc, count)?;
        Ok(TextualMod::Renumber { pairs })
    }

    fn split(&mut self, alloc: Global) -> Result<TextualMod, Stop>
        ensures { Reads (λ e. e) result self.new.left.now (kind_read spec.split self.old.left.now) }
    {
        let wid = self.text(alloc)?;
        let at = self.split_at(alloc)?;
        let num = self.num()?;
        let heading = self.text(alloc)?;
        Ok(TextualMod::Split {
            wid,
            at,
            num,
            heading,
        })
    }

    fn join(&mut self, alloc: Global) -> Result<TextualMod, Stop>
        ensures { Reads (λ e. e) result self.new.left.now (kind_read spec.join self.old.left.now) }
    {
        let wid = self.text(alloc)?;
        let second = self.text(alloc)?;
        let separator = self.text(alloc)?;
        Ok(TextualMod::Join {
            wid,
            second,
            separator,
        })
    }

    #[tactic(auto, unfolding(crate::specs::Modifications::edit))]
    pub fn edit(&mut self, alloc: Global) -> Result<TextualMod, Stop>
        ensures { Reads (λ e. e) result self.new.left.now (spec.edit.read self.old.left.now) }
    {
        let start = self.left.len();
        match self.byte()? {
            1 => self.repeal(alloc),
            2 => self.substitute_nodes(alloc),
            3 => self.substitute_text(alloc),
            4 => self.insert_nodes(alloc),
            5 => self.insert_text(alloc),
            6 => self.renumber(alloc),
            7 => self.split(alloc),
            8 => self.join(alloc),
            _ => Err(Stop::Broken(start)),
        }
    }
}
