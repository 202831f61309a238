//! Texts behind a length: free ones, the names of drafters, nums, and the IRIs of works and of expressions.

ghost use Rattle.std.specs.Prelude.{◌≡◌};
ghost use Rattle.eid_paths.specs.Nums.{is_num};
ghost use Rattle.frbr_names.specs.Expressions.{is_expression as is_expression_text};
ghost use Rattle.law_register.specs.Register.Drafters.{is_drafter};
ghost use Rattle.entry_codec.specs.Reads.{Reads};
ghost use Rattle.entry_codec.specs.Fields.{each};
ghost use Rattle.entry_codec.specs.Values as spec;
ghost use Rattle.entry_codec.specs.Values.{ruled_text};

use super::known::{known_drafter, known_work};
use super::reader::{Reader, Stop};
use act_tree::Refs;
use desk_base::Text;
use eid_paths::Num;
use frbr_names::{WorkName, is_expression, parse_work};
use law_register::Drafter;
use std::alloc::Global;

impl<'a> Reader<'a> {
    /// So many bytes of UTF-8.
    #[tactic(auto, unfolding(crate::specs::Values::text_of))]
    pub fn text_of(&mut self, len: usize) -> Result<&'a str, Stop>
        ensures { Reads (λ t. t.now) result self.new.left.now ((spec.text_of len).read self.old.left.now) }
    {
        let start = self.left.len();
        let bytes = self.chunk(len)?;
        match str::from_utf8(bytes) {
            Ok(text) => Ok(text),
            Err(_) => Err(Stop::Broken(start)),
        }
    }

    #[tactic(auto, unfolding(crate::specs::Values::text))]
    pub fn text(&mut self, alloc: Global) -> Result<Text, Stop>
        ensures { Reads (λ t. t) result self.new.left.now (spec.text.read self.old.left.now) }
    {
        let len = self.number16()?;
        let text = self.text_of(len as usize)?;
        Ok(Text::copy_of(alloc, text)?)
    }

    fn drafter_of(&mut self, alloc: Global, len: usize) -> Result<Drafter, Stop>
        ensures { Reads (λ d. d) result self.new.left.now ((spec.ruled_text is_drafter len).read self.old.left.now) }
    {
        if let Some(drafter) = known_drafter(self.left, len, self.known_drafter) {
            self.left = &self.left[len..];
            return Ok(drafter);
        }
        let start = self.left.len();
        let text = self.text_of(len)?;
        match Drafter::from_text(alloc, text)? {
            Some(drafter) => Ok(drafter),
            None => Err(Stop::Broken(start)),
        }
    }

    #[tactic(auto, unfolding(crate::specs::Values::drafter))]
    pub fn drafter(&mut self, alloc: Global) -> Result<Drafter, Stop>
        ensures { Reads (λ d. d) result self.new.left.now (spec.drafter.read self.old.left.now) }
    {
        let len = self.byte()?;
        self.drafter_of(alloc, len as usize)
    }

    fn num_of(&mut self, len: usize) -> Result<Num, Stop>
        ensures { Reads (λ n. n) result self.new.left.now ((spec.ruled_text is_num len).read self.old.left.now) }
    {
        let start = self.left.len();
        let text = self.text_of(len)?;
        match Num::from_text(text) {
            Some(num) => Ok(num),
            None => Err(Stop::Broken(start)),
        }
    }

    #[tactic(auto, unfolding(crate::specs::Values::num))]
    pub fn num(&mut self) -> Result<Num, Stop>
        ensures { Reads (λ n. n) result self.new.left.now (spec.num.read self.old.left.now) }
    {
        let len = self.byte()?;
        self.num_of(len as usize)
    }

    fn work_of(&mut self, alloc: Global, len: usize) -> Result<WorkName, Stop>
        ensures { Reads (λ w. w) result self.new.left.now ((spec.ruled_text spec.is_work len).read self.old.left.now) }
    {
        if let Some(work) = known_work(self.left, len, self.known_work) {
            self.left = &self.left[len..];
            return Ok(work);
        }
        let start = self.left.len();
        let text = self.text_of(len)?;
        match parse_work(text) {
            Ok(iri) => Ok(WorkName::copy_of(alloc, &iri)?),
            Err(_) => Err(Stop::Broken(start)),
        }
    }

    /// The IRI of a work.
    #[tactic(auto, unfolding(crate::specs::Values::work))]
    pub fn work(&mut self, alloc: Global) -> Result<WorkName, Stop>
        ensures { Reads (λ w. w) result self.new.left.now (spec.work.read self.old.left.now) }
    {
        let len = self.number16()?;
        self.work_of(alloc, len as usize)
    }

    fn expression_of(&mut self, alloc: Global, len: usize) -> Result<Text, Stop>
        ensures { Reads (λ t. t) result self.new.left.now ((ruled_text is_expression_text len).read self.old.left.now) }
    {
        let start = self.left.len();
        let text = self.text_of(len)?;
        if !is_expression(text) {
            return Err(Stop::Broken(start));
        }
        Ok(Text::copy_of(alloc, text)?)
    }

    // The IRI of an expression.
    #[tactic(auto, unfolding(crate::specs::Values::expression))]
    fn expression(&mut self, alloc: Global) -> Result<Text, Stop>
        ensures { Reads (λ t. t) result self.new.left.now (spec.expression.read self.old.left.now) }
    {
        let len = self.number16()?;
        self.expression_of(alloc, len as usize)
    }

    fn each_ref(&mut self, alloc: Global, count: u16) -> Result<Refs, Stop>
        ensures { Reads (λ r. r) result self.new.left.now ((each spec.expression count).read self.old.left.now) }
    {
        let mut refs = Refs::new(alloc);
        for _ in 0..count {
            refs.push(self.expression(alloc)?)?;
        }
        Ok(refs)
    }

    #[tactic(auto, unfolding(crate::specs::Values::refs))]
    pub fn refs(&mut self, alloc: Global) -> Result<Refs, Stop>
        ensures { Reads (λ r. r) result self.new.left.now (spec.refs.read self.old.left.now) }
    {
        let count = self.number16()?;
        self.each_ref(alloc, count)
    }
}
