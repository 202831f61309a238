//! The small values of an entry: days, periods, ids, what an act says before its nodes, destinations and occurrences.

ghost use Rattle.std.specs.Prelude.{◌≡◌, ◌<◌, Some, None, if◌then◌else◌};
ghost use Rattle.entry_codec.specs.Reads.{Reads};
ghost use Rattle.entry_codec.specs.Values as spec;
ghost use Rattle.std.specs.List.{list_all};
ghost use Rattle.std.specs.Char.{is_ascii_lowercase};

use super::reader::{Reader, Stop};
use desk_base::{Day, Id, Period};
use eid_paths::Numbering;
use frbr_names::WorkName;
use law_register::Destination;
use std::alloc::Global;
use textual_mods::Spot;

// The day of a number, if it has one.
fn day_numbered(number: u32) -> Option<Day>
    ensures { result ≡ (if spec.is_day number then Some number else None) }
{
    if number > 3_652_059 {
        return None;
    }
    Day::from_number(number as i32)
}

fn has_bit(number: u16, bit: u16) -> bool
    requires { 0 < bit }
    ensures { result ≡ spec.has_bit number bit }
{
    number / bit % 2 == 1
}

fn numbering_from(number: u16) -> Numbering
    ensures { result ≡ spec.numbering_from number }
{
    Numbering {
        throughout: [
            has_bit(number, 1),
            has_bit(number, 2),
            has_bit(number, 4),
            has_bit(number, 8),
            has_bit(number, 16),
            has_bit(number, 32),
            has_bit(number, 64),
            has_bit(number, 128),
            has_bit(number, 256),
            has_bit(number, 512),
            has_bit(number, 1024),
            has_bit(number, 2048),
            has_bit(number, 4096),
            has_bit(number, 8192),
        ],
    }
}

fn are_lowercase(bytes: &[u8]) -> bool
    ensures { result ≡ list_all is_ascii_lowercase bytes.now }
{
    bytes.iter().all(|byte| byte.is_ascii_lowercase())
}

impl<'a> Reader<'a> {
    #[tactic(auto, unfolding(crate::specs::Values::day))]
    pub fn day(&mut self) -> Result<Day, Stop>
        ensures { Reads (λ d. d) result self.new.left.now (spec.day.read self.old.left.now) }
    {
        let start = self.left.len();
        let number = self.number32()?;
        match day_numbered(number) {
            Some(day) => Ok(day),
            None => Err(Stop::Broken(start)),
        }
    }

    #[tactic(auto, unfolding(crate::specs::Values::day_or_none))]
    fn day_or_none(&mut self) -> Result<Option<Day>, Stop>
        ensures { Reads (λ d. d) result self.new.left.now (spec.day_or_none.read self.old.left.now) }
    {
        let start = self.left.len();
        let number = self.number32()?;
        if number == 0 {
            return Ok(None);
        }
        match day_numbered(number) {
            Some(day) => Ok(Some(day)),
            None => Err(Stop::Broken(start)),
        }
    }

    /// The number of a law entry, or none.
    #[tactic(auto, unfolding(crate::specs::Values::law))]
    pub fn law(&mut self) -> Result<Option<u32>, Stop>
        ensures { Reads (λ n. n) result self.new.left.now (spec.law.read self.old.left.now) }
    {
        let number = self.number32()?;
        if number == 0 {
            return Ok(None);
        }
        Ok(Some(number))
    }

    #[tactic(auto, unfolding(crate::specs::Values::period))]
    pub fn period(&mut self) -> Result<Period, Stop>
        ensures { Reads (λ p. p) result self.new.left.now (spec.period.read self.old.left.now) }
    {
        let start = self.day()?;
        let end = self.day_or_none()?;
        Ok(Period { start, end })
    }

    #[tactic(auto, unfolding(crate::specs::Values::id))]
    pub fn id(&mut self) -> Result<Id, Stop>
        ensures { Reads (λ i. i) result self.new.left.now (spec.id.read self.old.left.now) }
    {
        let law = self.number32()?;
        let item = self.number16()?;
        Ok(Id { law, item })
    }

    /// The language of an act.
    #[tactic(auto, unfolding(crate::specs::Values::language, frbr_names::specs::Expressions::is_language))]
    pub fn language(&mut self) -> Result<[u8; 3], Stop>
        ensures { Reads (λ l. l) result self.new.left.now (spec.language.read self.old.left.now) }
    {
        let start = self.left.len();
        let bytes = self.chunk(3)?;
        if !are_lowercase(bytes) {
            return Err(Stop::Broken(start));
        }
        Ok([bytes[0], bytes[1], bytes[2]])
    }

    /// The day of an act, which agrees with the date in the IRI of its work.
    #[tactic(auto, unfolding(crate::specs::Values::act_day))]
    pub fn act_day(&mut self, work: &WorkName) -> Result<Day, Stop>
        ensures { Reads (λ d. d) result self.new.left.now ((spec.act_day work.now).read self.old.left.now) }
    {
        let start = self.left.len();
        let day = self.day()?;
        if !work.date().agrees_with(day) {
            return Err(Stop::Broken(start));
        }
        Ok(day)
    }

    #[tactic(auto, unfolding(crate::specs::Values::numbering))]
    pub fn numbering(&mut self) -> Result<Numbering, Stop>
        ensures { Reads (λ n. n) result self.new.left.now (spec.numbering.read self.old.left.now) }
    {
        let start = self.left.len();
        let number = self.number16()?;
        if number >= 16_384 {
            return Err(Stop::Broken(start));
        }
        Ok(numbering_from(number))
    }

    #[tactic(auto, unfolding(crate::specs::Values::destination))]
    pub fn destination(&mut self, alloc: Global) -> Result<Destination, Stop>
        ensures { Reads (λ d. d) result self.new.left.now (spec.destination.read self.old.left.now) }
    {
        let start = self.left.len();
        match self.byte()? {
            0 => Ok(Destination::Modification(self.id()?)),
            1 => Ok(Destination::Node(self.text(alloc)?)),
            _ => Err(Stop::Broken(start)),
        }
    }

    /// An occurrence of a text.
    #[tactic(auto, unfolding(crate::specs::Values::spot))]
    pub fn spot(&mut self, alloc: Global) -> Result<Spot, Stop>
        ensures { Reads (λ s. s) result self.new.left.now (spec.spot.read self.old.left.now) }
    {
        let old = self.text(alloc)?;
        let occurrence = self.number16()?;
        Ok(Spot { old, occurrence })
    }
}
