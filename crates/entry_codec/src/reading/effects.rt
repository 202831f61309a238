//! The effects of modifications of force and of efficacy, each with the day from which it is counted.

ghost use Rattle.std.specs.Prelude.{◌≡◌};
ghost use Rattle.entry_codec.specs.Reads.{Reads};
ghost use Rattle.entry_codec.specs.Modifications as spec;

use super::reader::{Reader, Stop};
use bearing_mods::{EfficacyEffect, ForceEffect};
use desk_base::Day;

impl<'a> Reader<'a> {
    // The day from which an effect is counted, and its date.
    fn dates(&mut self) -> Result<(Day, Day), Stop>
        ensures { Reads (λ d. d) result self.new.left.now (spec.dates.read self.old.left.now) }
    {
        let on = self.day()?;
        let date = self.day()?;
        Ok((on, date))
    }

    #[tactic(auto, unfolding(crate::specs::Modifications::force_effect))]
    pub fn force_effect(&mut self) -> Result<(Day, ForceEffect), Stop>
        ensures { Reads (λ p. p) result self.new.left.now (spec.force_effect.read self.old.left.now) }
    {
        let start = self.left.len();
        match self.byte()? {
            1 => {
                let (on, date) = self.dates()?;
                Ok((on, ForceEffect::Entry(date)))
            }
            2 => {
                let (on, date) = self.dates()?;
                Ok((on, ForceEffect::Postponed(date)))
            }
            3 => {
                let (on, date) = self.dates()?;
                Ok((on, ForceEffect::Ended(date)))
            }
            4 => {
                let (on, date) = self.dates()?;
                Ok((on, ForceEffect::Prorogued(date)))
            }
            5 => {
                let (on, date) = self.dates()?;
                Ok((on, ForceEffect::ReEnacted(date)))
            }
            _ => Err(Stop::Broken(start)),
        }
    }

    #[tactic(auto, unfolding(crate::specs::Modifications::efficacy_effect))]
    pub fn efficacy_effect(&mut self) -> Result<(Day, EfficacyEffect), Stop>
        ensures { Reads (λ p. p) result self.new.left.now (spec.efficacy_effect.read self.old.left.now) }
    {
        let start = self.left.len();
        match self.byte()? {
            1 => {
                let (on, date) = self.dates()?;
                Ok((on, EfficacyEffect::Entry(date)))
            }
            2 => {
                let (on, date) = self.dates()?;
                Ok((on, EfficacyEffect::Ended(date)))
            }
            3 => {
                let date = self.day()?;
                Ok((date, EfficacyEffect::Retroactive(date)))
            }
            4 => {
                let (on, date) = self.dates()?;
                Ok((on, EfficacyEffect::Postponed(date)))
            }
            5 => {
                let (on, date) = self.dates()?;
                Ok((on, EfficacyEffect::Prorogued(date)))
            }
            6 => {
                let on = self.day()?;
                Ok((on, EfficacyEffect::Extra))
            }
            7 => {
                let on = self.day()?;
                let days = self.period()?;
                Ok((on, EfficacyEffect::Inapplied(days)))
            }
            _ => Err(Stop::Broken(start)),
        }
    }
}
