//! A work on a day, in a reading: whether what is known of it bears.

ghost use Rattle.std.specs.Prelude.{◌≡◌, ℕ, List, IfOk};
ghost use Rattle.law_register.specs.Answer.Bearing as bearing;
ghost use Rattle.law_register.specs.Answer.Bearing.{force_of_act, start_on};
ghost use Rattle.law_register.specs.Answer.Counted.{forces_on, efficacies_on};
ghost use Rattle.law_register.specs.Answer.Flags as flags;
ghost use Rattle.law_register.specs.declared.law.modification.Destination.TheVariants as to;
ghost use Rattle.replay_core.specs.Groups.{CountsForce, CountsEfficacy};

use crate::counted::{Groups, efficacies, forces, gather};
use bearing_mods::{CountedEfficacy, CountedForce, Efficacy, efficacy_at, force_at};
use desk_base::{Day, Memory, Period, Text};
use law_register::{Destination, Known, Reading};
use std::alloc::Global;

/// A work on a day, in a reading.
#[derive(Debug, Drop)]
pub struct OnDay<'a> {
    /// What is known of the work.
    pub known: &'a Known,
    /// What counts as bearing.
    pub reading: Reading,
    /// The day.
    pub day: Day,
    groups: Groups,
    act_force: Period,
    ghost act_force_is: { act_force ≡ force_of_act known.now day },
    ghost forces_are: { CountsForce groups day known.now.mods },
    ghost efficacies_are: { CountsEfficacy groups day known.now.mods },
}

// The force period of the act.
fn act_force(alloc: Global, groups: &Groups, known: &Known, day: Day) -> Result<Period, Memory>
    requires { CountsForce groups.now day known.now.mods }
    ensures { IfOk result (λ force. force ≡ force_of_act known.now day) }
{
    let act = Destination::Node(Text::copy_of(alloc, "body")?);
    Ok(force_at(known.act.force, forces(groups, &act)))
}

impl<'a> OnDay<'a> {
    ghost use Rattle.std.specs.Prelude.{◌≡◌, ℕ, Bool, List, IfOk, unwrap_or};

    /// The work of which this is known, on a day and in a reading.
    pub fn new(
        alloc: Global,
        known: &'a Known,
        reading: Reading,
        day: Day,
    ) -> Result<OnDay<'a>, Memory>
        ensures known { IfOk result (λ on. on.known.now ≡ known.now) }
        ensures reading { IfOk result (λ on. on.reading ≡ reading) }
        ensures day { IfOk result (λ on. on.day ≡ day) }
    {
        let groups = gather(alloc, known.mods.as_slice(), day)?;
        let act_force = act_force(alloc, &groups, known, day)?;
        Ok(OnDay {
            known,
            reading,
            day,
            groups,
            act_force,
        })
    }

    // The force modifications of a thing that are counted.
    fn forces(&self, thing: &Destination) -> &[CountedForce]
        ensures { result.now ≡ forces_on thing.now self.now.day self.now.known.now.mods }
    {
        forces(&self.groups, thing)
    }

    // The efficacy modifications of a thing that are counted.
    fn efficacies(&self, thing: &Destination) -> &[CountedEfficacy]
        ensures { result.now ≡ efficacies_on thing.now self.now.day self.now.known.now.mods }
    {
        efficacies(&self.groups, thing)
    }

    /// The force period of a thing that has this period of itself.
    pub fn force_of(&self, thing: &Destination, own: Period) -> Period
        ensures { result ≡ bearing.force_on self.now.known.now.mods thing.now own self.now.day }
    {
        force_at(own, self.forces(thing))
    }

    /// The efficacy of a thing of this force period.
    pub fn efficacy_of(&self, thing: &Destination, force: Period) -> Efficacy
        ensures { result ≡ bearing.efficacy_on self.now.known.now.mods thing.now force self.now.day }
    {
        efficacy_at(force, self.efficacies(thing), self.day)
    }

    /// The day from which a thing bears that has this period of itself. `None`: it does not bear.
    pub fn start_of(&self, thing: &Destination, own: Period) -> Option<Day>
        ensures { result ≡ start_on self.now.reading self.now.day self.now.known.now.mods thing.now own }
    {
        let force = self.force_of(thing, own);
        match self.reading {
            Reading::Force => {
                let start = force.start;
                if bearing_mods::bears(force, self.day) {
                    Some(start)
                } else {
                    None
                }
            }
            Reading::Efficacy => {
                let efficacy = self.efficacy_of(thing, force);
                if efficacy.holds {
                    Some(efficacy.period.start)
                } else {
                    None
                }
            }
        }
    }

    /// Whether a thing of this force period bears.
    pub fn bears(&self, thing: &Destination, force: Period) -> bool
        ensures { result ≡ bearing.bears_on self.now.reading self.now.known.now.mods thing.now force self.now.day }
    {
        match self.reading {
            Reading::Force => bearing_mods::bears(force, self.day),
            Reading::Efficacy => self.efficacy_of(thing, force).holds,
        }
    }

    // Whether a modification is counted that is directed at a provision: one of force, or in the reading of efficacy one of
    // either kind.
    fn is_marked(&self, thing: &Destination) -> bool
        ensures { (wid : List ℕ) → thing.now ≡ to.Node wid
            → result ≡ flags.is_marked self.now.reading self.now.known.now.mods self.now.day wid }
    {
        match self.reading {
            Reading::Force => !self.forces(thing).is_empty(),
            Reading::Efficacy => {
                !self.forces(thing).is_empty() || !self.efficacies(thing).is_empty()
            }
        }
    }

    // The force period of a provision.
    fn force_of_node(&self, thing: &Destination, wid: &str) -> Period
        requires { thing.now ≡ to.Node wid.now }
        ensures { result ≡ bearing.force_of_node self.now.known.now wid.now self.now.day }
    {
        if wid == "body" {
            self.act_force
        } else {
            self.force_of(thing, self.act_force)
        }
    }

    // Whether a provision bears.
    fn node_bears(&self, thing: &Destination, wid: &str) -> bool
        requires { thing.now ≡ to.Node wid.now }
        ensures { result ≡ bearing.node_bears self.now.known.now self.now.reading self.now.day wid.now }
    {
        let force = self.force_of_node(thing, wid);
        self.bears(thing, force)
    }

    /// The flag of a provision of this wId, whatever stands above it. `None`: it has the flag of the one right above it.
    pub fn own_flag(&self, wid: &Text) -> Result<Option<bool>, Memory>
        ensures { IfOk result (λ own. (above : Bool)
            → flags.flag_below self.now.known.now self.now.reading self.now.day above wid.now ≡ unwrap_or own above) }
    {
        let thing = Destination::Node(wid.copy()?);
        if self.is_marked(&thing) {
            Ok(Some(self.node_bears(&thing, wid.as_str())))
        } else {
            Ok(None)
        }
    }

    /// The flag of a provision of this wId, below one of the flag `above`.
    pub fn flag_below(&self, above: bool, wid: &Text) -> Result<bool, Memory>
        ensures { IfOk result
            (λ flag. flag ≡ flags.flag_below self.now.known.now self.now.reading self.now.day above wid.now) }
    {
        Ok(self.own_flag(wid)?.unwrap_or(above))
    }

    /// The flag of the root.
    pub fn root_flag(&self, alloc: Global) -> Result<bool, Memory>
        ensures { IfOk result (λ flag. flag ≡ flags.root_flag self.now.known.now self.now.reading self.now.day) }
    {
        let thing = Destination::Node(Text::copy_of(alloc, "body")?);
        Ok(self.node_bears(&thing, "body"))
    }
}
