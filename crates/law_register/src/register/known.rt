//! What is known of a work at a viewpoint: its act as enacted, and its modifications.

ghost use Rattle.std.specs.Prelude.{◌≡◌, IfOk, map};
ghost use Rattle.std.specs.List.{list_any};
ghost use Rattle.law_register.specs.Answer.Standing.{alone, mod_alone};
ghost use Rattle.law_register.specs.Law.Sources.{names_provision};
ghost use Rattle.law_register.specs.Provisions.Looking.{names_any};

use crate::register::carried::{Carried, copy_carried};
use crate::series::Series;
use crate::{Act, Days, Modification};
use desk_base::{Id, Memory};
use std::alloc::Global;

/// A modification of a work, as it is known at a viewpoint.
#[derive(Debug, Drop)]
pub struct KnownMod {
    /// Its id.
    pub id: Id,
    /// Whether it stands, or else was withdrawn.
    pub live: bool,
    /// What it says, as it was last recorded or corrected.
    pub body: Modification,
    /// When the provision stands that makes it, where that is looked at and was found out.
    pub carried: Option<Carried>,
}

impl KnownMod {
    /// The same modification; its texts and nodes are shared.
    pub fn copy(&self, alloc: Global) -> Result<KnownMod, Memory>
        ensures { IfOk result (λ copy. copy ≡ self.now) }
    {
        Ok(KnownMod {
            id: self.id,
            live: self.live,
            body: self.body.copy(alloc)?,
            carried: copy_carried(&self.carried)?,
        })
    }
}

/// The modifications of a work in ascending order of their ids.
pub type KnownMods = Series<KnownMod>;

impl KnownMods {
    /// The same modifications; their texts and nodes are shared.
    pub fn copy(&self, alloc: Global) -> Result<KnownMods, Memory>
        ensures { IfOk result (λ copy. copy ≡ self.now) }
    {
        let mut copies = KnownMods::new(alloc);
        for known in self.as_slice() {
            copies.push(known.copy(alloc)?)?;
        }
        Ok(copies)
    }
}

/// A work as it is known at a viewpoint.
#[derive(Debug, Drop)]
pub struct Known {
    /// The act as enacted.
    pub act: Act,
    /// The number of the law entry that enacted it.
    pub enacted: u32,
    /// How many law entries are known.
    pub viewpoint: u32,
    /// How many law entries there are.
    pub front: u32,
    /// Its modifications.
    pub mods: KnownMods,
    /// The days on which the texts of the works may change on which it depends, where that was found out.
    pub source_days: Days,
}

// Lets go what modifications carry.
fn let_go(mods: &mut [KnownMod])
    ensures { mods.new ≡ map mod_alone mods.old }
{
    for known in mods.iter_mut() {
        known.carried = None;
    }
}

// Whether one of these names a provision.
fn name_any(mods: &[KnownMod]) -> bool
    ensures { result ≡ list_any (λ m. names_provision m.body) mods.now }
{
    for known in mods {
        if known.body.source().provision.is_some() {
            return true;
        }
    }
    false
}

impl Known {
    /// Whether a modification of the work names the provision that makes it. It takes no memory.
    pub fn names_any(&self) -> bool
        ensures { result ≡ names_any self.now }
    {
        name_any(self.mods.as_slice())
    }

    /// The same work with nothing carried. It takes no memory.
    pub fn alone(self) -> Known
        ensures { result ≡ alone self }
    {
        let mut known = self;
        let_go(known.mods.items.as_mut_slice());
        known.source_days.items.clear();
        known
    }

    /// The same work as it is known; its texts and nodes are shared.
    pub fn copy(&self, alloc: Global) -> Result<Known, Memory>
        ensures { IfOk result (λ copy. copy ≡ self.now) }
    {
        Ok(Known {
            act: self.act.copy()?,
            enacted: self.enacted,
            viewpoint: self.viewpoint,
            front: self.front,
            mods: self.mods.copy(alloc)?,
            source_days: self.source_days.copy()?,
        })
    }
}
