//! Growing: what one more entry makes known of a work, from what was known of it. Nothing of the register is walked.

ghost use Rattle.std.specs.Prelude.{◌≡◌, ◌+◌, ◌≤◌, ◌∷◌, ◌++◌, [], true, length, map, Some, IfOk, OnOk};
ghost use Rattle.law_register.specs.Answer.Soundness.{IsSound};
ghost use Rattle.law_register.specs.Register.KnownNext as next;
ghost use Rattle.law_register.specs.Register.KnownNext.{known_now};
ghost use Rattle.law_register.specs.Register.LawList.{front, law_of};
ghost use Rattle.law_register.specs.Register.Verdicts.{is_accepted, verdict};
ghost use Rattle.law_register.specs.declared.law.command.Command.{Command as CommandValue};
ghost use Rattle.law_register.specs.declared.law.command.Command.TheVariants as commands;
ghost use Rattle.law_register.specs.declared.register.limits.TheConstants.{MOST_LAWS};
ghost use Rattle.textual_mods.specs.declared.fitting.TheConstants.{MAX_ITEMS};

use crate::laws::entries_are_legal;
use crate::register::carried::copy_carried;
use crate::{
    Act, Command, Days, Draft, Entry, Known, KnownMod, KnownMods, Modification, Mods, Register,
};
use desk_base::{Id, Memory};
use frbr_names::WorkName;
use std::alloc::Global;

fn add_body(mods: &mut KnownMods, law: u32, item: u16, body: Modification) -> Result<(), Memory>
    ensures { OnOk result (mods.new ≡ mods.old ++ next.bodies_known law item (body ∷ [])) }
{
    mods.push(KnownMod {
        id: Id { law, item },
        live: true,
        body,
        carried: None,
    })
}

// Adds modifications as they are known once a law entry of this number records them.
fn add_bodies(mods: &mut KnownMods, law: u32, bodies: Mods) -> Result<(), Memory>
    requires { length bodies ≤ MAX_ITEMS }
    ensures { OnOk result (mods.new ≡ mods.old ++ next.bodies_known law 1 bodies) }
{
    let mut item = 0;
    for body in bodies.into_vec() {
        item += 1;
        add_body(mods, law, item, body)?;
    }
    Ok(())
}

impl Known {
    /// One more law entry is known, which records these modifications in the work.
    pub fn record(&mut self, bodies: Mods) -> Result<(), Memory>
        requires few { length bodies ≤ MAX_ITEMS }
        requires front { self.old.front ≤ MOST_LAWS }
        ensures { OnOk result (self.new ≡ next.with_bodies bodies self.old) }
    {
        let number = self.front + 1;
        add_bodies(&mut self.mods, number, bodies)?;
        self.viewpoint = number;
        self.front = number;
        Ok(())
    }
}

impl Draft {
    /// What the items say, in order.
    pub fn into_bodies(self, alloc: Global) -> Result<Mods, Memory>
        ensures { IfOk result (λ bodies. bodies ≡ map (λ i. i.body) self) }
    {
        let mut bodies = Mods::new(alloc);
        for item in self.into_vec() {
            bodies.push(item.body)?;
        }
        Ok(bodies)
    }
}

// A modification with the same words, which stands or does not.
fn standing_as(alloc: Global, known: &KnownMod, live: bool) -> Result<KnownMod, Memory>
    ensures { IfOk result (λ m. m ≡ next.standing_as live known.now) }
{
    Ok(KnownMod {
        id: known.id,
        live,
        body: known.body.copy(alloc)?,
        carried: copy_carried(&known.carried)?,
    })
}

fn mod_after(alloc: Global, known: &KnownMod, command: &Command) -> Result<KnownMod, Memory>
    ensures { IfOk result (λ m. m ≡ next.mod_after command.now known.now) }
{
    match command {
        Command::Correct { id, body } if *id == known.id => Ok(KnownMod {
            id: known.id,
            live: known.live,
            body: body.copy(alloc)?,
            carried: copy_carried(&known.carried)?,
        }),
        Command::Withdraw { id } if *id == known.id => standing_as(alloc, known, false),
        Command::Restore { id } if *id == known.id => standing_as(alloc, known, true),
        _ => known.copy(alloc),
    }
}

fn mods_after(alloc: Global, mods: &[KnownMod], command: &Command) -> Result<KnownMods, Memory>
    ensures { IfOk result (λ copies. copies ≡ map (next.mod_after command.now) mods.now) }
{
    let mut copies = KnownMods::new(alloc);
    for known in mods {
        copies.push(mod_after(alloc, known, command)?)?;
    }
    Ok(copies)
}

// The modifications that an entry records in a work.
fn bodies_in(
    alloc: Global,
    register: &Register,
    work: &WorkName,
    entry: &Entry,
) -> Result<Mods, Memory>
    requires { is_accepted entry.now.law (verdict register.now.entries entry.now.drafter entry.now.request
        entry.now.command) ≡ true }
    ensures bodies { (law : CommandValue) → law_of register.now.entries entry.now ≡ law ∷ []
        → IfOk result (λ bodies. bodies ≡ next.bodies_in work.now law) }
    ensures few { IfOk result (λ bodies. length bodies ≤ MAX_ITEMS) }
{
    match &entry.command {
        Command::Record { work: other, mods } if other == work => mods.copy(alloc),
        Command::File { work: other, .. } if other == work => {
            let items = register.draft_on(alloc, &entry.drafter, work)?;
            items.into_bodies(alloc)
        }
        _ => Ok(Mods::new(alloc)),
    }
}

// What is known of a work after a law entry, from what was known of it.
fn known_then(
    alloc: Global,
    register: &Register,
    known: &Known,
    entry: &Entry,
) -> Result<Known, Memory>
    requires { is_accepted entry.now.law (verdict register.now.entries entry.now.drafter entry.now.request
        entry.now.command) ≡ true }
    ensures { (law : CommandValue) → law_of register.now.entries entry.now ≡ law ∷ []
        → IfOk result (λ new. new
        ≡ next.known_then known.now.act.work law (next.up_to (front register.now.entries) known.now)) }
{
    let front = register.front();
    let mut new = Known {
        act: known.act.copy()?,
        enacted: known.enacted,
        viewpoint: front,
        front,
        mods: mods_after(alloc, known.mods.as_slice(), &entry.command)?,
        source_days: known.source_days.copy()?,
    };
    let bodies = bodies_in(alloc, register, &known.act.work, entry)?;
    new.record(bodies)?;
    Ok(new)
}

// What is known of a work, where no law entry since then concerns it.
fn known_still(alloc: Global, register: &Register, known: &Known) -> Result<Known, Memory>
    ensures { IfOk result (λ new. new ≡ next.up_to (front register.now.entries) known.now) }
{
    let mut new = known.copy(alloc)?;
    new.viewpoint = register.front();
    new.front = register.front();
    Ok(new)
}

/// What is known of a work at the front once an entry stands behind those of a register, from what was known of it when a law entry
/// last concerned it, or later. It is copied once, and of the register only the items that a filing takes are looked at.
pub fn known_after(
    alloc: Global,
    register: &Register,
    known: &Known,
    entry: &Entry,
) -> Result<Known, Memory>
    requires known { known_now register.now.entries known.now.act.work
        ≡ Some (next.up_to (front register.now.entries) known.now) }
    requires accepted { is_accepted entry.now.law (verdict register.now.entries entry.now.drafter
        entry.now.request entry.now.command) ≡ true }
    ensures known { IfOk result
        (λ new. known_now (register.now.entries ++ entry.now ∷ []) known.now.act.work ≡ Some new) }
    ensures sound { IfOk result IsSound }
{
    entries_are_legal(register);
    match entry.law {
        Some(_) => known_then(alloc, register, known, entry),
        None => known_still(alloc, register, known),
    }
}

/// What is known of a work at the front once an entry that enacts it stands behind those of a register: its act, which nothing
/// modifies yet.
pub fn known_enacted(
    alloc: Global,
    register: &Register,
    entry: &Entry,
    act: &Act,
) -> Result<Known, Memory>
    requires enacts { entry.now.command ≡ commands.Enact act.now }
    requires accepted { is_accepted entry.now.law (verdict register.now.entries entry.now.drafter
        entry.now.request entry.now.command) ≡ true }
    ensures known { IfOk result
        (λ new. known_now (register.now.entries ++ entry.now ∷ []) act.now.work ≡ Some new) }
    ensures sound { IfOk result IsSound }
{
    entries_are_legal(register);
    let _command = &entry.command;
    let number = register.front() + 1;
    Ok(Known {
        act: act.copy()?,
        enacted: number,
        viewpoint: number,
        front: number,
        mods: KnownMods::new(alloc),
        source_days: Days::new(alloc),
    })
}
