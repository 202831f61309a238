//! The touched day of an entry, and the works that it touches: before it, the entry leaves everything that was applied as it was.

ghost use Rattle.std.specs.Prelude.{◌≡◌, IfOk, None, Some, if◌then◌else◌, map, option_map};
ghost use Rattle.law_register.specs.Answer.Counted.{is_same};
ghost use Rattle.law_register.specs.Answer.Touched as spec;
ghost use Rattle.law_register.specs.Register.Drafts.{draft_of, items_of};
ghost use Rattle.law_register.specs.Register.KnownIds.{facts_of};
ghost use Rattle.law_register.specs.Register.KnownNext.{known_now, up_to};
ghost use Rattle.law_register.specs.Register.LawList.{front, law_of, laws};
ghost use Rattle.law_register.specs.declared.law.modification.Destination.TheVariants as to;
ghost use Rattle.replay_core.specs.Touching.{AreOfId, AreOfNamed};

use desk_base::{Day, Id, Memory};
use frbr_names::WorkName;
use law_register::{
    Command, Destination, DraftItem, Drafter, Entry, Known, KnownMod, KnownMods, Modification,
    Register, Touched, known_at,
};
use std::alloc::Global;

fn sooner(first: Option<Day>, second: Option<Day>) -> Option<Day>
    ensures { result ≡ spec.sooner first second }
{
    let Some(day) = first else {
        return second;
    };
    match second {
        Some(other) if other < day => Some(other),
        _ => Some(day),
    }
}

fn is_at(destination: &Destination, id: Id) -> bool
    ensures { result ≡ is_same destination.now (to.Modification id) }
{
    match destination {
        Destination::Modification(other) => *other == id,
        Destination::Node(_) => false,
    }
}

fn on_if(directed: bool, on: Day) -> Option<Day>
    ensures { result ≡ (if directed then Some on else None) }
{
    if directed { Some(on) } else { None }
}

fn day_on(id: Id, body: &Modification) -> Option<Day>
    ensures { result ≡ spec.day_on id body.now }
{
    match body {
        Modification::Textual { .. } => None,
        Modification::Force {
            destination,
            on,
            ..
        } => on_if(is_at(destination, id), *on),
        Modification::Efficacy {
            destination,
            on,
            ..
        } => on_if(is_at(destination, id), *on),
    }
}

fn first_on(id: Id, mods: &[KnownMod]) -> Option<Day>
    ensures { result ≡ spec.first_on id mods.now }
{
    let mut first = None;
    for index in (0..mods.len()).rev() {
        first = sooner(day_on(id, &mods[index].body), first);
    }
    first
}

fn day_at(destination: &Destination, on: Day) -> Option<Day>
    ensures { result ≡ spec.day_at destination.now on }
{
    match destination {
        Destination::Modification(_) => Some(on),
        Destination::Node(_) => None,
    }
}

fn own_day(body: &Modification) -> Option<Day>
    ensures { result ≡ spec.own_day body.now }
{
    match body {
        Modification::Textual { force, .. } => Some(force.start),
        Modification::Force {
            destination,
            on,
            ..
        } => day_at(destination, *on),
        Modification::Efficacy {
            destination,
            on,
            ..
        } => day_at(destination, *on),
    }
}

fn day_saying(mods: &[KnownMod], id: Id, body: &Modification) -> Option<Day>
    ensures { result ≡ spec.day_saying mods.now id body.now }
{
    sooner(own_day(body), first_on(id, mods))
}

fn day_recorded(bodies: &[Modification]) -> Option<Day>
    ensures { result ≡ spec.day_recorded bodies.now }
{
    let mut first = None;
    for index in (0..bodies.len()).rev() {
        first = sooner(own_day(&bodies[index]), first);
    }
    first
}

fn day_filed(items: &[DraftItem]) -> Option<Day>
    ensures { result ≡ spec.day_recorded (map (λ i. i.body) items.now) }
{
    let mut first = None;
    for index in (0..items.len()).rev() {
        first = sooner(own_day(&items[index].body), first);
    }
    first
}

fn day_of_filing(
    alloc: Global,
    register: &Register,
    drafter: &Drafter,
    work: &WorkName,
) -> Result<Option<Day>, Memory>
    ensures { IfOk result
        (λ day. day
        ≡ spec.day_recorded (map (λ i. i.body) (items_of work.now (draft_of drafter.now register.now.entries)))) }
{
    let items = register.draft_on(alloc, drafter, work)?;
    Ok(day_filed(items.as_slice()))
}

fn day_known(register: &Register, id: Id, mods: &[KnownMod]) -> Option<Day>
    requires { AreOfId register.now.entries mods.now (facts_of id (laws register.now.entries)) }
    ensures { result ≡ spec.day_known register.now.entries id (facts_of id (laws register.now.entries)) }
{
    match register.body_of(id) {
        Some(body) => day_saying(mods, id, body),
        None => None,
    }
}

fn day_corrected(register: &Register, id: Id, body: &Modification, mods: &[KnownMod]) -> Option<Day>
    requires { AreOfId register.now.entries mods.now (facts_of id (laws register.now.entries)) }
    ensures { result
        ≡ spec.day_corrected register.now.entries id body.now (facts_of id (laws register.now.entries)) }
{
    match register.work_of(id) {
        Some(_) => day_saying(mods, id, body),
        None => None,
    }
}

// The day that an id touches by what it says and by what it is to say.
fn day_of_correction(
    register: &Register,
    id: Id,
    body: &Modification,
    mods: &[KnownMod],
) -> Option<Day>
    requires { AreOfId register.now.entries mods.now (facts_of id (laws register.now.entries)) }
    ensures { result ≡ spec.sooner
        (spec.day_known register.now.entries id (facts_of id (laws register.now.entries)))
        (spec.day_corrected register.now.entries id body.now (facts_of id (laws register.now.entries))) }
{
    let old = day_known(register, id, mods);
    let new = day_corrected(register, id, body, mods);
    sooner(old, new)
}

// The touched day of an entry, by the modifications of the work of the id that it names.
#[tactic(auto, unfolding(law_register::specs::Answer::Touched::touched_day))]
fn day_by(
    alloc: Global,
    register: &Register,
    entry: &Entry,
    mods: &[KnownMod],
) -> Result<Option<Day>, Memory>
    requires { AreOfNamed register.now.entries mods.now entry.now.command }
    ensures { IfOk result (λ day. day ≡ spec.touched_day register.now.entries entry.now) }
{
    match &entry.command {
        Command::Record { mods: bodies, .. } => Ok(day_recorded(bodies.as_slice())),
        Command::File { work, .. } => day_of_filing(alloc, register, &entry.drafter, work),
        Command::Correct { id, body } => Ok(day_of_correction(register, *id, body, mods)),
        Command::Withdraw { id } | Command::Restore { id } => Ok(day_known(register, *id, mods)),
        Command::Enact { .. } | Command::DraftAdd { .. } | Command::DraftDrop { .. } => Ok(None),
    }
}

// The modifications of a work, as a register knows them at its front.
fn mods_of(alloc: Global, register: &Register, work: &WorkName) -> Result<KnownMods, Memory>
    ensures { IfOk result (λ mods. mods ≡ spec.mods_of register.now.entries work.now) }
{
    match known_at(alloc, register, work, register.front())? {
        Some(known) => Ok(known.mods),
        None => Ok(KnownMods::new(alloc)),
    }
}

fn mods_of_id(alloc: Global, register: &Register, id: Id) -> Result<KnownMods, Memory>
    ensures { IfOk result
        (λ mods. AreOfId register.now.entries mods (facts_of id (laws register.now.entries))) }
{
    match register.work_of(id) {
        Some(work) => mods_of(alloc, register, work),
        None => Ok(KnownMods::new(alloc)),
    }
}

// The modifications of the work of the id that a command names, if it names one.
fn mods_named(alloc: Global, register: &Register, command: &Command) -> Result<KnownMods, Memory>
    ensures { IfOk result (λ mods. AreOfNamed register.now.entries mods command.now) }
{
    match command {
        Command::Correct { id, .. } | Command::Withdraw { id } | Command::Restore { id } => {
            mods_of_id(alloc, register, *id)
        }
        _ => Ok(KnownMods::new(alloc)),
    }
}

/// The touched day of an entry that comes behind those of a register: the least of the days from which the modifications that it
/// changes may be applied, or are counted for others. `None`: it changes none, or flags alone. For an entry that names an id all law
/// entries of its work are read; where the work is known, `touched_day_of` reads none.
pub fn touched_day(alloc: Global, register: &Register, entry: &Entry) -> Result<Option<Day>, Memory>
    ensures { IfOk result (λ day. day ≡ spec.touched_day register.now.entries entry.now) }
{
    let mods = mods_named(alloc, register, &entry.command)?;
    day_by(alloc, register, entry, mods.as_slice())
}

/// The touched day of an entry, from what is known of the work that it concerns. No law entry is read: its time grows with the
/// modifications that are known, and with the items that a filing takes.
pub fn touched_day_of(
    alloc: Global,
    register: &Register,
    entry: &Entry,
    known: &Known,
) -> Result<Option<Day>, Memory>
    requires concerned { spec.work_entered register.now.entries (law_of register.now.entries entry.now)
        ≡ Some known.now.act.work }
    requires known { known_now register.now.entries known.now.act.work
        ≡ Some (up_to (front register.now.entries) known.now) }
    ensures { IfOk result (λ day. day ≡ spec.touched_day register.now.entries entry.now) }
{
    day_by(alloc, register, entry, known.mods.as_slice())
}

/// The work that an entry concerns which comes behind those of a register: what is known of each other stays. `None`: an entry of a
/// draft, or of an id that is not recorded.
pub fn work_entered<'a>(register: &'a Register, entry: &'a Entry) -> Option<&'a WorkName>
    ensures { option_map (λ work. work.now) result
        ≡ spec.work_entered register.now.entries (law_of register.now.entries entry.now) }
{
    match &entry.command {
        Command::Enact { act } => Some(&act.work),
        Command::Record { work, .. } | Command::File { work, .. } => Some(work),
        Command::Correct { id, .. } | Command::Withdraw { id } | Command::Restore { id } => {
            register.work_of(*id)
        }
        Command::DraftAdd { .. } | Command::DraftDrop { .. } => None,
    }
}

/// The works that an entry touches which comes behind those of a register, each with its touched day: the one that it concerns,
/// where it touches a day. In every other work nothing changes on any day. It reads as much as `touched_day`.
#[tactic(auto, unfolding(law_register::specs::Answer::Touched::touched_days))]
pub fn touched_days(alloc: Global, register: &Register, entry: &Entry) -> Result<Touched, Memory>
    ensures { IfOk result (λ touched. touched ≡ spec.touched_days register.now.entries entry.now) }
{
    let mut touched = Touched::new(alloc);
    if let Some(day) = touched_day(alloc, register, entry)?
        && let Some(work) = work_entered(register, entry)
    {
        touched.push((work.copy()?, day))?;
    }
    Ok(touched)
}
