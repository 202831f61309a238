//! Touching: the works that an entry touches, each from a day on: its own work, and those that depend on what it reaches.

ghost use Rattle.std.specs.Prelude.{◌≡◌, ◌||◌, ◌++◌, [], IfOk, List, OnOk, None, Some, if◌then◌else◌, map, true};
ghost use Rattle.law_register.specs.Answer.Touched.{sooner, touched_day, with_day};
ghost use Rattle.law_register.specs.Register.Drafts.{draft_of, items_of};
ghost use Rattle.law_register.specs.Register.KnownIds.{facts_of};
ghost use Rattle.law_register.specs.Register.LawList.{law_of, laws};
ghost use Rattle.law_register.specs.Register.Verdicts.{is_accepted, verdict};
ghost use Rattle.law_register.specs.declared.register.entry.Entry.{Entry as EntryValue};
ghost use Rattle.held_provisions.specs.Reaching as reaching;
ghost use Rattle.held_provisions.specs.Reaching.{AreEnough};
ghost use Rattle.law_register.specs.Provisions.Depending.{depends_in};
ghost use Rattle.law_register.specs.Provisions.Touching as spec;

use crate::InLine;
use crate::lines::{line_of_register, line_with};
use crate::looking::depends_in;
use desk_base::{Day, Id, Memory};
use frbr_names::WorkName;
use law_register::{
    Command, Destination, DraftItem, Drafter, Entry, Modification, Register, Touched,
};
use replay_core::{touched_day, work_entered};
use std::alloc::Global;

/// A work with the day from which an entry touches it, and the day from which those who depend on it are reached.
#[derive(Debug, Drop)]
pub struct Reached {
    /// The work.
    pub work: WorkName,
    /// The touched day.
    pub touched: Option<Day>,
    /// The day from which others are reached.
    pub reached: Option<Day>,
}

fn sooner(first: Option<Day>, second: Option<Day>) -> Option<Day>
    ensures { result ≡ sooner first second }
{
    let Some(day) = first else {
        return second;
    };
    match second {
        Some(other) if other < day => Some(other),
        _ => Some(day),
    }
}

fn is_concerned(register: &Register, entry: &Entry, work: &WorkName) -> bool
    ensures { result ≡ spec.is_concerned register.now.entries entry.now work.now }
{
    match work_entered(register, entry) {
        Some(own) => *own == *work,
        None => false,
    }
}

// The day that the ids of a work touch which an entry changes, where it touches this day.
fn own(register: &Register, entry: &Entry, touched: &Option<Day>, work: &WorkName) -> Option<Day>
    requires { touched.now ≡ touched_day register.now.entries entry.now }
    ensures { result ≡ spec.own register.now.entries entry.now work.now }
{
    if is_concerned(register, entry, work) {
        *touched
    } else {
        None
    }
}

fn day_at_node(destination: &Destination, on: Day) -> Option<Day>
    ensures { result ≡ spec.day_at_node destination.now on }
{
    match destination {
        Destination::Modification(_) => None,
        Destination::Node(_) => Some(on),
    }
}

fn flag_day(body: &Modification) -> Option<Day>
    ensures { result ≡ spec.flag_day body.now }
{
    match body {
        Modification::Textual { .. } => None,
        Modification::Force {
            destination,
            on,
            ..
        } => day_at_node(destination, *on),
        Modification::Efficacy {
            destination,
            on,
            ..
        } => day_at_node(destination, *on),
    }
}

fn first_flag_day(bodies: &[Modification]) -> Option<Day>
    ensures { result ≡ spec.first_flag_day bodies.now }
{
    let mut first = None;
    for index in (0..bodies.len()).rev() {
        first = sooner(flag_day(&bodies[index]), first);
    }
    first
}

fn flag_day_filed(items: &[DraftItem]) -> Option<Day>
    ensures { result ≡ spec.first_flag_day (map (λ i. i.body) items.now) }
{
    let mut first = None;
    for index in (0..items.len()).rev() {
        first = sooner(flag_day(&items[index].body), first);
    }
    first
}

fn flag_day_of_filing(
    alloc: Global,
    register: &Register,
    drafter: &Drafter,
    work: &WorkName,
) -> Result<Option<Day>, Memory>
    ensures { IfOk result (λ day. day
        ≡ spec.first_flag_day (map (λ i. i.body) (items_of work.now (draft_of drafter.now register.now.entries)))) }
{
    let items = register.draft_on(alloc, drafter, work)?;
    Ok(flag_day_filed(items.as_slice()))
}

fn flag_day_known(register: &Register, id: Id) -> Option<Day>
    ensures { result ≡ spec.flag_day_known (facts_of id (laws register.now.entries)) }
{
    match register.body_of(id) {
        Some(body) => flag_day(body),
        None => None,
    }
}

// The first day on which an id may change flags by what it says or by what it is to say.
fn flag_day_corrected(register: &Register, id: Id, body: &Modification) -> Option<Day>
    ensures { result ≡ spec.flag_day_corrected body.now (facts_of id (laws register.now.entries)) }
{
    match register.body_of(id) {
        Some(old) => sooner(flag_day(old), flag_day(body)),
        None => None,
    }
}

fn flag_day_entered(
    alloc: Global,
    register: &Register,
    entry: &Entry,
) -> Result<Option<Day>, Memory>
    ensures { IfOk result (λ day. day
        ≡ spec.flag_day_entered register.now.entries (law_of register.now.entries entry.now)) }
{
    match &entry.command {
        Command::Record { mods, .. } => Ok(first_flag_day(mods.as_slice())),
        Command::File { work, .. } => flag_day_of_filing(alloc, register, &entry.drafter, work),
        Command::Correct { id, body } => Ok(flag_day_corrected(register, *id, body)),
        Command::Withdraw { id } | Command::Restore { id } => Ok(flag_day_known(register, *id)),
        Command::Enact { .. } | Command::DraftAdd { .. } | Command::DraftDrop { .. } => Ok(None),
    }
}

fn flags_from(
    alloc: Global,
    register: &Register,
    entry: &Entry,
    work: &WorkName,
) -> Result<Option<Day>, Memory>
    ensures { IfOk result (λ day. day ≡ spec.flags_from register.now.entries entry.now work.now) }
{
    if is_concerned(register, entry, work) {
        flag_day_entered(alloc, register, entry)
    } else {
        Ok(None)
    }
}

fn enacts(entry: &Entry, work: &WorkName) -> bool
    ensures { (entries : List EntryValue) → result ≡ spec.enacts entries entry.now work.now }
{
    match &entry.command {
        Command::Enact { act } => act.work == *work,
        _ => false,
    }
}

// The first of all days.
fn first_day() -> Option<Day>
    ensures { result ≡ Some 1 }
{
    Day::from_number(1)
}

fn reach(
    alloc: Global,
    register: &Register,
    entry: &Entry,
    work: &WorkName,
    touched: Option<Day>,
) -> Result<Option<Day>, Memory>
    ensures { IfOk result (λ day. day ≡ spec.reach register.now.entries entry.now work.now touched) }
{
    if enacts(entry, work) {
        return Ok(first_day());
    }
    Ok(sooner(touched, flags_from(alloc, register, entry, work)?))
}

// The day from which a work is reached through another, if it depends on that in the one line or in the other.
fn reached_by<O: InLine, N: InLine>(
    old: &[O],
    new: &[N],
    work: &WorkName,
    other: &Reached,
) -> Option<Day>
    ensures { result ≡ (if depends_in (map O.known_of old.now) work.now other.now.work
        || depends_in (map N.known_of new.now) work.now other.now.work
        then other.now.reached else None) }
{
    if depends_in(old, work, &other.work) || depends_in(new, work, &other.work) {
        other.reached
    } else {
        None
    }
}

fn first_reached<O: InLine, N: InLine>(
    old: &[O],
    new: &[N],
    work: &WorkName,
    ahead: &[Reached],
) -> Option<Day>
    ensures { result
        ≡ reaching.first_reached (map O.known_of old.now) (map N.known_of new.now) work.now ahead.now }
{
    let mut first = None;
    for index in (0..ahead.len()).rev() {
        first = sooner(reached_by(old, new, work, &ahead[index]), first);
    }
    first
}

// A work with its days, by the works ahead of it.
fn reached_next<O: InLine, N: InLine>(
    alloc: Global,
    register: &Register,
    entry: &Entry,
    old: &[O],
    new: &[N],
    ahead: &[Reached],
    day: &Option<Day>,
    work: &WorkName,
) -> Result<Reached, Memory>
    requires { day.now ≡ touched_day register.now.entries entry.now }
    ensures { IfOk result (λ next. next ≡ reaching.reached_next register.now.entries entry.now
        (map O.known_of old.now) (map N.known_of new.now) ahead.now work.now) }
{
    let touched = sooner(
        own(register, entry, day, work),
        first_reached(old, new, work, ahead),
    );
    Ok(Reached {
        work: work.copy()?,
        touched,
        reached: reach(alloc, register, entry, work, touched)?,
    })
}

// The works of a line, each with its days.
fn reached_along<O: InLine, N: InLine>(
    alloc: Global,
    register: &Register,
    entry: &Entry,
    day: &Option<Day>,
    old: &[O],
    new: &[N],
) -> Result<Vec<Reached>, Memory>
    requires { day.now ≡ touched_day register.now.entries entry.now }
    ensures { IfOk result (λ along. along.items ≡ reaching.reached_after register.now.entries entry.now
        (map O.known_of old.now) (map N.known_of new.now) [] (map N.known_of new.now)) }
{
    let mut ahead = Vec::new(alloc);
    for one in new {
        let work = &one.known().act.work;
        let next = reached_next(
            alloc,
            register,
            entry,
            old,
            new,
            ahead.as_slice(),
            day,
            work,
        )?;
        ahead.push(next)?;
    }
    Ok(ahead)
}

fn add_touched(touched: &mut Touched, one: &Reached) -> Result<(), Memory>
    ensures { OnOk result (touched.new ≡ touched.old ++ with_day (Some one.now.work) one.now.touched) }
{
    match one.touched {
        Some(day) => touched.push((one.work.copy()?, day)),
        None => Ok(()),
    }
}

fn days_told(alloc: Global, along: &[Reached]) -> Result<Touched, Memory>
    ensures { IfOk result (λ touched. touched ≡ reaching.days_told along.now) }
{
    let mut touched = Touched::new(alloc);
    for one in along {
        add_touched(&mut touched, one)?;
    }
    Ok(touched)
}

/// The works that an entry touches which comes behind those of a register, each with its touched day, in the order of the line, where
/// these have of the lines without it and with it all works that name a provision, and the one that it concerns.
pub fn touched_in_lines<O: InLine, N: InLine>(
    alloc: Global,
    register: &Register,
    entry: &Entry,
    day: Option<Day>,
    old: &[O],
    new: &[N],
) -> Result<Touched, Memory>
    requires day { day ≡ touched_day register.now.entries entry.now }
    requires lines { AreEnough register.now.entries entry.now (map O.known_of old.now) (map N.known_of new.now) }
    ensures { IfOk result (λ touched. touched ≡ spec.touched_works register.now.entries entry.now) }
{
    let along = reached_along(alloc, register, entry, &day, old, new)?;
    days_told(alloc, along.as_slice())
}

/// The works that an entry touches which comes behind those of a register, each with its touched day, in the order of the line: by
/// descending days of their acts, and on one day by the bytes of their IRIs. The lines are computed once.
pub fn touched_works(alloc: Global, register: &Register, entry: &Entry) -> Result<Touched, Memory>
    requires { is_accepted entry.now.law (verdict register.now.entries entry.now.drafter entry.now.request
        entry.now.command) ≡ true }
    ensures { IfOk result (λ touched. touched ≡ spec.touched_works register.now.entries entry.now) }
{
    let old = line_of_register(alloc, register)?;
    let new = line_with(alloc, register, entry)?;
    let day = touched_day(alloc, register, entry)?;
    touched_in_lines(alloc, register, entry, day, old.as_slice(), new.as_slice())
}
