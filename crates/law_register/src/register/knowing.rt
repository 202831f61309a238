//! Knowing: what the law entries of a work up to a viewpoint make known of it.

ghost use Rattle.std.specs.Prelude.{◌≡◌, ◌≤◌, ◌<◌, ◌-◌, ◌++◌, ◌∷◌, [], ℕ, List, Option, Some, true, is_none, length, take, slice_get, option_map, IfOk, IfSome, OnOk};
ghost use Rattle.std.specs.Str.{bytes_eq};
ghost use Rattle.indexmap.specs.IndexMap.{get_by};
ghost use Rattle.desk_base.specs.declared.id.Id.{Id};
ghost use Rattle.law_register.specs.Answer.Counted.{is_same_id};
ghost use Rattle.law_register.specs.Answer.Soundness.{IsSound};
ghost use Rattle.law_register.specs.Register.Indexes.{IdStands, act_of, bodies_at, enacted_in, id_in, told_at, work_mark};
ghost use Rattle.law_register.specs.Register.KnownIds.{facts_of, ids_of, known_at, known_by, known_ids};
ghost use Rattle.law_register.specs.Register.Listing.{enacted_within, id_told, ids_marked, known_mark, known_marks, number_within, numbers_on, own_facts};
ghost use Rattle.law_register.specs.Register.LawList.{laws};
ghost use Rattle.law_register.specs.Register.Registers.{IsKept};
ghost use Rattle.textual_mods.specs.declared.fitting.TheConstants.{MAX_ITEMS};

use crate::register::contents;
use crate::register::indexes::{BodyMark, EnactedMark, IdMark, Indexes, KnownIds, StepMark};
use crate::register::marks::{last_on, note_ids};
use crate::{Days, Entry, Known, KnownMod, KnownMods, Register};
use desk_base::{Id, Memory};
use frbr_names::WorkName;
use indexmap::IndexMap;
use std::alloc::Global;

fn step_of(steps: &[StepMark], number: u32) -> StepMark
    requires some { 0 < number }
    requires within { number ≤ length steps.now }
    ensures { slice_get steps.now (number - 1) ≡ Some result }
{
    steps[number as usize - 1]
}

fn add_number(numbers: &mut Vec<u32>, number: u32, viewpoint: u32) -> Result<(), Memory>
    ensures { OnOk result (numbers.new.items ≡ numbers.old.items ++ number_within viewpoint number) }
{
    if number <= viewpoint {
        numbers.push(number)?;
    }
    Ok(())
}

fn numbers_on(
    alloc: Global,
    indexes: &Indexes,
    _entries: &[Entry],
    work: &WorkName,
    viewpoint: u32,
) -> Result<Vec<u32>, Memory>
    requires { IsKept indexes.now _entries.now }
    ensures { IfOk result (λ numbers. numbers.items ≡ numbers_on work.now (take viewpoint (laws _entries.now))) }
{
    let mut numbers = Vec::new(alloc);
    let mut number = last_on(&indexes.works, work);
    while number > 0 {
        add_number(&mut numbers, number, viewpoint)?;
        number = step_of(&indexes.steps, number).before;
    }
    Ok(numbers)
}

// What law entries of a work make of its ids.
#[derive(Debug, Drop)]
struct WorkIds {
    // Their marks.
    marks: KnownIds,
    // All of them, ascending.
    ids: Vec<Id>,
}

fn add_ids(ids: &mut Vec<Id>, law: u32, bodies: &[BodyMark]) -> Result<(), Memory>
    requires { length bodies.now ≤ MAX_ITEMS }
    ensures { OnOk result (ids.new.items ≡ ids.old.items ++ ids_marked law 1 bodies.now) }
{
    for (place, _) in bodies.iter().enumerate() {
        let item = place as u16 + 1;
        ids.push(Id { law, item })?;
    }
    Ok(())
}

fn note_marks(
    marks: &mut KnownIds,
    entries: &[Entry],
    at: usize,
    bodies: &[BodyMark],
    number: u32,
) -> Result<(), Memory>
    requires { length bodies.now ≤ MAX_ITEMS }
    ensures { OnOk result
        ((i : Id) → id_in marks.new i ≡ id_told number at bodies.now i (id_in marks.old i) (slice_get entries.now at)) }
{
    marks.reserve(64)?;
    match entries.get(at) {
        Some(entry) => note_ids(marks, number, at, &entry.command, bodies),
        None => {}
    }
    Ok(())
}

impl WorkIds {
    fn note(
        &mut self,
        entries: &[Entry],
        bodies: &[BodyMark],
        step: StepMark,
        number: u32,
    ) -> Result<(), Memory>
        requires few { length (bodies_at bodies.now step) ≤ MAX_ITEMS }
        requires first { step.first ≤ step.until }
        requires until { step.until ≤ length bodies.now }
        ensures marks { OnOk result ((i : Id) → id_in self.new.marks i
            ≡ id_told number step.entry (bodies_at bodies.now step) i (id_in self.old.marks i)
            (slice_get entries.now step.entry)) }
        ensures ids { OnOk result
            (self.new.ids.items ≡ self.old.ids.items ++ ids_marked number 1 (bodies_at bodies.now step)) }
    {
        let bodies = &bodies[step.first..step.until];
        note_marks(&mut self.marks, entries, step.entry, bodies, number)?;
        add_ids(&mut self.ids, number, bodies)
    }
}

fn ids_of(
    alloc: Global,
    indexes: &Indexes,
    entries: &[Entry],
    work: &WorkName,
    viewpoint: u32,
) -> Result<WorkIds, Memory>
    requires { IsKept indexes.now entries.now }
    ensures marks { IfOk result (λ known. (i : Id) → IdStands entries.now (id_in known.marks i)
        (own_facts work.now (facts_of i (take viewpoint (laws entries.now))))) }
    ensures ids { IfOk result (λ known. known.ids.items ≡ ids_of work.now (take viewpoint (laws entries.now))) }
{
    let mut numbers = numbers_on(alloc, indexes, entries, work, viewpoint)?;
    let mut known = WorkIds {
        marks: IndexMap::new(alloc),
        ids: Vec::new(alloc),
    };
    while let Some(number) = numbers.pop() {
        let step = step_of(&indexes.steps, number);
        known.note(entries, &indexes.bodies, step, number)?;
    }
    Ok(known)
}

fn add_known(
    alloc: Global,
    entries: &[Entry],
    id: Id,
    mark: IdMark,
    mods: &mut KnownMods,
) -> Result<(), Memory>
    ensures { OnOk result (mods.new ≡ mods.old ++ known_mark entries.now id (Some mark)) }
{
    match contents::body_at(entries, mark.entry, mark.place) {
        Some(body) => {
            let known = KnownMod {
                id,
                live: mark.standing.is_live(),
                body: body.copy(alloc)?,
                carried: None,
            };
            Ok(mods.push(known)?)
        }
        None => Ok(()),
    }
}

fn known_mods(alloc: Global, entries: &[Entry], known: &WorkIds) -> Result<KnownMods, Memory>
    ensures { IfOk result (λ mods. mods ≡ known_marks entries.now (id_in known.now.marks) known.now.ids.items) }
{
    let mut mods = KnownMods::new(alloc);
    for id in &known.ids {
        if let Some(mark) = known.marks.get(id) {
            add_known(alloc, entries, *id, *mark, &mut mods)?;
        }
    }
    Ok(mods)
}

fn enacted_within(indexes: &Indexes, work: &WorkName, viewpoint: u32) -> Option<EnactedMark>
    ensures { result ≡ enacted_within viewpoint (enacted_in (work_mark indexes.now work.now)) }
{
    let mark = indexes.work(work)?.enacted?;
    (mark.number <= viewpoint).then_some(mark)
}

/// What is known of a work at a viewpoint, which can be replayed. `None`: none of the law entries that the viewpoint knows enacts it.
/// The time that it takes grows with the law entries that concern the work, whatever else the register holds.
pub fn known_at(
    alloc: Global,
    register: &Register,
    work: &WorkName,
    viewpoint: u32,
) -> Result<Option<Known>, Memory>
    ensures known { IfOk result (λ known. known ≡ known_at register.now.entries work.now viewpoint) }
    ensures sound { IfOk result (λ known. IfSome known IsSound) }
{
    let front = register.front();
    let (entries, indexes) = (&register.entries, &register.indexes);
    match enacted_within(indexes, work, viewpoint) {
        Some(mark) => Ok(known_of_act(alloc, indexes, entries, work, mark, viewpoint, front)?),
        None => Ok(None),
    }
}

fn known_of_act(
    alloc: Global,
    indexes: &Indexes,
    entries: &[Entry],
    work: &WorkName,
    mark: EnactedMark,
    viewpoint: u32,
    front: u32,
) -> Result<Option<Known>, Memory>
    requires { IsKept indexes.now entries.now }
    ensures { IfOk result (λ known. known ≡ known_by work.now viewpoint front (take viewpoint (laws entries.now))
        (option_map (λ act. (mark.number, act)) (told_at entries.now mark.entry act_of))) }
{
    match contents::act_at(entries, mark.entry) {
        Some(act) => {
            let known = ids_of(alloc, indexes, entries, work, viewpoint)?;
            Ok(Some(Known {
                act: act.copy()?,
                enacted: mark.number,
                viewpoint,
                front,
                mods: known_mods(alloc, entries, &known)?,
                source_days: Days::new(alloc),
            }))
        }
        None => Ok(None),
    }
}
