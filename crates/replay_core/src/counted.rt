//! The modifications of force and efficacy that are counted on a day, by what they are directed at.

ghost use Rattle.std.specs.Prelude.{◌≡◌, [], ◌++◌, ◌∷◌, ◌≤◌, ℕ, Some, OnOk, IfOk, length, nat_le, take, drop, if◌then◌else◌};
ghost use Rattle.law_register.specs.Answer.Counted.{is_same, take_turn, take_turns, force_from, efficacy_from, forces_on, efficacies_on};
ghost use Rattle.bearing_mods.specs.Turns as turns;
ghost use Rattle.bearing_mods.specs.Turns.{force_turn, efficacy_turn};
ghost use Rattle.indexmap.specs.IndexMap.{get_by};
ghost use Rattle.replay_core.specs.Groups.{forces_at, efficacies_at, CountsForce, CountsEfficacy};
ghost use Rattle.law_register.specs.declared.law.modification.Destination.{Destination};

use bearing_mods::{CountedEfficacy, CountedForce};
use desk_base::{Day, Id, Memory};
use indexmap::IndexMap;
use law_register::{Destination, KnownMod, Modification};
use std::alloc::Global;

/// What is counted for one thing: its modifications of force and those of efficacy, each in the order of their turns.
#[derive(Debug, Drop)]
pub struct Group {
    /// The force modifications.
    pub forces: Vec<CountedForce>,
    /// The efficacy modifications.
    pub efficacies: Vec<CountedEfficacy>,
}

impl Group {
    ghost use Rattle.std.specs.Prelude.{◌≡◌, []};

    // An empty group. It takes no memory.
    fn new(alloc: Global) -> Group
        ensures forces { result.forces.items ≡ [] }
        ensures efficacies { result.efficacies.items ≡ [] }
    {
        Group {
            forces: Vec::new(alloc),
            efficacies: Vec::new(alloc),
        }
    }
}

/// The groups of all things that have one.
pub type Groups = IndexMap<Destination, Group>;

// Whether the turn of one day and id comes before that of another.
fn is_earlier(on: Day, id: Id, next_on: Day, next_id: Id) -> bool
    ensures { result ≡ turns.is_earlier (record { on = on; id = id }) (record { on = next_on; id = next_id }) }
{
    on < next_on || (on == next_on && id < next_id)
}

// Whether a force modification takes its turn before another.
fn force_is_earlier(a: &CountedForce, b: &CountedForce) -> bool
    ensures { result ≡ turns.is_earlier (force_turn a.now) (force_turn b.now) }
{
    is_earlier(a.on, a.id, b.on, b.id)
}

// Whether an efficacy modification takes its turn before another.
fn efficacy_is_earlier(a: &CountedEfficacy, b: &CountedEfficacy) -> bool
    ensures { result ≡ turns.is_earlier (efficacy_turn a.now) (efficacy_turn b.now) }
{
    is_earlier(a.on, a.id, b.on, b.id)
}

// The index of the first that a force modification comes before, or the length where there is none.
fn force_place(list: &[CountedForce], new: &CountedForce) -> usize
    ensures within { result ≤ length list.now }
    ensures place { take_turn force_turn new.now list.now ≡ take result list.now ++ new.now ∷ drop result list.now }
{
    for (index, one) in list.iter().enumerate() {
        if force_is_earlier(new, one) {
            return index;
        }
    }
    list.len()
}

// The index of the first that an efficacy modification comes before, or the length where there is none.
fn efficacy_place(list: &[CountedEfficacy], new: &CountedEfficacy) -> usize
    ensures within { result ≤ length list.now }
    ensures place { take_turn efficacy_turn new.now list.now ≡ take result list.now ++ new.now ∷ drop result list.now }
{
    for (index, one) in list.iter().enumerate() {
        if efficacy_is_earlier(new, one) {
            return index;
        }
    }
    list.len()
}

// The group becomes that of the thing. What it had before is given back.
fn put(groups: &mut Groups, thing: &Destination, group: Group) -> Result<Option<Group>, Memory>
    ensures old { IfOk result (λ old. old ≡ get_by (is_same thing.now) groups.old) }
    ensures new { OnOk result ((t : Destination) → get_by (is_same t) groups.new
        ≡ (if is_same thing.now t then Some group else get_by (is_same t) groups.old)) }
{
    Ok(groups.insert(thing.copy()?, group)?)
}

// The group of a thing, which has an empty one then.
fn take_out(alloc: Global, groups: &mut Groups, thing: &Destination) -> Result<Group, Memory>
    ensures forces { IfOk result (λ group. group.forces.items ≡ forces_at groups.old thing.now) }
    ensures efficacies { IfOk result (λ group. group.efficacies.items ≡ efficacies_at groups.old thing.now) }
    ensures other_forces { OnOk result
        ((t : Destination) → forces_at groups.new t ≡ (if is_same thing.now t then [] else forces_at groups.old t)) }
    ensures other_efficacies { OnOk result ((t : Destination) → efficacies_at groups.new t
        ≡ (if is_same thing.now t then [] else efficacies_at groups.old t)) }
{
    let empty = Group::new(alloc);
    let own = put(groups, thing, empty)?;
    Ok(own.unwrap_or_else(|| Group::new(alloc)))
}

// The group becomes that of the thing.
fn put_back(groups: &mut Groups, thing: &Destination, group: Group) -> Result<(), Memory>
    ensures forces { OnOk result ((t : Destination) → forces_at groups.new t
        ≡ (if is_same thing.now t then group.forces.items else forces_at groups.old t)) }
    ensures efficacies { OnOk result ((t : Destination) → efficacies_at groups.new t
        ≡ (if is_same thing.now t then group.efficacies.items else efficacies_at groups.old t)) }
{
    put(groups, thing, group)?;
    Ok(())
}

// Counts a force modification for a thing.
fn count_force(
    alloc: Global,
    groups: &mut Groups,
    thing: &Destination,
    one: CountedForce,
) -> Result<(), Memory>
    ensures forces { OnOk result ((t : Destination) → forces_at groups.new t
        ≡ (if is_same thing.now t then take_turn force_turn one (forces_at groups.old t) else forces_at groups.old t)) }
    ensures efficacies { OnOk result ((t : Destination) → efficacies_at groups.new t ≡ efficacies_at groups.old t) }
{
    let mut group = take_out(alloc, groups, thing)?;
    let place = force_place(group.forces.as_slice(), &one);
    group.forces.insert(place, one)?;
    put_back(groups, thing, group)
}

// Counts an efficacy modification for a thing.
fn count_efficacy(
    alloc: Global,
    groups: &mut Groups,
    thing: &Destination,
    one: CountedEfficacy,
) -> Result<(), Memory>
    ensures efficacies { OnOk result ((t : Destination) → efficacies_at groups.new t
        ≡ (if is_same thing.now t then take_turn efficacy_turn one (efficacies_at groups.old t)
        else efficacies_at groups.old t)) }
    ensures forces { OnOk result ((t : Destination) → forces_at groups.new t ≡ forces_at groups.old t) }
{
    let mut group = take_out(alloc, groups, thing)?;
    let place = efficacy_place(group.efficacies.as_slice(), &one);
    group.efficacies.insert(place, one)?;
    put_back(groups, thing, group)
}

// Whether a modification that counts from a day is counted on another.
fn is_counted(on: Day, day: Day) -> bool
    ensures { result ≡ nat_le on day }
{
    on <= day
}

// Counts a modification for what it is directed at, if it is one of force or efficacy that counts from a day not after this one.
fn count_body(
    alloc: Global,
    groups: &mut Groups,
    day: Day,
    id: Id,
    body: &Modification,
) -> Result<(), Memory>
    ensures forces { OnOk result ((t : Destination) → forces_at groups.new t
        ≡ take_turns force_turn (force_from t day id body.now) (forces_at groups.old t)) }
    ensures efficacies { OnOk result ((t : Destination) → efficacies_at groups.new t
        ≡ take_turns efficacy_turn (efficacy_from t day id body.now) (efficacies_at groups.old t)) }
{
    match body {
        Modification::Textual { .. } => Ok(()),
        Modification::Force {
            destination,
            on,
            effect,
            ..
        } => {
            if !is_counted(*on, day) {
                return Ok(());
            }
            let one = CountedForce {
                id,
                on: *on,
                effect: *effect,
            };
            count_force(alloc, groups, destination, one)
        }
        Modification::Efficacy {
            destination,
            on,
            effect,
            ..
        } => {
            if !is_counted(*on, day) {
                return Ok(());
            }
            let one = CountedEfficacy {
                id,
                on: *on,
                effect: *effect,
            };
            count_efficacy(alloc, groups, destination, one)
        }
    }
}

// Counts a known modification, if it stands.
fn count_known(alloc: Global, groups: &mut Groups, day: Day, known: &KnownMod) -> Result<(), Memory>
    ensures forces { OnOk result ((t : Destination) → forces_at groups.new t
        ≡ take_turns force_turn (if known.now.live then force_from t day known.now.id known.now.body else [])
        (forces_at groups.old t)) }
    ensures efficacies { OnOk result ((t : Destination) → efficacies_at groups.new t
        ≡ take_turns efficacy_turn (if known.now.live then efficacy_from t day known.now.id known.now.body else [])
        (efficacies_at groups.old t)) }
{
    if known.live {
        count_body(alloc, groups, day, known.id, &known.body)
    } else {
        Ok(())
    }
}

/// The modifications of force and efficacy that are counted on a day, of those that stand, each under what it is directed at.
pub fn gather(alloc: Global, mods: &[KnownMod], day: Day) -> Result<Groups, Memory>
    ensures forces { IfOk result (λ groups. CountsForce groups day mods.now) }
    ensures efficacies { IfOk result (λ groups. CountsEfficacy groups day mods.now) }
{
    let mut groups = IndexMap::new(alloc);
    for index in (0..mods.len()).rev() {
        count_known(alloc, &mut groups, day, &mods[index])?;
    }
    Ok(groups)
}

/// The force modifications that are grouped under a thing. Where there are no groups, nothing is hashed.
pub fn forces<'a>(groups: &'a Groups, thing: &Destination) -> &'a [CountedForce]
    ensures { result.now ≡ forces_at groups.now thing.now }
{
    if groups.is_empty() {
        return &[];
    }
    match groups.get(thing) {
        Some(group) => group.forces.as_slice(),
        None => &[],
    }
}

/// The efficacy modifications that are grouped under a thing. Where there are no groups, nothing is hashed.
pub fn efficacies<'a>(groups: &'a Groups, thing: &Destination) -> &'a [CountedEfficacy]
    ensures { result.now ≡ efficacies_at groups.now thing.now }
{
    if groups.is_empty() {
        return &[];
    }
    match groups.get(thing) {
        Some(group) => group.efficacies.as_slice(),
        None => &[],
    }
}
