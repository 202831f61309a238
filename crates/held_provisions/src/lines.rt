//! Lines: what a register makes known of each work that it enacts, the act of the latest day first.

ghost use Rattle.std.specs.Prelude.{◌≡◌, ◌<◌, ◌≤◌, ◌+◌, ◌++◌, ◌∷◌, [], IfOk, OnOk, drop, is_some, length, option_map, take, true};
ghost use Rattle.std.specs.BTreeSet.{insert_key};
ghost use Rattle.std.specs.List.{AllByRecursion};
ghost use Rattle.law_register.specs.Answer.Previews.{known_by_law};
ghost use Rattle.law_register.specs.Answer.Soundness.{IsSound};
ghost use Rattle.law_register.specs.Answer.Standing.{alone};
ghost use Rattle.law_register.specs.Register.KnownNext.{known_now, up_to};
ghost use Rattle.law_register.specs.Register.LawList.{laws};
ghost use Rattle.law_register.specs.Register.Marks.{law_count};
ghost use Rattle.law_register.specs.Register.Verdicts.{is_accepted, verdict};
ghost use Rattle.held_provisions.specs.Placing.{enacted_work, place_from, with_enacted, works_of};
ghost use Rattle.law_register.specs.Provisions.Line.{line, line_cmp, line_of, with_work};

use desk_base::Memory;
use frbr_names::WorkName;
use law_register::laws::entries_are_legal;
use law_register::{Command, Entry, Known, Register, known_after, known_at, known_enacted};
use std::alloc::Global;
use std::cmp::Ordering;

fn compare(known: &Known, other: &Known) -> Ordering
    ensures { result ≡ line_cmp known.now other.now }
{
    match other.act.day.cmp(&known.act.day) {
        Ordering::Equal => known.act.work.cmp(&other.act.work),
        order => order,
    }
}

// Before which work of a line one is put. `None`: one ties with it.
fn place_of(works: &[Known], known: &Known) -> Option<usize>
    ensures { result ≡ place_from 0 known.now works.now }
{
    for index in 0..works.len() {
        match compare(known, &works[index]) {
            Ordering::Less => return Some(index),
            Ordering::Equal => return None,
            Ordering::Greater => {}
        }
    }
    Some(works.len())
}

// Puts a work in its place in a line.
fn put(works: &mut Vec<Known>, known: Known) -> Result<(), Memory>
    ensures { OnOk result (works.new.items ≡ insert_key line_cmp works.old.items known) }
{
    match place_of(works.as_slice(), &known) {
        Some(index) => Ok(works.insert(index, known)?),
        None => Ok(()),
    }
}

// Puts a work in its place in a line, where it is known.
fn put_known(works: &mut Vec<Known>, known: Option<Known>) -> Result<(), Memory>
    ensures { OnOk result (works.new.items ≡ with_work works.old.items known) }
{
    match known {
        Some(known) => put(works, known),
        None => Ok(()),
    }
}

// The work that a command enacts.
fn enacted_work(command: &Command) -> Option<&WorkName>
    ensures { option_map (λ work. work.now) result ≡ enacted_work command.now }
{
    match command {
        Command::Enact { act } => Some(&act.work),
        _ => None,
    }
}

// Puts the work that the entry of a number enacts in its place.
fn put_enacted(
    alloc: Global,
    register: &Register,
    works: &mut Vec<Known>,
    index: usize,
) -> Result<(), Memory>
    requires { index < length register.now.entries }
    ensures { OnOk result (works.old.items ≡ line_of (laws register.now.entries) (works_of (drop (index + 1) register.now.entries))
        → works.new.items ≡ line_of (laws register.now.entries) (works_of (drop index register.now.entries))) }
{
    let entry = register.entry(index);
    match enacted_work(&entry.command) {
        Some(work) => {
            let known = known_at(alloc, register, work, register.front())?;
            put_known(works, known)
        }
        None => Ok(()),
    }
}

/// The line of a register: what is known at its front of each work that it enacts.
#[tactic(auto, unfolding(law_register::specs::Provisions::Line::line))]
pub fn line_of_register(alloc: Global, register: &Register) -> Result<Vec<Known>, Memory>
    ensures { IfOk result (λ works. works.items ≡ line (laws register.now.entries)) }
{
    let mut works = Vec::new(alloc);
    for index in (0..register.len()).rev() {
        put_enacted(alloc, register, &mut works, index)?;
    }
    Ok(works)
}

// How many law entries a command is.
fn law_count(command: &Command) -> u32
    ensures { result ≡ law_count command.now }
{
    match command {
        Command::DraftAdd { .. } | Command::DraftDrop { .. } => 0,
        _ => 1,
    }
}

// How many entries make the law that a viewpoint knows.
fn entries_until(register: &Register, viewpoint: u32) -> usize
    ensures within { result ≤ length register.now.entries }
    ensures law { laws (take result register.now.entries) ≡ take viewpoint (laws register.now.entries) }
{
    let mut known = 0;
    for index in 0..register.len() {
        if known == viewpoint {
            return index;
        }
        known += law_count(&register.entry(index).command);
    }
    register.len()
}

// What is known of a work, where there are so many law entries and all are known.
fn until(known: Known, number: u32) -> Known
    ensures { result ≡ up_to number known }
{
    Known {
        act: known.act,
        enacted: known.enacted,
        viewpoint: number,
        front: number,
        mods: known.mods,
        source_days: known.source_days,
    }
}

// How many law entries a viewpoint knows.
fn number_within(register: &Register, viewpoint: u32) -> u32
    ensures { result ≡ length (take viewpoint (laws register.now.entries)) }
{
    let front = register.front();
    if viewpoint < front { viewpoint } else { front }
}

// What the law that a viewpoint knows makes known of a work.
fn known_within(
    alloc: Global,
    register: &Register,
    work: &WorkName,
    viewpoint: u32,
) -> Result<Option<Known>, Memory>
    ensures { IfOk result (λ known. known ≡ known_by_law (take viewpoint (laws register.now.entries)) work.now) }
{
    let number = number_within(register, viewpoint);
    match known_at(alloc, register, work, viewpoint)? {
        Some(known) => Ok(Some(until(known, number))),
        None => Ok(None),
    }
}

// Puts the work that a command enacts in its place, as it is known at a viewpoint.
fn put_within(
    alloc: Global,
    register: &Register,
    viewpoint: u32,
    command: &Command,
    works: &mut Vec<Known>,
) -> Result<(), Memory>
    ensures { OnOk result (works.new.items ≡ with_enacted (take viewpoint (laws register.now.entries))
        (enacted_work command.now) works.old.items) }
{
    match enacted_work(command) {
        Some(work) => {
            let known = known_within(alloc, register, work, viewpoint)?;
            put_known(works, known)
        }
        None => Ok(()),
    }
}

#[tactic(auto, unfolding(law_register::specs::Provisions::Line::line))]
fn line_until(alloc: Global, register: &Register, viewpoint: u32) -> Result<Vec<Known>, Memory>
    ensures { IfOk result (λ works. works.items ≡ line (take viewpoint (laws register.now.entries))) }
{
    let mut works = Vec::new(alloc);
    let count = entries_until(register, viewpoint);
    for index in (0..count).rev() {
        let command = &register.entry(index).command;
        put_within(alloc, register, viewpoint, command, &mut works)?;
    }
    Ok(works)
}

/// The line of a register at a viewpoint: what the law entries up to it make known of each work that one of them enacts.
pub fn line_at(alloc: Global, register: &Register, viewpoint: u32) -> Result<Vec<Known>, Memory>
    ensures works { IfOk result (λ works. works.items ≡ line (take viewpoint (laws register.now.entries))) }
    ensures sound { IfOk result (λ works. AllByRecursion IsSound works.items) }
    ensures alone { IfOk result (λ works. AllByRecursion (λ known. alone known ≡ known) works.items) }
{
    entries_are_legal(register);
    line_until(alloc, register, viewpoint)
}

// What is known of a work once an entry stands behind those of a register, which enact the work.
fn known_with(
    alloc: Global,
    register: &Register,
    entry: &Entry,
    work: &WorkName,
) -> Result<Option<Known>, Memory>
    requires enacted { is_some (known_now register.now.entries work.now) ≡ true }
    requires accepted { is_accepted entry.now.law (verdict register.now.entries entry.now.drafter
        entry.now.request entry.now.command) ≡ true }
    ensures { IfOk result
        (λ known. known ≡ known_by_law (laws (register.now.entries ++ entry.now ∷ [])) work.now) }
{
    let front = register.front();
    match known_at(alloc, register, work, front)? {
        Some(known) => Ok(Some(known_after(alloc, register, &known, entry)?)),
        None => Ok(None),
    }
}

// Puts the work that the entry of a number enacts in its place, as it is known with another entry behind all.
fn put_with(
    alloc: Global,
    register: &Register,
    entry: &Entry,
    works: &mut Vec<Known>,
    index: usize,
) -> Result<(), Memory>
    requires within { index < length register.now.entries }
    requires accepted { is_accepted entry.now.law (verdict register.now.entries entry.now.drafter
        entry.now.request entry.now.command) ≡ true }
    ensures { OnOk result (works.old.items ≡ line_of (laws (register.now.entries ++ entry.now ∷ []))
        (works_of (drop (index + 1) register.now.entries ++ entry.now ∷ []))
        → works.new.items ≡ line_of (laws (register.now.entries ++ entry.now ∷ []))
        (works_of (drop index register.now.entries ++ entry.now ∷ []))) }
{
    let other = register.entry(index);
    match enacted_work(&other.command) {
        Some(work) => {
            let known = known_with(alloc, register, entry, work)?;
            put_known(works, known)
        }
        None => Ok(()),
    }
}

// Puts the work that an entry itself enacts into a line that has none.
fn put_own(
    alloc: Global,
    register: &Register,
    entry: &Entry,
    works: &mut Vec<Known>,
) -> Result<(), Memory>
    requires none { works.old.items ≡ [] }
    requires accepted { is_accepted entry.now.law (verdict register.now.entries entry.now.drafter
        entry.now.request entry.now.command) ≡ true }
    ensures { OnOk result (works.new.items
        ≡ line_of (laws (register.now.entries ++ entry.now ∷ [])) (works_of (entry.now ∷ []))) }
{
    match &entry.command {
        Command::Enact { act } => Ok(works.push(known_enacted(alloc, register, entry, act)?)?),
        _ => Ok(()),
    }
}

/// The line of a register once an entry stands behind those that it has.
#[tactic(auto, unfolding(law_register::specs::Provisions::Line::line))]
pub fn line_with(alloc: Global, register: &Register, entry: &Entry) -> Result<Vec<Known>, Memory>
    requires { is_accepted entry.now.law (verdict register.now.entries entry.now.drafter
        entry.now.request entry.now.command) ≡ true }
    ensures { IfOk result (λ works. works.items ≡ line (laws (register.now.entries ++ entry.now ∷ []))) }
{
    let mut works = Vec::new(alloc);
    put_own(alloc, register, entry, &mut works)?;
    for index in (0..register.len()).rev() {
        put_with(alloc, register, entry, &mut works, index)?;
    }
    Ok(works)
}
