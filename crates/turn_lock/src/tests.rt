ghost use Rattle.std.specs.Prelude.{◌≡◌, ◌∷◌, []};
ghost use mathlib.Core.List.{IsPrefix};
ghost use Rattle.turn_lock.specs.Passes.{share_of, IsPassOf};
ghost use Rattle.turn_lock.specs.Turned.{id_of};

use super::*;
use std::alloc::Global;
use std::sync::Wait;
use std::test::Fail;

// A list that is held: each entry is a number.
#[derive(Drop)]
struct Notes {
    entries: Vec<u64>,
    from: u64,
}

impl Held for Notes {
    type Item = u64;

    ghost history = { λ n. n.entries.items };

    ghost origin = { λ n. n.from ∷ [] };

    fn count(&self) -> u64 {
        self.entries.len() as u64
    }
}

impl Notes {
    fn new(alloc: Global) -> Notes {
        Notes {
            entries: Vec::new(alloc),
            from: 7,
        }
    }

    // Adds an entry, and says whether there was room.
    fn note(&mut self, entry: u64) -> bool
        ensures { IsPrefix self.old.entries.items self.new.entries.items × (self.new.from ≡ self.old.from) }
    {
        self.entries.push(entry).is_ok()
    }
}

// Whether an entry of this number is found in the pass's next turn.
fn finds<H: Wait>(rt: &H, turns: &Turns<Notes>, pass: &mut Pass<Notes>, entry: u64) -> bool
    requires { IsPassOf (id_of turns.now) pass.old }
    ensures own { IsPassOf (id_of turns.now) pass.new }
    ensures share { share_of pass.new ≡ share_of pass.old }
{
    turns.with_turn(rt, pass, |notes| notes.entries.contains(&entry))
}

#[test]
fn own_entries_are_found_and_joined_passes_know_them(rt: HostRuntime) -> Result<(), Fail> {
    let Ok((turns, mut first)) = Turns::new(rt.alloc(), Notes::new(rt.alloc()), 2) else {
        return Err(Fail::from("memory"));
    };
    let mut second = turns.split(&mut first, 1)?;
    assert!(rt; turns.with_turn(&rt, &mut first, |notes| notes.note(5)));
    assert!(rt; finds(&rt, &turns, &mut first, 5));
    turns.join(&mut second, first);
    assert!(rt; finds(&rt, &turns, &mut second, 5));
    assert_eq!(rt; second.share(), 2);
    let notes = turns.close(second);
    assert_eq!(rt; notes.entries.as_slice(), [5].as_slice());
    assert_eq!(rt; notes.from, 7);
    Ok(())
}

// A list that is lent: its origin is whose it is.
#[derive(Drop)]
struct Lent<'a> {
    list: &'a mut Vec<u64>,
}

impl<'a> Held for Lent<'a> {
    type Item = u64;

    ghost history = { λ lent. lent.list.now.items };

    ghost origin = { λ lent. lent.list.ghost_name ∷ [] };

    fn count(&self) -> u64 {
        self.list.len() as u64
    }
}

impl<'a> Lent<'a> {
    fn note(&mut self, entry: u64) -> bool
        ensures entries { IsPrefix self.old.list.now.items self.new.list.now.items }
        ensures same { self.new.list.ghost_name ≡ self.old.list.ghost_name }
    {
        self.list.push(entry).is_ok()
    }
}

// An entry is added in a turn, and what was lent is given back.
fn turned<'a, H: Wait>(rt: &H, alloc: Global, lent: Lent<'a>) -> Lent<'a>
    ensures same { result.list.ghost_name ≡ lent.entry.list.ghost_name }
    ensures grown { IsPrefix lent.entry.list.now.items result.list.now.items }
{
    match Turns::new(alloc, lent, 1) {
        Ok((turns, mut pass)) => {
            turns.with_turn(rt, &mut pass, |lent| lent.note(5));
            turns.close(pass)
        }
        Err(refused) => {
            let TurnsRefused { value } = refused;
            value
        }
    }
}

// The list of the caller is the one that was lent, and has only grown.
fn note_in_turn<H: Wait>(rt: &H, alloc: Global, list: &mut Vec<u64>)
    ensures { IsPrefix list.old.items list.new.items }
{
    let Lent { list: _ } = turned(rt, alloc, Lent { list });
}

#[test]
fn a_list_that_was_lent_comes_back_grown(rt: HostRuntime) {
    let mut list = Vec::new(rt.alloc());
    note_in_turn(&rt, rt.alloc(), &mut list);
    assert_eq!(rt; list.as_slice(), [5].as_slice());
}
