//! Worker: a caller with a pass, who takes turns and keeps what he has seen.

ghost use Rattle.std.specs.Prelude.{◌≡◌, IfOk};
ghost use Rattle.turn_lock.specs.Passes.{share_of, IsPassOf};
ghost use Rattle.turn_lock.specs.Turned.{id_of};

use crate::notes::{Mark, Notes};
use std::alloc::{AllocError, Global};
use std::sync::Wait;
use std::thread;
use std::time::{Clock, Duration};
use turn_lock::{Pass, Turns};

/// How long a slow turn lasts, in milliseconds: many times as long as a caller pauses before he sleeps.
const SLOW: u64 = 50;

/// A caller with a pass.
#[derive(Drop)]
pub struct Worker {
    pub pass: Pass<Notes>,
    random: u64,
    marks: Vec<Mark>,
    is_slow: bool,
}

impl Worker {
    /// A caller with this pass, who has room for so many marks, and whose turns are slow or not.
    pub fn new(
        alloc: Global,
        pass: Pass<Notes>,
        seed: u64,
        marks: usize,
        is_slow: bool,
    ) -> Result<Worker, AllocError>
        ensures { IfOk result (λ worker. worker.pass ≡ pass) }
    {
        Ok(Worker {
            pass,
            random: seed,
            marks: Vec::with_capacity(alloc, marks)?,
            is_slow,
        })
    }

    /// Takes so many turns. In about three of four an entry is added.
    pub fn work<H: Wait + Clock>(&mut self, rt: &H, turns: &Turns<Notes>, count: u32)
        requires { IsPassOf (id_of turns.now) self.old.pass }
        ensures { IsPassOf (id_of turns.now) self.new.pass }
    {
        for _ in 0..count {
            self.take_turn(rt, turns);
        }
    }

    fn take_turn<H: Wait + Clock>(&mut self, rt: &H, turns: &Turns<Notes>)
        requires { IsPassOf (id_of turns.now) self.old.pass }
        ensures { IsPassOf (id_of turns.now) self.new.pass }
    {
        let entry = next_random(self.random);
        self.random = entry;
        let is_slow = self.is_slow;
        let mark = turns.with_turn(rt, &mut self.pass, |notes| {
            if is_slow {
                thread::sleep(rt, Duration::from_millis(SLOW));
            }
            if entry >> 62 != 0 {
                notes.note(entry);
            }
            notes.mark()
        });
        if self.marks.len() < self.marks.capacity() {
            self.marks.push_reserved(mark);
        }
    }

    /// What he has seen after each turn, and his pass.
    pub fn into_parts(self) -> (Vec<Mark>, Pass<Notes>)
        ensures { result.1 ≡ self.pass }
    {
        let Worker {
            pass,
            random: _,
            marks,
            is_slow: _,
        } = self;
        (marks, pass)
    }
}

fn next_random(random: u64) -> u64 {
    random
        .wrapping_mul(0x5851_f42d_4c95_7f2d)
        .wrapping_add(0x1405_7b7e_f767_814f)
}
