//! Working: a worker answers the connections that come in through its gate, one after another.

ghost use Rattle.std.specs.Prelude.{◌≡◌, ◌||◌, false, true};
ghost use Rattle.turn_lock.specs.Passes.{IsPassOf, seen_by};
ghost use Rattle.turn_lock.specs.Turned.{id_of};
ghost use Rattle.law_http.specs.Connections.{StaysPass};
ghost use Rattle.law_register.specs.Desk.History.{entries_of};
ghost use Rattle.law_register.specs.Register.Verdicts.{is_legal};
ghost use Rattle.desk_serving.specs.Work.{HasAttended, HasWorked, MayAttend, MayServe, moment_of, wants_memory};

use crate::duty::Duty;
use crate::hand::Hand;
use desk_base::Steps;
use desk_gates::Gate;
use law_http::{StreamEnd, serve_connection};
use law_register::Desk;
use std::alloc::Global;
use std::marker::Brand;
use std::sync::Wait;
use std::sync::ledger::{Blank, Ledger};
use std::thread::Threads;
use turn_lock::{Held, Turns};

fn is_wanting(end: StreamEnd) -> bool
    ensures { result ≡ wants_memory end }
{
    matches!(end, StreamEnd::Memory)
}

fn either(a: bool, b: bool) -> bool
    ensures { result ≡ (a || b) }
{
    a || b
}

// Answers the connection that comes next, if the gate gives one.
fn answer_next<H: Wait, D: Desk, G: Gate, L: Ledger>(
    rt: &H,
    alloc: Global,
    turns: &Turns<D>,
    gate: &mut G,
    hand: &mut Hand<D>,
    steps: &mut Steps<L>,
)
    requires own { IsPassOf (id_of turns.now) hand.old.pass }
    requires legal { is_legal (entries_of (seen_by hand.old.pass)) ≡ true }
    requires ready { MayServe G.listens G.tally gate.old }
    requires whole { hand.old.failed ≡ false }
    ensures pass { StaysPass turns.now hand.old.pass hand.new.pass }
    ensures legal { is_legal (entries_of (seen_by hand.new.pass)) ≡ true }
    ensures ready { MayServe G.listens G.tally gate.new }
    ensures worked { HasWorked G.Conn.left G.Conn.written G.Conn.read_faults G.Conn.write_faults 1
        (G.tally gate.old) (G.tally gate.new) (G.faults gate.old) (G.faults gate.new)
        (moment_of hand.old.pass) (moment_of hand.new.pass) hand.old.wanting hand.new.failed hand.new.wanting }
{
    let Ok(mut conn) = gate.accept() else {
        hand.failed = true;
        return;
    };
    let served = serve_connection(rt, alloc, &mut conn, turns, &mut hand.pass, steps);
    gate.done(conn);
    hand.wanting = either(hand.wanting, is_wanting(served.end));
}

// Answers so many connections, or fewer where the gate fails.
#[tactic(auto, using(crate::proofs::Works::none_worked, crate::proofs::Works::worked_next, crate::proofs::Works::worked_last, crate::proofs::Works::worked_all, crate::proofs::Works::stays_on, crate::proofs::Works::stays_here))]
fn answer_all<H: Wait, D: Desk, G: Gate, L: Ledger>(
    rt: &H,
    alloc: Global,
    turns: &Turns<D>,
    gate: &mut G,
    hand: &mut Hand<D>,
    count: u32,
    steps: &mut Steps<L>,
)
    requires own { IsPassOf (id_of turns.now) hand.old.pass }
    requires legal { is_legal (entries_of (seen_by hand.old.pass)) ≡ true }
    requires ready { MayServe G.listens G.tally gate.old }
    requires whole { hand.old.failed ≡ false }
    ensures pass { StaysPass turns.now hand.old.pass hand.new.pass }
    ensures legal { is_legal (entries_of (seen_by hand.new.pass)) ≡ true }
    ensures worked { HasWorked G.Conn.left G.Conn.written G.Conn.read_faults G.Conn.write_faults count
        (G.tally gate.old) (G.tally gate.new) (G.faults gate.old) (G.faults gate.new)
        (moment_of hand.old.pass) (moment_of hand.new.pass) hand.old.wanting hand.new.failed hand.new.wanting }
{
    for done in 0..count {
        answer_next(rt, alloc, turns, gate, hand, steps);
        if hand.failed {
            return;
        }
    }
}

// The same with a count of steps of its own.
fn answer_counted<L: Ledger, H: Threads + Wait, D: Desk, G: Gate>(
    rt: &H,
    alloc: Global,
    turns: &Turns<D>,
    gate: &mut G,
    hand: &mut Hand<D>,
    count: u32,
    blank: Blank,
)
    requires name { blank.name ≡ L.name }
    requires parts { blank.parts ≡ L.parts }
    requires one { blank.parts ≡ 1 }
    requires own { IsPassOf (id_of turns.now) hand.old.pass }
    requires legal { is_legal (entries_of (seen_by hand.old.pass)) ≡ true }
    requires ready { MayServe G.listens G.tally gate.old }
    requires whole { hand.old.failed ≡ false }
    ensures pass { StaysPass turns.now hand.old.pass hand.new.pass }
    ensures legal { is_legal (entries_of (seen_by hand.new.pass)) ≡ true }
    ensures worked { HasWorked G.Conn.left G.Conn.written G.Conn.read_faults G.Conn.write_faults count
        (G.tally gate.old) (G.tally gate.new) (G.faults gate.old) (G.faults gate.new)
        (moment_of hand.old.pass) (moment_of hand.new.pass) hand.old.wanting hand.new.failed hand.new.wanting }
{
    let mut steps = Steps::<L>::start(rt, blank);
    answer_all(rt, alloc, turns, gate, hand, count, &mut steps);
}

/// What each worker does: to answer so many connections that its gate gives, over a desk that all use in turn.
#[derive(Drop)]
pub struct Serving<'a, D: Held> {
    pub alloc: Global,
    pub turns: &'a Turns<D>,
    pub count: u32,
}

impl<'a, D: Desk, G: Gate> Duty<G, Hand<D>> for Serving<'a, D> {
    ghost use Rattle.turn_lock.specs.Turned.{id_of};
    ghost use Rattle.law_http.specs.Connections.{StaysPass};
    ghost use Rattle.law_register.specs.Desk.History.{entries_of};
    ghost use Rattle.law_register.specs.Register.Verdicts.{is_legal};
    ghost use Rattle.desk_serving.specs.Work.{HasAttended, MayAttend};

    ghost may_do = { λ serving. MayAttend G.listens G.tally (id_of serving.turns.now) };

    ghost does = { λ serving. HasAttended G.Conn.left G.Conn.written G.Conn.read_faults G.Conn.write_faults
        G.tally G.faults serving.turns.now serving.count };

    fn attend<H: Threads + Wait>(&self, rt: &H, gate: &mut G, hand: &mut Hand<D>) {
        if hand.failed {
            return;
        }
        answer_counted::<Brand, _, _, _>(
            rt,
            self.alloc,
            self.turns,
            gate,
            hand,
            self.count,
            Blank::new(1),
        );
    }
}
