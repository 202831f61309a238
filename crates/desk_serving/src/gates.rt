//! Gates: four of them are served at once, over one desk.

ghost use Rattle.std.specs.Prelude.{◌≡◌, ◌+◌, ◌||◌, [], ◌∷◌, ◌++◌, None, false, true, length, map};
ghost use Rattle.std.specs.List.{AllByRecursion, list_any};
ghost use mathlib.Core.List.{IsPrefix};
ghost use Rattle.turn_lock.specs.Passes.{seen_by, share_of, made_by, IsPassOf, BeganAs};
ghost use Rattle.turn_lock.specs.Turned.{id_of};
ghost use Rattle.law_register.specs.Desk.History.{entries_of};
ghost use Rattle.law_register.specs.Register.Verdicts.{is_legal};
ghost use Rattle.desk_serving.specs.Work.{AreNewHands, HasJoined, HasListened, HaveJoined, HaveServed, HaveWorked, IsLater, IsSettled, is_broken, is_wanting};
ghost use Rattle.desk_serving.specs.Gates.{WereGatesServed};

use crate::duty::attend_four;
use crate::hand::Hand;
use crate::outcome::Outcome;
use crate::serve_job::ServeJob;
use crate::sharing::{Hands, join_one, split_four};
use crate::working::Serving;
use desk_base::Memory;
use desk_gates::Gate;
use law_http::laws::well_answered_stays;
use law_register::Desk;
use law_register::laws::entries_are_legal;
use std::alloc::Global;
use std::sync::Wait;
use std::thread::Threads;
use turn_lock::{Pass, Turns, TurnsRefused};

/// The four workers, and who opens and closes.
const CALLERS: u16 = 5;

// The entries of a desk are legal.
fn know_desk<D: Desk>(desk: &D)
    ensures { is_legal (entries_of (D.history desk.now)) ≡ true }
{
    entries_are_legal(desk.register());
}

// Asks a gate to listen, and notes where it fails.
fn listen<D: Desk, G: Gate>(gate: &mut G, port: u16, hand: &mut Hand<D>)
    requires { hand.old.failed ≡ false }
    ensures { HasListened G.listens G.tally G.faults gate.old gate.new hand.old hand.new }
{
    if gate.listen(port).is_err() {
        hand.failed = true;
    }
}

// Joins a hand, and gives what came of its work besides.
fn close_hand<D: Desk>(turns: &Turns<D>, pass: &mut Pass<D>, hand: Hand<D>) -> Outcome
    requires own { IsPassOf (id_of turns.now) pass.old }
    requires other { IsPassOf (id_of turns.now) hand.pass }
    ensures joined { HasJoined (id_of turns.now) hand pass.old pass.new }
    ensures failed { result.failed ≡ hand.failed }
    ensures wanting { result.wanting ≡ hand.wanting }
{
    let outcome = Outcome {
        failed: hand.failed,
        wanting: hand.wanting,
    };
    join_one(turns, pass, hand);
    outcome
}

// Joins all hands.
fn close_hands<D: Desk>(turns: &Turns<D>, pass: &mut Pass<D>, hands: Hands<D>) -> Outcome
    requires own { IsPassOf (id_of turns.now) pass.old }
    requires others { AllByRecursion (λ h. IsPassOf (id_of turns.now) h.pass) (hands.first ∷ hands.second ∷ hands.third ∷ hands.fourth ∷ []) }
    ensures joined { HaveJoined (id_of turns.now) (hands.first ∷ hands.second ∷ hands.third ∷ hands.fourth ∷ []) pass.old pass.new }
    ensures failed { result.failed ≡ list_any (λ h. h.failed) (hands.first ∷ hands.second ∷ hands.third ∷ hands.fourth ∷ []) }
    ensures wanting { result.wanting ≡ list_any (λ h. h.wanting) (hands.first ∷ hands.second ∷ hands.third ∷ hands.fourth ∷ []) }
{
    let Hands {
        first,
        second,
        third,
        fourth,
    } = hands;
    let one = close_hand(turns, pass, first);
    let two = close_hand(turns, pass, second);
    let three = close_hand(turns, pass, third);
    let four = close_hand(turns, pass, fourth);
    Outcome {
        failed: one.failed || two.failed || three.failed || four.failed,
        wanting: one.wanting || two.wanting || three.wanting || four.wanting,
    }
}

// Serves four gates with these hands, each by a worker of its own.
fn serve_by_hands<R: Threads + Wait + Sync, D: Desk + Send, G: Gate + Send>(
    rt: &R,
    alloc: Global,
    turns: &Turns<D>,
    pass: &mut Pass<D>,
    hands: Hands<D>,
    job: ServeJob,
    a: &mut G,
    b: &mut G,
    c: &mut G,
    d: &mut G,
) -> Outcome
where
    G::Conn: Send,
    requires own { IsPassOf (id_of turns.now) pass.old }
    requires hands { AreNewHands (id_of turns.now) (seen_by pass.old) (hands.first ∷ hands.second ∷ hands.third ∷ hands.fourth ∷ []) }
    requires legal { is_legal (entries_of (seen_by pass.old)) ≡ true }
    requires none_made { made_by pass.old ≡ 0 }
    requires settled { AllByRecursion (IsSettled G.tally) (a.old ∷ b.old ∷ c.old ∷ d.old ∷ []) }
    ensures own { IsPassOf (id_of turns.now) pass.new }
    ensures share { share_of pass.new ≡ share_of pass.old + 4 }
    ensures begins { IsPrefix (seen_by pass.old) (seen_by pass.new) }
    ensures began { BeganAs pass.new pass.old }
    ensures worked { HaveWorked G.Conn.left G.Conn.written G.Conn.read_faults G.Conn.write_faults G.tally G.faults
        job.connections (seen_by pass.old) (seen_by pass.new) (a.old ∷ b.old ∷ c.old ∷ d.old ∷ [])
        (a.new ∷ b.new ∷ c.new ∷ d.new ∷ []) (made_by pass.new) result.failed result.wanting }
{
    let Hands {
        mut first,
        mut second,
        mut third,
        mut fourth,
    } = hands;
    listen(a, job.port, &mut first);
    listen(b, job.port, &mut second);
    listen(c, job.port, &mut third);
    listen(d, job.port, &mut fourth);
    let serving = Serving {
        alloc,
        turns,
        count: job.connections,
    };
    attend_four(
        rt,
        &serving,
        a,
        &mut first,
        b,
        &mut second,
        c,
        &mut third,
        d,
        &mut fourth,
    );
    let hands = Hands {
        first,
        second,
        third,
        fourth,
    };
    close_hands(turns, pass, hands)
}

// Serves four gates over a desk that is used in turn.
fn serve_in_turn<R: Threads + Wait + Sync, D: Desk + Send, G: Gate + Send>(
    rt: &R,
    alloc: Global,
    turns: &Turns<D>,
    pass: &mut Pass<D>,
    job: ServeJob,
    a: &mut G,
    b: &mut G,
    c: &mut G,
    d: &mut G,
) -> Option<Outcome>
where
    G::Conn: Send,
    requires own { IsPassOf (id_of turns.now) pass.old }
    requires share { share_of pass.old ≡ 5 }
    requires legal { is_legal (entries_of (seen_by pass.old)) ≡ true }
    requires none_made { made_by pass.old ≡ 0 }
    requires settled { AllByRecursion (IsSettled G.tally) (a.old ∷ b.old ∷ c.old ∷ d.old ∷ []) }
    ensures rest { IsLater (id_of turns.now) pass.old pass.new }
    ensures worked { HaveWorked G.Conn.left G.Conn.written G.Conn.read_faults G.Conn.write_faults G.tally G.faults
        job.connections (seen_by pass.old) (seen_by pass.new) (a.old ∷ b.old ∷ c.old ∷ d.old ∷ [])
        (a.new ∷ b.new ∷ c.new ∷ d.new ∷ []) (made_by pass.new) (is_broken result) (is_wanting result) }
    ensures unserved { result ≡ None → (a.new ∷ b.new ∷ c.new ∷ d.new ∷ []) ≡ (a.old ∷ b.old ∷ c.old ∷ d.old ∷ []) }
{
    match split_four(turns, pass) {
        Ok(hands) => Some(serve_by_hands(rt, alloc, turns, pass, hands, job, a, b, c, d)),
        Err(Memory) => None,
    }
}

/// What came of serving over a desk, and the desk.
#[derive(Drop)]
pub struct Shut<D> {
    pub desk: D,
    /// None where there was not enough memory for the workers' passes: then nothing was asked of the gates.
    pub outcome: Option<Outcome>,
}

// Serves four gates over a desk.
fn serve_four<R: Threads + Wait + Sync, D: Desk + Send, G: Gate + Send>(
    rt: &R,
    alloc: Global,
    desk: D,
    job: ServeJob,
    a: &mut G,
    b: &mut G,
    c: &mut G,
    d: &mut G,
) -> Shut<D>
where
    G::Conn: Send,
    requires settled { AllByRecursion (IsSettled G.tally) (a.old ∷ b.old ∷ c.old ∷ d.old ∷ []) }
    ensures served { HaveServed G.Conn.left G.Conn.written G.Conn.read_faults G.Conn.write_faults G.tally G.faults
        job.connections (D.history desk) (D.history result.desk) (a.old ∷ b.old ∷ c.old ∷ d.old ∷ [])
        (a.new ∷ b.new ∷ c.new ∷ d.new ∷ []) (is_broken result.outcome) (is_wanting result.outcome) }
    ensures unserved { result.outcome ≡ None
        → (a.new ∷ b.new ∷ c.new ∷ d.new ∷ []) ≡ (a.old ∷ b.old ∷ c.old ∷ d.old ∷ []) }
    ensures origin { D.origin result.desk ≡ D.origin desk }
{
    know_desk(&desk);
    match Turns::new(alloc, desk, CALLERS) {
        Ok((turns, mut pass)) => {
            let outcome = serve_in_turn(rt, alloc, &turns, &mut pass, job, a, b, c, d);
            let desk = turns.close(pass);
            know_desk(&desk);
            Shut { desk, outcome }
        }
        Err(TurnsRefused { value }) => Shut {
            desk: value,
            outcome: None,
        },
    }
}

/// Serves four gates over a desk, each by a worker of its own.
pub fn serve_gates<R: Threads + Wait + Sync, D: Desk + Send, G: Gate + Send>(
    rt: &R,
    alloc: Global,
    desk: D,
    job: ServeJob,
    gates: &mut [G],
) -> Shut<D>
where
    G::Conn: Send,
    requires four { length gates.old ≡ 4 }
    requires settled { AllByRecursion (IsSettled G.tally) gates.old }
    ensures served { WereGatesServed G.Conn.left G.Conn.written G.Conn.read_faults G.Conn.write_faults G.tally G.faults
        job.connections (D.history desk) (D.history result.desk) (is_wanting result.outcome) (is_broken result.outcome)
        gates.old gates.new }
    ensures unserved { result.outcome ≡ None → gates.new ≡ gates.old }
    ensures origin { D.origin result.desk ≡ D.origin desk }
{
    well_answered_stays();
    let (front, back) = gates.split_at_mut(2);
    let (a, b) = front.split_at_mut(1);
    let (c, d) = back.split_at_mut(1);
    serve_four(
        rt, alloc, desk, job, &mut a[0], &mut b[0], &mut c[0], &mut d[0],
    )
}
