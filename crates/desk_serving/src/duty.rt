//! Duty: what a worker does with a gate and what it has in hand, and four workers at once, each at a gate of its own.

ghost use Rattle.std.specs.Prelude.{◌≡◌};
ghost use Rattle.std.specs.Thread.{IsSend, IsSync};

use std::sync::Wait;
use std::thread::{Threads, join_mut};

/// What a worker does.
pub trait Duty<G, P> {
    /// What it asks of the gate, and of what the worker has in hand.
    ghost may_do: { Self → G → P → Type 0 };

    /// What it makes of both.
    ghost does: { Self → G → P → G → P → Type 0 };

    /// Does it.
    fn attend<H: Threads + Wait>(&self, rt: &H, gate: &mut G, hand: &mut P)
        requires { may_do self.now gate.old hand.old }
        ensures { does self.now gate.old hand.old gate.new hand.new };
}

// Two workers at once.
fn attend_two<R: Threads + Wait + Sync, J: Duty<G, P> + Sync, G: Send, P: Send>(
    rt: &R,
    duty: &J,
    a: &mut G,
    p: &mut P,
    b: &mut G,
    q: &mut P,
)
    requires first { J.may_do duty.now a.old p.old }
    requires second { J.may_do duty.now b.old q.old }
    ensures first { J.does duty.now a.old p.old a.new p.new }
    ensures second { J.does duty.now b.old q.old b.new q.new }
{
    join_mut(
        rt,
        &mut ||
            requires { IsSync R.row × IsSync J.row × J.may_do duty.now a.now p.now }
            ensures { J.does duty.entry.now a.entry.now p.entry.now a.exit.now p.exit.now }
        { duty.attend(rt, a, p) },
        &mut ||
            requires { J.may_do duty.now b.now q.now }
            ensures { J.does duty.entry.now b.entry.now q.entry.now b.exit.now q.exit.now }
        { duty.attend(rt, b, q) },
    );
}

/// Four workers at once.
pub fn attend_four<R: Threads + Wait + Sync, J: Duty<G, P> + Sync, G: Send, P: Send>(
    rt: &R,
    duty: &J,
    a: &mut G,
    p: &mut P,
    b: &mut G,
    q: &mut P,
    c: &mut G,
    r: &mut P,
    d: &mut G,
    s: &mut P,
)
    requires first { J.may_do duty.now a.old p.old }
    requires second { J.may_do duty.now b.old q.old }
    requires third { J.may_do duty.now c.old r.old }
    requires fourth { J.may_do duty.now d.old s.old }
    ensures first { J.does duty.now a.old p.old a.new p.new }
    ensures second { J.does duty.now b.old q.old b.new q.new }
    ensures third { J.does duty.now c.old r.old c.new r.new }
    ensures fourth { J.does duty.now d.old s.old d.new s.new }
{
    join_mut(
        rt,
        &mut ||
            requires { IsSync R.row × IsSync J.row × IsSend G.row × IsSend P.row
                × J.may_do duty.now a.now p.now × J.may_do duty.now b.now q.now }
            ensures { J.does duty.entry.now a.entry.now p.entry.now a.exit.now p.exit.now
                × J.does duty.entry.now b.entry.now q.entry.now b.exit.now q.exit.now }
        { attend_two(rt, duty, a, p, b, q) },
        &mut ||
            requires { IsSync R.row × IsSync J.row × IsSend G.row × IsSend P.row
                × J.may_do duty.now c.now r.now × J.may_do duty.now d.now s.now }
            ensures { J.does duty.entry.now c.entry.now r.entry.now c.exit.now r.exit.now
                × J.does duty.entry.now d.entry.now s.entry.now d.exit.now s.exit.now }
        { attend_two(rt, duty, c, r, d, s) },
    );
}
