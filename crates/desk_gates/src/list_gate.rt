//! ListGate: a gate in memory. A clause sees the links ahead, those given as they were, and those taken back.

ghost use Rattle.std.proofs.lemmas.List.{length-map};
ghost use Rattle.std.specs.Prelude.{◌≡◌, ◌+◌, ◌↔◌, ◌∷◌, All, IfOk, IsErr, IsTrue, OnErr, OnOk, length, map, true, option_map};
ghost use Rattle.desk_base.specs.MemoryStreams.{next_fails};
ghost use Rattle.desk_base.specs.Streams.{HasCause};
ghost use Rattle.desk_gates.specs.MemoryGates as spec;
ghost use Rattle.desk_gates.specs.Tallies.{IsTally, IsUnused, ended, with_given, with_taken};

use crate::Gate;
use desk_base::{Failed, FailingCalls, Link, Memory, count_fault};
use std::alloc::Global;
use std::collections::VecDeque;
use std::marker::Model;
use std::snapshot::Snapshot;

/// Links of one type as a gate, which gives them in their order, and keeps those that it takes back. Some of the calls
/// of `listen` and `accept` fail.
#[derive(Drop)]
pub struct ListGate<L: Link> {
    ahead: VecDeque<L>,
    given: Vec<Snapshot<L>>,
    back: Vec<L>,
    listens: bool,
    plan: FailingCalls,
    faults: u64,
}

impl<L: Link> Model for ListGate<L> {
    ghost use Rattle.std.specs.Prelude.{◌≤◌, ◌+◌, All, length, map, vec_capacity};
    ghost use Rattle.desk_gates.specs.MemoryGates.{HeldGate, held_gate_code};
    ghost use Rattle.desk_gates.specs.Tallies.{IsUnused};

    ghost Value = { HeldGate L };

    ghost coded = { held_gate_code L.code };

    ghost view = { λ g. record {
      ahead = g.ahead.items;
      given = map (λ s. s.value) g.given.items;
      back = g.back.items;
      listens = g.listens;
      plan = g.plan;
      faults = g.faults;
    } };

    ghost invariant = { λ g.
        All (λ link. IsUnused (L.written link) (L.read_faults link) (L.write_faults link)) g.ahead.items
        × (length g.given.items + length g.ahead.items ≤ vec_capacity g.given)
        × (length g.given.items + length g.ahead.items ≤ vec_capacity g.back) };
}

impl<L: Link + Drop> ListGate<L> {
    /// A gate of these links, with which nothing was done yet. The calls of `listen` and `accept` whose numbers are
    /// listed, counted from 1 over both, fail.
    pub fn new(alloc: Global, links: Vec<L>, failing: &[u64]) -> Result<ListGate<L>, Memory>
        requires { All (λ link. IsUnused (L.written link) (L.read_faults link) (L.write_faults link)) links.items }
        ensures { IfOk result (λ gate. gate ≡ spec.new_gate links.items failing.now) }
    {
        let given = Vec::with_capacity(alloc, links.len())?;
        let back = Vec::with_capacity(alloc, links.len())?;
        Ok(ListGate {
            ahead: VecDeque::from(links),
            given,
            back,
            listens: false,
            plan: FailingCalls::new(alloc, failing)?,
            faults: 0,
        })
    }
}

impl<L: Link> ListGate<L> {
    /// Link `i`, counted from 0. None while it is given out, and past the last.
    pub fn link(&self, i: usize) -> Option<&L>
        ensures { option_map (λ link. link.now) result ≡ spec.link_at self.now i }
    {
        if i < self.back.len() {
            return self.back.get(i);
        }
        if i < self.given.len() {
            return None;
        }
        self.ahead.get(i - self.given.len())
    }
}

impl<L: Link> Gate for ListGate<L> {
    type Conn = L;

    ghost listens = { λ g. g.listens };

    ghost tally = { λ g. spec.tally_of L.left L.written L.read_faults L.write_faults g };

    ghost faults = { λ g. g.faults };

    /// Fails exactly where the number of the call is listed.
    fn listen(&mut self, _port: u16) -> Result<(), Failed>
        ensures listens { OnOk result (self.new.listens ≡ true) }
        ensures as_before { OnErr result (self.new.listens ≡ self.old.listens) }
        ensures tally { spec.tally_of L.left L.written L.read_faults L.write_faults self.new
            ≡ spec.tally_of L.left L.written L.read_faults L.write_faults self.old }
        ensures cause { HasCause self.old.faults self.new.faults result }
        ensures fails { IsErr result ↔ IsTrue (next_fails self.old.plan) }
        ensures after { self.new ≡ spec.after_listen self.old }
    {
        if self.plan.count_call() {
            return Err(count_fault(&mut self.faults));
        }
        self.listens = true;
        Ok(())
    }

    /// Fails exactly where the number of the call is listed, or where no link is left, and else gives the next.
    fn accept(&mut self) -> Result<L, Failed>
        requires listens { self.old.listens ≡ true }
        requires settled { length self.old.given ≡ length self.old.back }
        ensures given { IfOk result (λ link.
            spec.tally_of L.left L.written L.read_faults L.write_faults self.new
            ≡ with_given (L.left link) (spec.tally_of L.left L.written L.read_faults L.write_faults self.old)) }
        ensures unused { IfOk result (λ link. IsUnused (L.written link) (L.read_faults link) (L.write_faults link)) }
        ensures none { OnErr result (spec.tally_of L.left L.written L.read_faults L.write_faults self.new
            ≡ spec.tally_of L.left L.written L.read_faults L.write_faults self.old) }
        ensures listens { self.new.listens ≡ self.old.listens }
        ensures cause { HasCause self.old.faults self.new.faults result }
        ensures fails { IsErr result ↔ IsTrue (spec.accept_fails self.old) }
        ensures next { IfOk result (λ link. self.old.ahead ≡ link ∷ self.new.ahead) }
        ensures after { self.new ≡ spec.after_accept self.old }
    {
        if self.plan.count_call() {
            return Err(count_fault(&mut self.faults));
        }
        match self.ahead.pop_front() {
            Some(link) => {
                self.given.push_reserved(Snapshot::of(&link));
                Ok(link)
            }
            None => Err(count_fault(&mut self.faults)),
        }
    }

    /// Keeps the link.
    fn done(&mut self, conn: L)
        requires { length self.old.given ≡ length self.old.back + 1 }
        ensures taken { spec.tally_of L.left L.written L.read_faults L.write_faults self.new
            ≡ with_taken (ended L.written L.read_faults L.write_faults conn)
            (spec.tally_of L.left L.written L.read_faults L.write_faults self.old) }
        ensures listens { self.new.listens ≡ self.old.listens }
        ensures faults { self.new.faults ≡ self.old.faults }
        ensures after { self.new ≡ spec.after_done conn self.old }
    {
        self.back.push_reserved(conn);
    }

    ghost is_tally = { λ g. record { lefts = length-map g.given L.left; ends = length-map g.back (ended L.written L.read_faults L.write_faults) } };
}
