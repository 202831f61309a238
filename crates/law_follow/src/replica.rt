//! Replica: what a follower writes down. A clause sees its payloads, which spell the entries of its register, and the one
//! of which it is not known whether the keeper has it.

ghost use Rattle.std.specs.Prelude.{◌≡◌, ◌≤◌, ◌∷◌, ◌++◌, [], None, OnOk};
ghost use Rattle.law_follow.specs.Replicas.{IsPendingOn, IsRight, payloads_of, pending_of};
ghost use Rattle.law_follow.specs.Taking.{Fits, resolved, resolved_end};
ghost use Rattle.law_register.specs.Desk.States.{MayFollow};
ghost use Rattle.entry_codec.specs.Entries.{spelling};

use crate::judging::last_source;
use desk_base::Memory;
use law_register::{Entry, Register};

/// A payload of which it is not known whether the keeper has it.
#[derive(Drop)]
pub struct Pending {
    /// The entry that it spells, which is accepted behind those of the register.
    pub entry: Entry,
    /// Its bytes.
    pub payload: Vec<u8>,
}

/// The register that the payloads of a keeper spell, and how far the keeper goes.
#[derive(Drop)]
pub struct Replica {
    /// The entries.
    pub register: Register,
    /// The keeper's cursor of the end of these entries.
    pub end: u64,
    /// The index of an entry whose source may come again: mostly that of the last one with a source.
    pub like: usize,
    /// What is pending behind them.
    pub pending: Option<Pending>,
}

impl Replica {
    // Makes room for an entry.
    pub(crate) fn reserve(&mut self, entry: &Entry) -> Result<(), Memory>
        requires right { IsRight self.old }
        requires settled { self.old.pending ≡ None }
        ensures entries { self.new.register.entries ≡ self.old.register.entries }
        ensures room { OnOk result (1 ≤ self.new.register.spare) }
        ensures end { self.new.end ≡ self.old.end }
        ensures pending { self.new.pending ≡ None }
        ensures right { IsRight self.new }
    {
        self.register.reserve(entry)
    }

    // An entry that may stand behind the others stands there, for which there is room.
    pub(crate) fn push(&mut self, entry: Entry)
        requires right { IsRight self.old }
        requires settled { self.old.pending ≡ None }
        requires follows { MayFollow self.old.register.entries entry }
        requires room { 1 ≤ self.old.register.spare }
        requires fits { Fits self.old.register.entries entry (spelling entry) }
        ensures payloads { payloads_of self.new ≡ payloads_of self.old ++ spelling entry ∷ [] }
        ensures end { self.new.end ≡ self.old.end }
        ensures pending { self.new.pending ≡ None }
        ensures right { IsRight self.new }
    {
        self.register.push(entry);
        self.like = last_source(&self.register, self.like);
    }

    // A payload that the keeper has stands behind the others, up to this cursor.
    pub(crate) fn commit(&mut self, pending: Pending, end: u64)
        requires right { IsRight self.old }
        requires settled { self.old.pending ≡ None }
        requires follows { IsPendingOn self.old.register pending }
        ensures payloads { payloads_of self.new ≡ payloads_of self.old ++ pending.payload.items ∷ [] }
        ensures end { self.new.end ≡ end }
        ensures pending { self.new.pending ≡ None }
        ensures right { IsRight self.new }
    {
        let Pending { entry, payload: _ } = pending;
        self.push(entry);
        self.end = end;
    }

    // The payload that is pending was found, up to this cursor, or was not: it is pending no more.
    pub(crate) fn resolve(&mut self, found: Option<u64>)
        requires right { IsRight self.old }
        ensures payloads { payloads_of self.new ≡ resolved (payloads_of self.old) (pending_of self.old.pending) found }
        ensures end { self.new.end ≡ resolved_end self.old.end (pending_of self.old.pending) found }
        ensures pending { self.new.pending ≡ None }
        ensures right { IsRight self.new }
    {
        match self.pending.take() {
            None => (),
            Some(pending) => match found {
                None => drop(pending),
                Some(end) => self.commit(pending, end),
            },
        }
    }
}
