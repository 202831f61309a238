//! What is written into a book. None of it takes memory but the room for a mark.

ghost use Rattle.std.specs.Prelude.{◌≡◌, ◌+◌, ◌≤◌, ◌<◌, ◌∷◌, ◌++◌, [], None, Some, Ok, IfOk, OnOk, length, vec_len, vec_capacity};
ghost use Rattle.indexmap.specs.IndexMap.{spare};
ghost use Rattle.law_register.specs.Desk.Commands.{mark_of};
ghost use Rattle.viewpoints.specs.Right as viewpoints;
ghost use Rattle.law_office.specs.Acting.{resolved, resolved_end};
ghost use Rattle.law_office.specs.Opening.{opened, spellings};
ghost use Rattle.law_office.specs.Moving.{Moves};
ghost use Rattle.law_refs.specs.OfRegister.{IsIndexOf};
ghost use Rattle.law_office.specs.Noting.{AreNoted};
ghost use Rattle.law_office.specs.Offices.{IsPendingOn, IsRight, index_standing, pending_of};
ghost use Rattle.law_office.specs.References.{index_after};
ghost use Rattle.law_office.specs.Tables.{AreTablesOf, kept_in, table_on};

use crate::book::{Book, Pending};
use crate::renewing::apply;
use desk_base::Memory;
use law_register::laws::entries_are_legal;
use law_register::{Drafter, Entry, FaultMark, Register};

// A register has few entries: each has a byte at least of those that a register may have.
fn entries_are_few(register: &Register)
    ensures { length register.now.entries ≤ 536870912 }
{
    entries_are_legal(register);
}

impl Book {
    // How many entries and marks there are.
    pub(crate) fn count(&self) -> u64
        ensures { result ≡ length self.now.register.entries + length self.now.marks.items }
    {
        entries_are_few(&self.register);
        self.register.len() as u64 + self.marks.len() as u64
    }

    // Makes room for a mark, and the mark of a request.
    pub(crate) fn reserve_mark(
        &mut self,
        drafter: &Drafter,
        request: u64,
    ) -> Result<FaultMark, Memory>
        requires { IsRight self.old }
        ensures mark { IfOk result (λ mark. (mark.drafter ≡ drafter.now) × (mark.request ≡ request)) }
        ensures room { OnOk result (vec_len self.new.marks < vec_capacity self.new.marks) }
        ensures register { self.new.register ≡ self.old.register }
        ensures pending { self.new.pending ≡ self.old.pending }
        ensures end { self.new.end ≡ self.old.end }
        ensures marks { self.new.marks.items ≡ self.old.marks.items }
        ensures past { self.new.past ≡ self.old.past }
        ensures refs { self.new.refs ≡ self.old.refs }
        ensures right { IsRight self.new }
    {
        self.marks.reserve(1)?;
        Ok(FaultMark {
            drafter: drafter.copy()?,
            request,
            entries: 0,
        })
    }

    // Adds a mark, made when as many entries stand as do now.
    pub(crate) fn add_mark(&mut self, mark: FaultMark)
        requires room { vec_len self.old.marks < vec_capacity self.old.marks }
        requires right { IsRight self.old }
        ensures marks { self.new.marks.items ≡ self.old.marks.items
            ++ mark_of mark.drafter mark.request self.old.register.entries ∷ [] }
        ensures register { self.new.register ≡ self.old.register }
        ensures pending { self.new.pending ≡ self.old.pending }
        ensures end { self.new.end ≡ self.old.end }
        ensures past { self.new.past ≡ self.old.past }
        ensures right { IsRight self.new }
    {
        let FaultMark {
            drafter,
            request,
            entries: _,
        } = mark;
        let entries = self.register.len() as u64;
        self.marks.push_reserved(FaultMark {
            drafter,
            request,
            entries,
        });
    }

    // Makes room for an entry, and for one work more.
    pub(crate) fn reserve_entry(&mut self, entry: &Entry) -> Result<(), Memory>
        requires { IsRight self.old }
        ensures entries { self.new.register.entries ≡ self.old.register.entries }
        ensures room { OnOk result (1 ≤ self.new.register.spare) }
        ensures space { OnOk result (1 ≤ spare self.new.tables) }
        ensures refs { self.new.refs ≡ self.old.refs }
        ensures pending { self.new.pending ≡ self.old.pending }
        ensures end { self.new.end ≡ self.old.end }
        ensures moves { Moves self.old self.new }
        ensures right { self.old.pending ≡ None → IsRight self.new }
    {
        self.register.reserve(entry)?;
        self.tables.reserve(1)?;
        Ok(())
    }

    // An entry that the keeper has stands behind the others, up to this cursor, and what is kept is for it.
    pub(crate) fn commit(&mut self, pending: Pending, end: u64)
        requires right { IsRight self.old }
        requires follows { IsPendingOn self.old.register self.old.tables self.old.naming self.old.refs pending }
        ensures entries { self.new.register.entries ≡ self.old.register.entries ++ pending.entry ∷ [] }
        ensures opens { opened (spellings self.new.register.entries) ≡ Ok self.new.register.entries }
        ensures end { self.new.end ≡ end }
        ensures pending { self.new.pending ≡ self.old.pending }
        ensures moves { Moves self.old self.new }
        ensures tables { AreTablesOf self.new.register.entries (kept_in self.new.tables) }
        ensures named { AreNoted self.new.naming (kept_in self.new.tables) }
        ensures refs { self.new.refs ≡ index_after pending.changes.refs self.old.refs }
        ensures index { IsIndexOf self.new.register.entries self.new.refs }
        ensures right { viewpoints.IsRight table_on self.new.register.entries self.new.past }
    {
        let Pending {
            entry,
            bytes: _,
            changes,
        } = pending;
        self.register.push(entry);
        apply(&mut self.tables, &mut self.refs, changes);
        self.end = end;
    }

    // The keeper has an entry, or has not: it is pending.
    pub(crate) fn leave(&mut self, pending: Pending)
        requires right { IsRight self.old }
        requires follows { IsPendingOn self.old.register self.old.tables self.old.naming self.old.refs pending }
        ensures entries { self.new.register.entries ≡ self.old.register.entries }
        ensures end { self.new.end ≡ self.old.end }
        ensures pending { pending_of self.new.pending ≡ Some pending.entry }
        ensures moves { Moves self.old self.new }
        ensures right { IsRight self.new }
    {
        let earlier = self.pending.replace(pending);
        drop(earlier);
    }

    // The entry that is pending was found, up to this cursor, or was not: it is pending no more.
    pub(crate) fn resolve(&mut self, found: Option<u64>)
        requires right { IsRight self.old }
        ensures entries { self.new.register.entries
            ≡ resolved self.old.register.entries (pending_of self.old.pending) found }
        ensures end { self.new.end ≡ resolved_end self.old.end (pending_of self.old.pending) found }
        ensures pending { self.new.pending ≡ None }
        ensures refs { self.new.refs ≡ index_standing self.old self.new.register.entries }
        ensures moves { Moves self.old self.new }
        ensures right { IsRight self.new }
    {
        match self.pending.take() {
            None => (),
            Some(pending) => match found {
                None => drop(pending),
                Some(end) => self.commit(pending, end),
            },
        }
    }
}
