//! The register: entries, each accepted behind those before it.

ghost use Rattle.std.specs.Prelude.{◌≡◌, ◌+◌, ◌<◌, ◌≤◌, ◌∷◌, ◌++◌, [], true, length, OnOk, IsTrue, map, Some, None, IfOk, option_map, is_some, is_none, slice_index_or};
ghost use Rattle.law_register.specs.Register.LawList.{front};
ghost use Rattle.law_register.specs.Register.Verdicts as verdicts;
ghost use Rattle.law_register.specs.declared.register.limits.TheConstants.{MOST_LAWS, MOST_REGISTER_BYTES};

use crate::register::contents;
use crate::register::indexes::Indexes;
use crate::{Command, Draft, Drafter, Entry, Kind, Modification, Reply, Standing};
use desk_base::{Id, Memory};
use frbr_names::WorkName;
use std::alloc::Global;
use std::marker::Model;

/// Entries, each accepted behind those before it. A clause sees them, and for how many more there is room.
#[derive(Debug, Drop)]
pub struct Register {
    pub(crate) entries: Vec<Entry>,
    pub(crate) indexes: Indexes,
}

impl Model for Register {
    ghost use Rattle.std.specs.Prelude.{ℕ, min, ◌-◌, List, refl, length, vec_len, vec_capacity};
    ghost use Rattle.law_register.specs.declared.register.entry.Entry.{Entry};
    ghost use Rattle.law_register.specs.Register.Registers.{Contents, index_room, IsKept};

    ghost Value = { Contents };

    ghost use Rattle.std.specs.Coded.{Coded, code_by, coded×, coded_ℕ, coded_list, codes};
    ghost use Rattle.act_tree.specs.Codes.{branches_code};
    ghost use Rattle.act_tree.specs.OwnCode.{own_code};

    ghost coded = { Prim.hlevel (codes, branches_code own_code) };

    ghost view = { λ r. record {
      entries = r.entries.items;
      spare = min (vec_capacity r.entries - vec_len r.entries) (index_room r.indexes);
    } };

    ghost invariant = { λ r. IsKept r.indexes r.entries.items };
}

impl Register {
    ghost use Rattle.law_register.specs.Register.Drafts.{added, draft_of, items_of};
    ghost use Rattle.law_register.specs.Register.KnownIds.{facts_of, enacted, ids_of};
    ghost use Rattle.law_register.specs.Register.LawList.{laws, works_enacted};
    ghost use Rattle.std.specs.Prelude.{IsPermutation, IsSorted};
    ghost use Rattle.std.specs.Ordering.{nat_cmp};
    ghost use Rattle.std.specs.Cmp.Lexicographic.{slice_cmp};
    ghost use Rattle.law_register.specs.Law.Kinds.{kind_of};
    ghost use Rattle.law_register.specs.Law.Sizes.{entries_size};
    ghost use Rattle.law_register.specs.Law.Spelling.{is_well_spelled};
    ghost use Rattle.std.specs.List.{list_any};
    ghost use Rattle.std.specs.Str.{bytes_eq};

    /// A register with no entries. It takes no memory.
    pub fn new(alloc: Global) -> Register
        ensures { result.entries ≡ [] }
    {
        Register {
            entries: Vec::new(alloc),
            indexes: Indexes::new(alloc),
        }
    }

    /// How many law entries there are.
    pub fn front(&self) -> u32
        ensures value { result ≡ front self.now.entries }
        ensures most { result ≤ MOST_LAWS }
    {
        self.indexes.front
    }

    /// How many entries there are.
    pub fn len(&self) -> usize
        ensures { result ≡ length self.now.entries }
    {
        self.entries.len()
    }

    /// The entry at an index.
    pub fn entry(&self, index: usize) -> &Entry
        requires { index < length self.now.entries }
        ensures { result.now ≡ slice_index_or self.now.entries index result.now }
    {
        &self.entries[index]
    }

    /// Makes room for one more entry, whichever it is. Whatever comes of it, there is room for no fewer than before.
    pub fn reserve(&mut self, _entry: &Entry) -> Result<(), Memory>
        ensures entries { self.new.entries ≡ self.old.entries }
        ensures spare { self.old.spare ≤ self.new.spare }
        ensures room { OnOk result (1 ≤ self.new.spare) }
    {
        self.entries.reserve(1)?;
        self.indexes.reserve()?;
        Ok(())
    }

    /// Appends a well-spelled entry that is accepted behind the others with its law number. It takes no memory.
    pub fn push(&mut self, entry: Entry)
        requires room { 1 ≤ self.old.spare }
        requires accepted { verdicts.is_accepted entry.law
            (verdicts.verdict self.old.entries entry.drafter entry.request entry.command) ≡ true }
        requires spelled { is_well_spelled entry.command ≡ true }
        ensures { self.new.entries ≡ self.old.entries ++ entry ∷ [] }
    {
        let reply = self.reply_to(&entry.drafter, &entry.command);
        self.indexes.note(&self.entries, &entry, reply);
        self.entries.push_reserved(entry);
    }

    pub(crate) fn size(&self) -> u64
        ensures value { result ≡ entries_size self.now.entries }
        ensures most { result ≤ MOST_REGISTER_BYTES }
    {
        self.indexes.size
    }

    pub(crate) fn has_drafter(&self, drafter: &Drafter) -> bool
        ensures { result ≡ list_any (bytes_eq drafter.now) (verdicts.drafters self.now.entries) }
    {
        self.indexes.drafter(drafter).is_some()
    }

    pub(crate) fn drafter_count(&self) -> usize
        ensures { result ≡ length (verdicts.drafters self.now.entries) }
    {
        self.indexes.drafters.len()
    }

    pub(crate) fn added(&self, drafter: &Drafter) -> u32
        ensures value { result ≡ added drafter.now self.now.entries }
        ensures most { result ≤ MOST_REGISTER_BYTES }
    {
        match self.indexes.drafter(drafter) {
            Some(mark) => mark.added,
            None => 0,
        }
    }

    pub(crate) fn draft_len(&self, drafter: &Drafter) -> usize
        ensures { result ≡ length (draft_of drafter.now self.now.entries) }
    {
        match self.indexes.drafter(drafter) {
            Some(mark) => mark.items.len(),
            None => 0,
        }
    }

    pub(crate) fn has_item(&self, drafter: &Drafter, item: u32) -> bool
        ensures { result ≡ verdicts.has_item item (draft_of drafter.now self.now.entries) }
    {
        match self.indexes.drafter(drafter) {
            Some(mark) => contents::has_item(&mark.items, item),
            None => false,
        }
    }

    /// The items of a drafter's draft, in order.
    pub fn draft(&self, alloc: Global, drafter: &Drafter) -> Result<Draft, Memory>
        ensures { IfOk result (λ draft. draft ≡ draft_of drafter.now self.now.entries) }
    {
        match self.indexes.drafter(drafter) {
            Some(mark) => contents::items_told(alloc, &self.entries, &mark.items),
            None => Ok(Draft::new(alloc)),
        }
    }

    pub(crate) fn items_of(&self, drafter: &Drafter, work: &WorkName) -> usize
        ensures { result ≡ length (items_of work.now (draft_of drafter.now self.now.entries)) }
    {
        match self.indexes.drafter(drafter) {
            Some(mark) => contents::items_of(&self.entries, &mark.items, work).len(),
            None => 0,
        }
    }

    /// The number of the law entry that enacts a work. `None`: none does.
    pub fn enacted(&self, work: &WorkName) -> Option<u32>
        ensures { result ≡ option_map (λ found. found.0) (enacted work.now (laws self.now.entries)) }
    {
        Some(self.indexes.work(work)?.enacted?.number)
    }

    /// The works that law entries enact, in the order of the bytes of their IRIs.
    pub fn works(&self, alloc: Global) -> Result<Vec<WorkName>, Memory>
        ensures all { IfOk result (λ works. IsPermutation (works_enacted (laws self.now.entries)) works.items) }
        ensures order { IfOk result (λ works. IsSorted (slice_cmp nat_cmp) works.items) }
    {
        let mut works = contents::works_at(alloc, &self.entries, &self.indexes.acts)?;
        works.sort()?;
        Ok(works)
    }

    pub(crate) fn last_on(&self, work: &WorkName) -> u32
        ensures { result ≡ verdicts.last_on work.now (laws self.now.entries) }
    {
        self.indexes.work(work).map_or(0, |mark| mark.last)
    }

    pub(crate) fn id_count(&self, work: &WorkName) -> u32
        ensures { result ≡ length (ids_of work.now (laws self.now.entries)) }
    {
        self.indexes.work(work).map_or(0, |mark| mark.ids)
    }

    /// The work that an id modifies. `None`: it is not recorded.
    pub fn work_of(&self, id: Id) -> Option<&WorkName>
        ensures { option_map (λ work. work.now) result
            ≡ option_map (λ f. f.work) (facts_of id (laws self.now.entries)) }
    {
        contents::work_at(&self.entries, self.indexes.id(id)?.recorded)
    }

    /// What an id says, as it was last recorded or corrected. `None`: it is not recorded.
    pub fn body_of(&self, id: Id) -> Option<&Modification>
        ensures { option_map (λ body. body.now) result
            ≡ option_map (λ f. f.body) (facts_of id (laws self.now.entries)) }
    {
        let mark = self.indexes.id(id)?;
        contents::body_at(&self.entries, mark.entry, mark.place)
    }

    pub(crate) fn kind_of(&self, id: Id) -> Option<Kind>
        ensures { result ≡ option_map (λ f. kind_of f.body) (facts_of id (laws self.now.entries)) }
    {
        Some(self.body_of(id)?.kind())
    }

    pub(crate) fn standing(&self, id: Id) -> Option<Standing>
        ensures { result ≡ option_map (λ f. f.standing) (facts_of id (laws self.now.entries)) }
    {
        Some(self.indexes.id(id)?.standing)
    }

    pub(crate) fn request(&self, drafter: &Drafter, request: u64) -> Option<&Entry>
        ensures { option_map (λ e. e.now) result
            ≡ option_map (λ found. found.0) (verdicts.request_of self.now.entries drafter.now request) }
    {
        let mark = self.indexes.request(drafter, request)?;
        self.entries.get(mark.entry)
    }

    pub(crate) fn reply(&self, drafter: &Drafter, request: u64) -> Option<Reply>
        ensures { result ≡ option_map (λ found. found.1) (verdicts.request_of self.now.entries drafter.now request) }
    {
        Some(self.indexes.request(drafter, request)?.reply)
    }
}
