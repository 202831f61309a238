//! Indexes: what of the entries is looked up in place of walking them. A mark names an entry by its index.

ghost use Rattle.std.specs.Prelude.{◌≡◌, ◌==◌, ◌&&◌, ◌+◌, ◌-◌, ◌<◌, ◌≤◌, ℕ, List, [], ◌∷◌, ◌++◌, length, slice_get, take, drop, Option, Some, None, option_map, is_some, if◌then◌else◌};
ghost use Rattle.std.proofs.Common.{ap, rules};
ghost use Rattle.std.specs.Cmp.Rules.{comparing, hashing};
ghost use Rattle.std.specs.Cmp.Lexicographic.{bytes_decides, nat_list_eq_equiv, pointwise};
ghost use Rattle.std.specs.Hash as fed;
ghost use Rattle.std.specs.Str.{bytes_eq};
ghost use Rattle.indexmap.specs.IndexMap.{get_by, index_map_len, spare};
ghost use Rattle.law_register.specs.Answer.Counted.{is_same_id};

use crate::{Drafter, Reply, Standing};
use arrayvec::ArrayVec;
use desk_base::{Id, Memory};
use frbr_names::WorkName;
use indexmap::{Equivalent, IndexMap};
use std::alloc::Global;
use std::hash::{Hash, Hasher};
use std::marker::Model;

/// The bytes of a drafter's name, as a key that takes no memory.
pub type DrafterKey = ArrayVec<u8, 32>;

/// The bytes of a work's IRI, as a key that takes no memory. No IRI of a work is longer. They are hashed in one call, and not byte by
/// byte; a work's name is looked up without a key made of it.
#[derive(Debug, Drop)]
pub struct WorkKey {
    bytes: ArrayVec<u8, 162>,
}

impl Model for WorkKey {
    ghost use Rattle.std.specs.Prelude.{ℕ};
    ghost use Rattle.arrayvec.specs.declared.array_vec.ArrayVec.{ArrayVec};

    ghost Value = { ArrayVec ℕ 162 (Unit {0}) };

    ghost view = { λ k. k.bytes };
}

impl PartialEq for WorkKey {
    ghost eq = { λ k l. pointwise ◌==◌ k.items l.items };

    ghost laws = { Prim.search (comparing, rules) };

    fn eq(&self, other: &WorkKey) -> bool {
        self.bytes == other.bytes
    }
}

impl Eq for WorkKey {
    ghost laws = { Prim.search (comparing, rules) };
}

impl Hash for WorkKey {
    ghost hash_input = { λ k. fed.str k.items };

    ghost respects_eq = { Prim.search (hashing, rules) };

    fn hash<H: Hasher>(&self, state: &mut H) {
        state.write(self.bytes.as_slice());
        state.write_u8(0xff);
    }
}

impl Equivalent<WorkKey> for &WorkName {
    ghost equivalent = { λ work key. bytes_eq work.now key.items };

    ghost respects_hash = { λ work key h. ap fed.str ((bytes_decides work.now key.items).0 h) };

    ghost respects_eq = { λ work k l. nat_list_eq_equiv.congr work.now k.items l.items };

    fn equivalent(&self, key: &WorkKey) -> bool {
        self.as_str().as_bytes() == key.bytes.as_slice()
    }
}

/// A request of a drafter.
#[derive(Debug, PartialEq, Eq, Hash, Drop)]
pub struct RequestKey {
    /// The drafter.
    pub drafter: DrafterKey,
    /// The number that the drafter gave it.
    pub request: u64,
}

/// The entry of a request, and the reply that it got.
#[derive(Clone, Copy, Debug)]
pub struct RequestMark {
    /// The index of the entry.
    pub entry: usize,
    /// The reply.
    pub reply: Reply,
}

/// An item of a draft.
#[derive(Clone, Copy, Debug, Default)]
pub struct ItemMark {
    /// Its number.
    pub item: u32,
    /// The index of the entry that added it.
    pub entry: usize,
}

/// The items of a draft, in order.
pub type ItemMarks = ArrayVec<ItemMark, 64>;

/// What a drafter has added.
#[derive(Debug, Drop)]
pub struct DrafterMark {
    /// How many items.
    pub added: u32,
    /// Those that are in the draft.
    pub items: ItemMarks,
}

/// An act that is enacted.
#[derive(Clone, Copy, Debug)]
pub struct EnactedMark {
    /// The index of the entry that enacts it.
    pub entry: usize,
    /// The number of that law entry.
    pub number: u32,
}

/// What concerns a work.
#[derive(Clone, Copy, Debug)]
pub struct WorkMark {
    /// Its act. `None`: no law entry enacts it.
    pub enacted: Option<EnactedMark>,
    /// The number of the last law entry that concerns it, or 0.
    pub last: u32,
    /// How many ids it has.
    pub ids: u32,
}

/// Where a modification is brought.
#[derive(Clone, Copy, Debug, Default)]
pub struct BodyMark {
    /// The index of the entry that brings it.
    pub entry: usize,
    /// Its place in a record, from 0; 0 in any other command.
    pub place: usize,
}

/// What is known of an id.
#[derive(Clone, Copy, Debug)]
pub struct IdMark {
    /// The index of the entry that recorded it, which names its work.
    pub recorded: usize,
    /// The index of the entry that brings what it says.
    pub entry: usize,
    /// The place of that in a record, from 0; 0 in any other command.
    pub place: usize,
    /// Whether it stands, or which law entry withdrew it.
    pub standing: Standing,
}

/// A law entry, as a step among those that concern its work.
#[derive(Clone, Copy, Debug)]
pub struct StepMark {
    /// The index of the entry.
    pub entry: usize,
    /// Where the modifications that it records start, among those that all law entries record.
    pub first: usize,
    /// Where they end.
    pub until: usize,
    /// The number of the last law entry before it that concerns the same work, or 0.
    pub before: u32,
}

/// The entries of all requests.
pub type Requests = IndexMap<RequestKey, RequestMark>;

/// What all drafters have added.
pub type Drafters = IndexMap<DrafterKey, DrafterMark>;

/// What concerns all works.
pub type Works = IndexMap<WorkKey, WorkMark>;

/// What is known of all ids.
pub type KnownIds = IndexMap<Id, IdMark>;

/// What is looked up of the entries.
#[derive(Debug, Drop)]
pub struct Indexes {
    /// The entries of all requests.
    pub requests: Requests,
    /// What all drafters have added.
    pub drafters: Drafters,
    /// What concerns all works.
    pub works: Works,
    /// What is known of all ids.
    pub ids: KnownIds,
    /// All law entries, in order.
    pub steps: Vec<StepMark>,
    /// The modifications that all law entries record, in order.
    pub bodies: Vec<BodyMark>,
    /// The indexes of the entries that enact, in order.
    pub acts: Vec<usize>,
    /// How many law entries there are.
    pub front: u32,
    /// How many bytes all entries take.
    pub size: u64,
}

/// The key of a drafter.
pub fn drafter_key(drafter: &Drafter) -> DrafterKey
    ensures { result.items ≡ drafter.now }
{
    drafter.key()
}

// The name of a work fits in a key.
fn fits_in_a_key(work: &WorkName)
    ensures { length work.now ≤ 162 }
{
    let _ = work.date();
}

/// The key of a work.
pub fn work_key(work: &WorkName) -> WorkKey
    ensures { result.items ≡ work.now }
{
    fits_in_a_key(work);
    let mut bytes = ArrayVec::new();
    let _ = bytes.try_extend_from_slice(work.as_str().as_bytes());
    WorkKey { bytes }
}

impl Indexes {
    ghost use Rattle.law_register.specs.Register.Indexes.{request_mark, drafter_mark, work_mark, id_mark, StandFor};
    ghost use Rattle.law_register.specs.Register.Registers.{index_room, IsSame, HasRoomOf};
    ghost use Rattle.std.specs.Prelude.{OnOk};

    /// The indexes of no entries. They take no memory.
    pub fn new(alloc: Global) -> Indexes
        ensures { StandFor result [] }
    {
        Indexes {
            requests: IndexMap::new(alloc),
            drafters: IndexMap::new(alloc),
            works: IndexMap::new(alloc),
            ids: IndexMap::new(alloc),
            steps: Vec::new(alloc),
            bodies: Vec::new(alloc),
            acts: Vec::new(alloc),
            front: 0,
            size: 0,
        }
    }

    /// Makes room for one more entry, whichever it is.
    pub fn reserve(&mut self) -> Result<(), Memory>
        ensures same { IsSame self.old self.new }
        ensures kept { HasRoomOf self.old self.new }
        ensures room { OnOk result (1 ≤ index_room self.new) }
    {
        self.requests.reserve(1)?;
        self.drafters.reserve(2)?;
        self.works.reserve(1)?;
        self.ids.reserve(64)?;
        self.steps.reserve(1)?;
        self.bodies.reserve(64)?;
        self.acts.reserve(1)?;
        Ok(())
    }

    /// The mark of a request.
    pub fn request(&self, drafter: &Drafter, request: u64) -> Option<RequestMark>
        ensures { result ≡ request_mark self.now drafter.now request }
    {
        let key = RequestKey {
            drafter: drafter_key(drafter),
            request,
        };
        self.requests.get(&key).copied()
    }

    /// The mark of a drafter.
    pub fn drafter(&self, drafter: &Drafter) -> Option<&DrafterMark>
        ensures { option_map (λ m. m.now) result ≡ drafter_mark self.now drafter.now }
    {
        self.drafters.get(&drafter_key(drafter))
    }

    /// The mark of a work.
    pub fn work(&self, work: &WorkName) -> Option<WorkMark>
        ensures { result ≡ work_mark self.now work.now }
    {
        self.works.get(work).copied()
    }

    /// The mark of an id.
    pub fn id(&self, id: Id) -> Option<IdMark>
        ensures { result ≡ id_mark self.now id }
    {
        self.ids.get(&id).copied()
    }
}
