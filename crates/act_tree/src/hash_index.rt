//! Hash index: which numbers have which hash, so that who seeks a level or a wId visits only the numbers that share its
//! bucket, from the latest to the first. A clause sees the hash of each number, how many buckets there are (`width`), and
//! for how many more numbers there is room. An own index is written to; a kept one shares pieces of its lists with others.

ghost use Rattle.std.specs.Prelude.{◌≡◌, true, false, ◌+◌, ◌<◌, ◌≤◌, ◌^◌, [], ◌∷◌, ◌++◌, length, replicate, slice_index, slice_set, IfOk, OnOk};
ghost use Rattle.std.specs.Option.{ForSome};
ghost use Rattle.act_tree.specs.KeptLists.{with_list};
ghost use Rattle.act_tree.specs.HashIndex.{bucket_of, buckets, latest, last_in, previous_in, IsLinked, IsNext, led_by, heads_led, links_led, heads_moved, links_moved};

use crate::kept_list::KeptList;
use desk_base::Memory;
use std::alloc::{AllocError, Global};
use std::marker::Model;

/// Numbers in a list whose pieces can be shared.
pub type Words = KeptList<u32, 32>;

/// Which numbers have which hash, in chains by bucket.
#[derive(Debug, Drop)]
pub struct HashIndex {
    // The hash of each number.
    hashes: Words,
    // Of each bucket one past its last number, or 0.
    heads: Words,
    // Of each number one past the last before it in its bucket, or 0.
    before: Words,
}

impl Model for HashIndex {
    ghost use Rattle.std.specs.Prelude.{min, length, ◌-◌};
    ghost use Rattle.act_tree.specs.HashIndex.{IndexValue, AreIndex};

    ghost Value = { IndexValue };

    ghost view = { λ a. record {
      hashes = a.hashes.items;
      width = length a.heads.items;
      room = min (length a.heads.items - length a.hashes.items) (min a.hashes.room a.before.room);
      is_own = a.hashes.is_own;
    } };

    ghost invariant = { λ a. AreIndex a.hashes a.heads a.before };
}

// The bucket of a hash, of so many.
fn bucket_of(hash: u32, width: usize) -> usize
    requires { 0 < width }
    ensures value { result ≡ bucket_of width hash }
    ensures within { result < width }
{
    hash as usize % width
}

// Leaves all buckets with no number.
fn empty(heads: &mut [u32])
    ensures { heads.new ≡ replicate (length heads.old) 0 }
{
    heads.fill(0);
}

// Links all numbers by their hashes.
fn link_all(hashes: &[u32], heads: &mut [u32], before: &mut [u32])
    requires some { 0 < length heads.old }
    requires links { length before.old ≡ length hashes.now }
    requires fits { length hashes.now < 2 ^ 32 }
    ensures { IsLinked (length heads.old) (buckets (length heads.old) hashes.now) heads.new before.new
        (length hashes.now) }
{
    empty(heads);
    for number in 0..hashes.len() {
        let bucket = bucket_of(hashes[number], heads.len());
        before[number] = heads[bucket];
        heads[bucket] = number as u32 + 1;
    }
}

// Lets what leads to the numbers of a bucket, the link of the one right behind them or the head where there is none,
// lead elsewhere. To which one it led.
fn lead(heads: &mut Words, before: &mut Words, bucket: usize, next: Option<usize>, to: u32) -> u32
    requires own_heads { heads.old.is_own ≡ true }
    requires own_links { before.old.is_own ≡ true }
    requires bucket { bucket < length heads.old.items }
    requires next { ForSome next (λ k. k < length before.old.items) }
    ensures was { result ≡ led_by next heads.old.items before.old.items bucket }
    ensures heads { heads.new ≡ with_list heads.old (heads_led next heads.old.items bucket to) }
    ensures links { before.new ≡ with_list before.old (links_led next before.old.items to) }
{
    match next {
        Some(number) => {
            let was = before[number];
            *before.at_mut(number) = to;
            was
        }
        None => {
            let was = heads[bucket];
            *heads.at_mut(bucket) = to;
            was
        }
    }
}

// Takes a number out of the chain of a bucket and puts it into another one, where these are right behind it in each.
fn move_over(
    heads: &mut Words,
    before: &mut Words,
    number: usize,
    from: usize,
    out: Option<usize>,
    to: usize,
    into: Option<usize>,
)
    requires own_heads { heads.old.is_own ≡ true }
    requires own_links { before.old.is_own ≡ true }
    requires number { number < length before.old.items }
    requires fits { number + 1 < 2 ^ 32 }
    requires from { from < length heads.old.items }
    requires out { ForSome out (λ k. k < length before.old.items) }
    requires to { to < length heads.old.items }
    requires into { ForSome into (λ k. k < length before.old.items) }
    ensures heads { heads.new ≡ with_list heads.old (heads_moved heads.old.items before.old.items number from out to into) }
    ensures links { before.new ≡ with_list before.old (links_moved heads.old.items before.old.items number from out to into) }
{
    let behind = before[number];
    lead(heads, before, from, out, behind);
    let was = lead(heads, before, to, into, number as u32 + 1);
    *before.at_mut(number) = was;
}

impl HashIndex {
    /// No numbers, own. It takes no memory.
    pub fn new(alloc: Global) -> HashIndex
        ensures hashes { result.hashes ≡ [] }
        ensures own { result.is_own ≡ true }
    {
        HashIndex {
            hashes: KeptList::new(alloc),
            heads: KeptList::new(alloc),
            before: KeptList::new(alloc),
        }
    }

    /// The same index, own.
    #[tactic(auto, using(crate::proofs::OwnIndexes::are_too))]
    pub fn own_copy(&self, alloc: Global) -> Result<HashIndex, Memory>
        ensures hashes { IfOk result (λ index. index.hashes ≡ self.now.hashes) }
        ensures own { IfOk result (λ index. index.is_own ≡ true) }
    {
        Ok(HashIndex {
            hashes: self.hashes.own_copy(alloc)?,
            heads: self.heads.own_copy(alloc)?,
            before: self.before.own_copy(alloc)?,
        })
    }

    /// The same index, kept. What was not written since it was kept last is shared.
    #[tactic(auto, using(crate::proofs::OwnIndexes::are_too))]
    pub fn keep(&mut self, alloc: Global) -> Result<HashIndex, Memory>
        ensures same { self.new ≡ self.old }
        ensures hashes { IfOk result (λ index. index.hashes ≡ self.old.hashes) }
        ensures kept { IfOk result (λ index. index.is_own ≡ false) }
    {
        Ok(HashIndex {
            hashes: self.hashes.keep(alloc)?,
            heads: self.heads.keep(alloc)?,
            before: self.before.keep(alloc)?,
        })
    }

    // Makes the table wider where it has no more buckets than numbers.
    #[tactic(auto, using(crate::proofs::OwnIndexes::hashes_own, crate::proofs::OwnIndexes::heads_own, crate::proofs::OwnIndexes::links_own, crate::proofs::OwnIndexes::are_too, crate::proofs::Pieces::refilled))]
    fn widen(&mut self) -> Result<(), AllocError>
        requires { self.old.is_own ≡ true }
        ensures own { self.new.is_own ≡ true }
        ensures hashes { self.new.hashes ≡ self.old.hashes }
        ensures kept { self.old.room ≤ self.new.room }
        ensures wide { OnOk result (length self.new.hashes < self.new.width) }
    {
        let width = 2 * self.hashes.len() + 16;
        if self.hashes.len() < self.heads.len() {
            return Ok(());
        }
        if width > u32::MAX as usize {
            return Err(AllocError);
        }
        self.heads.resize(width, 0)?;
        link_all(
            self.hashes.as_own(),
            self.heads.as_own_mut(),
            self.before.as_own_mut(),
        );
        Ok(())
    }

    /// Makes room for one more number. `Err`: there was not enough memory, or there are more than 2^31 - 9 numbers.
    /// Whatever comes of it, there is room for no fewer than before.
    #[tactic(auto, using(crate::proofs::OwnIndexes::hashes_own, crate::proofs::OwnIndexes::links_own, crate::proofs::OwnIndexes::are_too))]
    pub fn reserve(&mut self) -> Result<(), AllocError>
        requires { self.old.is_own ≡ true }
        ensures own { self.new.is_own ≡ true }
        ensures hashes { self.new.hashes ≡ self.old.hashes }
        ensures kept { self.old.room ≤ self.new.room }
        ensures room { OnOk result (1 ≤ self.new.room) }
    {
        self.widen()?;
        self.hashes.reserve()?;
        self.before.reserve()?;
        Ok(())
    }

    /// Adds the next number, which has this hash. It takes no memory.
    #[tactic(auto, using(crate::proofs::OwnIndexes::hashes_own, crate::proofs::OwnIndexes::heads_own, crate::proofs::OwnIndexes::links_own, crate::proofs::OwnIndexes::hashes_room, crate::proofs::OwnIndexes::links_room))]
    pub fn add(&mut self, hash: u32)
        requires room { 1 ≤ self.old.room }
        requires own { self.old.is_own ≡ true }
        ensures own { self.new.is_own ≡ true }
        ensures hashes { self.new.hashes ≡ self.old.hashes ++ hash ∷ [] }
        ensures room { self.old.room ≤ self.new.room + 1 }
    {
        let number = self.hashes.len();
        let bucket = bucket_of(hash, self.heads.len());
        let last = self.heads[bucket];
        self.before.push_reserved(last);
        *self.heads.at_mut(bucket) = number as u32 + 1;
        self.hashes.push_reserved(hash);
    }

    // One past the last number of a bucket, or 0 where none is.
    fn head(&self, bucket: usize) -> usize
        requires { bucket < self.now.width }
        ensures value { result ≡ latest (buckets self.now.width self.now.hashes) (length self.now.hashes) bucket }
        ensures within { result ≤ length self.now.hashes }
    {
        self.heads[bucket] as usize
    }

    /// One past the last number that shares the bucket of a hash, or 0 where none does.
    pub fn last(&self, hash: u32) -> usize
        ensures value { result ≡ last_in self.now hash }
        ensures within { result ≤ length self.now.hashes }
    {
        let width = self.heads.len();
        if width == 0 {
            return 0;
        }
        self.head(bucket_of(hash, width))
    }

    /// One past the last number before one that shares its bucket, or 0 where none does.
    pub fn previous(&self, number: usize) -> usize
        requires { number < length self.now.hashes }
        ensures value { result ≡ previous_in self.now number }
        ensures within { result ≤ number }
    {
        self.before[number] as usize
    }

    // The first number of a bucket behind a number. `None`: there is none.
    fn next_in(&self, bucket: usize, number: usize) -> Option<usize>
        requires bucket { bucket < self.now.width }
        requires number { number < length self.now.hashes }
        ensures next { IsNext (buckets self.now.width self.now.hashes) (length self.now.hashes) bucket number result }
        ensures within { ForSome result (λ k. k < length self.now.hashes) }
    {
        let last = self.head(bucket);
        if last.saturating_sub(1) <= number {
            return None;
        }
        let mut next = last - 1;
        let mut end = self.previous(next);
        while end > number + 1 {
            next = end - 1;
            end = self.previous(next);
        }
        Some(next)
    }

    /// Gives a number another hash. It takes no memory.
    #[tactic(auto, using(crate::proofs::OwnIndexes::hashes_own, crate::proofs::OwnIndexes::heads_own, crate::proofs::OwnIndexes::links_own))]
    pub fn set(&mut self, number: usize, hash: u32)
        requires within { number < length self.old.hashes }
        requires own { self.old.is_own ≡ true }
        ensures own { self.new.is_own ≡ true }
        ensures hashes { self.new.hashes ≡ slice_set self.old.hashes number hash }
        ensures room { self.new.room ≡ self.old.room }
    {
        let width = self.heads.len();
        let from = bucket_of(self.hashes[number], width);
        let to = bucket_of(hash, width);
        if from == to {
            *self.hashes.at_mut(number) = hash;
            return;
        }
        let out = self.next_in(from, number);
        let into = self.next_in(to, number);
        move_over(
            &mut self.heads,
            &mut self.before,
            number,
            from,
            out,
            to,
            into,
        );
        *self.hashes.at_mut(number) = hash;
    }
}
