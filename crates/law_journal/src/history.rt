//! History: bytes in memory with all that was done to them. A clause sees the bytes, those as last synced, the changes
//! since then, and each change so far with the bytes from before it.

ghost use Rattle.std.specs.Prelude.{◌≡◌, ◌≤◌, ◌<◌, ◌+◌, ◌-◌, ◌^◌, ◌++◌, ◌∷◌, [], ◌==◌, length, take, replicate, vec_capacity, IfOk};
ghost use Rattle.law_journal.specs.Disks.{overwritten};
ghost use Rattle.law_journal.specs.MemoryDisks as spec;
ghost use Rattle.law_journal.specs.declared.history.Change.TheVariants as change;

use desk_base::Memory;
use std::alloc::{AllocError, Global};
use std::marker::Model;

/// What was done to the bytes.
#[derive(Clone, Copy, Debug, PartialEq, Eq)]
pub enum Change {
    /// So many bytes from a place on were written.
    Write(usize, usize),
    /// The bytes were cut to a length.
    Cut(usize),
    /// The bytes were synced.
    Sync,
}

/// Bytes and their changes, with room for so many changes and so many bytes in all that are written.
#[derive(Debug, Drop)]
pub struct History {
    /// The bytes before the first change.
    first: Vec<u8>,
    bytes: Vec<u8>,
    /// The bytes as last synced.
    synced: Vec<u8>,
    /// What was written, one write behind the other.
    written: Vec<u8>,
    changes: Vec<Change>,
    /// How many of the changes came before the last sync or are it.
    settled: usize,
    room: usize,
    left: usize,
}

impl Model for History {
    ghost use Rattle.std.specs.Prelude.{◌≡◌, ◌≤◌, ◌+◌, length, drop, true, vec_capacity};
    ghost use Rattle.law_journal.specs.MemoryDisks.{HeldBytes, all_within, begun, held, total, with_room};

    ghost Value = { HeldBytes };

    ghost view = { λ h. with_room h.room h.left (held h.first.items h.written.items h.changes.items) };

    ghost invariant = { λ h.
        ((held h.first.items h.written.items h.changes.items).bytes ≡ h.bytes.items)
        × ((held h.first.items h.written.items h.changes.items).synced ≡ h.synced.items)
        × ((held h.first.items h.written.items h.changes.items).waiting ≡ drop h.settled h.changes.items)
        × (all_within (begun h.first.items 0 0) h.written.items h.changes.items ≡ true)
        × (total h.changes.items ≡ length h.written.items)
        × (h.settled ≤ length h.changes.items)
        × (length h.bytes.items + h.room ≤ vec_capacity h.bytes)
        × (length h.bytes.items + h.room ≤ vec_capacity h.synced)
        × (length h.written.items + h.room ≤ vec_capacity h.written)
        × (length h.changes.items + h.left ≤ vec_capacity h.changes) };
}

// Puts bytes behind those that are there, for which there is room.
fn put_behind(bytes: &mut Vec<u8>, new: &[u8])
    requires { length bytes.old.items + length new.now ≤ vec_capacity bytes.old }
    ensures items { bytes.new.items ≡ bytes.old.items ++ new.now }
    ensures room { vec_capacity bytes.old ≤ vec_capacity bytes.new }
{
    match bytes.extend_from_slice(new) {
        Ok(()) => {}
        Err(_) => unreachable!(),
    }
}

// Notes a change, for which there is room.
fn note(changes: &mut Vec<Change>, change: Change)
    requires { length changes.old.items + 1 ≤ vec_capacity changes.old }
    ensures items { changes.new.items ≡ changes.old.items ++ change ∷ [] }
    ensures room { vec_capacity changes.old ≤ vec_capacity changes.new }
{
    match changes.push(change) {
        Ok(()) => {}
        Err(_) => unreachable!(),
    }
}

// Writes bytes over those that are there, and past their end, for which there is room.
fn overwrite(bytes: &mut Vec<u8>, place: usize, new: &[u8])
    requires place { place ≤ length bytes.old.items }
    requires room { place + length new.now ≤ vec_capacity bytes.old }
    ensures items { bytes.new.items ≡ overwritten place new.now bytes.old.items }
    ensures room { vec_capacity bytes.old ≤ vec_capacity bytes.new }
{
    if new.len() <= bytes.len() - place {
        bytes[place..place + new.len()].copy_from_slice(new);
    } else {
        bytes.truncate(place);
        put_behind(bytes, new);
    }
}

// Turns so many bytes from a place on, as many as there are, into `pick`.
fn paint(bytes: &mut [u8], place: usize, count: usize, pick: u8)
    ensures { bytes.new ≡ spec.painted pick place count bytes.old }
{
    let start = place.min(bytes.len());
    let end = start + count.min(bytes.len() - start);
    bytes[start..end].fill(pick);
}

// Turns each byte that one of the changes wrote into `pick`.
fn paint_all(bytes: &mut [u8], changes: &[Change], pick: u8)
    ensures { bytes.new ≡ spec.painted_all pick changes.now bytes.old }
{
    let mut left = changes;
    while let [change, rest @ ..] = left {
        if let Change::Write(place, count) = change {
            paint(bytes, *place, *count, pick);
        }
        left = rest;
    }
}

// The synced bytes for 0, those of now for 1, and for any other value those of now with what waits turned into it.
fn picked(
    alloc: Global,
    pick: u8,
    synced: &[u8],
    now: &[u8],
    waiting: &[Change],
) -> Result<Vec<u8>, AllocError>
    ensures { IfOk result (λ image. image.items ≡ spec.picked pick synced.now now.now waiting.now) }
{
    if pick == 0 {
        return synced.to_vec(alloc);
    }
    let mut image = now.to_vec(alloc)?;
    if pick != 1 {
        paint_all(&mut image, waiting, pick);
    }
    Ok(image)
}

impl History {
    /// Bytes that are synced, before the first change. It takes all its memory here.
    pub fn new(alloc: Global, bytes: Vec<u8>, room: usize, left: usize) -> Result<History, Memory>
        ensures { IfOk result (λ history. history ≡ spec.begun bytes.items room left) }
    {
        let Some(most) = bytes.len().checked_add(room) else {
            return Err(Memory);
        };
        let mut now = Vec::with_capacity(alloc, most)?;
        now.extend_from_slice(&bytes)?;
        let mut synced = Vec::with_capacity(alloc, most)?;
        synced.extend_from_slice(&bytes)?;
        Ok(History {
            first: bytes,
            bytes: now,
            synced,
            written: Vec::with_capacity(alloc, room)?,
            changes: Vec::with_capacity(alloc, left)?,
            settled: 0,
            room,
            left,
        })
    }

    /// The bytes.
    pub fn bytes(&self) -> &[u8]
        ensures { result.now ≡ self.now.bytes }
    {
        &self.bytes
    }

    /// How many bytes can still be written.
    pub fn room(&self) -> usize
        ensures { result ≡ self.now.room }
    {
        self.room
    }

    /// How many changes can still be made.
    pub fn left(&self) -> usize
        ensures { result ≡ self.now.left }
    {
        self.left
    }

    /// Writes bytes over those that are there, and past their end.
    pub fn write(&mut self, place: usize, new: &[u8])
        requires place { place ≤ length self.old.bytes }
        requires room { length new.now ≤ self.old.room }
        requires left { 1 ≤ self.old.left }
        ensures held { self.new ≡ spec.after_write place new.now self.old }
        ensures bound { place + length new.now < 2 ^ 63 }
    {
        overwrite(&mut self.bytes, place, new);
        put_behind(&mut self.written, new);
        note(&mut self.changes, Change::Write(place, new.len()));
        self.room -= new.len();
        self.left -= 1;
    }

    /// Cuts the bytes to a length.
    pub fn cut(&mut self, len: usize)
        requires { 1 ≤ self.old.left }
        ensures { self.new ≡ spec.after_cut len self.old }
    {
        self.bytes.truncate(len);
        note(&mut self.changes, Change::Cut(len));
        self.left -= 1;
    }

    /// Syncs the bytes.
    pub fn sync(&mut self)
        requires { 1 ≤ self.old.left }
        ensures { self.new ≡ spec.after_sync self.old }
    {
        self.synced.truncate(0);
        put_behind(&mut self.synced, &self.bytes);
        note(&mut self.changes, Change::Sync);
        self.settled = self.changes.len();
        self.left -= 1;
    }

    /// An image that a crash may leave: for 0 the bytes as last synced, for 1 the bytes, for any other value the bytes
    /// with each one written since the last sync turned into it.
    pub fn image(&self, alloc: Global, pick: u8) -> Result<Vec<u8>, Memory>
        ensures picked { IfOk result (λ image. image.items ≡ spec.image_of pick self.now) }
        ensures left { IfOk result (λ image. (spec.outlook_of self.now.bytes self.now.pasts).may_leave image.items) }
    {
        let waiting = &self.changes[self.settled..];
        let image = picked(alloc, pick, &self.synced, &self.bytes, waiting)?;
        Ok(image)
    }
}
