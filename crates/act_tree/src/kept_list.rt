//! Kept lists: an own list lies in one piece and is written to; a kept one lies in pieces of so many values, which other
//! lists share, and the pieces in blocks that are shared, too. What is kept of an own list is made of pieces that were made
//! before wherever nothing was written since, so that each time only what was written takes memory, and a count for each
//! block. A clause sees the values, whether the list is own, and for how many more values there is room.

ghost use Rattle.std.specs.Prelude.{◌≡◌, ℕ, ◌+◌, ◌-◌, ◌*◌, ◌<◌, ◌≤◌, [], ◌∷◌, ◌++◌, true, false, length, get_or, replicate, slice_index_or, slice_set, IfOk, OnOk, OnErr};
ghost use Rattle.std.specs.Borrow.{sem};
ghost use Rattle.std.specs.Slice.{IsItemAt};
ghost use Rattle.act_tree.specs.KeptLists.{piece, IsNoted, AreFresh, ArePieces};

use crate::copied::{Copied, copies};
use crate::piece::Piece;
use crate::piece_list::PieceList;
use desk_base::Memory;
use std::alloc::{AllocError, Global};
use std::marker::Model;
use std::ops::Index;

/// Values in order, own or kept. An own list is written to; a kept one shares pieces of `SIZE` values with others.
#[derive(Debug, Drop)]
pub struct KeptList<T, const SIZE: usize> {
    // The values of an own list; a kept one has none here.
    own: Vec<T>,
    // The pieces of a kept list; of an own one those that were made when it was kept last.
    pieces: PieceList<T>,
    // Of each piece of an own list, whether one of its values was written since it was made.
    written: Vec<bool>,
    // How many values a kept list has.
    count: usize,
    is_own: bool,
}

impl<T, const SIZE: usize> Model for KeptList<T, SIZE> {
    ghost use Rattle.std.specs.Prelude.{◌-◌, vec_len, vec_capacity};
    ghost use Rattle.act_tree.specs.KeptLists.{ListValue, list_code, values_in, room_in, IsList};

    ghost Value = { ListValue T };

    ghost coded = { list_code T.code };

    ghost view = { λ a. record {
      items = values_in a.is_own a.own.items a.pieces;
      is_own = a.is_own;
      room = room_in a.is_own (vec_capacity a.own - vec_len a.own);
    } };

    ghost invariant = { λ a. IsList SIZE a.is_own a.own.items a.pieces a.written.items a.count };
}

// Notes that a value of a piece was written.
fn note(written: &mut Vec<bool>, piece: usize)
    ensures { written.new.items ≡ slice_set written.old.items piece true }
{
    if piece < written.len() {
        written[piece] = true;
    }
}

// How many pieces so many values make.
fn pieces_for(count: usize, size: usize) -> usize
    requires { 0 < size }
    ensures low { (k : ℕ) → k < result → k * size < count }
    ensures enough { count ≤ result * size }
{
    count.div_ceil(size)
}

// The piece of a place among pieces, made anew.
fn piece_of<T: Copied>(
    alloc: Global,
    items: &[T],
    size: usize,
    place: usize,
) -> Result<Piece<T>, Memory>
    requires { place * size < length items.now }
    ensures { IfOk result (λ p. p ≡ piece size items.now place) }
{
    let rest = &items[place * size..];
    let part = &rest[..size.min(rest.len())];
    Piece::new(alloc, copies(alloc, part, 0)?)
}

// Makes a piece anew that is there.
#[tactic(auto, using(crate::proofs::Pieces::noted_set, crate::proofs::Pieces::fresh_set))]
fn remake<T: Copied>(
    alloc: Global,
    items: &[T],
    size: usize,
    pieces: &mut PieceList<T>,
    written: &mut Vec<bool>,
    place: usize,
) -> Result<(), Memory>
    requires within { place * size < length items.now }
    requires there { place < length pieces.old }
    requires noted { IsNoted size items.now pieces.old written.old.items }
    requires fresh { AreFresh place pieces.old written.old.items }
    ensures noted { IsNoted size items.now pieces.new written.new.items }
    ensures fresh { OnOk result (AreFresh (place + 1) pieces.new written.new.items) }
{
    let made = piece_of(alloc, items, size, place)?;
    pieces.set(alloc, place, made)?;
    written[place] = false;
    Ok(())
}

// Makes the next piece.
#[tactic(auto, using(crate::proofs::Pieces::noted_next, crate::proofs::Pieces::fresh_next, crate::proofs::Pieces::noted_same))]
fn make_next<T: Copied>(
    alloc: Global,
    items: &[T],
    size: usize,
    pieces: &mut PieceList<T>,
    written: &mut Vec<bool>,
    place: usize,
) -> Result<(), Memory>
    requires within { place * size < length items.now }
    requires next { place ≡ length pieces.old }
    requires noted { IsNoted size items.now pieces.old written.old.items }
    requires fresh { AreFresh place pieces.old written.old.items }
    ensures noted { IsNoted size items.now pieces.new written.new.items }
    ensures fresh { OnOk result (AreFresh (place + 1) pieces.new written.new.items) }
{
    let made = piece_of(alloc, items, size, place)?;
    written.reserve(1)?;
    pieces.push(alloc, made)?;
    written.push_reserved(false);
    Ok(())
}

// Makes the piece of a place, where it is not there yet or something was written.
#[tactic(auto, using(crate::proofs::Pieces::fresh_more, crate::proofs::Pieces::is_next))]
fn renew_one<T: Copied>(
    alloc: Global,
    items: &[T],
    size: usize,
    pieces: &mut PieceList<T>,
    written: &mut Vec<bool>,
    place: usize,
) -> Result<(), Memory>
    requires within { place * size < length items.now }
    requires noted { IsNoted size items.now pieces.old written.old.items }
    requires fresh { AreFresh place pieces.old written.old.items }
    ensures noted { IsNoted size items.now pieces.new written.new.items }
    ensures fresh { OnOk result (AreFresh (place + 1) pieces.new written.new.items) }
{
    if place >= written.len() {
        return make_next(alloc, items, size, pieces, written, place);
    }
    if written[place] {
        return remake(alloc, items, size, pieces, written, place);
    }
    Ok(())
}

// Makes the pieces anew that are not there yet, and those of which something was written.
#[tactic(auto, using(crate::proofs::Pieces::fresh_none, crate::proofs::Pieces::all_fresh))]
fn renew<T: Copied>(
    alloc: Global,
    items: &[T],
    size: usize,
    pieces: &mut PieceList<T>,
    written: &mut Vec<bool>,
) -> Result<(), Memory>
    requires some { 0 < size }
    requires noted { IsNoted size items.now pieces.old written.old.items }
    ensures noted { IsNoted size items.now pieces.new written.new.items }
    ensures fresh { OnOk result (ArePieces size items.now pieces.new) }
{
    let count = pieces_for(items.len(), size);
    for place in 0..count {
        renew_one(alloc, items, size, pieces, written, place)?;
    }
    Ok(())
}

// The marks of an own list that is made of another one: those that it has, and of a kept one none for each piece.
#[tactic(auto, using(crate::proofs::Pieces::none_marked))]
fn marks_of(
    alloc: Global,
    is_own: bool,
    written: &[bool],
    count: usize,
) -> Result<Vec<bool>, Memory>
    requires { is_own ≡ false → written.now ≡ [] }
    ensures own { IfOk result (λ marks. is_own ≡ true → length marks.items ≡ length written.now) }
    ensures kept { IfOk result (λ marks. is_own ≡ false → length marks.items ≡ count) }
    ensures alike { IfOk result (λ marks. (k : ℕ) → get_or marks.items k false ≡ get_or written.now k false) }
{
    if is_own {
        return Ok(Vec::from_slice(alloc, written)?);
    }
    Ok(Vec::from_elem(alloc, false, count)?)
}

impl<T, const SIZE: usize> KeptList<T, SIZE> {
    ghost use Rattle.act_tree.specs.LendsItem.{lends_value};

    /// No values, own. It takes no memory.
    pub fn new(alloc: Global) -> Self
        requires { 0 < SIZE }
        ensures items { result.items ≡ [] }
        ensures own { result.is_own ≡ true }
    {
        KeptList {
            own: Vec::new(alloc),
            pieces: PieceList::new(alloc),
            written: Vec::new(alloc),
            count: 0,
            is_own: true,
        }
    }

    /// Whether the list is own.
    pub fn is_own(&self) -> bool
        ensures { result ≡ self.now.is_own }
    {
        self.is_own
    }

    /// How many values there are.
    #[tactic(auto, using(crate::proofs::Pieces::how_many, crate::proofs::Pieces::own_many))]
    pub fn len(&self) -> usize
        ensures { result ≡ length self.now.items }
    {
        if self.is_own {
            self.own.len()
        } else {
            self.count
        }
    }

    /// The value at a place, if there is one.
    pub fn get(&self, place: usize) -> Option<&T>
        ensures lookup { IsItemAt self.now.items place result }
    {
        if place < self.len() {
            Some(&self[place])
        } else {
            None
        }
    }

    // The value at a place of a kept list.
    #[tactic(auto, using(crate::proofs::Pieces::kept_place, crate::proofs::Pieces::kept_rest, crate::proofs::Pieces::kept_value))]
    fn in_pieces(&self, place: usize) -> &T
        requires kept { self.now.is_own ≡ false }
        requires within { place < length self.now.items }
        ensures { result.now ≡ slice_index_or self.now.items place result.now }
    {
        let piece = self.pieces[place / SIZE].as_slice();
        &piece[place % SIZE]
    }

    /// Makes room for one more value in an own list. Whatever comes of it, there is room for no fewer than before.
    #[tactic(auto, using(crate::proofs::Pieces::same_values, crate::proofs::Pieces::more_room, crate::proofs::Pieces::same_own))]
    pub fn reserve(&mut self) -> Result<(), AllocError>
        requires { self.old.is_own ≡ true }
        ensures items { self.new.items ≡ self.old.items }
        ensures own { self.new.is_own ≡ true }
        ensures kept { self.old.room ≤ self.new.room }
        ensures room { OnOk result (1 ≤ self.new.room) }
    {
        self.own.reserve(1)
    }

    /// The values of an own list.
    #[tactic(auto, using(crate::proofs::Pieces::own_values))]
    pub fn as_own(&self) -> &[T]
        requires { self.now.is_own ≡ true }
        ensures { result.now ≡ self.now.items }
    {
        self.own.as_slice()
    }

    /// The value at a place of an own list, for writing.
    #[tactic(auto, using(crate::proofs::Pieces::own_values, crate::proofs::Pieces::own_within))]
    pub fn at_mut(&mut self, place: usize) -> &mut T
        requires own { self.old.is_own ≡ true }
        requires within { place < length self.old.items }
        ensures* writes_back { sem 𝓛 (lends_value T.row SIZE.row self.entry place result) }
        ensures value { result.now ≡ slice_index_or self.old.items place result.now }
    {
        note(&mut self.written, place / SIZE);
        &mut self.own[place]
    }
}

impl<T: Drop, const SIZE: usize> KeptList<T, SIZE> {
    ghost use Rattle.act_tree.specs.LendsItem.{lends_all};

    /// The values of an own list, for writing. Then nothing is shared of it but what was shared before.
    #[tactic(auto, using(crate::proofs::Pieces::own_values, crate::proofs::Pieces::forgotten_seen))]
    pub fn as_own_mut(&mut self) -> &mut [T]
        requires { self.old.is_own ≡ true }
        ensures* writes_back { sem 𝓛 (lends_all T.row SIZE.row self.entry result) }
        ensures value { result.now ≡ self.old.items }
    {
        self.pieces.clear();
        self.written.clear();
        self.own.as_mut_slice()
    }

    /// Adds a value behind the others. It takes no memory.
    #[tactic(auto, using(crate::proofs::Pieces::own_values, crate::proofs::Pieces::own_room))]
    pub fn push_reserved(&mut self, value: T)
        requires own { self.old.is_own ≡ true }
        requires room { 1 ≤ self.old.room }
        ensures items { self.new.items ≡ self.old.items ++ value ∷ [] }
        ensures own { self.new.is_own ≡ true }
        ensures room { self.old.room ≤ self.new.room + 1 }
    {
        note(&mut self.written, self.own.len() / SIZE);
        self.own.push_reserved(value);
    }
}

impl<T: Copied, const SIZE: usize> KeptList<T, SIZE> {
    // A kept list of the same pieces.
    #[tactic(auto, using(crate::proofs::Pieces::kept_again, crate::proofs::Pieces::kept_values, crate::proofs::Pieces::same_kept))]
    fn keep_kept(&self, alloc: Global) -> Result<Self, Memory>
        requires { self.now.is_own ≡ false }
        ensures items { IfOk result (λ l. l.items ≡ self.now.items) }
        ensures kept { IfOk result (λ l. l.is_own ≡ false) }
    {
        let pieces = self.pieces.share(alloc)?;
        Ok(KeptList {
            own: Vec::new(alloc),
            pieces,
            written: Vec::new(alloc),
            count: self.count,
            is_own: false,
        })
    }

    // The same values, kept, of an own list.
    #[tactic(auto, using(crate::proofs::Pieces::noted_seen, crate::proofs::Pieces::some_of, crate::proofs::Pieces::own_again, crate::proofs::Pieces::seen_again))]
    fn keep_own(&mut self, alloc: Global) -> Result<Self, Memory>
        requires { self.old.is_own ≡ true }
        ensures same { self.new ≡ self.old }
        ensures items { IfOk result (λ l. l.items ≡ self.old.items) }
        ensures kept { IfOk result (λ l. l.is_own ≡ false) }
    {
        renew(alloc, &self.own, SIZE, &mut self.pieces, &mut self.written)?;
        let pieces = self.pieces.share(alloc)?;
        Ok(KeptList {
            own: Vec::new(alloc),
            pieces,
            written: Vec::new(alloc),
            count: self.own.len(),
            is_own: false,
        })
    }

    /// The same values, kept: those pieces are made of which something was written since the list was kept last, and the
    /// others are shared. The list itself stays as it is.
    pub fn keep(&mut self, alloc: Global) -> Result<Self, Memory>
        ensures same { self.new ≡ self.old }
        ensures items { IfOk result (λ l. l.items ≡ self.old.items) }
        ensures kept { IfOk result (λ l. l.is_own ≡ false) }
    {
        if self.is_own() {
            self.keep_own(alloc)
        } else {
            self.keep_kept(alloc)
        }
    }

    /// The same values, own. The pieces that the list was kept in last are shared.
    #[tactic(auto, using(crate::proofs::Pieces::owned_seen))]
    pub fn own_copy(&self, alloc: Global) -> Result<Self, Memory>
        ensures items { IfOk result (λ l. l.items ≡ self.now.items) }
        ensures own { IfOk result (λ l. l.is_own ≡ true) }
    {
        let own = self.values(alloc)?;
        let count = pieces_for(self.count, SIZE);
        let written = marks_of(alloc, self.is_own, &self.written, count)?;
        let pieces = self.pieces.share(alloc)?;
        Ok(KeptList {
            own,
            pieces,
            written,
            count: 0,
            is_own: true,
        })
    }

    // The values, copied.
    fn values(&self, alloc: Global) -> Result<Vec<T>, Memory>
        ensures { IfOk result (λ v. v.items ≡ self.now.items) }
    {
        if self.is_own {
            copies(alloc, &self.own, 0)
        } else {
            self.pieces.values(alloc, self.count)
        }
    }
}

impl<T: Clone, const SIZE: usize> KeptList<T, SIZE> {
    /// Makes an own list as long as that, with this value behind the others. `Err`: there was not enough memory, and nothing
    /// has changed.
    #[tactic(auto, using(crate::proofs::Pieces::own_values, crate::proofs::Pieces::forgotten_seen))]
    pub fn resize(&mut self, count: usize, value: T) -> Result<(), AllocError>
        requires own { self.old.is_own ≡ true }
        requires longer { length self.old.items ≤ count }
        ensures own { self.new.is_own ≡ true }
        ensures ok { OnOk result (length self.new.items ≡ count) }
        ensures err { OnErr result (self.new.items ≡ self.old.items) }
    {
        self.pieces.clear();
        self.written.clear();
        self.own.resize(count, value)
    }
}

impl<T, const SIZE: usize> Index<usize> for KeptList<T, SIZE> {
    type Output = T;

    ghost can_index = { λ l place. place < length l.items };

    ghost index_gives = { λ l place value. value ≡ slice_index_or l.items place value };

    #[tactic(auto, using(crate::proofs::Pieces::own_here, crate::proofs::Pieces::own_value, crate::proofs::Pieces::seen_kept))]
    fn index(&self, place: usize) -> &T {
        if self.is_own {
            &self.own[place]
        } else {
            self.in_pieces(place)
        }
    }
}
