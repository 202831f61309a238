//! Piece lists: the pieces of a list, in blocks that lists share, so that a list of the same pieces takes a count for each
//! block, and one in which a piece became another a block more. A clause sees the list of the pieces.

ghost use Rattle.std.specs.Prelude.{◌≡◌, ◌<◌, [], ◌∷◌, ◌++◌, ◌%◌, true, false, length, slice_index_or, slice_set, IfOk, OnOk, OnErr};
ghost use Rattle.act_tree.specs.KeptLists.{joined_pieces};

use crate::copied::{Copied, copies};
use crate::piece::Piece;
use desk_base::Memory;
use std::alloc::Global;
use std::marker::Model;
use std::ops::Index;

// How many pieces a block has; the last one may have fewer.
const BLOCK: usize = 16;

// Adds copies of the values of these pieces behind others.
fn add_pieces<T: Copied>(alloc: Global, pieces: &[Piece<T>], all: &mut Vec<T>) -> Result<(), Memory>
    ensures { OnOk result (all.new.items ≡ all.old.items ++ joined_pieces pieces.now) }
{
    for piece in pieces {
        T::add_copies(alloc, piece.as_slice(), all)?;
    }
    Ok(())
}

// Adds copies of the values of the pieces of these blocks behind others.
fn add_blocks<T: Copied>(
    alloc: Global,
    blocks: &[Piece<Piece<T>>],
    all: &mut Vec<T>,
) -> Result<(), Memory>
    ensures { OnOk result (all.new.items ≡ all.old.items ++ joined_pieces (joined_pieces blocks.now)) }
{
    for block in blocks {
        add_pieces(alloc, block.as_slice(), all)?;
    }
    Ok(())
}

/// Pieces in order, in blocks that are shared.
#[derive(Debug, Drop)]
pub struct PieceList<T> {
    blocks: Vec<Piece<Piece<T>>>,
}

impl<T> Model for PieceList<T> {
    ghost use Rattle.std.specs.Prelude.{List};
    ghost use Rattle.std.specs.Coded.{coded_list};
    ghost use Rattle.act_tree.specs.KeptLists.{joined_pieces, AreBlocks};

    ghost Value = { List (List T) };

    ghost coded = { coded_list (coded_list T.code) };

    ghost view = { λ p. joined_pieces p.blocks.items };

    ghost invariant = { λ p. AreBlocks 16 p.blocks.items };
}

impl<T> PieceList<T> {
    /// No pieces. It takes no memory.
    pub fn new(alloc: Global) -> Self
        ensures { result ≡ [] }
    {
        PieceList {
            blocks: Vec::new(alloc),
        }
    }

    // Whether the next piece begins another block.
    fn is_full(&self) -> bool
        ensures full { result ≡ true → length self.now % 16 ≡ 0 }
        ensures room { result ≡ false → 0 < length self.now % 16 }
    {
        let count = self.blocks.len();
        if count == 0 {
            return true;
        }
        self.blocks[count - 1].as_slice().len() >= BLOCK
    }
}

impl<T: Drop> PieceList<T> {
    /// Leaves no pieces.
    pub fn clear(&mut self)
        ensures { self.new ≡ [] }
    {
        self.blocks.clear();
    }

    /// The same pieces, in the same blocks.
    pub fn share(&self, alloc: Global) -> Result<Self, Memory>
        ensures { IfOk result (λ list. list ≡ self.now) }
    {
        let blocks = copies(alloc, &self.blocks, 0)?;
        Ok(PieceList { blocks })
    }

    /// Puts another piece in the place of one. `Err`: there was not enough memory, and nothing has changed.
    #[tactic(auto, using(crate::proofs::Pieces::block_low, crate::proofs::Pieces::block_long))]
    pub fn set(&mut self, alloc: Global, place: usize, piece: Piece<T>) -> Result<(), Memory>
        requires { place < length self.old }
        ensures ok { OnOk result (self.new ≡ slice_set self.old place piece) }
        ensures err { OnErr result (self.new ≡ self.old) }
    {
        self.blocks[place / BLOCK].set(alloc, place % BLOCK, piece)?;
        Ok(())
    }

    // Begins another block.
    fn begin(&mut self, alloc: Global, piece: Piece<T>) -> Result<(), Memory>
        requires { length self.old % 16 ≡ 0 }
        ensures ok { OnOk result (self.new ≡ self.old ++ piece ∷ []) }
        ensures err { OnErr result (self.new ≡ self.old) }
    {
        let mut pieces = Vec::with_capacity(alloc, BLOCK)?;
        pieces.push(piece)?;
        let made = Piece::new(alloc, pieces)?;
        self.blocks.push(made)?;
        Ok(())
    }

    /// Adds a piece behind the others. `Err`: there was not enough memory, and nothing has changed.
    pub fn push(&mut self, alloc: Global, piece: Piece<T>) -> Result<(), Memory>
        ensures ok { OnOk result (self.new ≡ self.old ++ piece ∷ []) }
        ensures err { OnErr result (self.new ≡ self.old) }
    {
        if self.is_full() {
            return self.begin(alloc, piece);
        }
        let last = self.blocks.len() - 1;
        self.blocks[last].push(alloc, piece)?;
        Ok(())
    }
}

impl<T: Copied> PieceList<T> {
    /// Copies of the values of all pieces, of which there are so many.
    pub fn values(&self, alloc: Global, count: usize) -> Result<Vec<T>, Memory>
        ensures { IfOk result (λ v. v.items ≡ joined_pieces self.now) }
    {
        let mut all = Vec::with_capacity(alloc, count)?;
        add_blocks(alloc, &self.blocks, &mut all)?;
        Ok(all)
    }
}

impl<T> Index<usize> for PieceList<T> {
    type Output = Piece<T>;

    ghost can_index = { λ l place. place < length l };

    ghost index_gives = { λ l place value. value ≡ slice_index_or l place value };

    #[tactic(auto, using(crate::proofs::Pieces::block_low, crate::proofs::Pieces::block_long, crate::proofs::Pieces::block_value))]
    fn index(&self, place: usize) -> &Piece<T> {
        let block = self.blocks[place / BLOCK].as_slice();
        &block[place % BLOCK]
    }
}
