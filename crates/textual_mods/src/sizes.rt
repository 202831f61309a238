//! Sizes of edits: how many bytes they take where they are kept, behind a size so far, at most the greatest `u64`.

ghost use Rattle.std.specs.Prelude.{◌≡◌, ◌+◌, ◌-◌, ◌^◌, min};
ghost use Rattle.textual_mods.specs.EditSizes as spec;

use crate::{Pairs, SplitAt, Spot, TextPos, TextualMod};
use desk_base::{plus_name, plus_text};

impl Spot {
    /// A size with that of the occurrence.
    pub fn plus_size(&self, size: u64) -> u64
        ensures { result ≡ min (size + spec.spot_size self.now) (2 ^ 64 - 1) }
    {
        plus_text(size, self.old.as_str()).saturating_add(2)
    }
}

impl TextPos {
    /// A size with that of the place.
    pub fn plus_size(&self, size: u64) -> u64
        ensures { result ≡ min (size + spec.text_pos_size self.now) (2 ^ 64 - 1) }
    {
        let size = size.saturating_add(1);
        match self {
            TextPos::Start | TextPos::End => size,
            TextPos::Before(spot) | TextPos::After(spot) => spot.plus_size(size),
        }
    }
}

impl SplitAt {
    /// A size with that of the place.
    pub fn plus_size(&self, size: u64) -> u64
        ensures { result ≡ min (size + spec.split_at_size self.now) (2 ^ 64 - 1) }
    {
        let size = size.saturating_add(1);
        match self {
            SplitAt::Text(spot) => spot.plus_size(size),
            SplitAt::Child(wid) => plus_text(size, wid.as_str()),
        }
    }
}

impl Pairs {
    /// A size with that of the pairs, behind their count.
    pub fn plus_size(&self, size: u64) -> u64
        ensures { result ≡ min (size + (2 + spec.pairs_size self.now)) (2 ^ 64 - 1) }
    {
        let mut sum = size.saturating_add(2);
        for pair in self.as_slice() {
            sum = plus_name(plus_text(sum, pair.0.as_str()), pair.1.as_str());
        }
        sum
    }
}

impl TextualMod {
    /// A size with that of the edit.
    pub fn plus_size(&self, size: u64) -> u64
        ensures { result ≡ min (size + spec.edit_size self.now) (2 ^ 64 - 1) }
    {
        let size = size.saturating_add(1);
        match self {
            TextualMod::Repeal { wid } => plus_text(size, wid.as_str()),
            TextualMod::SubstituteNodes { wid, new } => {
                new.plus_size(plus_text(size, wid.as_str()))
            }
            TextualMod::SubstituteText { wid, spot, new } => {
                let size = spot.plus_size(plus_text(size, wid.as_str()));
                plus_text(size, new.as_str())
            }
            TextualMod::InsertNodes { wid, new, .. } => {
                new.plus_size(plus_text(size, wid.as_str()).saturating_add(1))
            }
            TextualMod::InsertText { wid, at, new } => {
                let size = at.plus_size(plus_text(size, wid.as_str()));
                plus_text(size, new.as_str())
            }
            TextualMod::Renumber { pairs } => pairs.plus_size(size),
            TextualMod::Split {
                wid,
                at,
                num,
                heading,
            } => {
                let size = at.plus_size(plus_text(size, wid.as_str()));
                plus_text(plus_name(size, num.as_str()), heading.as_str())
            }
            TextualMod::Join {
                wid,
                second,
                separator,
            } => {
                let size = plus_text(plus_text(size, wid.as_str()), second.as_str());
                plus_text(size, separator.as_str())
            }
        }
    }
}
