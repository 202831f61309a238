//! Copies of edits. Their texts and nodes are shared.

ghost use Rattle.std.specs.Prelude.{◌≡◌, IfOk};

use crate::{SplitAt, Spot, TextPos, TextualMod};
use desk_base::Memory;
use std::alloc::Global;

impl Spot {
    /// The same occurrence.
    pub fn copy(&self) -> Result<Spot, Memory>
        ensures { IfOk result (λ spot. spot ≡ self.now) }
    {
        Ok(Spot {
            old: self.old.copy()?,
            occurrence: self.occurrence,
        })
    }
}

impl TextPos {
    /// The same place.
    pub fn copy(&self) -> Result<TextPos, Memory>
        ensures { IfOk result (λ at. at ≡ self.now) }
    {
        match self {
            TextPos::Start => Ok(TextPos::Start),
            TextPos::End => Ok(TextPos::End),
            TextPos::Before(spot) => Ok(TextPos::Before(spot.copy()?)),
            TextPos::After(spot) => Ok(TextPos::After(spot.copy()?)),
        }
    }
}

impl SplitAt {
    /// The same place.
    pub fn copy(&self) -> Result<SplitAt, Memory>
        ensures { IfOk result (λ at. at ≡ self.now) }
    {
        match self {
            SplitAt::Text(spot) => Ok(SplitAt::Text(spot.copy()?)),
            SplitAt::Child(wid) => Ok(SplitAt::Child(wid.copy()?)),
        }
    }
}

impl TextualMod {
    /// The same edit.
    pub fn copy(&self, alloc: Global) -> Result<TextualMod, Memory>
        ensures { IfOk result (λ edit. edit ≡ self.now) }
    {
        match self {
            TextualMod::Repeal { wid } => Ok(TextualMod::Repeal { wid: wid.copy()? }),
            TextualMod::SubstituteNodes { wid, new } => Ok(TextualMod::SubstituteNodes {
                wid: wid.copy()?,
                new: new.copy()?,
            }),
            TextualMod::SubstituteText { wid, spot, new } => Ok(TextualMod::SubstituteText {
                wid: wid.copy()?,
                spot: spot.copy()?,
                new: new.copy()?,
            }),
            TextualMod::InsertNodes { wid, pos, new } => Ok(TextualMod::InsertNodes {
                wid: wid.copy()?,
                pos: *pos,
                new: new.copy()?,
            }),
            TextualMod::InsertText { wid, at, new } => Ok(TextualMod::InsertText {
                wid: wid.copy()?,
                at: at.copy()?,
                new: new.copy()?,
            }),
            TextualMod::Renumber { pairs } => Ok(TextualMod::Renumber {
                pairs: pairs.copy(alloc)?,
            }),
            TextualMod::Split {
                wid,
                at,
                num,
                heading,
            } => Ok(TextualMod::Split {
                wid: wid.copy()?,
                at: at.copy()?,
                num: num.copy(),
                heading: heading.copy()?,
            }),
            TextualMod::Join {
                wid,
                second,
                separator,
            } => Ok(TextualMod::Join {
                wid: wid.copy()?,
                second: second.copy()?,
                separator: separator.copy()?,
            }),
        }
    }
}
