//! Limits of what an edit names and brings, and the fault of its nodes.

ghost use Rattle.std.specs.Prelude.{◌≡◌, IfOk, map};
ghost use Rattle.std.specs.List.{list_all};
ghost use Rattle.act_tree.specs.Limits as limits;
ghost use Rattle.act_tree.specs.Wids.{is_among, one_twice};
ghost use Rattle.textual_mods.specs.EditLimits as spec;

use crate::{Pairs, SplitAt, Spot, TextPos, TextualMod};
use act_tree::{BuildFault, MAX_TEXT_BYTES, NONE_THROUGHOUT, NodeLimit, Nodes, fault_of, is_wid};
use desk_base::{Memory, Text};
use eid_paths::Num;
use std::alloc::Global;

/// The most nodes side by side that an edit brings, pairs of a renumbering, and modifications that are recorded
/// together.
pub const MAX_ITEMS: usize = 64;

fn text_fits(text: &Text) -> bool
    ensures { result ≡ spec.text_fits text.now }
{
    text.as_str().len() <= MAX_TEXT_BYTES
}

fn payload_fits(nodes: &Nodes) -> bool
    ensures { result ≡ spec.payload_fits nodes.now }
{
    0 < nodes.items.len() && nodes.items.len() <= MAX_ITEMS && nodes.have_few_refs()
}

fn have_wids(pairs: &[(Text, Num)]) -> bool
    ensures { result ≡ list_all (λ pair. limits.is_wid pair.0) pairs.now }
{
    for pair in pairs {
        if !is_wid(pair.0.as_str()) {
            return false;
        }
    }
    true
}

fn is_named(wid: &Text, pairs: &[(Text, Num)]) -> bool
    ensures { result ≡ is_among wid.now (map (λ pair. pair.0) pairs.now) }
{
    for pair in pairs {
        if wid.as_str() == pair.0.as_str() {
            return true;
        }
    }
    false
}

fn one_named_twice(pairs: &[(Text, Num)]) -> bool
    ensures { result ≡ one_twice (map (λ pair. pair.0) pairs.now) }
{
    for i in 0..pairs.len() {
        if is_named(&pairs[i].0, &pairs[i + 1..]) {
            return true;
        }
    }
    false
}

impl Spot {
    /// Whether the occurrence is counted from 1, of a text that is not empty, and not too long.
    pub fn fits(&self) -> bool
        ensures { result ≡ spec.spot_fits self.now }
    {
        0 < self.old.as_str().len() && text_fits(&self.old) && 0 < self.occurrence
    }
}

impl Pairs {
    /// Whether there are pairs, not too many, each naming a provision by what may be a wId, and none one that another
    /// names.
    pub fn fit(&self) -> bool
        ensures { result ≡ spec.pairs_fit self.now }
    {
        let pairs = self.as_slice();
        0 < pairs.len() && pairs.len() <= MAX_ITEMS && have_wids(pairs) && !one_named_twice(pairs)
    }
}

impl TextPos {
    /// Whether the occurrence of the place keeps its limits, where it has one.
    pub fn fits(&self) -> bool
        ensures { result ≡ spec.text_pos_fits self.now }
    {
        match self {
            TextPos::Start | TextPos::End => true,
            TextPos::Before(spot) | TextPos::After(spot) => spot.fits(),
        }
    }
}

impl SplitAt {
    /// Whether the occurrence or the child keeps its limits.
    pub fn fits(&self) -> bool
        ensures { result ≡ spec.split_at_fits self.now }
    {
        match self {
            SplitAt::Text(spot) => spot.fits(),
            SplitAt::Child(wid) => is_wid(wid.as_str()),
        }
    }
}

// Whether both provisions of a join have wIds that differ, and its separator is not too long.
fn join_fits(wid: &Text, second: &Text, separator: &Text) -> bool
    ensures { result ≡ spec.edit_fits (TextualMod.Join wid.now second.now separator.now) }
{
    is_wid(wid.as_str())
        && is_wid(second.as_str())
        && wid.as_str() != second.as_str()
        && text_fits(separator)
}

impl TextualMod {
    /// Whether what the edit names and brings keeps its limits.
    pub fn fits(&self) -> bool
        ensures { result ≡ spec.edit_fits self.now }
    {
        match self {
            TextualMod::Repeal { wid } => is_wid(wid.as_str()),
            TextualMod::SubstituteNodes { wid, new } => is_wid(wid.as_str()) && payload_fits(new),
            TextualMod::SubstituteText { wid, spot, new } => {
                is_wid(wid.as_str()) && spot.fits() && text_fits(new)
            }
            TextualMod::InsertNodes { wid, new, .. } => is_wid(wid.as_str()) && payload_fits(new),
            TextualMod::InsertText { wid, at, new } => {
                is_wid(wid.as_str()) && at.fits() && text_fits(new)
            }
            TextualMod::Renumber { pairs } => pairs.fit(),
            TextualMod::Split {
                wid,
                at,
                heading,
                ..
            } => is_wid(wid.as_str()) && at.fits() && text_fits(heading),
            TextualMod::Join {
                wid,
                second,
                separator,
            } => join_fits(wid, second, separator),
        }
    }

    /// The first fault of the nodes that the edit brings, as a text of a plain act, if it brings any and they have one.
    pub fn payload_fault(&self, alloc: Global) -> Result<Option<BuildFault>, Memory>
        ensures { IfOk result (λ fault. fault ≡ spec.payload_fault self.now) }
    {
        match self {
            TextualMod::SubstituteNodes { new, .. } | TextualMod::InsertNodes { new, .. } => {
                fault_of(alloc, NONE_THROUGHOUT, NodeLimit::Plain, new)
            }
            _ => Ok(None),
        }
    }
}
