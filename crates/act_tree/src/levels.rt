//! The levels of provisions: those that begin an eId, and those of siblings that begin none.

ghost use Rattle.std.specs.Prelude.{◌≡◌, [], ◌∷◌, true, OnOk, IfOk};
ghost use Rattle.std.specs.List.{All};
ghost use Rattle.act_tree.specs.EidLevels.{own_level};
ghost use Rattle.act_tree.specs.LevelsOfNodes.{levels_at};
ghost use Rattle.act_tree.specs.Seen.{has_node};
ghost use Rattle.act_tree.specs.Surveys.{gathered, repeats};
ghost use Rattle.act_tree.specs.Slots.{provision_of};
ghost use Rattle.act_tree.specs.Wids.{is_among, one_twice};
ghost use Rattle.eid_paths.specs.Levels.{level_text};
ghost use Rattle.std.specs.Str.{bytes_eq};

use crate::arena::{Arena, Slot};
use crate::{NodeId, Tree, eid_below};
use desk_base::{Memory, Text};
use eid_paths::{Element, Num, Numbering};
use indexmap::IndexSet;
use std::alloc::Global;

// Notes the level of a node among others, if it begins no eId. Whether it was there before.
fn note_level(
    alloc: Global,
    tree: &Tree,
    levels: &mut IndexSet<Text>,
    id: NodeId,
) -> Result<bool, Memory>
    requires { has_node tree.now id ≡ true }
    ensures noted { OnOk result (levels.new.keys ≡ gathered levels.old.keys (levels_at tree.now (id ∷ []))) }
    ensures again { IfOk result (λ again. again ≡ repeats levels.old.keys (levels_at tree.now (id ∷ []))) }
{
    let slot = tree.slot(id);
    if tree.numbering().has(slot.element) {
        return Ok(false);
    }
    let level = eid_below(alloc, tree.numbering(), None, slot.element, &slot.num)?;
    let added = levels.insert(level)?;
    Ok(!added)
}

/// Whether two of these nodes begin no eId and have one level.
pub fn are_alike(alloc: Global, tree: &Tree, ids: &[NodeId]) -> Result<bool, Memory>
    requires { All (λ id. has_node tree.now id ≡ true) ids.now }
    ensures { IfOk result (λ alike. alike ≡ one_twice (levels_at tree.now ids.now)) }
{
    let mut levels = IndexSet::new(alloc);
    for id in ids {
        let again = note_level(alloc, tree, &mut levels, *id)?;
        if again {
            return Ok(true);
        }
    }
    Ok(false)
}

/// Whether a provision has this level. (The copies carry the rule of nums, by which equal levels have equal parts.)
pub fn is_level(slot: &Slot, element: Element, num: &Num) -> bool
    ensures { result ≡ bytes_eq (level_text element num.now) (own_level (provision_of slot.now).own) }
{
    let own = slot.num.copy();
    let other = num.copy();
    let same = own == other;
    slot.element == element && same
}

/// Whether a node begins no eId and has this level, as a provision that is no child of the root.
pub fn goes_on_at(tree: &Tree, element: Element, num: &Num, id: NodeId) -> bool
    requires { has_node tree.now id ≡ true }
    ensures { result ≡ is_among (level_text element num.now) (levels_at tree.now (id ∷ [])) }
{
    let slot = tree.slot(id);
    if tree.numbering().has(slot.element) {
        false
    } else {
        is_level(slot, element, num)
    }
}

/// Whether one of these nodes, which are no children of the root, begins no eId and has this level.
pub fn goes_on(tree: &Tree, element: Element, num: &Num, ids: &[NodeId]) -> bool
    requires { All (λ id. has_node tree.now id ≡ true) ids.now }
    ensures { result ≡ is_among (level_text element num.now) (levels_at tree.now ids.now) }
{
    for id in ids {
        let here = goes_on_at(tree, element, num, *id);
        if here {
            return true;
        }
    }
    false
}

impl Arena {
    ghost use Rattle.std.specs.Prelude.{ℕ, ◌<◌, ◌≤◌, ◌^◌};
    ghost use Rattle.act_tree.specs.LevelsOfNodes.{begins_before, begins_eid, begins_one, some_past};
    ghost use Rattle.act_tree.specs.Slots.{at, size};

    // Whether a number is that of a provision that begins an eId in the text that is left without another number and all
    // beneath it.
    fn begins_one(&self, numbering: Numbering, gone: NodeId, id: NodeId) -> bool
        requires { id < size self.now }
        ensures { result ≡ begins_one numbering (at self.now) (size self.now) gone id }
    {
        let slot = &self.slots[id.place()];
        let begins = slot.above.place() == 0 || numbering.has(slot.element);
        begins && id.place() != 0 && self.climbs_past(gone, id)
    }

    /// Whether a number is that of a provision of the text that begins an eId.
    pub fn begins_eid(&self, numbering: Numbering, id: NodeId) -> bool
        requires { id < size self.now }
        ensures { result ≡ begins_eid numbering (at self.now) (size self.now) id }
    {
        self.begins_one(numbering, NodeId::root(), id)
    }

    /// Whether a provision begins an eId by this level in the text that is left without a number and all beneath it; in
    /// the whole text where that is the root. The provisions of the level are visited from the last that was laid down to
    /// the first, and the way up is gone from those that may begin one.
    pub fn begins_without(
        &self,
        numbering: Numbering,
        gone: NodeId,
        element: Element,
        num: &Num,
    ) -> bool
        requires { size self.now ≤ 2 ^ 32 }
        ensures { result ≡ some_past numbering (at self.now) (size self.now) gone (level_text element num.now)
            (size self.now) }
    {
        let mut next = self.last_of_level(element, num);
        while let Some(id) = next {
            if self.begins_one(numbering, gone, id) {
                return true;
            }
            next = self.level_before(element, num, id);
        }
        false
    }

    /// Whether a provision of the text begins an eId by this level.
    pub fn begins(&self, numbering: Numbering, element: Element, num: &Num) -> bool
        requires { size self.now ≤ 2 ^ 32 }
        ensures { result ≡ begins_before numbering (at self.now) (size self.now) (level_text element num.now) (size self.now) }
    {
        self.begins_without(numbering, NodeId::root(), element, num)
    }
}
