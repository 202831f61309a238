//! Laying down: the nodes that an act brings become provisions, whose wIds are the eIds that they have there.

ghost use Rattle.std.specs.Prelude.{◌≡◌, ◌≤◌, true, false, [], ◌∷◌, IfOk, OnErr, option_map};
ghost use Rattle.act_tree.specs.Arena.{below_in, branches_below, root_provision, IsWhole};
ghost use Rattle.act_tree.specs.Branches.{branch, branches_of, heights};
ghost use Rattle.act_tree.specs.Changes.{root_wid};
ghost use Rattle.act_tree.specs.Eids as spec;
ghost use Rattle.act_tree.specs.Eids.{all_enacted};
ghost use Rattle.act_tree.specs.Planted.{HasGrown, IsLaid, AreLaid};
ghost use Rattle.act_tree.specs.Slots.{at, number, provision_of, size, IsOwn};
ghost use Rattle.act_tree.specs.Specs.{own_of};
ghost use Rattle.act_tree.specs.Wids.{wids, all_wids, is_among, one_twice};
ghost use Rattle.act_tree.specs.declared.limits.TheConstants.{MAX_NESTED};
ghost use Rattle.eid_paths.specs.Nums.{is_num};

use crate::arena::{Arena, Slot};
use crate::numbers::Numbers;
use crate::{NodeId, NodeSpec, Nodes, Refs, eid_below};
use desk_base::{Memory, Text};
use eid_paths::{Element, Num, Numbering};
use std::alloc::Global;

// The provision that a node becomes below the wId `wid`, or right below the root where that is `None`. Nothing is below
// it yet, and it is below nothing.
fn slot_of(
    alloc: Global,
    numbering: Numbering,
    wid: Option<&str>,
    node: &NodeSpec,
) -> Result<Slot, Memory>
    ensures provision { let eid = option_map (λ s. s.now) wid.entry in IfOk result (λ s. provision_of s
        ≡ record { wid = spec.eid_below numbering eid node.now.element node.now.num; own = own_of node.now }) }
    ensures num { IfOk result (λ s. is_num s.num ≡ true) }
    ensures below { IfOk result (λ s. s.below.items ≡ []) }
{
    Ok(Slot {
        wid: eid_below(alloc, numbering, wid, node.element, &node.num)?,
        element: node.element,
        num: node.num.copy(),
        heading: node.heading.copy()?,
        content: node.content.copy()?,
        refs: node.refs.copy(alloc)?,
        above: NodeId::root(),
        below: Numbers::new(alloc),
    })
}

// The num of the root's slot, which is never shown.
fn root_num() -> Num
    ensures { result ≡ 48 ∷ [] }
{
    Num::from_text("0").unwrap()
}

// The root, which says nothing. Nothing is below it yet.
fn root_slot(alloc: Global) -> Result<Slot, Memory>
    ensures provision { IfOk result (λ s. provision_of s ≡ root_provision) }
    ensures num { IfOk result (λ s. is_num s.num ≡ true) }
    ensures below { IfOk result (λ s. s.below.items ≡ []) }
{
    Ok(Slot {
        wid: Text::copy_of(alloc, "body")?,
        element: Element::Article,
        num: root_num(),
        heading: Text::copy_of(alloc, "")?,
        content: Text::copy_of(alloc, "")?,
        refs: Refs::new(alloc),
        above: NodeId::root(),
        below: Numbers::new(alloc),
    })
}

/// Lays down a provision, and the nodes that stand below it. Their eIds are those below the eId `wid`, or right below
/// the root where that is `None`. `Err`: there was not enough memory; some of them may have been laid down behind what
/// the arena had.
#[cycle(laying)]
#[tactic(auto, using(crate::proofs::OwnArenas::laid_own, crate::proofs::OwnArenas::all_laid_own))]
pub fn lay(
    alloc: Global,
    arena: &mut Arena,
    slot: Slot,
    numbering: Numbering,
    wid: Option<&str>,
    children: &Nodes,
) -> Result<NodeId, Memory>
    requires below { slot.below.items ≡ [] }
    requires num { is_num slot.num ≡ true }
    requires own { IsOwn arena.old }
    ensures laid { let eid = option_map (λ s. s.now) wid.entry in IfOk result (λ id. IsLaid arena.old arena.new id
        (branch (provision_of slot) (all_enacted numbering eid (branches_of children.now)))) }
    ensures kept { let eid = option_map (λ s. s.now) wid.entry in OnErr result (HasGrown arena.old arena.new
        (wids (branch (provision_of slot) (all_enacted numbering eid (branches_of children.now))))) }
{
    let id = arena.add_alone(slot)?;
    let below = lay_all(alloc, arena, numbering, wid, children)?;
    arena.hold(id, below);
    Ok(id)
}

/// Lays down nodes, each right above itself. Their eIds are those below the eId `wid`, or right below the root where that
/// is `None`. `Err`: there was not enough memory; some of them
/// may have been laid down behind what the arena had.
#[cycle(laying)]
#[tactic(auto, using(crate::proofs::OwnArenas::laid_own, crate::proofs::OwnArenas::all_laid_own, crate::proofs::LowSpecs::heights_listed))]
pub fn lay_all(
    alloc: Global,
    arena: &mut Arena,
    numbering: Numbering,
    wid: Option<&str>,
    nodes: &Nodes,
) -> Result<Vec<NodeId>, Memory>
    requires { IsOwn arena.old }
    ensures depth { heights (branches_of nodes.now) ≤ MAX_NESTED }
    ensures laid { IfOk result (λ ids. AreLaid arena.old arena.new ids.items
        (all_enacted numbering (option_map (λ s. s.now) wid.entry) (branches_of nodes.now))) }
    ensures kept { OnErr result (HasGrown arena.old arena.new
        (all_wids (all_enacted numbering (option_map (λ s. s.now) wid.entry) (branches_of nodes.now)))) }
{
    let mut ids = Vec::with_capacity(alloc, nodes.items.len())?;
    for node in &nodes.items {
        let slot = slot_of(alloc, numbering, wid, node)?;
        let name = slot.wid.copy()?;
        let id = lay(
            alloc,
            arena,
            slot,
            numbering,
            Some(name.as_str()),
            &node.children,
        )?;
        ids.push(id)?;
    }
    Ok(ids)
}

/// An arena of these nodes alone. Their eIds are those below the eId `wid`, or right below the root where that is
/// `None`.
pub fn plant(
    alloc: Global,
    numbering: Numbering,
    wid: Option<&str>,
    nodes: &Nodes,
) -> Result<Arena, Memory>
    requires differ { one_twice (all_wids (all_enacted numbering (option_map (λ s. s.now) wid)
        (branches_of nodes.now))) ≡ false }
    requires apart { is_among root_wid (all_wids (all_enacted numbering (option_map (λ s. s.now) wid)
        (branches_of nodes.now))) ≡ false }
    ensures own { IfOk result (λ a. IsOwn a) }
    ensures whole { IfOk result (λ a. IsWhole (at a) (number a) (size a)) }
    ensures reads { let eid = option_map (λ s. s.now) wid.entry in IfOk result (λ a.
        branches_below (size a) (at a) (below_in (at a 0)) ≡ all_enacted numbering eid (branches_of nodes.now)) }
{
    let mut arena = Arena::new(alloc);
    let _root = lay(alloc, &mut arena, root_slot(alloc)?, numbering, wid, nodes)?;
    Ok(arena)
}
