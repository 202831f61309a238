//! Tree: the text of an act. A clause sees one as its numbering, its limit, its provisions and the number of its changes.

ghost use Rattle.std.specs.Prelude.{◌≡◌, ◌≤◌, None, Some, if◌then◌else◌};
ghost use Rattle.act_tree.specs.Arena.{IsWhole, below_in, branches_below};
ghost use Rattle.act_tree.specs.Branches.{heights};
ghost use Rattle.act_tree.specs.Single.{IsWhole-prop};
ghost use Rattle.act_tree.specs.EidsOfWids.{level_of_own};
ghost use Rattle.act_tree.specs.Slots.{at, number, provision_of, size, IsOwn};
ghost use Rattle.act_tree.specs.declared.limits.TheConstants.{MAX_DEPTH};

use crate::arena::{Arena, Slot};
use crate::copying::arena_of_text;
use crate::depths::count_up;
use crate::eid_ways::go_on;
use crate::eids::eid_of_number;
use crate::grafting::{bringer, place_in};
use crate::laying::plant;
use crate::levels::{are_alike, goes_on};
use crate::survey::Survey;
use crate::surveying::fault_of;
use crate::walks::{count, survey};
use crate::{BuildFail, BuildFault, Cause, NONE_THROUGHOUT, NodeId, NodeLimit, Nodes, Refs};
use desk_base::{Id, Memory, Steps, Text};
use eid_paths::{Eid, Element, Level, Num, Numbering, parse_eid};
use std::alloc::Global;
use std::sync::ledger::Ledger;

/// The text of an act: a root, and the provisions below it, at most `MAX_DEPTH` levels of them. So deep goes each walk over them.
#[derive(Debug, Drop)]
pub struct Tree {
    numbering: Numbering,
    limit: NodeLimit,
    changes: u64,
    // How many slots the arena had when it was seen last whether most of them are of what was taken off.
    seen: usize,
    arena: Arena,
    ghost whole: { IsWhole (at arena) (number arena) (size arena) } by { IsWhole-prop (at arena) (number arena) (size arena) },
    ghost low: { heights (branches_below (size arena) (at arena) (below_in (at arena 0))) ≤ MAX_DEPTH },
}

/// What a node of a tree says.
#[derive(Debug, Drop)]
pub struct NodeView<'a> {
    /// The element of the provision and its num. `None`: it is the root.
    pub level: Option<Level>,
    /// Its wId, which never changes.
    pub wid: &'a [u8],
    /// Its heading, empty where it has none.
    pub heading: &'a str,
    /// Its text, empty where it has none.
    pub content: &'a str,
    /// The expressions that it refers to.
    pub refs: &'a [Text],
}

/// What a provision says of itself, and its wId.
#[derive(Clone, Copy, Debug)]
pub struct ProvisionView<'a> {
    /// The kind of provision.
    pub element: Element,
    /// Its number.
    pub num: &'a Num,
    /// Its wId, which never changes.
    pub wid: &'a Text,
    /// Its heading, empty where it has none.
    pub heading: &'a Text,
    /// Its text, empty where it has none.
    pub content: &'a Text,
    /// The expressions that it refers to.
    pub refs: &'a Refs,
}

// What a slot says, of the root without a level.
fn view_of(slot: &Slot, is_root: bool) -> NodeView<'_>
    ensures level { result.level ≡ (if is_root then None else Some (level_of_own (provision_of slot.now).own)) }
    ensures wid { result.wid.now ≡ slot.now.wid }
    ensures heading { result.heading.now ≡ slot.now.heading }
    ensures content { result.content.now ≡ slot.now.content }
    ensures refs { result.refs.now ≡ slot.now.refs }
{
    let level = if is_root {
        None
    } else {
        Some(Level {
            element: slot.element,
            num: slot.num.copy(),
        })
    };
    NodeView {
        level,
        wid: slot.wid.as_str().as_bytes(),
        heading: slot.heading.as_str(),
        content: slot.content.as_str(),
        refs: slot.refs.as_slice(),
    }
}

impl Tree {
    ghost use Rattle.std.specs.Prelude.{◌≡◌, ◌==◌, ◌+◌, ℕ, ◌-◌, ◌^◌, min, true, false, IfOk, OnOk, OnErr, IfErr, IfSome, is_some, map, length, ◌≤◌, ◌<◌, ◌&&◌, option_map, None, Some, slice_get, take, if◌then◌else◌};
    ghost use Rattle.std.specs.List.{All};
    ghost use Rattle.eid_paths.specs.Nums.{is_num};
    ghost use Rattle.std.specs.Str.{bytes_eq};
    ghost use Rattle.act_tree.specs.Branches.{Branches, branches_of, counts, heights};
    ghost use Rattle.act_tree.specs.declared.limits.TheConstants.{MAX_DEPTH};
    ghost use Rattle.act_tree.specs.Provisions.{Provision};
    ghost use Rattle.act_tree.specs.Faults.{first_fault, first_cause, all_owns, FailsBy};
    ghost use Rattle.act_tree.specs.Slots.{provision_of};
    ghost use Rattle.act_tree.specs.Brought.{brought, has_brought, second_part};
    ghost use Rattle.act_tree.specs.Changes.{after, before, changed, grafted, is_in, joined, merged, next_of, parted, removed, renumbered, substituted, with_content, without};
    ghost use Rattle.act_tree.specs.declared.surveying.TheConstants.{NONE_THROUGHOUT};
    ghost use Rattle.act_tree.specs.declared.limits.NodeLimit.TheVariants.{Plain};
    ghost use Rattle.act_tree.specs.Eids.{all_enacted};
    ghost use Rattle.act_tree.specs.Depths.{depth_of};
    ghost use Rattle.act_tree.specs.EidLevels.{all_beginning, levels_begun, levels_on, own_level};
    ghost use Rattle.act_tree.specs.LevelsOfNodes.{begins_eid};
    ghost use Rattle.act_tree.specs.Slots.{at, size};
    ghost use Rattle.act_tree.specs.WaysDown.{has_way};
    ghost use Rattle.eid_paths.specs.Eids.{eid_text};
    ghost use Rattle.eid_paths.specs.Levels.{have_nums, level_text};
    ghost use Rattle.act_tree.specs.EidsOfNodes.{IsNodeOf};
    ghost use Rattle.act_tree.specs.EidsOfWids.{eid_of_wid, has_eid, level_of_own};
    ghost use Rattle.act_tree.specs.Trees.{unchanged};
    ghost use Rattle.act_tree.specs.NodesStay.{NodesStay};
    ghost use Rattle.act_tree.specs.Wids.{all_wids, is_among, one_twice};
    ghost use Rattle.act_tree.specs.Seen.{tree_view, is_own, has_node, provision_at, children_at, parent_at, branch_at, below_at, with_body, once_changed, changed_at, removed_at, substituted_at, grafted_at, nums_by_wid, next_at, laid_down};
    ghost use Rattle.std.specs.Prelude.{◌↔◌, [], ◌∷◌, drop};
    ghost use Rattle.act_tree.specs.Changes.{found, root_wid};

    /// The tree of an act as enacted: a provision's wId is its eId there. `Err`: the first fault, or want of memory.
    pub fn build(
        alloc: Global,
        body: &Nodes,
        numbering: Numbering,
        limit: NodeLimit,
    ) -> Result<Tree, BuildFail>
        ensures tree { IfOk result (λ t. tree_view t
            ≡ unchanged numbering limit (all_enacted numbering None (branches_of body.now))) }
        ensures own { IfOk result (λ t. is_own t ≡ true) }
        ensures fits { OnOk result (first_fault numbering limit (branches_of body.now) ≡ None) }
        ensures fault { IfErr result (FailsBy (first_fault numbering limit (branches_of body.now))) }
    {
        match fault_of(alloc, numbering, limit, body)? {
            Some(fault) => Err(BuildFail::Fault(fault)),
            None => Ok(Tree::plant(alloc, body, numbering, limit)?),
        }
    }

    // The tree of an act as enacted, where no two of its provisions have one eId.
    fn plant(
        alloc: Global,
        body: &Nodes,
        numbering: Numbering,
        limit: NodeLimit,
    ) -> Result<Tree, Memory>
        requires differ { one_twice (all_wids (all_enacted numbering None (branches_of body.now))) ≡ false }
        requires depth { heights (branches_of body.now) ≤ MAX_DEPTH }
        ensures own { IfOk result (λ t. is_own t ≡ true) }
        ensures tree { IfOk result (λ t. tree_view t
            ≡ unchanged numbering limit (all_enacted numbering None (branches_of body.now))) }
    {
        let arena = plant(alloc, numbering, None, body)?;
        Ok(Tree {
            numbering,
            limit,
            changes: 0,
            seen: arena.slots.len(),
            arena,
        })
    }

    /// The same tree, own. What its provisions say is shared. Where most of the slots are of what was taken off, only the
    /// text that stands is laid down again; a node may have another id then, so it is found by its wId.
    pub fn copy(&self, alloc: Global) -> Result<Tree, Memory>
        ensures tree { IfOk result (λ t. tree_view t ≡ tree_view self.now) }
        ensures own { IfOk result (λ t. is_own t ≡ true) }
    {
        let arena = self.copy_arena(alloc)?;
        Ok(Tree {
            numbering: self.numbering,
            limit: self.limit,
            changes: self.changes,
            seen: arena.slots.len(),
            arena,
        })
    }

    // An arena of the same text, own: the same slots, or the text alone where more than half of them are of what was taken
    // off.
    fn copy_arena(&self, alloc: Global) -> Result<Arena, Memory>
        ensures own { IfOk result (λ a. IsOwn a) }
        ensures whole { IfOk result (λ a. IsWhole (at a) (number a) (size a)) }
        ensures reads { IfOk result (λ a. branches_below (size a) (at a) (below_in (at a 0)) ≡ (tree_view self.now).body) }
    {
        if self.arena.is_mostly_gone() {
            return arena_of_text(alloc, self);
        }
        let arena = self.arena.own_copy(alloc)?;
        Ok(arena)
    }

    /// The same tree, kept: it is read as any other, and can't be changed. It shares what it lies in with what was kept of
    /// the tree before, but for pieces of which something was written since. Where the slots have doubled, and most of them
    /// are of what was taken off, the text that stands is laid down again first, in the tree itself, too; a node may have
    /// another id then, so it is found by its wId.
    pub fn keep(&mut self, alloc: Global) -> Result<Tree, Memory>
        ensures same { tree_view self.new ≡ tree_view self.old }
        ensures own { is_own self.old ≡ true → is_own self.new ≡ true }
        ensures kept { IfOk result (λ t. tree_view t ≡ tree_view self.old) }
    {
        self.lay_anew(alloc)?;
        self.keep_slots(alloc)
    }

    // The same tree, kept, in the slots that there are.
    fn keep_slots(&mut self, alloc: Global) -> Result<Tree, Memory>
        ensures same { tree_view self.new ≡ tree_view self.old }
        ensures own { is_own self.new ≡ is_own self.old }
        ensures kept { IfOk result (λ t. tree_view t ≡ tree_view self.old) }
    {
        let arena = self.arena.keep(alloc)?;
        Ok(Tree {
            numbering: self.numbering,
            limit: self.limit,
            changes: self.changes,
            seen: self.seen,
            arena,
        })
    }

    // Lays down the text alone, where the slots have doubled since that was seen last, and more than half of them are of what
    // was taken off.
    #[tactic(auto, unfolding(crate::specs::Seen::tree_view))]
    fn lay_anew(&mut self, alloc: Global) -> Result<(), Memory>
        ensures same { tree_view self.new ≡ tree_view self.old }
        ensures own { is_own self.old ≡ true → is_own self.new ≡ true }
    {
        if self.arena.slots.len() / 2 < self.seen {
            return Ok(());
        }
        self.seen = self.arena.slots.len();
        if self.arena.is_mostly_gone() {
            self.lay_text(alloc)?;
        }
        Ok(())
    }

    // Lays down the text alone.
    fn lay_text(&mut self, alloc: Global) -> Result<(), Memory>
        ensures same { tree_view self.new ≡ tree_view self.old }
        ensures own { is_own self.old ≡ true → is_own self.new ≡ true }
    {
        let arena = arena_of_text(alloc, self)?;
        self.seen = arena.slots.len();
        self.arena = arena;
        Ok(())
    }

    /// Which elements are numbered throughout.
    #[tactic(auto, unfolding(crate::specs::Seen::tree_view))]
    pub fn numbering(&self) -> Numbering
        ensures { result ≡ (tree_view self.now).numbering }
    {
        self.numbering
    }

    /// How many provisions it may have.
    #[tactic(auto, unfolding(crate::specs::Seen::tree_view))]
    pub fn limit(&self) -> NodeLimit
        ensures { result ≡ (tree_view self.now).limit }
    {
        self.limit
    }

    /// The root, which stands for the act itself.
    pub fn root(&self) -> NodeId
        ensures root { result ≡ 0 }
        ensures node { has_node self.now result ≡ true }
    {
        let _ = &self.arena;
        NodeId::root()
    }

    /// The node of a wId, which is `body` at the root. `None`: the tree has none. It is one look-up, and as many steps
    /// as the node is deep.
    pub fn find(&self, wid: &[u8]) -> Option<NodeId>
        ensures found { is_some result ≡ is_in wid.now (tree_view self.now).body }
        ensures wid { IfSome result (λ id. (provision_at self.now id).wid ≡ wid.now) }
        ensures node { IfSome result (λ id. has_node self.now id ≡ true) }
        ensures root { IfSome result (λ id. (id ≡ 0) ↔ (wid.now ≡ root_wid)) }
        ensures branch { IfSome result (λ id. (id ≡ 0 → ⊥)
            → found wid.now (tree_view self.now).body ≡ Some (branch_at self.now id)) }
    {
        let id = self.arena.numbers.last(wid)?;
        if self.arena.climbs(id) {
            Some(id)
        } else {
            None
        }
    }

    /// The next sibling of a node that is not the root. `None`: it is the last.
    pub fn next(&self, id: NodeId) -> Option<NodeId>
        requires node { has_node self.now id ≡ true }
        requires provision { id ≡ 0 → ⊥ }
        ensures branch { option_map (branch_at self.now) result ≡ next_at self.now id }
        ensures node { IfSome result (λ next. has_node self.now next ≡ true) }
        ensures provision { IfSome result (λ next. next ≡ 0 → ⊥) }
    {
        self.arena.next(id)
    }

    /// Gives a node that is not the root another content. It is one change, and needs no memory.
    pub fn set_content<L: Ledger>(&mut self, id: NodeId, content: Text, steps: &mut Steps<L>)
        requires own { is_own self.old ≡ true }
        requires node { has_node self.old id ≡ true }
        requires provision { id ≡ 0 → ⊥ }
        ensures own { is_own self.new ≡ true }
        ensures tree { tree_view self.new ≡ once_changed self.old (changed_at self.old id (with_content content)) }
        ensures nodes { (k : ℕ) → has_node self.new k ≡ has_node self.old k }
        ensures wids { (k : ℕ) → (provision_at self.new k).wid ≡ (provision_at self.old k).wid }
        ensures step { steps.new ≡ steps.old + 1 }
    {
        steps.tick();
        self.put_content(id, content);
        self.count_change();
    }

    /// Gives nodes that are not the root other nums, the first that pairs name for it: one change, without memory.
    pub fn set_nums<L: Ledger>(&mut self, pairs: &[(NodeId, Num)], steps: &mut Steps<L>)
        requires own { is_own self.old ≡ true }
        requires nodes { All (λ pair. has_node self.old pair.0 ≡ true) pairs.now }
        requires provisions { All (λ pair. pair.0 ≡ 0 → ⊥) pairs.now }
        ensures own { is_own self.new ≡ true }
        ensures tree { tree_view self.new
            ≡ once_changed self.old (renumbered (nums_by_wid self.old pairs.now) (tree_view self.old).body) }
        ensures nodes { (k : ℕ) → has_node self.new k ≡ has_node self.old k }
        ensures wids { (k : ℕ) → (provision_at self.new k).wid ≡ (provision_at self.old k).wid }
        ensures step { steps.new ≡ steps.old + 1 }
    {
        steps.tick();
        self.put_nums(pairs);
        self.count_change();
    }

    /// The slot of a node.
    pub(crate) fn slot(&self, id: NodeId) -> &Slot
        requires { has_node self.now id ≡ true }
        ensures { provision_of result.now ≡ provision_at self.now id }
    {
        &self.arena.slots[id.place()]
    }

    /// What a node says.
    pub fn node(&self, id: NodeId) -> NodeView<'_>
        requires { has_node self.now id ≡ true }
        ensures level { result.level ≡ (if id == 0 then None else Some (level_of_own (provision_at self.now id).own)) }
        ensures wid { result.wid.now ≡ (provision_at self.now id).wid }
        ensures heading { result.heading.now ≡ (provision_at self.now id).own.heading }
        ensures content { result.content.now ≡ (provision_at self.now id).own.content }
        ensures refs { result.refs.now ≡ (provision_at self.now id).own.refs }
    {
        view_of(self.slot(id), id.place() == 0)
    }

    /// What a provision says. (Of the root it is an element and a num that are never shown, under the wId `body`.)
    pub fn provision(&self, id: NodeId) -> ProvisionView<'_>
        requires { has_node self.now id ≡ true }
        ensures element { result.element ≡ (provision_at self.now id).own.element }
        ensures num { result.num.now ≡ (provision_at self.now id).own.num }
        ensures wid { result.wid.now ≡ (provision_at self.now id).wid }
        ensures heading { result.heading.now ≡ (provision_at self.now id).own.heading }
        ensures content { result.content.now ≡ (provision_at self.now id).own.content }
        ensures refs { result.refs.now ≡ (provision_at self.now id).own.refs }
    {
        let slot = self.slot(id);
        ProvisionView {
            element: slot.element,
            num: &slot.num,
            wid: &slot.wid,
            heading: &slot.heading,
            content: &slot.content,
            refs: &slot.refs,
        }
    }

    /// The nodes right below one, in order.
    pub fn children(&self, id: NodeId) -> &[NodeId]
        requires { has_node self.now id ≡ true }
        ensures numbers { result.now ≡ children_at self.now id }
        ensures nodes { All (λ child. has_node self.now child ≡ true) result.now }
        ensures branches { branches_of (map (branch_at self.now) result.now) ≡ below_at self.now id }
        ensures depth { heights (branches_of (map (branch_at self.now) result.now)) ≤ MAX_DEPTH }
    {
        self.arena.slots[id.place()].below.as_slice()
    }

    /// The eId of a node that is not the root.
    #[tactic(auto, unfolding(crate::specs::Seen::has_node))]
    pub fn eid_of(&self, alloc: Global, id: NodeId) -> Result<Text, Memory>
        requires node { has_node self.now id ≡ true }
        requires provision { id ≡ 0 → ⊥ }
        ensures { IfOk result (λ eid. eid_of_wid (tree_view self.now) (provision_at self.now id).wid ≡ Some eid) }
    {
        let eid = eid_of_number(alloc, &self.arena, self.numbering, id)?;
        Ok(eid)
    }

    // The node of an eId beneath a number whose provision has its first level, if that begins an eId.
    fn down_from(&self, levels: &Eid<'_>, id: NodeId) -> Option<NodeId>
        requires within { id < size self.now.arena }
        requires some { 0 < length levels.now }
        requires level { bytes_eq (eid_text (take 1 levels.now)) (own_level (provision_at self.now id).own) ≡ true }
        ensures found { let n = (tree_view self.now).numbering in is_some result
            ≡ (begins_eid n (at self.now.arena) (size self.now.arena) id
            && has_way n (drop 1 levels.now) (below_at self.now id)) }
        ensures node { IfSome result (IsNodeOf self.now (eid_text levels.now)) }
    {
        if self.arena.begins_eid(self.numbering, id) {
            go_on(self, levels, 1, id)
        } else {
            None
        }
    }

    // The node of an eId, sought beneath each provision that begins one by its first level.
    fn of_levels(&self, levels: &Eid<'_>) -> Option<NodeId>
        requires some { 0 < length levels.now }
        requires nums { have_nums levels.now ≡ true }
        ensures found { is_some result ≡ has_eid (eid_text levels.now) (tree_view self.now) }
        ensures node { IfSome result (IsNodeOf self.now (eid_text levels.now)) }
    {
        let first = levels.level(0);
        let mut next = self.arena.last_of_level(first.element, &first.num);
        while let Some(id) = next {
            let found = self.down_from(levels, id);
            if found.is_some() {
                return found;
            }
            next = self.arena.level_before(first.element, &first.num, id);
        }
        None
    }

    /// The node of an eId; where more have it, one of them. `None`: no node has it. The root has no eId. What is searched
    /// are the provisions of its first level, which the index leads to, and from each that begins an eId the children on
    /// the way down by the other levels.
    pub fn find_eid(&self, eid: &str) -> Option<NodeId>
        ensures found { is_some result ≡ has_eid eid.now (tree_view self.now) }
        ensures node { IfSome result (IsNodeOf self.now eid.now) }
    {
        let Ok(levels) = parse_eid(eid) else {
            return None;
        };
        self.of_levels(&levels)
    }

    /// How many provisions were laid down, the root and those taken away included: each node's number is less.
    #[tactic(auto, unfolding(crate::specs::Seen::laid_down))]
    pub fn laid_down(&self) -> usize
        ensures count { result ≡ laid_down self.now }
        ensures past { (k : ℕ) → has_node self.now k ≡ true → k < result }
    {
        self.arena.slots.len()
    }

    /// How many provisions stand on the way from the root down to a node, itself included: as many steps.
    #[tactic(auto, using(crate::proofs::HowDeep::depth_is, crate::proofs::LowNodes::steps_low), unfolding(crate::specs::Seen::has_node))]
    pub fn depth(&self, id: NodeId) -> u32
        requires { has_node self.now id ≡ true }
        ensures { result ≡ depth_of (provision_at self.now id).wid (tree_view self.now).body }
    {
        count_up(&self.arena, id, self.arena.slots.len())
    }

    /// How many nodes there are, the root not counted. The number stands still at 2^32 - 1.
    pub fn count(&self) -> u32
        ensures { result ≡ min (counts (tree_view self.now).body) (2 ^ 32 - 1) }
    {
        count(self, self.children(self.root()))
    }

    /// Whether two of the children of both nodes, of which neither is the root, begin no eId and have one level: as
    /// children of one provision they would have one eId.
    pub fn children_alike(&self, alloc: Global, one: NodeId, other: NodeId) -> Result<bool, Memory>
        requires one { has_node self.now one ≡ true }
        requires other { has_node self.now other ≡ true }
        ensures { let below = joined (below_at self.now one) (below_at self.now other) in
            IfOk result (λ alike. alike ≡ one_twice (levels_on (tree_view self.now).numbering below)) }
    {
        let below = self.arena.below_both(alloc, one, other)?;
        let alike = are_alike(alloc, self, below.as_slice())?;
        Ok(alike)
    }

    /// Whether a node begins an eId by this level: it is a child of the root, or its element is numbered throughout. Of
    /// what is laid down only the provisions are visited whose levels share its hash, and no eId is spelled.
    pub fn has_level(&self, element: Element, num: &Num) -> bool
        ensures { result ≡ is_among (level_text element num.now) (levels_begun (tree_view self.now)) }
    {
        self.arena.begins(self.numbering, element, num)
    }

    /// Whether a provision begins an eId by this level in the text that is left without a node and all beneath it. Where
    /// the node is the root, nothing has its wId, and the whole text is left.
    pub fn has_level_without(&self, gone: NodeId, element: Element, num: &Num) -> bool
        requires { has_node self.now gone ≡ true }
        ensures { result ≡ is_among (level_text element num.now) (all_beginning (tree_view self.now).numbering true
            (all_owns (without (provision_at self.now gone).wid (tree_view self.now).body))) }
    {
        self.arena
            .begins_without(self.numbering, gone, element, num)
    }

    /// Whether a child of a node that is not the root has this level, and begins no eId by it.
    pub fn has_child_level(&self, id: NodeId, element: Element, num: &Num) -> bool
        requires { has_node self.now id ≡ true }
        ensures { result ≡ is_among (level_text element num.now)
            (levels_on (tree_view self.now).numbering (below_at self.now id)) }
    {
        goes_on(self, element, num, self.children(id))
    }

    /// The first cause for which the tree is not well-formed: two nodes have one eId, it is deeper than 12 levels, has
    /// more nodes than its limit says, or a heading or content of more than 16,384 bytes.
    pub fn well_formed(&self, alloc: Global) -> Result<Option<Cause>, Memory>
        ensures { IfOk result (λ cause. cause ≡ first_cause (tree_view self.now)) }
    {
        match self.fault(alloc)? {
            Some(fault) => Ok(Some(fault.cause())),
            None => Ok(None),
        }
    }

    // The first fault of the tree.
    fn fault(&self, alloc: Global) -> Result<Option<BuildFault>, Memory>
        ensures { IfOk result (λ fault. fault
            ≡ first_fault (tree_view self.now).numbering (tree_view self.now).limit (all_owns (tree_view self.now).body)) }
    {
        let mut found = Survey::new(alloc);
        survey(alloc, &mut found, self, None, 0, self.children(self.root()))?;
        Ok(found.fault(self.limit))
    }

    /// Takes a node away, with all that stands beneath it; of the root, all that stands beneath it. It is one change,
    /// and needs no memory. What nodes say, and so their wIds, stays.
    pub fn remove<L: Ledger>(&mut self, id: NodeId, steps: &mut Steps<L>)
        requires own { is_own self.old ≡ true }
        requires node { has_node self.old id ≡ true }
        ensures own { is_own self.new ≡ true }
        ensures tree { tree_view self.new ≡ once_changed self.old (removed_at self.old id) }
        ensures says { (k : ℕ) → provision_at self.new k ≡ provision_at self.old k }
        ensures stay { NodesStay self.old self.new }
        ensures step { steps.new ≡ steps.old + 1 }
    {
        steps.tick();
        if id.place() == 0 {
            self.clear();
        } else {
            self.take_away(id);
        }
        self.count_change();
    }

    /// Puts nodes in the place of a node and of all that stands beneath it; of the root, in the place of what stands
    /// beneath it. They get the wIds of the modification `by`, and the text that comes of it is no deeper than a text may be.
    /// `Err`: there was not enough memory, and the tree is as it was.
    pub fn replace<L: Ledger>(
        &mut self,
        alloc: Global,
        id: NodeId,
        nodes: &Nodes,
        by: Id,
        steps: &mut Steps<L>,
    ) -> Result<(), Memory>
        requires own { is_own self.old ≡ true }
        requires node { has_node self.old id ≡ true }
        requires payload { first_fault NONE_THROUGHOUT Plain (branches_of nodes.now) ≡ None }
        requires fresh { has_brought by (tree_view self.old).body ≡ false }
        requires depth { heights (substituted_at self.old id (brought by (branches_of nodes.now))) ≤ MAX_DEPTH }
        ensures own { is_own self.new ≡ true }
        ensures tree { OnOk result (tree_view self.new
            ≡ once_changed self.old (substituted_at self.old id (brought by (branches_of nodes.now)))) }
        ensures kept { OnErr result (tree_view self.new ≡ tree_view self.old) }
        ensures stay { NodesStay self.old self.new }
        ensures step { steps.new ≡ steps.old + 1 }
    {
        steps.tick();
        if id.place() == 0 {
            self.put_all(alloc, nodes, by)?;
        } else {
            self.put_instead(alloc, id, nodes, by)?;
        }
        self.count_change();
        Ok(())
    }

    /// Puts nodes among the children of a node, behind the first so many. They get the wIds of the modification `by`, and the
    /// text that comes of it is no deeper than a text may be. `Err`: there was not enough memory, and the tree is as it was.
    pub fn graft<L: Ledger>(
        &mut self,
        alloc: Global,
        parent: NodeId,
        place: usize,
        nodes: &Nodes,
        by: Id,
        steps: &mut Steps<L>,
    ) -> Result<(), Memory>
        requires own { is_own self.old ≡ true }
        requires node { has_node self.old parent ≡ true }
        requires place { place ≤ length (children_at self.old parent) }
        requires payload { first_fault NONE_THROUGHOUT Plain (branches_of nodes.now) ≡ None }
        requires fresh { has_brought by (tree_view self.old).body ≡ false }
        requires depth { heights (grafted_at self.old parent place (brought by (branches_of nodes.now))) ≤ MAX_DEPTH }
        ensures own { is_own self.new ≡ true }
        ensures tree { OnOk result (tree_view self.new
            ≡ once_changed self.old (grafted_at self.old parent place (brought by (branches_of nodes.now)))) }
        ensures kept { OnErr result (tree_view self.new ≡ tree_view self.old) }
        ensures stay { NodesStay self.old self.new }
        ensures step { steps.new ≡ steps.old + 1 }
    {
        steps.tick();
        self.put_nodes(alloc, parent, place, nodes, by)?;
        self.count_change();
        Ok(())
    }

    /// Parts a node: it keeps its first so many children under the content `head`, and right behind it stands a node of
    /// the same element with the others, and with the content `tail`, the num and the heading, but no refs. That node
    /// gets the wId of the modification `by`. `Err`: there was not enough memory, and the tree is as it was.
    pub fn cut_node<L: Ledger>(
        &mut self,
        alloc: Global,
        id: NodeId,
        first_child: usize,
        head: Text,
        tail: Text,
        num: Num,
        heading: Text,
        by: Id,
        steps: &mut Steps<L>,
    ) -> Result<(), Memory>
        requires own { is_own self.old ≡ true }
        requires node { has_node self.old id ≡ true }
        requires provision { id ≡ 0 → ⊥ }
        requires place { first_child ≤ length (children_at self.old id) }
        requires fresh { has_brought by (tree_view self.old).body ≡ false }
        ensures own { is_own self.new ≡ true }
        ensures tree { OnOk result (tree_view self.new ≡ once_changed self.old (changed_at self.old id
            (parted first_child head (second_part by (provision_at self.old id).own.element num heading tail)))) }
        ensures kept { OnErr result (tree_view self.new ≡ tree_view self.old) }
        ensures stay { NodesStay self.old self.new }
        ensures step { steps.new ≡ steps.old + 1 }
    {
        steps.tick();
        let arena = &self.arena;
        let second = arena.second_part(alloc, id, tail, &num, heading, by)?;
        let moved = arena.below_behind(alloc, id, first_child)?;
        self.part(alloc, id, first_child, head, second, moved)?;
        self.count_change();
        Ok(())
    }

    /// Takes the next sibling of a node into it: the node has the content, and its refs and children are followed by
    /// those of the sibling, which goes. `Err`: there was not enough memory, and the tree is as it was.
    pub fn merge_next<L: Ledger>(
        &mut self,
        alloc: Global,
        id: NodeId,
        content: Text,
        steps: &mut Steps<L>,
    ) -> Result<(), Memory>
        requires own { is_own self.old ≡ true }
        requires node { has_node self.old id ≡ true }
        requires next { is_some (next_at self.old id) ≡ true }
        ensures own { is_own self.new ≡ true }
        ensures tree { OnOk result (tree_view self.new
            ≡ once_changed self.old (changed_at self.old id (merged content))) }
        ensures kept { OnErr result (tree_view self.new ≡ tree_view self.old) }
        ensures stay { NodesStay self.old self.new }
        ensures step { steps.new ≡ steps.old + 1 }
    {
        steps.tick();
        self.take_next_in(alloc, id, content)?;
        self.count_change();
        Ok(())
    }

    // Counts a change.
    #[tactic(auto, unfolding(crate::specs::Seen::tree_view, crate::specs::Seen::has_node, crate::specs::Seen::provision_at))]
    fn count_change(&mut self)
        ensures tree { tree_view self.new ≡ once_changed self.old (tree_view self.old).body }
        ensures nodes { (k : ℕ) → has_node self.new k ≡ has_node self.old k }
        ensures says { (k : ℕ) → provision_at self.new k ≡ provision_at self.old k }
        ensures own { is_own self.new ≡ is_own self.old }
    {
        self.changes = self.changes.saturating_add(1);
    }

    // Takes a provision away, with all that stands beneath it.
    #[tactic(auto, using(crate::proofs::OwnArenas::still_own))]
    fn take_away(&mut self, id: NodeId)
        requires own { is_own self.old ≡ true }
        requires node { has_node self.old id ≡ true }
        requires provision { id ≡ 0 → ⊥ }
        ensures own { is_own self.new ≡ true }
        ensures tree { tree_view self.new ≡ with_body self.old (removed_at self.old id) }
        ensures says { (k : ℕ) → provision_at self.new k ≡ provision_at self.old k }
        ensures stay { NodesStay self.old self.new }
    {
        self.arena.take_off(id);
    }

    // Takes all provisions away.
    #[tactic(auto, using(crate::proofs::OwnArenas::still_own))]
    fn clear(&mut self)
        requires own { is_own self.old ≡ true }
        ensures own { is_own self.new ≡ true }
        ensures tree { tree_view self.new ≡ with_body self.old (removed_at self.old 0) }
        ensures says { (k : ℕ) → provision_at self.new k ≡ provision_at self.old k }
        ensures stay { NodesStay self.old self.new }
    {
        self.arena.take_all(NodeId::root());
    }

    // Gives a provision another content.
    #[tactic(auto, using(crate::proofs::OwnArenas::still_own))]
    fn put_content(&mut self, id: NodeId, content: Text)
        requires own { is_own self.old ≡ true }
        requires node { has_node self.old id ≡ true }
        requires provision { id ≡ 0 → ⊥ }
        ensures own { is_own self.new ≡ true }
        ensures tree { tree_view self.new ≡ with_body self.old (changed_at self.old id (with_content content)) }
        ensures nodes { (k : ℕ) → has_node self.new k ≡ has_node self.old k }
        ensures wids { (k : ℕ) → (provision_at self.new k).wid ≡ (provision_at self.old k).wid }
    {
        self.arena.set_content(id, content);
    }

    // Gives a provision another num.
    #[tactic(auto, using(crate::proofs::OwnArenas::still_own))]
    fn put_num(&mut self, id: NodeId, num: Num)
        requires own { is_own self.old ≡ true }
        requires node { has_node self.old id ≡ true }
        requires provision { id ≡ 0 → ⊥ }
        requires num { is_num num ≡ true }
        ensures own { is_own self.new ≡ true }
        ensures tree { tree_view self.new
            ≡ with_body self.old (renumbered (nums_by_wid self.old ((id, num) ∷ [])) (tree_view self.old).body) }
        ensures nodes { (k : ℕ) → has_node self.new k ≡ has_node self.old k }
        ensures wids { (k : ℕ) → (provision_at self.new k).wid ≡ (provision_at self.old k).wid }
    {
        self.arena.set_num(id, num);
    }

    // Gives provisions other nums, from the last pair to the first, which so has the last word.
    fn put_nums(&mut self, pairs: &[(NodeId, Num)])
        requires own { is_own self.old ≡ true }
        requires nodes { All (λ pair. has_node self.old pair.0 ≡ true) pairs.now }
        requires provisions { All (λ pair. pair.0 ≡ 0 → ⊥) pairs.now }
        ensures own { is_own self.new ≡ true }
        ensures tree { tree_view self.new
            ≡ with_body self.old (renumbered (nums_by_wid self.old pairs.now) (tree_view self.old).body) }
        ensures nodes { (k : ℕ) → has_node self.new k ≡ has_node self.old k }
        ensures wids { (k : ℕ) → (provision_at self.new k).wid ≡ (provision_at self.old k).wid }
    {
        for place in (0..pairs.len()).rev() {
            let pair = &pairs[place];
            self.put_num(pair.0, pair.1.copy());
        }
    }

    /// The parent of a node that is not the root. It is one look-up.
    pub fn parent(&self, id: NodeId) -> NodeId
        requires node { has_node self.now id ≡ true }
        requires provision { id ≡ 0 → ⊥ }
        ensures number { result ≡ parent_at self.now id }
        ensures node { has_node self.now result ≡ true }
        ensures child { (place : ℕ) × (slice_get (children_at self.now result) place ≡ Some id) }
        ensures depth { depth_of (provision_at self.now id).wid (tree_view self.now).body
            ≡ depth_of (provision_at self.now result).wid (tree_view self.now).body + 1 }
    {
        self.arena.slots[id.place()].above
    }

    /// The parent of a node that is not the root, and the place of the node among the children of the parent: what is
    /// grafted there stands right before the node, and what is grafted at the next place right behind it.
    pub fn place_of(&self, id: NodeId) -> (NodeId, usize)
        requires node { has_node self.now id ≡ true }
        requires provision { id ≡ 0 → ⊥ }
        ensures number { result.0 ≡ parent_at self.now id }
        ensures parent { has_node self.now result.0 ≡ true }
        ensures place { result.1 < length (children_at self.now result.0) }
        ensures child { slice_get (children_at self.now result.0) result.1 ≡ Some id }
        ensures before { (new : Branches Provision)
            → grafted_at self.now result.0 result.1 new ≡ changed_at self.now id (before new) }
        ensures after { (new : Branches Provision)
            → grafted_at self.now result.0 (result.1 + 1) new ≡ changed_at self.now id (after new) }
    {
        let above = self.parent(id);
        (above, place_in(self.children(above), id))
    }

    // Puts nodes among the children of a node, behind the first so many. All nodes are left.
    fn put_nodes(
        &mut self,
        alloc: Global,
        parent: NodeId,
        place: usize,
        nodes: &Nodes,
        by: Id,
    ) -> Result<(), Memory>
        requires own { is_own self.old ≡ true }
        requires node { has_node self.old parent ≡ true }
        requires place { place ≤ length (children_at self.old parent) }
        requires payload { first_fault NONE_THROUGHOUT Plain (branches_of nodes.now) ≡ None }
        requires fresh { has_brought by (tree_view self.old).body ≡ false }
        requires depth { heights (grafted_at self.old parent place (brought by (branches_of nodes.now))) ≤ MAX_DEPTH }
        ensures own { is_own self.new ≡ true }
        ensures tree { OnOk result (tree_view self.new
            ≡ with_body self.old (grafted_at self.old parent place (brought by (branches_of nodes.now)))) }
        ensures nodes { OnOk result ((k : ℕ) → has_node self.old k ≡ true → has_node self.new k ≡ true) }
        ensures says { OnOk result ((k : ℕ)
            → has_node self.old k ≡ true → provision_at self.new k ≡ provision_at self.old k) }
        ensures kept { OnErr result (tree_view self.new ≡ tree_view self.old) }
        ensures stay { NodesStay self.old self.new }
    {
        let name = bringer(alloc, by)?;
        self.arena.graft(alloc, parent, place, name.as_str(), nodes)
    }

    // Takes the next sibling of a provision into it.
    #[tactic(auto, using(crate::proofs::OwnArenas::still_own))]
    fn take_next_in(&mut self, alloc: Global, id: NodeId, content: Text) -> Result<(), Memory>
        requires own { is_own self.old ≡ true }
        requires node { has_node self.old id ≡ true }
        requires next { is_some (next_at self.old id) ≡ true }
        ensures own { is_own self.new ≡ true }
        ensures tree { OnOk result (tree_view self.new ≡ with_body self.old (changed_at self.old id (merged content))) }
        ensures kept { OnErr result (tree_view self.new ≡ tree_view self.old) }
        ensures stay { NodesStay self.old self.new }
    {
        let next = self.arena.next(id).unwrap();
        let refs = self.arena.refs_of_both(alloc, id, next)?;
        let below = self.arena.below_both(alloc, id, next)?;
        self.arena.join(id, next, content, refs, below);
        Ok(())
    }

    // Puts nodes in the place of a provision and of all that stands beneath it.
    fn put_instead(
        &mut self,
        alloc: Global,
        id: NodeId,
        nodes: &Nodes,
        by: Id,
    ) -> Result<(), Memory>
        requires own { is_own self.old ≡ true }
        requires node { has_node self.old id ≡ true }
        requires provision { id ≡ 0 → ⊥ }
        requires payload { first_fault NONE_THROUGHOUT Plain (branches_of nodes.now) ≡ None }
        requires fresh { has_brought by (tree_view self.old).body ≡ false }
        requires depth { heights (substituted_at self.old id (brought by (branches_of nodes.now))) ≤ MAX_DEPTH }
        ensures own { is_own self.new ≡ true }
        ensures tree { OnOk result (tree_view self.new
            ≡ with_body self.old (substituted_at self.old id (brought by (branches_of nodes.now)))) }
        ensures kept { OnErr result (tree_view self.new ≡ tree_view self.old) }
        ensures stay { NodesStay self.old self.new }
    {
        let (parent, place) = self.place_of(id);
        self.put_nodes(alloc, parent, place, nodes, by)?;
        self.take_away(id);
        Ok(())
    }

    // Puts nodes below the root, in the place of all provisions: of what there was no slot is left.
    fn put_all(&mut self, alloc: Global, nodes: &Nodes, by: Id) -> Result<(), Memory>
        requires own { is_own self.old ≡ true }
        requires payload { first_fault NONE_THROUGHOUT Plain (branches_of nodes.now) ≡ None }
        requires fresh { has_brought by (tree_view self.old).body ≡ false }
        requires depth { heights (substituted_at self.old 0 (brought by (branches_of nodes.now))) ≤ MAX_DEPTH }
        ensures own { is_own self.new ≡ true }
        ensures tree { OnOk result (tree_view self.new
            ≡ with_body self.old (substituted_at self.old 0 (brought by (branches_of nodes.now)))) }
        ensures kept { OnErr result (tree_view self.new ≡ tree_view self.old) }
        ensures stay { NodesStay self.old self.new }
    {
        let name = bringer(alloc, by)?;
        let arena = plant(alloc, NONE_THROUGHOUT, Some(name.as_str()), nodes)?;
        self.arena = arena;
        Ok(())
    }

    // Parts a provision: right behind it stands its second part.
    fn part(
        &mut self,
        alloc: Global,
        id: NodeId,
        first_child: usize,
        head: Text,
        second: Slot,
        moved: Vec<NodeId>,
    ) -> Result<(), Memory>
        requires own { is_own self.old ≡ true }
        requires node { has_node self.old id ≡ true }
        requires provision { id ≡ 0 → ⊥ }
        requires bare { second.below.items ≡ [] }
        requires place { first_child ≤ length (children_at self.old id) }
        requires moved { moved.items ≡ drop first_child (children_at self.old id) }
        requires num { is_num second.num ≡ true }
        requires fresh { is_in second.wid (tree_view self.old).body ≡ false }
        ensures own { is_own self.new ≡ true }
        ensures tree { OnOk result (tree_view self.new
            ≡ with_body self.old (changed_at self.old id (parted first_child head (provision_of second)))) }
        ensures kept { OnErr result (tree_view self.new ≡ tree_view self.old) }
        ensures stay { NodesStay self.old self.new }
    {
        self.arena.part(alloc, id, first_child, head, second, moved)
    }
}
