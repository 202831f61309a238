//! Showing: the provisions of a tree become those of an answer, each with its eId and its flag.

ghost use Rattle.std.specs.Prelude.{◌≡◌, ◌≤◌, true, false, Some, IfOk, IfSome, map, option_map};
ghost use Rattle.std.specs.List.{All};
ghost use Rattle.act_tree.specs.Branches.{branch, branches_of, height, heights};
ghost use Rattle.act_tree.specs.Depths.{depth_of};
ghost use Rattle.act_tree.specs.Eids as spec;
ghost use Rattle.act_tree.specs.Faults.{eids_of};
ghost use Rattle.act_tree.specs.Seen.{tree_view, has_node, provision_at, branch_at};
ghost use Rattle.act_tree.specs.Wids.{one_twice};
ghost use Rattle.act_tree.specs.declared.limits.TheConstants.{MAX_DEPTH};
ghost use Rattle.law_register.specs.Answer.Answers.{shown_as, all_shown, portion_among, shown_tree};
ghost use Rattle.law_register.specs.Answer.Flags as flags;
ghost use Rattle.law_register.specs.Answer.Flags.{flag_below};
ghost use Rattle.law_register.specs.Answer.ShownNodes.{shown_view};

use crate::eids::eid_by_wid;
use crate::on_day::OnDay;
use act_tree::{NodeId, Tree};
use desk_base::{Memory, Text};
use law_register::{AnswerNode, AnswerNodes};
use std::alloc::Global;

// A provision of an answer, over those beneath it.
fn show(
    alloc: Global,
    tree: &Tree,
    bears: bool,
    id: NodeId,
    eid: Text,
    children: AnswerNodes,
) -> Result<AnswerNode, Memory>
    requires { has_node tree.now id ≡ true }
    ensures { IfOk result
        (λ n. shown_view n ≡ branch (shown_as bears eid (provision_at tree.now id)) (branches_of children)) }
{
    let provision = tree.provision(id);
    Ok(AnswerNode {
        element: provision.element,
        num: provision.num.copy(),
        wid: provision.wid.copy()?,
        eid,
        heading: provision.heading.copy()?,
        content: provision.content.copy()?,
        refs: provision.refs.copy(alloc)?,
        bears,
        children,
    })
}

// The eId of a provision below the one of the eId `above`, or right below the root where that is `None`.
fn eid_of(alloc: Global, tree: &Tree, above: Option<&str>, id: NodeId) -> Result<Text, Memory>
    requires { has_node tree.now id ≡ true }
    ensures { IfOk result
        (λ eid. eid ≡ spec.eid_below (tree_view tree.now).numbering (option_map (λ s. s.now) above.entry)
        (provision_at tree.now id).own.element (provision_at tree.now id).own.num) }
{
    let provision = tree.provision(id);
    eid_by_wid(
        alloc,
        tree.numbering(),
        above,
        provision.element,
        provision.num,
        provision.wid,
    )
}

// The flag of a provision below one of the flag `above`.
fn flag_of(on: &OnDay<'_>, tree: &Tree, above: bool, id: NodeId) -> Result<bool, Memory>
    requires { has_node tree.now id ≡ true }
    ensures { IfOk result
        (λ flag. flag ≡ flag_below on.now.known.now on.now.reading on.now.day above (provision_at tree.now id).wid) }
{
    on.flag_below(above, tree.provision(id).wid)
}

/// The provisions of an answer that these nodes become, below the one of the eId `above`, or right below the root where
/// that is `None`, and below the flag, those right below each node by a call of its own.
pub fn show_all(
    alloc: Global,
    on: &OnDay<'_>,
    tree: &Tree,
    flag: bool,
    above: Option<&str>,
    ids: &[NodeId],
) -> Result<AnswerNodes, Memory>
    requires nodes { All (λ id. has_node tree.now id ≡ true) ids.now }
    requires depth { heights (branches_of (map (branch_at tree.now) ids.now)) ≤ MAX_DEPTH }
    ensures { IfOk result (λ shown. branches_of shown
        ≡ all_shown on.now.known.now on.now.reading on.now.day (tree_view tree.now).numbering flag
        (option_map (λ s. s.now) above.entry)
        (branches_of (map (branch_at tree.now) ids.now))) }
{
    let mut shown = AnswerNodes::new(alloc);
    for id in ids {
        let eid = eid_of(alloc, tree, above, *id)?;
        let bears = flag_of(on, tree, flag, *id)?;
        let children = tree.children(*id);
        let below = show_all(alloc, on, tree, bears, Some(eid.as_str()), children)?;
        shown.push(show(alloc, tree, bears, *id, eid, below)?)?;
    }
    Ok(shown)
}

/// The flag of a node, below a root of the flag: it is that of the nearest marked provision on the way up, and nothing
/// else is looked at. Each call goes one provision up.
pub fn flag_of_node(on: &OnDay<'_>, tree: &Tree, flag: bool, node: NodeId) -> Result<bool, Memory>
    requires node { has_node tree.now node ≡ true }
    requires flag { flag ≡ flags.root_flag on.now.known.now on.now.reading on.now.day }
    requires depth { depth_of (provision_at tree.now node).wid (tree_view tree.now).body ≤ MAX_DEPTH }
    ensures { IfOk result (λ found. flags.flag on.now.known.now on.now.reading on.now.day (tree_view tree.now).body
        (provision_at tree.now node).wid ≡ Some found) }
{
    if node == tree.root() {
        return Ok(flag);
    }
    let own = on.own_flag(tree.provision(node).wid)?;
    match own {
        Some(bears) => Ok(bears),
        None => {
            let parent = tree.parent(node);
            flag_of_node(on, tree, flag, parent)
        }
    }
}

/// The provision of an eId with all beneath it, below a root of the flag, in a tree in which no two have one eId. It is
/// found as `Tree::find_eid` finds it, and only the way up from it is read for its flag.
#[tactic(auto, using(act_tree::proofs::LowNodes::deep_low))]
pub fn portion_of(
    alloc: Global,
    on: &OnDay<'_>,
    tree: &Tree,
    flag: bool,
    eid: &str,
) -> Result<Option<AnswerNode>, Memory>
    requires once { one_twice (eids_of (tree_view tree.now)) ≡ false }
    requires flag { flag ≡ flags.root_flag on.now.known.now on.now.reading on.now.day }
    ensures depth { IfOk result (λ found. IfSome found (λ node. height (shown_view node) ≤ MAX_DEPTH)) }
    ensures portion { IfOk result (λ found. option_map shown_view found ≡ portion_among eid.now
        (shown_tree on.now.known.now on.now.reading on.now.day flag (tree_view tree.now))) }
{
    let Some(id) = tree.find_eid(eid) else {
        return Ok(None);
    };
    let bears = flag_of_node(on, tree, flag, id)?;
    let children = tree.children(id);
    let below = show_all(alloc, on, tree, bears, Some(eid), children)?;
    let own = Text::copy_of(alloc, eid)?;
    let shown = show(alloc, tree, bears, id, own, below)?;
    Ok(Some(shown))
}
