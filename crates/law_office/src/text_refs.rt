//! The references of a text, in its order: those of each provision before those of the provisions beneath it.

ghost use Rattle.std.specs.Prelude.{◌≡◌, ◌≤◌, ◌++◌, [], true, IfOk, IsTrue, OnOk, map, option_map};
ghost use Rattle.std.specs.List.{All};
ghost use Rattle.act_tree.specs.Branches.{branches_of, heights, no_branches};
ghost use Rattle.act_tree.specs.Eids as eids;
ghost use Rattle.act_tree.specs.Seen.{below_at, branch_at, has_node, provision_at, tree_view};
ghost use Rattle.act_tree.specs.declared.limits.TheConstants.{MAX_DEPTH};
ghost use Rattle.law_refs.specs.Missing as spec;

use act_tree::{NodeId, Tree, eid_below};
use desk_base::{Memory, Text};
use law_refs::{NodeRef, NodeRefs};
use std::alloc::Global;

// Adds the references of a provision.
fn add_refs(eid: &Text, refs: &[Text], found: &mut NodeRefs) -> Result<(), Memory>
    ensures { OnOk result (found.new ≡ found.old ++ spec.refs_at eid.now refs.now) }
{
    for iri in refs {
        found.push(NodeRef {
            eid: eid.copy()?,
            iri: iri.copy()?,
        })?;
    }
    Ok(())
}

// The eId of a provision below the one of the eId `above`, or right below the root where that is `None`.
fn eid_of(alloc: Global, tree: &Tree, above: Option<&str>, id: NodeId) -> Result<Text, Memory>
    requires { has_node tree.now id ≡ true }
    ensures { IfOk result
        (λ eid. eid ≡ eids.eid_below (tree_view tree.now).numbering (option_map (λ s. s.now) above.entry)
        (provision_at tree.now id).own.element (provision_at tree.now id).own.num) }
{
    let provision = tree.provision(id);
    eid_below(
        alloc,
        tree.numbering(),
        above,
        provision.element,
        provision.num,
    )
}

// Whether a provision has no reference and no provision beneath it: most have neither, and none of them needs its eId.
fn is_bare(tree: &Tree, id: NodeId) -> bool
    requires { has_node tree.now id ≡ true }
    ensures refs { IsTrue result → (provision_at tree.now id).own.refs ≡ [] }
    ensures below { IsTrue result → below_at tree.now id ≡ no_branches }
{
    tree.provision(id).refs.as_slice().is_empty() && tree.children(id).is_empty()
}

// Adds the references of provisions with all beneath them, below the one of the eId `above`, or right below the root where that is
// `None`, those right below each by a call of its own.
fn add_all(
    alloc: Global,
    tree: &Tree,
    above: Option<&str>,
    ids: &[NodeId],
    found: &mut NodeRefs,
) -> Result<(), Memory>
    requires nodes { All (λ id. has_node tree.now id ≡ true) ids.now }
    requires depth { heights (branches_of (map (branch_at tree.now) ids.now)) ≤ MAX_DEPTH }
    ensures { OnOk result (found.new ≡ found.old ++ spec.all_branch_refs (tree_view tree.now).numbering
        (option_map (λ s. s.now) above.entry) (branches_of (map (branch_at tree.now) ids.now))) }
{
    for id in ids {
        if is_bare(tree, *id) {
            continue;
        }
        let eid = eid_of(alloc, tree, above, *id)?;
        let provision = tree.provision(*id);
        add_refs(&eid, provision.refs.as_slice(), found)?;
        let children = tree.children(*id);
        add_all(alloc, tree, Some(eid.as_str()), children, found)?;
    }
    Ok(())
}

/// The references of a text.
pub(crate) fn text_refs(alloc: Global, tree: &Tree) -> Result<NodeRefs, Memory>
    ensures { IfOk result (λ refs. refs ≡ spec.text_refs (tree_view tree.now)) }
{
    let mut found = NodeRefs::new(alloc);
    let top = tree.children(tree.root());
    add_all(alloc, tree, None, top, &mut found)?;
    Ok(found)
}
