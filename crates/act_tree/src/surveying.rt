//! Surveying: the nodes that an act or a payload brings, before a tree is built of them.

ghost use Rattle.std.specs.Prelude.{◌≡◌, ◌≤◌, None, IfOk, OnOk, IfErr, option_map};
ghost use Rattle.act_tree.specs.Branches.{branches_of, heights};
ghost use Rattle.act_tree.specs.Faults.{first_fault, FailsBy};
ghost use Rattle.act_tree.specs.declared.limits.NodeLimit.TheVariants.{Plain};
ghost use Rattle.act_tree.specs.Surveys.{seen, all_surveyed};
ghost use Rattle.act_tree.specs.declared.limits.TheConstants.{MAX_NESTED};

use crate::survey::Survey;
use crate::{BuildFail, BuildFault, NodeLimit, Nodes, eid_below};
use desk_base::Memory;
use eid_paths::Numbering;
use std::alloc::Global;

/// The numbering of an act that numbers no element throughout.
pub const NONE_THROUGHOUT: Numbering = Numbering {
    throughout: [false; 14],
};

// Surveys nodes below the one of the eId `above`, or right below the root where that is `None`, under so many levels.
#[tactic(auto, using(crate::proofs::LowSpecs::heights_listed))]
fn survey(
    alloc: Global,
    survey_so_far: &mut Survey,
    numbering: Numbering,
    above: Option<&str>,
    levels: u32,
    nodes: &Nodes,
) -> Result<(), Memory>
    ensures depth { heights (branches_of nodes.now) ≤ MAX_NESTED }
    ensures seen { let eid = option_map (λ s. s.now) above.entry in OnOk result (seen survey_so_far.new
        ≡ all_surveyed numbering eid levels (branches_of nodes.now) (seen survey_so_far.old)) }
{
    let depth = levels.saturating_add(1);
    for node in &nodes.items {
        let eid = eid_below(alloc, numbering, above, node.element, &node.num)?;
        survey_so_far.note(eid.copy()?, &node.heading, &node.content, depth)?;
        survey(
            alloc,
            survey_so_far,
            numbering,
            Some(eid.as_str()),
            depth,
            &node.children,
        )?;
    }
    Ok(())
}

/// Why nodes right below a root make no tree of this limit, if they do not.
pub fn fault_of(
    alloc: Global,
    numbering: Numbering,
    limit: NodeLimit,
    nodes: &Nodes,
) -> Result<Option<BuildFault>, Memory>
    ensures { IfOk result (λ fault. fault ≡ first_fault numbering limit (branches_of nodes.now)) }
{
    let mut found = Survey::new(alloc);
    survey(alloc, &mut found, numbering, None, 0, nodes)?;
    Ok(found.fault(limit))
}

/// Whether nodes make a tree, as the children of a root in a plain act that numbers no element throughout.
pub fn check_nodes(alloc: Global, nodes: &Nodes) -> Result<(), BuildFail>
    ensures fits { OnOk result (first_fault NONE_THROUGHOUT Plain (branches_of nodes.now) ≡ None) }
    ensures fault { IfErr result (FailsBy (first_fault NONE_THROUGHOUT Plain (branches_of nodes.now))) }
{
    match fault_of(alloc, NONE_THROUGHOUT, NodeLimit::Plain, nodes)? {
        Some(fault) => Err(BuildFail::Fault(fault)),
        None => Ok(()),
    }
}
