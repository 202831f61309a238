//! Answers: the text of an act on a day, or the first rule that a question breaks.

ghost use Rattle.std.specs.Prelude.{◌≡◌, ◌≤◌, ◌∷◌, [], true, false, None, Some, IfOk, map};
ghost use Rattle.std.specs.List.{All};
ghost use Rattle.act_tree.specs.Branches.{branches_of, height, heights, listed};
ghost use Rattle.act_tree.specs.Faults.{eids_of};
ghost use Rattle.act_tree.specs.Seen.{tree_view, has_node, provision_at, branch_at};
ghost use Rattle.act_tree.specs.Wids.{one_twice};
ghost use Rattle.act_tree.specs.declared.limits.TheConstants.{MAX_DEPTH};
ghost use Rattle.law_register.specs.Answer.Answers as spec;
ghost use Rattle.law_register.specs.Answer.Answers.{Answers, portion_among};
ghost use Rattle.law_register.specs.Answer.ShownNodes.{shown_view};
ghost use Rattle.law_register.specs.Answer.Flags as flags;
ghost use Rattle.law_register.specs.Answer.Replay.{IsVersionOf, replay_on};
ghost use Rattle.law_register.specs.Answer.Versions.{version_view};

use crate::on_day::OnDay;
use crate::showing::{flag_of_node, portion_of, show_all};
use act_tree::{NodeId, Tree};
use desk_base::{Day, Memory, Text};
use law_register::{
    Answer, AnswerNode, AnswerNodes, AskFault, Known, QueryRule, Question, Reading, Version,
};
use std::alloc::Global;

// The nodes right below the root.
fn top(tree: &Tree) -> &[NodeId]
    ensures nodes { All (λ id. has_node tree.now id ≡ true) result.now }
    ensures branches { branches_of (map (branch_at tree.now) result.now) ≡ (tree_view tree.now).body }
    ensures depth { heights (branches_of (map (branch_at tree.now) result.now)) ≤ MAX_DEPTH }
{
    tree.children(tree.root())
}

// The whole text, below a root of the flag.
fn whole(alloc: Global, on: &OnDay<'_>, tree: &Tree, flag: bool) -> Result<AnswerNodes, Memory>
    ensures { IfOk result (λ nodes. nodes ≡ listed
        (spec.shown_tree on.now.known.now on.now.reading on.now.day flag (tree_view tree.now))) }
{
    show_all(alloc, on, tree, flag, None, top(tree))
}

// One provision alone.
fn alone(alloc: Global, node: AnswerNode) -> Result<AnswerNodes, Memory>
    requires depth { height (shown_view node) ≤ MAX_DEPTH }
    ensures { IfOk result (λ nodes. nodes ≡ shown_view node ∷ []) }
{
    let mut nodes = AnswerNodes::new(alloc);
    nodes.push(node)?;
    Ok(nodes)
}

// The provision of an eId in the text alone, below a root of the flag, or the rule that none has it.
fn part_of(
    alloc: Global,
    on: &OnDay<'_>,
    tree: &Tree,
    flag: bool,
    eid: &Text,
) -> Result<AnswerNodes, AskFault>
    requires once { one_twice (eids_of (tree_view tree.now)) ≡ false }
    requires flag { flag ≡ flags.root_flag on.now.known.now on.now.reading on.now.day }
    ensures { Answers result (spec.found_portion eid.now (portion_among eid.now
        (spec.shown_tree on.now.known.now on.now.reading on.now.day flag (tree_view tree.now)))) }
{
    match portion_of(alloc, on, tree, flag, eid.as_str())? {
        Some(node) => Ok(alone(alloc, node)?),
        None => Err(AskFault::Query(QueryRule::UnknownPortion(eid.copy()?))),
    }
}

// What was asked for of the text, below a root of the flag, or the rule that it is not there.
fn asked_part(
    alloc: Global,
    on: &OnDay<'_>,
    tree: &Tree,
    flag: bool,
    portion: &Option<Text>,
) -> Result<AnswerNodes, AskFault>
    requires once { one_twice (eids_of (tree_view tree.now)) ≡ false }
    requires flag { flag ≡ flags.root_flag on.now.known.now on.now.reading on.now.day }
    ensures { Answers result (spec.asked_part portion.now
        (spec.shown_tree on.now.known.now on.now.reading on.now.day flag (tree_view tree.now))) }
{
    match portion {
        Some(eid) => part_of(alloc, on, tree, flag, eid),
        None => Ok(whole(alloc, on, tree, flag)?),
    }
}

// The answer to a question, from a version of the work on the day.
fn answer_on_day(
    alloc: Global,
    on: &OnDay<'_>,
    version: &Version,
    question: &Question,
) -> Result<Answer, AskFault>
    requires once { one_twice (eids_of (tree_view version.now.tree)) ≡ false }
    requires reading { on.now.reading ≡ question.now.reading }
    requires day { on.now.day ≡ spec.asked_day question.now.version on.now.known.now.act }
    ensures { Answers result (spec.answer_of_text on.now.known.now (version_view version.now) question.now) }
{
    let bears = on.root_flag(alloc)?;
    let nodes = asked_part(alloc, on, &version.tree, bears, &question.portion)?;
    let question = question.copy()?;
    let applied = version.applied.copy()?;
    let unapplied = version.unapplied.copy()?;
    Ok(Answer {
        question,
        bears,
        nodes,
        applied,
        unapplied,
    })
}

// The answer from a text in which no two provisions have one eId.
fn answer_from(
    alloc: Global,
    known: &Known,
    version: &Version,
    question: &Question,
) -> Result<Answer, AskFault>
    requires { one_twice (eids_of (tree_view version.now.tree)) ≡ false }
    ensures { Answers result (spec.answer_of_text known.now (version_view version.now) question.now) }
{
    let day = question.asked_day(&known.act);
    let on = OnDay::new(alloc, known, question.reading, day)?;
    answer_on_day(alloc, &on, version, question)
}

/// The answer to a question that breaks no rule before its text is looked at, from the version that it asks for, or the rule that
/// the text has no such provision. The version is lent, so that who keeps it copies no tree; what provisions say is shared.
pub fn answer_text(
    alloc: Global,
    known: &Known,
    version: &Version,
    question: &Question,
) -> Result<Answer, AskFault>
    requires { IsVersionOf known.now.act question.now.reading
        (spec.asked_day question.now.version known.now.act) (version_view version.now) }
    ensures { Answers result (spec.answer_of_text known.now (version_view version.now) question.now) }
{
    answer_from(alloc, known, version, question)
}

/// The answer to a question, from the version that it asks for, or the first rule that it breaks.
#[tactic(auto, unfolding(law_register::specs::Answer::Answers::answer_on))]
pub fn answer(
    alloc: Global,
    known: &Known,
    version: Version,
    question: &Question,
) -> Result<Answer, AskFault>
    requires { version_view version
        ≡ replay_on known.now question.now.reading (spec.asked_day question.now.version known.now.act) }
    ensures { Answers result (spec.answer_on known.now question.now) }
{
    let told = match question.judge(known, known.front) {
        Ok(()) => answer_text(alloc, known, &version, question),
        Err(fault) => Err(fault),
    };
    drop(version);
    told
}

/// Whether a node of a tree bears on a day.
#[tactic(auto, using(act_tree::proofs::LowNodes::deep_low))]
pub fn flag_at(
    alloc: Global,
    known: &Known,
    reading: Reading,
    day: Day,
    tree: &Tree,
    node: NodeId,
) -> Result<bool, Memory>
    requires { has_node tree.now node ≡ true }
    ensures { IfOk result (λ found. flags.flag known.now reading day (tree_view tree.now).body
        (provision_at tree.now node).wid ≡ Some found) }
{
    let on = OnDay::new(alloc, known, reading, day)?;
    let flag = on.root_flag(alloc)?;
    flag_of_node(&on, tree, flag, node)
}
