//! Edits of the content of a provision: substitution and insertion of text. Only its length can hold a content back,
//! so they are done in place.

ghost use Rattle.std.specs.Prelude.{◌≡◌, ◌+◌, ◌++◌, None, true, string_bytes, IfOk, OnOk, OnErr};
ghost use Rattle.act_tree.specs.Changes.{any_holds, with_content};
ghost use Rattle.act_tree.specs.Faults.{first_cause};
ghost use Rattle.act_tree.specs.Seen.{is_own, tree_view, has_node, provision_at};
ghost use Rattle.textual_mods.specs.Edits.{answer_to, settled};
ghost use Rattle.textual_mods.specs.EditsOfNodes.{step_at};
ghost use Rattle.textual_mods.specs.TextEdits as spec;
ghost use Rattle.textual_mods.specs.TextEdits.{content_set, text_substituted, text_inserted};

use crate::held_back::{held_back, or_step};
use crate::occurrences::parted_at;
use crate::targets::provision_named;
use crate::{Outcome, Spot, TextPos};
use act_tree::{Cause, MAX_TEXT_BYTES, NodeId, Tree};
use desk_base::{Memory, Steps, Text};
use std::alloc::Global;
use std::sync::ledger::Ledger;

/// Puts a text in the place of an occurrence in the content of the target.
pub fn substitute_text<L: Ledger>(
    alloc: Global,
    tree: &mut Tree,
    wid: &str,
    spot: &Spot,
    new: &str,
    steps: &mut Steps<L>,
) -> Result<Outcome, Memory>
    requires own { is_own tree.old ≡ true }
    requires fits { first_cause (tree_view tree.old) ≡ None }
    ensures own { is_own tree.new ≡ true }
    ensures outcome { IfOk result (λ o. o ≡ answer_to tree.old (text_substituted wid.now spot.now new.now)) }
    ensures tree { OnOk result (tree_view tree.new ≡ settled tree.old (text_substituted wid.now spot.now new.now)) }
    ensures kept { OnErr result (tree_view tree.new ≡ tree_view tree.old) }
    ensures step { steps.new ≡ steps.old + 1 }
{
    let Some(id) = provision_named(tree, wid) else {
        return Ok(held_back(Cause::TargetMissing, steps));
    };
    let content = with_spot(alloc, spot, new, tree.provision(id).content.as_str());
    let content = or_step(content, steps)?;
    Ok(give_content(tree, id, content, steps))
}

/// Puts a text at a place of the content of a provision.
pub fn insert_text<L: Ledger>(
    alloc: Global,
    tree: &mut Tree,
    wid: &str,
    at: &TextPos,
    new: &str,
    steps: &mut Steps<L>,
) -> Result<Outcome, Memory>
    requires own { is_own tree.old ≡ true }
    requires fits { first_cause (tree_view tree.old) ≡ None }
    ensures own { is_own tree.new ≡ true }
    ensures outcome { IfOk result (λ o. o ≡ answer_to tree.old (text_inserted wid.now at.now new.now)) }
    ensures tree { OnOk result (tree_view tree.new ≡ settled tree.old (text_inserted wid.now at.now new.now)) }
    ensures kept { OnErr result (tree_view tree.new ≡ tree_view tree.old) }
    ensures step { steps.new ≡ steps.old + 1 }
{
    let Some(id) = provision_named(tree, wid) else {
        return Ok(held_back(Cause::AnchorMissing, steps));
    };
    let content = with_text(alloc, at, new, tree.provision(id).content.as_str());
    let content = or_step(content, steps)?;
    Ok(give_content(tree, id, content, steps))
}

// Gives a provision its changed content. `None`: the occurrence that was to be changed is not there.
fn give_content<L: Ledger>(
    tree: &mut Tree,
    id: NodeId,
    content: Option<Text>,
    steps: &mut Steps<L>,
) -> Outcome
    requires own { is_own tree.old ≡ true }
    requires fits { first_cause (tree_view tree.old) ≡ None }
    requires node { has_node tree.old id ≡ true }
    requires provision { id ≡ 0 → ⊥ }
    requires held { any_holds (provision_at tree.old id).wid (tree_view tree.old).body ≡ true }
    ensures own { is_own tree.new ≡ true }
    ensures outcome { result ≡ answer_to tree.old (content_set (provision_at tree.old id).wid content) }
    ensures tree { tree_view tree.new ≡ settled tree.old (content_set (provision_at tree.old id).wid content) }
    ensures step { steps.new ≡ steps.old + 1 }
{
    match content {
        Some(text) => give_text(tree, id, text, steps),
        None => held_back(Cause::OldTextMissing, steps),
    }
}

// Gives a provision another content, if it is not too long.
fn give_text<L: Ledger>(tree: &mut Tree, id: NodeId, text: Text, steps: &mut Steps<L>) -> Outcome
    requires own { is_own tree.old ≡ true }
    requires fits { first_cause (tree_view tree.old) ≡ None }
    requires node { has_node tree.old id ≡ true }
    requires provision { id ≡ 0 → ⊥ }
    requires held { any_holds (provision_at tree.old id).wid (tree_view tree.old).body ≡ true }
    ensures own { is_own tree.new ≡ true }
    ensures outcome { result ≡ answer_to tree.old (step_at tree.old id (with_content text)) }
    ensures tree { tree_view tree.new ≡ settled tree.old (step_at tree.old id (with_content text)) }
    ensures step { steps.new ≡ steps.old + 1 }
{
    if text.as_str().len() > MAX_TEXT_BYTES {
        return held_back(Cause::TextTooLong, steps);
    }
    tree.set_content(id, text, steps);
    Outcome::Done
}

// A content in which an occurrence has become another text. `None`: the content has fewer.
fn with_spot(alloc: Global, spot: &Spot, new: &str, content: &str) -> Result<Option<Text>, Memory>
    ensures { IfOk result (λ r. r ≡ spec.with_spot spot.now new.now content.now) }
{
    match parted_at(alloc, spot.old.as_str(), spot.occurrence, content)? {
        Some((front, behind)) => Ok(Some(around(front, new, behind)?)),
        None => Ok(None),
    }
}

// A content with a text at a place of it. `None`: the place is not there.
fn with_text(alloc: Global, at: &TextPos, new: &str, content: &str) -> Result<Option<Text>, Memory>
    ensures { IfOk result (λ r. r ≡ spec.with_text at.now new.now content.now) }
{
    match at {
        TextPos::Start => Ok(Some(Text::from_string(both(alloc, new, content)?)?)),
        TextPos::End => Ok(Some(Text::from_string(both(alloc, content, new)?)?)),
        TextPos::Before(spot) => {
            let middle = both(alloc, new, spot.old.as_str())?;
            with_spot(alloc, spot, middle.as_str(), content)
        }
        TextPos::After(spot) => {
            let middle = both(alloc, spot.old.as_str(), new)?;
            with_spot(alloc, spot, middle.as_str(), content)
        }
    }
}

// Three texts, one behind another.
fn around(front: String, middle: &str, behind: &str) -> Result<Text, Memory>
    ensures { IfOk result (λ text. text ≡ string_bytes front ++ (middle.now ++ behind.now)) }
{
    let mut text = front;
    text.push_str(middle)?;
    text.push_str(behind)?;
    Text::from_string(text)
}

// Two texts, one behind the other.
pub fn both(alloc: Global, first: &str, second: &str) -> Result<String, Memory>
    ensures { IfOk result (λ text. string_bytes text ≡ first.now ++ second.now) }
{
    let mut text = String::with_capacity(alloc, first.len().saturating_add(second.len()))?;
    text.push_str(first)?;
    text.push_str(second)?;
    Ok(text)
}
