//! Replaying: the act as enacted, and a version with more modifications applied to it.

ghost use Rattle.std.specs.Prelude.{◌≡◌, ◌+◌, ◌≤◌, ◌++◌, false, true, None, Some, IfOk, OnOk, length, option_map};
ghost use Rattle.std.specs.List.{All, find, list_any};
ghost use Rattle.act_tree.specs.Branches.{branches_of};
ghost use Rattle.act_tree.specs.Brought.{has_brought};
ghost use Rattle.act_tree.specs.Faults.{first_fault};
ghost use Rattle.act_tree.specs.Seen.{is_own, tree_view};
ghost use Rattle.law_register.specs.Answer.Counted.{is_same_id};
ghost use Rattle.law_register.specs.Answer.Replay as spec;
ghost use Rattle.law_register.specs.Answer.Soundness.{IsReplayed, IsSoundBody, id_twice};
ghost use Rattle.law_register.specs.Answer.Versions.{IsEdited, version_view};
ghost use Rattle.textual_mods.specs.Edits as edits;

use crate::{Act, Ids, KnownMod, KnownMods, Modification, Unapplied, Version};
use act_tree::{BuildFail, Tree};
use desk_base::{Id, Memory, Steps};
use std::alloc::Global;
use std::sync::ledger::Ledger;
use textual_mods::{Outcome, TextualMod, apply};

/// The act as enacted, before any modification.
pub fn enact(alloc: Global, act: &Act) -> Result<Version, Memory>
    requires { first_fault act.now.numbering act.now.limit (branches_of act.now.body) ≡ None }
    ensures own { IfOk result (λ version. is_own version.tree ≡ true) }
    ensures version { IfOk result (λ version. version_view version ≡ spec.as_enacted act.now) }
    ensures replayed { IfOk result (λ version. IsReplayed (version_view version)) }
{
    match Tree::build(alloc, &act.body, act.numbering, act.limit) {
        Ok(tree) => Ok(Version {
            tree,
            applied: Ids::new(alloc),
            unapplied: Unapplied::new(alloc),
        }),
        Err(BuildFail::Memory) => Err(Memory),
        Err(BuildFail::Fault(_)) => unreachable!(),
    }
}

fn apply_edit<L: Ledger>(
    alloc: Global,
    version: &mut Version,
    id: Id,
    edit: &TextualMod,
    steps: &mut Steps<L>,
) -> Result<(), Memory>
    requires own { is_own version.old.tree ≡ true }
    requires replayed { IsReplayed (version_view version.old) }
    requires fresh { has_brought id (tree_view version.old.tree).body ≡ false }
    requires sound { edits.IsSound edit.now }
    ensures own { is_own version.new.tree ≡ true }
    ensures version { OnOk result (IsEdited version.old id (Some edit.now) version.new) }
    ensures replayed { OnOk result (IsReplayed (version_view version.new)) }
    ensures step { steps.new ≡ steps.old + 1 }
{
    match apply(alloc, &mut version.tree, id, edit, steps)? {
        Outcome::Done => version.applied.push(id),
        Outcome::Unapplied(cause) => version.unapplied.push((id, cause)),
    }
}

fn apply_known<L: Ledger>(
    alloc: Global,
    version: &mut Version,
    id: Id,
    known: &KnownMod,
    steps: &mut Steps<L>,
) -> Result<(), Memory>
    requires own { is_own version.old.tree ≡ true }
    requires replayed { IsReplayed (version_view version.old) }
    requires fresh { has_brought id (tree_view version.old.tree).body ≡ false }
    requires sound { IsSoundBody known.now.body }
    ensures own { is_own version.new.tree ≡ true }
    ensures version { OnOk result (IsEdited version.old id (spec.edit_in known.now.body) version.new) }
    ensures replayed { OnOk result (IsReplayed (version_view version.new)) }
    ensures steps { steps.new ≤ steps.old + 1 }
{
    match &known.body {
        Modification::Textual { edit, .. } => apply_edit(alloc, version, id, edit, steps),
        Modification::Force { .. } => Ok(()),
        Modification::Efficacy { .. } => Ok(()),
    }
}

fn find_known(mods: &[KnownMod], id: Id) -> Option<&KnownMod>
    ensures { option_map (λ known. known.now) result ≡ find (λ m. is_same_id m.id id) mods.now }
{
    for known in mods {
        if known.id == id {
            return Some(known);
        }
    }
    None
}

fn apply_id<L: Ledger>(
    alloc: Global,
    version: &mut Version,
    mods: &[KnownMod],
    id: Id,
    steps: &mut Steps<L>,
) -> Result<(), Memory>
    requires own { is_own version.old.tree ≡ true }
    requires replayed { IsReplayed (version_view version.old) }
    requires fresh { list_any (is_same_id id) version.old.applied ≡ false }
    requires sound { All (λ m. IsSoundBody m.body) mods.now }
    ensures own { is_own version.new.tree ≡ true }
    ensures version { OnOk result (IsEdited version.old id (spec.edit_of mods.now id) version.new) }
    ensures replayed { OnOk result (IsReplayed (version_view version.new)) }
    ensures steps { steps.new ≤ steps.old + 1 }
{
    // The parts are named so that the proof knows that they fit their types.
    let Id { law, item } = id;
    match find_known(mods, id) {
        Some(known) => apply_known(alloc, version, Id { law, item }, known, steps),
        None => Ok(()),
    }
}

/// Applies the modifications of these ids to a version, in order. No id stands twice, and none was applied already. It takes
/// one step at most for each. `Err`: there was not enough memory, and some of them may have been applied.
pub fn go_on<L: Ledger>(
    alloc: Global,
    mods: &KnownMods,
    version: &mut Version,
    ids: &[Id],
    steps: &mut Steps<L>,
) -> Result<(), Memory>
    requires sound { All (λ m. IsSoundBody m.body) mods.now }
    requires own { is_own version.old.tree ≡ true }
    requires replayed { IsReplayed (version_view version.old) }
    requires apart { id_twice (version.old.applied ++ ids.now) ≡ false }
    ensures own { is_own version.new.tree ≡ true }
    ensures version { OnOk result (version_view version.new ≡ spec.replayed mods.now (version_view version.old) ids.now) }
    ensures replayed { OnOk result (IsReplayed (version_view version.new)) }
    ensures steps { steps.new ≤ steps.old + length ids.now }
{
    for id in ids {
        apply_id(alloc, version, mods.as_slice(), *id, steps)?;
    }
    Ok(())
}

/// A version with the modifications of these ids applied to it, as by `go_on`.
pub fn continue_replay<L: Ledger>(
    alloc: Global,
    mods: &KnownMods,
    mut version: Version,
    ids: &[Id],
    steps: &mut Steps<L>,
) -> Result<Version, Memory>
    requires sound { All (λ m. IsSoundBody m.body) mods.now }
    requires own { is_own version.tree ≡ true }
    requires replayed { IsReplayed (version_view version) }
    requires apart { id_twice (version.applied ++ ids.now) ≡ false }
    ensures own { IfOk result (λ v. is_own v.tree ≡ true) }
    ensures version { IfOk result (λ v. version_view v ≡ spec.replayed mods.now (version_view version) ids.now) }
    ensures replayed { IfOk result (λ v. IsReplayed (version_view v)) }
    ensures steps { steps.new ≤ steps.old + length ids.now }
{
    go_on(alloc, mods, &mut version, ids, steps)?;
    Ok(version)
}
