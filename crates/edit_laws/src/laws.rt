//! What edits leave and undo, and in what order they go. Each law is a function that does nothing, whose clause is the
//! law.

ghost use Rattle.std.specs.Prelude.{◌≡◌, ◌||◌, ◌++◌, not, [], ◌∷◌, None, false, true, nat_eq};
ghost use Rattle.std.specs.List.{filter, starts_with};
ghost use Rattle.act_tree.specs.Brought.{bringer, has_brought};
ghost use Rattle.act_tree.specs.Changes.{Step, any_holds, changed};
ghost use Rattle.act_tree.specs.Faults.{first_cause};
ghost use Rattle.act_tree.specs.Seen.{tree_view};
ghost use Rattle.act_tree.specs.Wids.{all_wids, is_among};
ghost use Rattle.textual_mods.specs.Edits.{applied, outcome_of, tree_with};
ghost use Rattle.edit_laws.specs.Laws.{IsMade, is_brought_by, wids_taken, twice_changed, wid_of_second, nums_before, stand_apart, edits_apart, touch_apart, LooksAtNoSibling, made_of};
ghost use Rattle.textual_mods.specs.Targets.{provision_named};
ghost use Rattle.textual_mods.specs.declared.edit.TextualMod.TheVariants.{Join, Renumber, Split};
ghost use Rattle.textual_mods.specs.declared.outcome.Outcome.TheVariants.{Unapplied};

use act_tree::{Cause, Tree};
use desk_base::{Id, Text};
use eid_paths::Num;
use textual_mods::{Pairs, SplitAt, TextualMod};

/// A wId of the tree after an edit is one that the tree had before it, or begins with the name of the modification and
/// `__`.
pub fn wids_are_old_or_brought(tree: &Tree, by: Id, edit: &TextualMod, wid: &Text)
    requires { is_among wid.now (all_wids (tree_with (tree_view tree.now) by edit.now).body) ≡ true }
    ensures { (is_among wid.now (all_wids (tree_view tree.now).body)
        || starts_with nat_eq wid.now (bringer by ++ 95 ∷ 95 ∷ [])) ≡ true }
{}

/// What stays keeps its wId, and its place among the others: the wIds of the text after an edit, but for those that the
/// modification brings, are those before it, but for those that go with it, in order. With a repeal, and with a
/// substitution of provisions, those at and beneath the target go; with a join that of the second provision; with no
/// other edit any.
pub fn what_stays_keeps_its_wid(tree: &Tree, by: Id, edit: &TextualMod)
    requires fresh { has_brought by (tree_view tree.now).body ≡ false }
    requires made { IsMade (tree_view tree.now) by edit.now }
    ensures { filter (λ wid. not (is_brought_by by wid)) (all_wids (tree_with (tree_view tree.now) by edit.now).body)
        ≡ filter (λ wid. not (is_among wid (wids_taken (tree_view tree.now).body edit.now)))
        (all_wids (tree_view tree.now).body) }
{}

/// An edit that is held back leaves the tree as it was, its number of changes too.
pub fn held_back_leaves_the_tree(tree: &Tree, by: Id, edit: &TextualMod, cause: Cause)
    requires { outcome_of (applied (tree_view tree.now) by edit.now) ≡ Unapplied cause }
    ensures { tree_with (tree_view tree.now) by edit.now ≡ tree_view tree.now }
{}

/// A split is undone by the join of both parts with nothing between them: it is made, and the tree is as it was, but
/// for two changes. What the new provision had of its own goes, its num and its heading; it has no refs.
pub fn join_undoes_split(
    tree: &Tree,
    by: Id,
    wid: &Text,
    at: &SplitAt,
    num: &Num,
    heading: &Text,
    other: Id,
)
    requires fits { first_cause (tree_view tree.now) ≡ None }
    requires fresh { has_brought by (tree_view tree.now).body ≡ false }
    requires made { IsMade (tree_view tree.now) by (Split wid.now at.now num.now heading.now) }
    ensures undone { IsMade (tree_with (tree_view tree.now) by (Split wid.now at.now num.now heading.now)) other
        (Join wid.now (wid_of_second by num.now (provision_named wid.now (tree_view tree.now).body)) []) }
    ensures same { tree_with (tree_with (tree_view tree.now) by (Split wid.now at.now num.now heading.now)) other
        (Join wid.now (wid_of_second by num.now (provision_named wid.now (tree_view tree.now).body)) [])
        ≡ twice_changed (tree_view tree.now) }
{}

/// A renumbering is undone by one that gives each provision the num that it had: it is made, and the tree is as it
/// was, but for two changes.
pub fn nums_before_undo_nums(tree: &Tree, by: Id, pairs: &Pairs, other: Id)
    requires fits { first_cause (tree_view tree.now) ≡ None }
    requires made { IsMade (tree_view tree.now) by (Renumber pairs.now) }
    ensures undone { IsMade (tree_with (tree_view tree.now) by (Renumber pairs.now)) other
        (Renumber (nums_before pairs.now (tree_view tree.now).body)) }
    ensures same { tree_with (tree_with (tree_view tree.now) by (Renumber pairs.now)) other
        (Renumber (nums_before pairs.now (tree_view tree.now).body))
        ≡ twice_changed (tree_view tree.now) }
{}

/// Two changes at provisions of which neither stands at or beneath the other give the same text in either order, if
/// each looks at no sibling and brings no provision of the other's wId.
pub fn changes_apart_go_in_either_order(tree: &Tree, wid: &Text, other: &Text)
    requires { stand_apart (tree_view tree.now).body wid.now other.now ≡ true }
    ensures { let body = (tree_view tree.now).body in
        (one : Step) (two : Step) → LooksAtNoSibling one → LooksAtNoSibling two
        → any_holds other.now (made_of one (provision_named wid.now body)) ≡ false
        → any_holds wid.now (made_of two (provision_named other.now body)) ≡ false
        → changed one wid.now (changed two other.now body) ≡ changed two other.now (changed one wid.now body) }
{}

/// Two edits that name provisions of which none stands at or beneath one that the other names give the same tree in
/// either order, if each is made alone and the second is made after the first. Then the first is also made after the
/// second.
pub fn edits_apart_go_in_either_order(
    tree: &Tree,
    by: Id,
    one: &TextualMod,
    other: Id,
    two: &TextualMod,
)
    requires fresh { has_brought by (tree_view tree.now).body ≡ false }
    requires other_fresh { has_brought other (tree_view tree.now).body ≡ false }
    requires apart { edits_apart (tree_view tree.now).body one.now two.now ≡ true }
    requires one_made { IsMade (tree_view tree.now) by one.now }
    requires two_made { IsMade (tree_view tree.now) other two.now }
    requires both_made { IsMade (tree_with (tree_view tree.now) by one.now) other two.now }
    ensures made { IsMade (tree_with (tree_view tree.now) other two.now) by one.now }
    ensures same { tree_with (tree_with (tree_view tree.now) by one.now) other two.now
        ≡ tree_with (tree_with (tree_view tree.now) other two.now) by one.now }
{}

/// So do two edits of which neither touches anything that the other touches. A substitution or insertion of text touches
/// the content of the provision that it names, a renumbering the nums of those that it names. An insertion of provisions,
/// a split and a join touch where provisions stand, at and beneath those that they name, and a split and a join also the
/// content and the num of these; a repeal and a substitution of provisions touch all that stands at and beneath the
/// target. So the content of a provision and its num are changed in either order, each of them before or after any edit
/// of what stands beneath it, and before or after an insertion beside it, in it or above it.
pub fn edits_of_other_things_go_in_either_order(
    tree: &Tree,
    by: Id,
    one: &TextualMod,
    other: Id,
    two: &TextualMod,
)
    requires fresh { has_brought by (tree_view tree.now).body ≡ false }
    requires other_fresh { has_brought other (tree_view tree.now).body ≡ false }
    requires apart { touch_apart (tree_view tree.now).body one.now two.now ≡ true }
    requires one_made { IsMade (tree_view tree.now) by one.now }
    requires two_made { IsMade (tree_view tree.now) other two.now }
    requires both_made { IsMade (tree_with (tree_view tree.now) by one.now) other two.now }
    ensures made { IsMade (tree_with (tree_view tree.now) other two.now) by one.now }
    ensures same { tree_with (tree_with (tree_view tree.now) by one.now) other two.now
        ≡ tree_with (tree_with (tree_view tree.now) other two.now) by one.now }
{}
