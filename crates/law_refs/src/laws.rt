//! Laws of the index, each as the contract of a function with an empty body.

ghost use Rattle.std.specs.Prelude.{◌≡◌, ◌≤◌, ◌++◌, ◌∷◌, true, ℕ, IsPermutation, List, [], map};
ghost use Rattle.std.specs.Cmp.Lexicographic.{slice_cmp};
ghost use Rattle.std.specs.List.Sorted.{IsStrictlySortedBy};
ghost use Rattle.std.specs.Map.{keys_of};
ghost use Rattle.std.specs.Ordering.{nat_cmp};
ghost use Rattle.law_register.specs.declared.register.entry.Entry.{Entry};
ghost use Rattle.law_register.specs.Register.LawList.{law_of, laws, works_enacted};
ghost use Rattle.law_register.specs.Register.Verdicts.{is_legal};
ghost use Rattle.law_refs.specs.Handing.{judged_at_opening, judged_for, moved_by, rows_of_entry, rows_opened};
ghost use Rattle.law_refs.specs.Index.{Kept, first_day, refs_in, revised, rows_that_stay};
ghost use Rattle.law_refs.specs.Judging.{Answers};
ghost use Rattle.law_refs.specs.Listed.{dangling_on};
ghost use Rattle.law_refs.specs.Missing.{IsDangling, missing};
ghost use Rattle.law_refs.specs.OfRegister.{FollowsChange, IsIndexOf};
ghost use Rattle.law_refs.specs.Right.{AnswerAsBefore, IsRight, IsRightBut, broken_on, rows_for, rows_of};
ghost use Rattle.law_refs.specs.Rows.{again_row};
ghost use Rattle.law_refs.specs.declared.ref_row.RefRow.{RefRow};

use crate::RefIndex;

/// A revision of a right index is right, where all targets are answered as before but for those of works that moved.
pub fn revision_is_right()
    ensures { (before after : Answers) (moved : List (List ℕ)) (rows : List RefRow) (index : Kept)
        → IsRight before index → AnswerAsBefore before after moved → IsRight after (revised after moved rows index) }
{}

/// Of a right index all is right but what refers to works that moved, where all other targets are answered as before: what a revision of it
/// requires.
pub fn what_did_not_move_stays_right()
    ensures { (before after : Answers) (moved : List (List ℕ)) (index : Kept)
        → IsRight before index → AnswerAsBefore before after moved → IsRightBut after moved index }
{}

/// Of a right index those references dangle whose target breaks a rule, and no others.
pub fn what_breaks_a_rule_dangles()
    ensures { (answers : Answers) (day : ℕ) (index : Kept) → IsRight answers index → dangling_on day index ≡ broken_on answers day index }
{}

/// After a revision a work has the rows that it had before the first that is handed in for it, or all where none is, and behind them
/// exactly those that are handed in.
pub fn revision_has_what_was_handed_in()
    ensures { (answers : Answers) (moved : List (List ℕ)) (rows : List RefRow) (index : Kept) (work : List ℕ)
        → rows_of work (revised answers moved rows index)
        ≡ map (again_row answers moved) (rows_that_stay (first_day work rows) (rows_of work index)) ++ rows_for answers work rows }
{}

/// The works of an index ascend by their IRIs, each once.
pub fn works_ascend(index: &RefIndex)
    ensures { IsStrictlySortedBy (slice_cmp nat_cmp) (keys_of index.now) }
{
    let _ = index.works.len();
}

/// What an index of a register lists is what dangles by the register alone.
pub fn what_dangles_is_listed(index: &RefIndex)
    ensures { (entries : List Entry) (day : ℕ) → 1 ≤ day → IsIndexOf entries index.now → IsDangling entries day (dangling_on day index.now) }
{
    works_ascend(index);
}

/// No reference stands in a register without entries, and a new index is its.
pub fn new_index_is_of_no_entries()
    ensures { IsIndexOf [] [] }
{}

/// An index of a register is revised to that of the register as it stands then, whatever changed: entries that came, or all of them at an
/// opening.
pub fn revision_follows_the_register()
    ensures { (before after : List Entry) (moved : List (List ℕ)) (rows : List RefRow) (index : Kept)
        → IsIndexOf before index → FollowsChange before after moved rows → IsIndexOf after (revised (missing after) moved rows index) }
{}

/// What an entry hands in that comes to stand behind legal ones is what the register has with it: of the work that it enacts, or of
/// which it touches a day, the references of its texts from that day on; before that day no text has others, and what refers to
/// another work is answered as before.
pub fn an_entry_hands_in()
    ensures { (entries : List Entry) (entry : Entry) → is_legal (entries ++ entry ∷ []) ≡ true
        → FollowsChange entries (entries ++ entry ∷ []) (moved_by entries entry) (rows_of_entry entries entry) }
{}

/// What an opening hands in of the works that are enacted, in whatever order, is what the register has.
pub fn an_opening_hands_in()
    ensures { (entries : List Entry) (works : List (List ℕ)) → is_legal entries ≡ true
        → IsPermutation (works_enacted (laws entries)) works → FollowsChange [] entries works (rows_opened entries works) }
{}

/// In whatever order works are taken, an opening judges as many references.
pub fn an_opening_judges()
    ensures { (entries : List Entry) (works : List (List ℕ)) → IsPermutation (works_enacted (laws entries)) works
        → refs_in (rows_opened entries works) ≡ judged_at_opening entries }
{}

/// An entry of a draft moves no work, and hands in nothing.
pub fn drafts_hand_in_nothing()
    ensures moved { (entries : List Entry) (entry : Entry) → law_of entries entry ≡ [] → moved_by entries entry ≡ [] }
    ensures rows { (entries : List Entry) (entry : Entry) → law_of entries entry ≡ [] → rows_of_entry entries entry ≡ [] }
{}

/// An entry that moves no work hands in nothing, no reference is judged for it, and the index of a register is that of the register
/// with it.
pub fn what_moves_no_work_leaves_the_index()
    ensures rows { (entries : List Entry) (entry : Entry) → moved_by entries entry ≡ [] → rows_of_entry entries entry ≡ [] }
    ensures steps { (entries : List Entry) (entry : Entry) (index : Kept) → moved_by entries entry ≡ []
        → judged_for index entries entry ≡ 0 }
    ensures index { (entries : List Entry) (entry : Entry) (index : Kept) → is_legal (entries ++ entry ∷ []) ≡ true
        → moved_by entries entry ≡ [] → IsIndexOf entries index → IsIndexOf (entries ++ entry ∷ []) index }
{}
