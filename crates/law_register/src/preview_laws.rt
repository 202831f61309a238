//! What holds of drafts and previews. Each law is a function that does nothing, whose clause is the law.

ghost use Rattle.std.specs.Prelude.{◌≡◌, ◌⊎◌, ℕ, true, option_map, IfSome};
ghost use Rattle.law_register.specs.declared.answer.question.Question.{Question as QuestionValue};
ghost use Rattle.law_register.specs.declared.law.command.Command.{Command as CommandValue};
ghost use Rattle.law_register.specs.Answer.Asking.{answer_at};
ghost use Rattle.law_register.specs.Answer.Previewing.{preview_at};
ghost use Rattle.law_register.specs.Answer.Previews.{known_previewed, own_entries, with_items};
ghost use Rattle.law_register.specs.Answer.Soundness.{IsSound};
ghost use Rattle.law_register.specs.Register.Drafts.{draft_of, items_of};
ghost use Rattle.law_register.specs.Register.KnownNext.{known_now};
ghost use Rattle.law_register.specs.Register.LawList.{laws};
ghost use Rattle.law_register.specs.Register.Room.{finds_no_room};
ghost use Rattle.law_register.specs.Register.Verdicts.{verdict};

use crate::{Drafter, Register};
use frbr_names::WorkName;

/// A preview knows what is known of the work at the front, and behind that the items of the draft, live, in order, as the items of one
/// more law entry.
pub fn previews_add_items(register: &Register, _drafter: &Drafter, _work: &WorkName)
    ensures { known_previewed register.now.entries _drafter.now _work.now
        ≡ option_map (with_items (items_of _work.now (draft_of _drafter.now register.now.entries)))
        (known_now register.now.entries _work.now) }
{
    let _ = &register.entries;
}

/// What a preview knows can be replayed: the items keep the rules by which they were judged when they were added, and no id stands
/// twice.
pub fn previews_are_sound(register: &Register, _drafter: &Drafter, _work: &WorkName)
    ensures { IfSome (known_previewed register.now.entries _drafter.now _work.now) IsSound }
{
    let _ = &register.entries;
}

/// Drafters are apart: where two registers have the same law and the same entries of a drafter, he has the same draft in both, each of
/// his previews is the same, and so is each answer. What others have in their drafts does not show.
pub fn drafters_are_apart(_one: &Register, _other: &Register, _drafter: &Drafter)
    requires law { laws _one.now.entries ≡ laws _other.now.entries }
    requires own { own_entries _drafter.now _one.now.entries ≡ own_entries _drafter.now _other.now.entries }
    ensures draft { draft_of _drafter.now _one.now.entries ≡ draft_of _drafter.now _other.now.entries }
    ensures preview { (q : QuestionValue)
        → preview_at _one.now.entries _drafter.now q ≡ preview_at _other.now.entries _drafter.now q }
    ensures text { (q : QuestionValue) → answer_at _one.now.entries q ≡ answer_at _other.now.entries q }
{}

/// Drafters are apart: on each command he gets the same verdict in both, unless one of them has no room, for one more drafter or for
/// more bytes. That room alone is shared by all drafters.
pub fn verdicts_are_apart(one: &Register, other: &Register, _drafter: &Drafter)
    requires law { laws one.now.entries ≡ laws other.now.entries }
    requires own { own_entries _drafter.now one.now.entries ≡ own_entries _drafter.now other.now.entries }
    ensures { (request : ℕ) (command : CommandValue)
        → (verdict one.now.entries _drafter.now request command ≡ verdict other.now.entries _drafter.now request command)
        ⊎ ((finds_no_room (verdict one.now.entries _drafter.now request command) ≡ true)
        ⊎ (finds_no_room (verdict other.now.entries _drafter.now request command) ≡ true)) }
{
    let _ = &one.entries;
    let _ = &other.entries;
}
