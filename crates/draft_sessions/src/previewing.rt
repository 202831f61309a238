//! Previewing: a drafter's draft, and the answer by what is known with it.

ghost use Rattle.std.specs.Prelude.{◌≡◌, ◌+◌, ◌≤◌, IfOk, IfSome, IsSome, length};
ghost use Rattle.law_register.specs.Answer.Answers.{Answers, answer_on};
ghost use Rattle.law_register.specs.Answer.Costs.{bearing_by};
ghost use Rattle.law_register.specs.Answer.Previewing.{preview_at, previewing_at};
ghost use Rattle.law_register.specs.Answer.Previews.{known_previewed, law_previewed, question_by, with_items};
ghost use Rattle.law_register.specs.Answer.Soundness.{IsSound};
ghost use Rattle.law_register.specs.Answer.Standing.{alone};
ghost use Rattle.law_register.specs.Provisions.Carrying.{carrying};
ghost use Rattle.law_register.specs.Provisions.Costs.{held_cost};
ghost use Rattle.law_register.specs.Provisions.Line.{line};
ghost use Rattle.law_register.specs.Register.Drafts.{draft_of as items_drafted};
ghost use Rattle.law_register.specs.Register.LawList.{laws};

use desk_base::{Memory, Steps};
use frbr_names::WorkName;
use law_register::laws::known_works_carry_nothing;
use law_register::preview_laws::{previews_add_items, previews_are_sound};
use law_register::{
    Answer, AskFault, Carrier, Draft, Drafter, Known, Question, Register, Replayer, answer_by,
    known_at,
};
use std::alloc::Global;
use std::sync::ledger::Ledger;

/// The items of a drafter's draft, in order.
pub fn draft_of(alloc: Global, register: &Register, drafter: &Drafter) -> Result<Draft, Memory>
    ensures { IfOk result (λ draft. draft ≡ items_drafted drafter.now register.now.entries) }
{
    register.draft(alloc, drafter)
}

// What is known of a work once one more law entry records these items in it; without items, what was known.
fn with_items(alloc: Global, known: Known, items: Draft) -> Result<Known, Memory>
    requires few { length items ≤ 64 }
    requires front { known.front ≤ 65535 }
    ensures { IfOk result (λ all. all ≡ with_items items known) }
{
    let mut known = known;
    let bodies = items.into_bodies(alloc)?;
    if !bodies.as_slice().is_empty() {
        known.record(bodies)?;
    }
    Ok(known)
}

// What a drafter's preview knows of a work by itself: what the whole register knows of it, with the items of his draft that modify it.
fn known_previewed(
    alloc: Global,
    register: &Register,
    drafter: &Drafter,
    work: &WorkName,
) -> Result<Option<Known>, Memory>
    ensures known { IfOk result
        (λ known. known ≡ known_previewed register.now.entries drafter.now work.now) }
    ensures alone { IfOk result (λ known. IfSome known (λ one. alone one ≡ one)) }
    ensures sound { IfOk result (λ known. IfSome known IsSound) }
{
    known_works_carry_nothing();
    previews_add_items(register, drafter, work);
    previews_are_sound(register, drafter, work);
    match known_at(alloc, register, work, register.front())? {
        Some(known) => {
            let items = register.draft_on(alloc, drafter, work)?;
            Ok(Some(with_items(alloc, known, items)?))
        }
        None => Ok(None),
    }
}

// A question at a viewpoint.
fn question_at(question: &Question, viewpoint: u32) -> Result<Question, Memory>
    ensures { IfOk result (λ asked. asked ≡ record question.now { viewpoint = viewpoint }) }
{
    let mut asked = question.copy()?;
    asked.viewpoint = viewpoint;
    Ok(asked)
}

// The answer to a question by what is known of its work, with what that carries by the law of a register.
fn answer_held<P: Replayer, H: Carrier, L: Ledger>(
    alloc: Global,
    replayer: &P,
    carrier: &H,
    register: &Register,
    known: Known,
    question: &Question,
    steps: &mut Steps<L>,
) -> Result<Answer, AskFault>
    requires alone { alone known ≡ known }
    requires sound { IsSound known }
    ensures answer { Answers result (answer_on (carrying (line (laws register.now.entries)) known) question.now) }
    ensures steps { steps.new ≤ steps.old + (held_cost (line (laws register.now.entries)) known
        + bearing_by question.now (carrying (line (laws register.now.entries)) known)) }
{
    let held = carrier.carry(alloc, register, register.front(), known, steps)?;
    answer_by(alloc, replayer, Some(&held), question, steps)
}

/// What a version of a work will say once a drafter's draft of the work is filed, or the first rule that the question breaks. The
/// viewpoint of the question is not read: it is answered at one law entry more than there are, which records the items of the draft and
/// is not judged, or at the front where there are none. It takes one step at most for each id that is applied, to find what the work carries
/// and for the version. Of the register it copies what is known of the work, and those items.
pub fn preview<P: Replayer, H: Carrier, L: Ledger>(
    alloc: Global,
    replayer: &P,
    carrier: &H,
    register: &Register,
    drafter: &Drafter,
    question: &Question,
    steps: &mut Steps<L>,
) -> Result<Answer, AskFault>
    requires { IsSome question.now.version }
    ensures answer { Answers result (preview_at register.now.entries drafter.now question.now) }
    ensures steps { steps.new ≤ steps.old + previewing_at register.now.entries drafter.now question.now }
{
    match known_previewed(alloc, register, drafter, &question.work)? {
        Some(known) => {
            let asked = question_at(question, known.viewpoint)?;
            answer_held(alloc, replayer, carrier, register, known, &asked, steps)
        }
        None => answer_by(alloc, replayer, None, question, steps),
    }
}
