//! Answering: a question by what is known of its work, replayed for it or from versions that are kept.

ghost use Rattle.std.specs.Prelude.{◌≡◌, ◌+◌, ◌≤◌, ℕ, option_map, IfSome};
ghost use Rattle.law_register.specs.Answer.Answers.{Answers, answer_on};
ghost use Rattle.law_register.specs.Answer.Asking as asking;
ghost use Rattle.law_register.specs.Answer.Costs.{bearing_by, bearing_for};
ghost use Rattle.law_register.specs.Answer.Replay.{replay_on};
ghost use Rattle.law_register.specs.Answer.Soundness.{IsSound};

use crate::{Answer, AskFault, Dated, Known, QueryRule, Question, Replayer};
use desk_base::Steps;
use std::alloc::Global;
use std::sync::ledger::Ledger;

// The answer by what is known. The first rule is judged before anything is replayed.
#[tactic(auto, unfolding(crate::specs::Answer::Answers::answer_on))]
fn answer_replayed<P: Replayer, L: Ledger>(
    alloc: Global,
    replayer: &P,
    known: &Known,
    question: &Question,
    steps: &mut Steps<L>,
) -> Result<Answer, AskFault>
    requires { IsSound known.now }
    ensures answer { Answers result (answer_on known.now question.now) }
    ensures steps { steps.new ≤ steps.old + bearing_by question.now known.now }
{
    question.judge(known, known.front)?;
    let day = question.asked_day(&known.act);
    let version = replayer.replay(alloc, known, question.reading, day, steps)?;
    let told = replayer.answer_text(alloc, known, &version, question);
    drop(version);
    told
}

/// The answer to a question by what is known of its work, or the first rule that it breaks; `None`: nothing is known of it. Its
/// version is replayed, which takes one step at most for each modification that bears, and none where a rule is broken that can be
/// judged without a text.
pub fn answer_by<P: Replayer, L: Ledger>(
    alloc: Global,
    replayer: &P,
    known: Option<&Known>,
    question: &Question,
    steps: &mut Steps<L>,
) -> Result<Answer, AskFault>
    requires { IfSome (option_map (λ known. known.now) known) IsSound }
    ensures answer { Answers result
        (asking.answer_by question.now (option_map (λ known. known.now) known.entry)) }
    ensures steps { steps.new ≤ steps.old + bearing_for question.now (option_map (λ known. known.now) known.entry) }
{
    match known {
        Some(known) => answer_replayed(alloc, replayer, known, question, steps),
        None => {
            let work = question.work.copy()?;
            Err(AskFault::Query(QueryRule::UnknownWork(work)))
        }
    }
}

/// The answer to a question by what is known of its work, or the first rule that it breaks, from versions that are right for that
/// in the question's reading. The version is lent, nothing is replayed, and no step is taken.
#[tactic(auto, unfolding(crate::specs::Answer::Answers::answer_on))]
pub fn answer_dated<P: Replayer, D: Dated>(
    alloc: Global,
    replayer: &P,
    known: &Known,
    dated: &D,
    question: &Question,
) -> Result<Answer, AskFault>
    requires { (day : ℕ) → D.version_on dated.now day ≡ replay_on known.now question.now.reading day }
    ensures { Answers result (answer_on known.now question.now) }
{
    question.judge(known, known.front)?;
    let day = question.asked_day(&known.act);
    replayer.answer_text(alloc, known, dated.on(day), question)
}
