//! Generating: commands are given to a desk one after another, and it is told what became of them.

ghost use Rattle.std.specs.Prelude.{ℕ, ◌≡◌, ◌+◌, ◌≤◌, [], true, IfOk, OnErr, OnOk, Result};
ghost use Rattle.law_generator.specs.Courses as spec;
ghost use Rattle.law_generator.specs.Courses.{AreJudgedWithin, HasGenerateCause, IsCut, IsReady, Sends};
ghost use Rattle.law_register.specs.Answer.Answers.{Answers};
ghost use Rattle.law_register.specs.Desk.States.{standing};
ghost use Rattle.law_register.specs.Law.Spelling.{is_well_spelled};
ghost use Rattle.law_register.specs.declared.answer.answer.Answer.{Answer};
ghost use Rattle.law_register.specs.declared.answer.queries.QueryRule.{QueryRule};

use crate::commanding::command_of;
use crate::draws::Draws;
use crate::names::work;
use crate::{GenerateFault, Generated};
use desk_base::{Day, Memory, Steps};
use law_register::{
    Answer, AskFault, Command, CommandFault, Desk, Drafter, Question, Reading, Reply,
};
use std::alloc::Global;
use std::sync::ledger::Ledger;

// Who sends the requests.
#[tactic(auto, unfolding(crate::specs::Courses::sender))]
fn sender(alloc: Global) -> Result<Drafter, Memory>
    ensures { IfOk result (λ drafter. drafter ≡ spec.sender) }
{
    Ok(Drafter::from_text(alloc, "gen")?.unwrap())
}

// What a command that ended so is to the run: one that is refused is done, too.
fn run_of(outcome: Result<Reply, CommandFault>) -> Result<(), GenerateFault>
    ensures { result ≡ spec.done_of outcome }
{
    match outcome {
        Ok(_) => Ok(()),
        Err(CommandFault::Rule(_)) => Ok(()),
        Err(CommandFault::KeeperFault) => Err(GenerateFault::KeeperFault),
        Err(CommandFault::Memory) => Err(GenerateFault::Memory),
    }
}

// Gives a desk the command of a request, whether it is accepted or refused.
fn send<D: Desk, L: Ledger>(
    alloc: Global,
    desk: &mut D,
    drafter: &Drafter,
    request: u64,
    command: Command,
    steps: &mut Steps<L>,
) -> Result<(), GenerateFault>
    requires drafter { drafter.now ≡ spec.sender }
    requires spelled { is_well_spelled command ≡ true }
    requires ready { IsReady (standing (D.state desk.old)) }
    ensures sent { Sends (standing (D.state desk.old)) (standing (D.state desk.new)) request command result }
    ensures cause { HasGenerateCause (D.state desk.old).faults (D.state desk.new).faults result }
    ensures steps { steps.new ≤ steps.old + spec.sending_cost (D.state desk.old).entries request command
        + spec.judging_sent (D.judging desk.old) (D.state desk.old).entries request command }
{
    let outcome = desk.command(alloc, drafter, request, command, steps);
    run_of(outcome)
}

// Gives a desk the requests of a seed, one after another.
#[tactic(auto, using(crate::proofs::Steps::course_none, crate::proofs::Steps::cut_first, crate::proofs::Steps::cut_at), unfolding(crate::specs::Courses::entries_of))]
fn send_all<D: Desk, L: Ledger>(
    alloc: Global,
    desk: &mut D,
    seed: u64,
    count: u16,
    steps: &mut Steps<L>,
) -> Result<(), GenerateFault>
    requires empty { (D.state desk.old).entries ≡ [] }
    requires ready { IsReady (standing (D.state desk.old)) }
    ensures entries { OnOk result ((D.state desk.new).entries ≡ spec.entries_of seed count) }
    ensures cut { OnErr result (IsCut seed count (D.state desk.new).entries) }
    ensures cause { HasGenerateCause (D.state desk.old).faults (D.state desk.new).faults result }
    ensures steps { (most : ℕ → ℕ) → AreJudgedWithin (λ (d : D). (D.state d).entries) D.judging seed most
        → steps.new ≤ steps.old + spec.course_cost most seed count }
{
    let drafter = sender(alloc)?;
    let mut draws = Draws { state: seed };
    for done in 0..count {
        let request = done as u64 + 1;
        let command = command_of(alloc, request, desk.front(), &mut draws)?;
        send(alloc, desk, &drafter, request, command, steps)?;
    }
    Ok(())
}

// The question for the act as it is in force on 2010-01-01, at a viewpoint.
#[tactic(auto, unfolding(crate::specs::Courses::question_at))]
fn question_at(alloc: Global, viewpoint: u32) -> Result<Question, Memory>
    ensures { IfOk result (λ question. question ≡ spec.question_at viewpoint) }
{
    Ok(Question {
        work: work(alloc)?,
        language: *b"eng",
        version: Some(Day::from_number(733_773).unwrap()),
        portion: None,
        viewpoint,
        reading: Reading::Force,
    })
}

// How many modifications an answer applies, and how many it could not apply; none where a rule refuses the question.
fn counts_of(told: Result<Answer, AskFault>) -> Result<(usize, usize), Memory>
    ensures applied { (answer : Result Answer QueryRule) → Answers told answer
        → IfOk result (λ counts. counts.0 ≡ spec.how_many_applied answer) }
    ensures unapplied { (answer : Result Answer QueryRule) → Answers told answer
        → IfOk result (λ counts. counts.1 ≡ spec.how_many_unapplied answer) }
{
    match told {
        Ok(answer) => {
            let applied = answer.applied.as_slice().len();
            let unapplied = answer.unapplied.as_slice().len();
            Ok((applied, unapplied))
        }
        Err(AskFault::Query(_)) => Ok((0, 0)),
        Err(AskFault::Memory) => Err(Memory),
    }
}

// How many modifications the text of the act on 2010-01-01 has, and how many it could not have.
#[tactic(auto, unfolding(crate::specs::Courses::applied_at, crate::specs::Courses::unapplied_at))]
fn asked<D: Desk>(alloc: Global, desk: &D) -> Result<(usize, usize), Memory>
    ensures applied { IfOk result (λ counts. counts.0 ≡ spec.applied_at (D.state desk.now).entries) }
    ensures unapplied { IfOk result (λ counts. counts.1 ≡ spec.unapplied_at (D.state desk.now).entries) }
{
    let question = question_at(alloc, desk.front())?;
    let told = desk.ask(alloc, &question);
    counts_of(told)
}

// What is told of so many requests that a desk was given.
#[tactic(auto, unfolding(crate::specs::Courses::told_of))]
fn told<D: Desk>(alloc: Global, desk: &D, commands: u16) -> Result<Generated, Memory>
    ensures { IfOk result (λ generated. generated ≡ spec.told_of commands (D.state desk.now).entries) }
{
    let (applied, unapplied) = asked(alloc, desk)?;
    Ok(Generated {
        commands,
        accepted: desk.register().len(),
        law: desk.front(),
        applied,
        unapplied,
    })
}

/// Gives an empty desk the requests of a seed, one after another, and tells what became of them. Its clock tells
/// 2000-01-01 at each call. A refused command leaves the register as it was, and the next request comes. After an error
/// the desk has the entries of the first requests. It takes no more steps than the commands of the requests
/// may, wherever the references that a desk judges for each of them are bounded.
#[tactic(auto, using(crate::proofs::Steps::cut_last, crate::proofs::Steps::told_is))]
pub fn generate<D: Desk, L: Ledger>(
    alloc: Global,
    desk: &mut D,
    seed: u64,
    count: u16,
    steps: &mut Steps<L>,
) -> Result<Generated, GenerateFault>
    requires empty { (D.state desk.old).entries ≡ [] }
    requires ready { IsReady (standing (D.state desk.old)) }
    ensures told { IfOk result (λ generated. generated ≡ spec.generated seed count) }
    ensures entries { OnOk result ((D.state desk.new).entries ≡ spec.entries_of seed count) }
    ensures cut { OnErr result (IsCut seed count (D.state desk.new).entries) }
    ensures cause { HasGenerateCause (D.state desk.old).faults (D.state desk.new).faults result }
    ensures steps { (most : ℕ → ℕ) → AreJudgedWithin (λ (d : D). (D.state d).entries) D.judging seed most
        → steps.new ≤ steps.old + spec.course_cost most seed count }
{
    send_all(alloc, desk, seed, count, steps)?;
    Ok(told(alloc, desk, count)?)
}
