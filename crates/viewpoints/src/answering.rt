//! Answering from tables: each is made once, at the first question for its work, viewpoint and reading.

ghost use Rattle.std.specs.Prelude.{◌≡◌, ◌+◌, ◌≤◌, false, slice_get, take, Some, IfOk, IsSome, OnOk};
ghost use Rattle.std.specs.Map.{keys_of};
ghost use Rattle.law_register.specs.Answer.Answers.{Answers, Judges};
ghost use Rattle.law_register.specs.Answer.Asking.{answer_at};
ghost use Rattle.law_register.specs.Provisions.Line.{line};
ghost use Rattle.law_register.specs.Register.KnownIds.{known_at};
ghost use Rattle.law_register.specs.Register.LawList.{laws};
ghost use Rattle.law_register.specs.Answer.PastAsking.{AreKeysAfter, keys_asked, making_cost, needs_table, past_cost, refusal};
ghost use Rattle.law_register.specs.Answer.PastKeys.{key_of};
ghost use Rattle.viewpoints.specs.Right.{IsRight, IsRightAt};

use crate::{PastKey, PastTable, PastTables, answer_replayed};
use desk_base::Steps;
use law_register::laws::{entries_are_legal, known_works_carry_nothing};
use law_register::{
    Answer, AskFault, Carrier, Dated, QueryRule, Question, Register, Replayer, answer_dated,
    known_at,
};
use std::alloc::Global;
use std::sync::ledger::Ledger;

// What is to be kept for a question, or the first rule that it breaks: no table is made where that can be judged without a text.
fn make_table<T: Dated, P: Replayer, H: Carrier, L: Ledger>(
    alloc: Global,
    replayer: &P,
    carrier: &H,
    register: &Register,
    question: &Question,
    steps: &mut Steps<L>,
) -> Result<PastTable<T>, AskFault>
    ensures judged { Judges result (refusal register.now.entries question.now) }
    ensures right { IfOk result
        (λ kept. IsRightAt T.version_on register.now.entries (key_of question.now) kept) }
    ensures steps { steps.new ≤ steps.old
        + making_cost (line (take question.now.viewpoint (laws register.now.entries))) question.now
        (known_at register.now.entries question.now.work question.now.viewpoint) }
{
    entries_are_legal(register);
    known_works_carry_nothing();
    let viewpoint = question.viewpoint;
    match known_at(alloc, register, &question.work, viewpoint)? {
        Some(known) => {
            question.judge(&known, known.front)?;
            let known = carrier.carry(alloc, register, viewpoint, known, steps)?;
            let table = T::make(alloc, replayer, &known, question.reading, steps)?;
            Ok(PastTable { known, table })
        }
        None => {
            let work = question.work.copy()?;
            Err(AskFault::Query(QueryRule::UnknownWork(work)))
        }
    }
}

impl<T: Dated + Drop> PastTables<T> {
    // Makes the table of a question the latest, unless the question breaks a rule that can be judged without a text.
    fn bring<P: Replayer, H: Carrier, L: Ledger>(
        &mut self,
        alloc: Global,
        replayer: &P,
        carrier: &H,
        register: &Register,
        question: &Question,
        steps: &mut Steps<L>,
    ) -> Result<(), AskFault>
        requires right { IsRight T.version_on register.now.entries self.old }
        requires dated { IsSome question.now.version }
        ensures judged { Judges result (refusal register.now.entries question.now) }
        ensures first { OnOk result (slice_get (keys_of self.new) 0 ≡ Some (key_of question.now)) }
        ensures right { IsRight T.version_on register.now.entries self.new }
        ensures keys { AreKeysAfter result (keys_of self.old)
            (keys_asked register.now.entries question.now (keys_of self.old)) (keys_of self.new) }
        ensures unmoved { needs_table register.now.entries question.now ≡ false → self.new ≡ self.old }
        ensures steps { steps.new ≤ steps.old + past_cost register.now.entries question.now (keys_of self.old) }
    {
        let key = PastKey::of(question)?;
        match self.kept(&key) {
            Some(kept) => {
                question.judge(&kept.known, register.front())?;
                self.renew(&key);
                Ok(())
            }
            None => {
                let made = make_table(alloc, replayer, carrier, register, question, steps)?;
                self.add(key, made)?;
                Ok(())
            }
        }
    }

    // The answer from the latest table, which is that of the question.
    fn answer_latest<P: Replayer>(
        &self,
        alloc: Global,
        replayer: &P,
        _register: &Register,
        question: &Question,
    ) -> Result<Answer, AskFault>
        requires right { IsRight T.version_on _register.now.entries self.now }
        requires dated { IsSome question.now.version }
        requires first { slice_get (keys_of self.now) 0 ≡ Some (key_of question.now) }
        ensures { Answers result (answer_at _register.now.entries question.now) }
    {
        match self.latest() {
            Some(kept) => answer_dated(alloc, replayer, &kept.known, &kept.table, question),
            None => unreachable!(),
        }
    }

    /// The answer to a question at its viewpoint, or the first rule that it breaks. Where a table is kept for its work, viewpoint and
    /// reading, nothing is replayed, and what is known of the work is not gathered again; else that table is made and kept, in one
    /// step at most for each id that is applied. A question without the day of a version is answered from the act as enacted, in no
    /// step, and leaves what is kept as it is; so does one that breaks a rule which can be judged without a text.
    pub fn answer_past<P: Replayer, H: Carrier, L: Ledger>(
        &mut self,
        alloc: Global,
        replayer: &P,
        carrier: &H,
        register: &Register,
        question: &Question,
        steps: &mut Steps<L>,
    ) -> Result<Answer, AskFault>
        requires { IsRight T.version_on register.now.entries self.old }
        ensures answer { Answers result (answer_at register.now.entries question.now) }
        ensures right { IsRight T.version_on register.now.entries self.new }
        ensures keys { AreKeysAfter result (keys_of self.old)
            (keys_asked register.now.entries question.now (keys_of self.old)) (keys_of self.new) }
        ensures unmoved { needs_table register.now.entries question.now ≡ false → self.new ≡ self.old }
        ensures steps { steps.new ≤ steps.old + past_cost register.now.entries question.now (keys_of self.old) }
    {
        match question.version {
            Some(_) => {
                self.bring(alloc, replayer, carrier, register, question, steps)?;
                self.answer_latest(alloc, replayer, register, question)
            }
            None => {
                entries_are_legal(register);
                answer_replayed(alloc, replayer, carrier, register, question, steps)
            }
        }
    }
}
