//! Answering from what is kept of a work, at the front and ahead of it. Nothing is replayed: what is known of the work by itself says the
//! flags, and its tables have the texts.

ghost use Rattle.std.specs.Prelude.{◌≡◌, ◌≤◌, Some};
ghost use Rattle.law_register.specs.Answer.Answers.{Answers, answer_of_text};
ghost use Rattle.law_register.specs.Answer.Asking.{answer_at};
ghost use Rattle.law_register.specs.Answer.Replay.{as_enacted};
ghost use Rattle.law_register.specs.Provisions.Carrying.{held_now};
ghost use Rattle.law_register.specs.Register.KnownNext.{bare};
ghost use Rattle.law_register.specs.Register.LawList.{front as front_of};
ghost use Rattle.version_cache.specs.Answering.{answer_kept};
ghost use Rattle.version_cache.specs.Seen.{work_view};
ghost use Rattle.version_cache.specs.Tables.{version_on};
ghost use Rattle.version_cache.specs.Works as works;

use crate::WorkTables;
use desk_base::Day;
use law_register::laws::entries_are_legal;
use law_register::{Answer, AskFault, Days, Known, KnownMods, Question, Register, Replayer};
use std::alloc::Global;

impl WorkTables {
    // The answer to a question about the version of a day.
    fn answer_version<P: Replayer>(
        &self,
        alloc: Global,
        replayer: &P,
        _register: &Register,
        question: &Question,
        day: Day,
    ) -> Result<Answer, AskFault>
        requires day { question.now.version ≡ Some day }
        requires right { works.IsForIf (held_now _register.now.entries question.now.work) (work_view self.now) }
        ensures { Answers result (answer_of_text self.now.known
            (version_on (works.table_in question.now.reading (work_view self.now)) day) question.now) }
    {
        let version = self.on(question.reading, day);
        replayer.answer_text(alloc, &self.known, version, question)
    }

    // The answer to a question about the act as enacted.
    fn answer_enacted<P: Replayer>(
        &self,
        alloc: Global,
        replayer: &P,
        _register: &Register,
        question: &Question,
    ) -> Result<Answer, AskFault>
        requires { works.IsForIf (held_now _register.now.entries question.now.work) (work_view self.now) }
        ensures { Answers result
            (answer_of_text (bare self.now.known) (as_enacted self.now.known.act) question.now) }
    {
        let known = Known {
            act: self.known.act.copy()?,
            enacted: self.known.enacted,
            viewpoint: self.known.enacted,
            front: self.known.front,
            mods: KnownMods::new(alloc),
            source_days: Days::new(alloc),
        };
        replayer.answer_text(alloc, &known, self.enacted(), question)
    }

    fn answer_kept<P: Replayer>(
        &self,
        alloc: Global,
        replayer: &P,
        register: &Register,
        question: &Question,
    ) -> Result<Answer, AskFault>
        requires { works.IsForIf (held_now register.now.entries question.now.work) (work_view self.now) }
        ensures { Answers result (answer_kept (work_view self.now) (front_of register.now.entries) question.now) }
    {
        question.judge(&self.known, register.front())?;
        match question.version {
            Some(day) => self.answer_version(alloc, replayer, register, question, day),
            None => self.answer_enacted(alloc, replayer, register, question),
        }
    }

    /// The answer to a question at the front or ahead of it, or the first rule that it breaks, from what is kept of its work. Nothing
    /// is replayed.
    pub fn answer<P: Replayer>(
        &self,
        alloc: Global,
        replayer: &P,
        register: &Register,
        question: &Question,
    ) -> Result<Answer, AskFault>
        requires ahead { front_of register.now.entries ≤ question.now.viewpoint }
        requires right { works.IsForIf (held_now register.now.entries question.now.work) (work_view self.now) }
        ensures { Answers result (answer_at register.now.entries question.now) }
    {
        entries_are_legal(register);
        self.answer_kept(alloc, replayer, register, question)
    }
}
