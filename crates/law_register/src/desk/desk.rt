//! Desk: who takes commands and answers questions. A clause sees its entries, the one that is pending, the marks of
//! faults, its keeper's count of faults, the days that its clock tells, the names of what it was lent, what a crash leaves
//! of it, of which past viewpoints it keeps tables, and how many references it judges for an entry.

ghost use Rattle.std.specs.Prelude.{ℕ, ◌≡◌, ◌+◌, ◌<◌, ◌≤◌, true, List, IfOk, IsSome};
ghost use Rattle.desk_base.specs.Crashes.{AreCrashes, Crashes};
ghost use Rattle.law_register.specs.Answer.Answers.{Answers};
ghost use Rattle.law_register.specs.Answer.Asking.{answer_at};
ghost use Rattle.law_register.specs.Answer.PastAsking.{AreKeysAfter, keys_asked, past_cost};
ghost use Rattle.law_register.specs.Answer.Previewing.{preview_at, previewing_at};
ghost use Rattle.law_register.specs.Desk.Commands.{EndsWithin, HasCommandCause, LeavesBetween, LeavesNoMore, mark_of, marks_after};
ghost use Rattle.law_register.specs.Desk.History.{history_of};
ghost use Rattle.law_register.specs.Desk.States.{DeskState, Found, IsDurable, IsSound, standing};
ghost use Rattle.law_register.specs.Law.Spelling.{is_well_spelled};
ghost use Rattle.law_register.specs.Register.Drafts.{draft_of};
ghost use Rattle.law_register.specs.Register.LawList.{front};
ghost use Rattle.law_register.specs.declared.answer.past_key.PastKey.{PastKey};
ghost use Rattle.law_register.specs.declared.register.entry.Entry.{Entry};

use crate::{
    Answer, AskFault, Command, CommandFault, Draft, Drafter, Event, Question, Register, Reply,
};
use desk_base::{Memory, Steps};
use std::alloc::Global;
use std::sync::ledger::Ledger;
use turn_lock::Held;

/// A register that takes commands and answers questions. Whatever keeps its entries may fail: then the entry of a
/// command is pending until the next command finds out whether it was kept.
pub trait Desk: Held<Item = Event> {
    /// What contracts alone see of it.
    ghost state: { Self → DeskState };

    /// What is found after a crash, where its keeper tells it.
    ghost crashes: { Self → Crashes Found };

    /// The keys of the tables that it keeps of past viewpoints, the latest first.
    ghost past: { Self → List PastKey };

    /// How many references it judges anew at most for an entry that comes to stand behind entries.
    ghost judging: { Self → List Entry → Entry → ℕ };

    /// Does a well-spelled command of a drafter's request. First a pending entry is settled, then the clock is asked
    /// once for the day, then the command is judged: a repeat gets the first reply, and one that is accepted becomes
    /// an entry of that day, once the keeper has it. Where the keeper fails, the command leaves a mark. It takes one step
    /// at most for each id that is applied to keep the versions of the works that its entry touches up to date, one for
    /// each reference that is judged anew, and none where it is refused, is a repeat, or is not judged.
    fn command<L: Ledger>(
        &mut self,
        alloc: Global,
        drafter: &Drafter,
        request: u64,
        command: Command,
        steps: &mut Steps<L>,
    ) -> Result<Reply, CommandFault>
        requires { is_well_spelled command ≡ true }
        ensures outcome { EndsWithin drafter.now request command
            (standing (state self.old)) (standing (state self.new)) (judging self.old) steps.old steps.new result }
        ensures marks { (state self.new).marks ≡ marks_after (state self.old).marks
            (mark_of drafter.now request (state self.new).entries) result }
        ensures cause { HasCommandCause (state self.old).faults (state self.new).faults result }
        ensures crash { LeavesBetween (state self.old) (state self.new) (crashes self.old) (crashes self.new) }
        ensures sound { IsSound (state self.new) }
        ensures durable { IsDurable (state self.new) (crashes self.new) }
        ensures origin { (state self.new).origin ≡ (state self.old).origin }
        ensures past { past self.new ≡ past self.old };

    /// The answer to a question at the front or ahead of it, or the first rule that it breaks. An entry that is
    /// pending is not seen. Nothing is replayed.
    fn ask(&self, alloc: Global, question: &Question) -> Result<Answer, AskFault>
        requires { front (state self.now).entries ≤ question.now.viewpoint }
        ensures { Answers result (answer_at (state self.now).entries question.now) };

    /// The answer to a question at a viewpoint before the front, or the first rule that it breaks. An entry that is
    /// pending is not seen. Where a table is kept for its work, viewpoint and reading, or it has no day of a version, no
    /// step is taken; else one at most for each id that is applied to make that table.
    fn ask_past<L: Ledger>(
        &mut self,
        alloc: Global,
        question: &Question,
        steps: &mut Steps<L>,
    ) -> Result<Answer, AskFault>
        requires { question.now.viewpoint < front (state self.old).entries }
        ensures answer { Answers result (answer_at (state self.old).entries question.now) }
        ensures same { state self.new ≡ state self.old }
        ensures crash { LeavesNoMore (crashes self.old) (crashes self.new) }
        ensures keys { AreKeysAfter result (past self.old)
            (keys_asked (state self.old).entries question.now (past self.old)) (past self.new) }
        ensures steps { steps.new ≤ steps.old + past_cost (state self.old).entries question.now (past self.old) };

    /// What a version of a work will say once a drafter's draft of the work is filed, or the first rule that the question
    /// breaks: the answer at one law entry more than there are, or at the front where the draft has nothing of the work.
    /// The viewpoint of the question is not read. An entry that is pending is not seen, nor is any other drafter's
    /// draft. It takes one step at most for each modification that bears.
    fn preview<L: Ledger>(
        &self,
        alloc: Global,
        drafter: &Drafter,
        question: &Question,
        steps: &mut Steps<L>,
    ) -> Result<Answer, AskFault>
        requires { IsSome question.now.version }
        ensures answer { Answers result (preview_at (state self.now).entries drafter.now question.now) }
        ensures steps { steps.new ≤ steps.old + previewing_at (state self.now).entries drafter.now question.now };

    /// The items of a drafter's draft, in order. An entry that is pending is not seen.
    fn draft(&self, alloc: Global, drafter: &Drafter) -> Result<Draft, Memory>
        ensures { IfOk result (λ draft. draft ≡ draft_of drafter.now (state self.now).entries) };

    /// How many law entries there are.
    fn front(&self) -> u32
        ensures { result ≡ front (state self.now).entries };

    /// The register, without an entry that is pending.
    fn register(&self) -> &Register
        ensures entries { result.now.entries ≡ (state self.now).entries }
        ensures sound { IsSound (state self.now) }
        ensures durable { IsDurable (state self.now) (crashes self.now) };

    /// What holds of each: this moment is one of those since an earlier one.
    ghost are_crashes: { (desk : Self) → AreCrashes (crashes desk) };

    // Its history is that of its entries and its marks.
    ghost history_is: { (desk : Self) → Self.history desk ≡ history_of (state desk) };

    // Its origin is the names of what it was lent.
    ghost origin_is: { (desk : Self) → Self.origin desk ≡ (state desk).origin };
}
