//! Office: a desk over a keeper and a clock that it is lent. A clause sees both as they are, its entries, the one
//! that is pending, its marks, the keys of what it keeps of past viewpoints, its index of references now and once the pending
//! entry stands behind the others, its keeper's count of faults when it was made, and where it comes from.

ghost use Rattle.std.specs.Prelude.{◌≡◌, ◌≢◌, ◌↔◌, ◌+◌, ◌<◌, ◌≤◌, [], true, None, Some, Ok, IfOk, IfErr, IfSome, IsTrue, is_some};
ghost use Rattle.law_keeper.specs.Keepers.{Keeps, LeavesOldOrSame};
ghost use Rattle.law_keeper.specs.declared.readiness.Readiness.TheVariants.{Ready, Unopened};
ghost use Rattle.law_register.specs.Answer.Answers.{Answers};
ghost use Rattle.law_register.specs.Answer.Asking.{answer_at};
ghost use Rattle.law_register.specs.Answer.PastAsking.{AreKeysAfter, keys_asked, past_cost};
ghost use Rattle.law_register.specs.Answer.Renewing.{opening_cost};
ghost use Rattle.law_register.specs.Desk.Commands.{EndsWithin, HasCommandCause, LeavesBetween, LeavesNoMore, mark_of, marks_after};
ghost use Rattle.law_register.specs.Desk.History.{history_of};
ghost use Rattle.law_register.specs.Desk.States.{Found, IsDurable, IsFoundOf, IsSound, standing};
ghost use Rattle.law_register.specs.Law.Spelling.{is_well_spelled};
ghost use Rattle.law_register.specs.Provisions.Carrying.{held_now};
ghost use Rattle.law_register.specs.Register.LawList.{front};
ghost use Rattle.law_register.specs.declared.register.known.Known.{Known as KnownValue};
ghost use Rattle.std.specs.Map.{keys_of};
ghost use Rattle.law_refs.specs.Handing.{judged_at_opening};
ghost use Rattle.law_refs.specs.Missing.{IsDangling};
ghost use Rattle.law_refs.specs.OfRegister.{IsIndexOf};
ghost use Rattle.version_cache.specs.Seen.{table_view};
ghost use Rattle.version_cache.specs.Tables as tables;
ghost use Rattle.law_office.specs.Crashing.{crashes_of};
ghost use Rattle.law_office.specs.Lists.{EndsOver};
ghost use Rattle.law_office.specs.Offices.{HoldsBook, IsRight, RoseWith, Spells, desk_of, judging_in, later_of, names_of, origin_of, pending_of};
ghost use Rattle.law_office.specs.Opening.{HasRefusalCause, Refuses, StaysUnlessFailed, cost_opened, opened_of};

use crate::acting::command as do_command;
use crate::book::Book;
use crate::sent::Sent;
use desk_base::laws::day_is_numbered;
use desk_base::{Clock, Day, Memory, Steps};
use draft_sessions::{draft_of, preview};
use frbr_names::WorkName;
use held_provisions::FromLine;
use law_keeper::Keeper;
use law_refs::Dangling;
use law_refs::laws::what_dangles_is_listed;
use law_register::laws::entries_are_legal;
use law_register::{
    Answer, AskFault, Command, CommandFault, Desk, Draft, Drafter, Event, FaultMark, OpenFault,
    QueryRule, Question, Reading, Register, Reply,
};
use replay_core::FromEnacted;
use std::alloc::Global;
use std::marker::Model;
use std::snapshot::Snapshot;
use std::sync::ledger::Ledger;
use turn_lock::Held;
use version_cache::Table;

/// A keeper of which no office could be opened, and why.
#[derive(Drop)]
pub struct OpenRefused<'k, 'c, K: Keeper, C: Clock> {
    /// The keeper.
    pub keeper: &'k mut K,
    /// The clock, which was asked nothing.
    pub clock: &'c mut C,
    /// Why.
    pub fault: OpenFault,
}

/// What an office was lent, which it gives back when it is closed.
#[derive(Drop)]
pub struct Closed<'k, 'c, K: Keeper, C: Clock> {
    /// The keeper.
    pub keeper: &'k mut K,
    /// The clock.
    pub clock: &'c mut C,
}

/// A desk whose entries a keeper keeps.
#[derive(Drop)]
pub struct Office<'k, 'c, K: Keeper, C: Clock> {
    keeper: &'k mut K,
    clock: &'c mut C,
    book: Book,
    // The keeper as it was when the office was made.
    opened: Snapshot<K>,
}

impl<'k, 'c, K: Keeper, C: Clock> Model for Office<'k, 'c, K, C> {
    ghost use Rattle.std.specs.Map.{keys_of};
    ghost use Rattle.law_office.specs.Offices.{HoldsBook, IsMarked, IsRight, OfficeState, RoseWith, later_of, origin_of, pending_of};

    ghost Value = { OfficeState K C };

    ghost use Rattle.std.specs.Coded.{Coded, code_by, coded×, coded_ℕ, coded_list, codes};
    ghost use Rattle.act_tree.specs.Codes.{branches_code};
    ghost use Rattle.act_tree.specs.OwnCode.{own_code};

    ghost coded = { Prim.hlevel (codes, branches_code own_code) };

    ghost view = { λ o. record {
      keeper = o.keeper.now;
      clock = o.clock.now;
      entries = o.book.register.entries;
      pending = pending_of o.book.pending;
      marks = o.book.marks.items;
      past = keys_of o.book.past;
      refs = o.book.refs;
      later = later_of o.book.refs o.book.pending;
      opened = K.faults o.opened.value;
      origin = origin_of o.keeper.ghost_name o.clock.ghost_name (K.faults o.opened.value);
    } };

    ghost invariant = { λ o. IsRight o.book
        × HoldsBook (K.holding o.keeper.now) (K.readiness o.keeper.now) o.book
        × IsMarked (pending_of o.book.pending) o.book.marks.items
        × RoseWith o.book.marks.items (K.faults o.opened.value) (K.faults o.keeper.now) };
}

impl<'k, 'c, K: Keeper, C: Clock> Office<'k, 'c, K, C> {
    /// Opens a keeper, and the office of what it has. A refusal gives keeper and clock back, and the clock was
    /// asked nothing. No payload changes, and a crash at any moment leaves a list that it could leave before, or the
    /// list itself. It takes one step at most for each id that is applied to make what is kept of the enacted works, and one for each
    /// reference of their texts.
    pub fn open<L: Ledger>(
        alloc: Global,
        keeper: &'k mut K,
        clock: &'c mut C,
        steps: &mut Steps<L>,
    ) -> Result<Office<'k, 'c, K, C>, OpenRefused<'k, 'c, K, C>>
        ensures opened { (K.holding keeper.old).tells
            → IfOk result (λ office. opened_of (K.holding keeper.old).list ≡ Ok office.entries) }
        ensures refused { (K.holding keeper.old).tells
            → IfErr result (λ refused. Refuses refused.fault (opened_of (K.holding keeper.old).list)) }
        ensures same_refused { IfErr result (λ refused. Keeps (K.holding keeper.old) (K.holding refused.keeper.now)) }
        ensures crash_refused { IfErr result (λ refused.
            LeavesOldOrSame (K.holding keeper.old) (K.holding refused.keeper.now)) }
        ensures cause_refused { IfErr result (λ refused.
            HasRefusalCause (K.faults keeper.old) (K.faults refused.keeper.now) refused.fault) }
        ensures stays_refused { (K.holding keeper.old).tells → IfErr result (λ refused.
            StaysUnlessFailed (K.faults keeper.old) (K.faults refused.keeper.now) refused.fault) }
        ensures clock_refused { IfErr result (λ refused. refused.clock.now ≡ clock.old) }
        ensures names_refused { IfErr result (λ refused.
            names_of refused.keeper.ghost_name refused.clock.ghost_name
            ≡ names_of keeper.entry.ghost_name clock.entry.ghost_name) }
        ensures pending { IfOk result (λ office. office.pending ≡ None) }
        ensures marks { IfOk result (λ office. office.marks ≡ []) }
        ensures same { IfOk result (λ office. Keeps (K.holding keeper.old) (K.holding office.keeper)) }
        ensures crash { IfOk result (λ office. LeavesOldOrSame (K.holding keeper.old) (K.holding office.keeper)) }
        ensures faults { IfOk result (λ office. K.faults office.keeper ≡ K.faults keeper.old) }
        ensures clock { IfOk result (λ office. office.clock ≡ clock.old) }
        ensures count { IfOk result (λ office. office.opened ≡ K.faults keeper.old) }
        ensures origin { IfOk result (λ office. office.origin
            ≡ origin_of keeper.entry.ghost_name clock.entry.ghost_name (K.faults keeper.old)) }
        ensures past { IfOk result (λ office. office.past ≡ []) }
        ensures refs { IfOk result (λ office. IsIndexOf office.entries office.refs) }
        ensures later { IfOk result (λ office. office.later ≡ None) }
        ensures steps { (K.holding keeper.old).tells
            → steps.new ≤ steps.old + cost_opened (opened_of (K.holding keeper.old).list) }
        ensures steps_opened { IfOk result (λ office. steps.new ≤ steps.old
            + (opening_cost office.entries + judged_at_opening office.entries)) }
    {
        match Book::open(alloc, keeper, steps) {
            Ok(book) => Ok(Office::new(keeper, clock, book)),
            Err(fault) => Err(OpenRefused {
                keeper,
                clock,
                fault,
            }),
        }
    }

    /// The office of a book that was just opened, and that the keeper holds. It takes no memory.
    pub fn new(keeper: &'k mut K, clock: &'c mut C, book: Book) -> Office<'k, 'c, K, C>
        requires right { IsRight book }
        requires held { HoldsBook (K.holding keeper.old) (K.readiness keeper.old) book }
        requires none_pending { book.pending ≡ None }
        requires no_marks { book.marks.items ≡ [] }
        ensures entries { result.entries ≡ book.register.entries }
        ensures pending { result.pending ≡ pending_of book.pending }
        ensures marks { result.marks ≡ book.marks.items }
        ensures past { result.past ≡ keys_of book.past }
        ensures refs { result.refs ≡ book.refs }
        ensures later { result.later ≡ later_of book.refs book.pending }
        ensures keeper { result.keeper ≡ keeper.old }
        ensures clock { result.clock ≡ clock.old }
        ensures count { result.opened ≡ K.faults keeper.old }
        ensures origin { result.origin
            ≡ origin_of keeper.entry.ghost_name clock.entry.ghost_name (K.faults keeper.old) }
    {
        let opened = Snapshot::of(&*keeper);
        Office {
            keeper,
            clock,
            book,
            opened,
        }
    }

    /// Gives keeper and clock back, which its origin names. The keeper's list spells the entries, with the one that is
    /// pending behind them or not, and that list, and what a crash leaves of it, is opened so. The keeper's count of
    /// faults rose by one for each mark since the office was made.
    pub fn close(self) -> Closed<'k, 'c, K, C>
        ensures keeper { result.keeper.now ≡ self.entry.keeper }
        ensures clock { result.clock.now ≡ self.entry.clock }
        ensures names { origin_of result.keeper.ghost_name result.clock.ghost_name self.entry.opened
            ≡ self.entry.origin }
        ensures faults { RoseWith self.entry.marks self.entry.opened (K.faults result.keeper.now) }
        ensures list { (K.holding result.keeper.now).tells → Spells self.entry.entries self.entry.pending
            (K.holding result.keeper.now).list }
        ensures found { (K.holding result.keeper.now).tells → IsFoundOf self.entry.entries self.entry.pending
            (opened_of (K.holding result.keeper.now).list) }
        ensures durable { let crashes = crashes_of (K.holding result.keeper.now) in
            crashes.tells → (found : Found) → crashes.may_leave found
            → IsFoundOf self.entry.entries self.entry.pending found }
    {
        let Office {
            keeper,
            clock,
            book,
            opened: _,
        } = self;
        drop(book);
        Closed { keeper, clock }
    }

    /// What stands between an office and its keeper at each moment between two calls. The keeper's list spells the
    /// entries, with the one that is pending behind them or not; the keeper was opened, and is ready where none is.
    pub fn holds_entries(&self)
        ensures list { (K.holding self.now.keeper).tells
            → Spells self.now.entries self.now.pending (K.holding self.now.keeper).list }
        ensures ready { self.now.pending ≡ None → K.readiness self.now.keeper ≡ Ready }
        ensures opened { K.readiness self.now.keeper ≢ Unopened }
    {
        let _ = &self.book;
    }

    /// The marks of the commands that a fault of the keeper answered, in their order. It takes no memory.
    pub fn marks(&self) -> &[FaultMark]
        ensures { result.now ≡ self.now.marks }
    {
        self.book.marks.as_slice()
    }

    /// The table of a work in a reading: its versions by day, as they are known at the front. `None`: no law entry enacts the work. It
    /// takes no memory.
    pub fn table(&self, work: &WorkName, reading: Reading) -> Option<&Table>
        ensures found { is_some result ≡ is_some (held_now self.now.entries work.now) }
        ensures reading { IfSome result (λ table. (table_view table.now).reading ≡ reading) }
        ensures right { IfSome result (λ table. (known : KnownValue) → held_now self.now.entries work.now ≡ Some known
            → tables.IsRight known (table_view table.now)) }
    {
        match self.book.tables.get(work) {
            Some(kept) => Some(kept.table(reading)),
            None => None,
        }
    }

    /// The references that dangle on a day: those of the text in force whose target breaks a rule, of each work whose act's day has
    /// come. An entry that is pending is not seen.
    pub fn dangling(&self, alloc: Global, day: Day) -> Result<Dangling, Memory>
        ensures { IfOk result (λ found. IsDangling self.now.entries day found) }
    {
        day_is_numbered(day);
        what_dangles_is_listed(&self.book.refs);
        self.book.refs.dangling(alloc, day)
    }

    /// Whether some command was answered by a fault of the keeper.
    pub fn faulted(&self) -> bool
        ensures { IsTrue result ↔ (self.now.marks ≢ []) }
    {
        !self.book.marks.is_empty()
    }
}

// The refusal of a question for a work that is not known.
#[tactic(auto, unfolding(law_register::specs::Answer::Asking::answer_at))]
fn refuse_unknown(register: &Register, question: &Question) -> Result<Answer, AskFault>
    requires unknown { held_now register.now.entries question.now.work ≡ None }
    requires ahead { front register.now.entries ≤ question.now.viewpoint }
    ensures { Answers result (answer_at register.now.entries question.now) }
{
    entries_are_legal(register);
    let work = question.work.copy()?;
    Err(AskFault::Query(QueryRule::UnknownWork(work)))
}

impl<'k, 'c, K: Keeper, C: Clock> Held for Office<'k, 'c, K, C> {
    type Item = Event;

    ghost use Rattle.law_register.specs.Desk.History.{history_of};
    ghost use Rattle.law_office.specs.Offices.{desk_of};

    ghost history = { λ office. history_of (desk_of K.faults C.days office) };

    ghost origin = { λ office. office.origin };

    fn count(&self) -> u64 {
        self.book.count()
    }
}

impl<'k, 'c, K: Keeper, C: Clock> Desk for Office<'k, 'c, K, C> {
    ghost use Rattle.std.proofs.Common.{refl};
    ghost use Rattle.law_office.specs.Crashing.{crashes_are, crashes_of};
    ghost use Rattle.law_office.specs.Offices.{desk_of, judging_in};

    ghost state = { λ office. desk_of K.faults C.days office };

    ghost crashes = { λ office. crashes_of (K.holding office.keeper) };

    ghost past = { λ office. office.past };

    ghost judging = { λ office. judging_in office };

    fn command<L: Ledger>(
        &mut self,
        alloc: Global,
        drafter: &Drafter,
        request: u64,
        command: Command,
        steps: &mut Steps<L>,
    ) -> Result<Reply, CommandFault>
        requires { is_well_spelled command ≡ true }
        ensures outcome { let state = desk_of K.faults C.days in
            EndsWithin drafter.now request command (standing (state self.old)) (standing (state self.new))
            (judging_in self.old) steps.old steps.new result }
        ensures over { let state = desk_of K.faults C.days in
            EndsOver drafter.now request command (standing (state self.old)) (standing (state self.new))
            (K.holding self.old.keeper) (K.holding self.new.keeper) result }
        ensures marks { self.new.marks ≡ marks_after self.old.marks
            (mark_of drafter.now request self.new.entries) result }
        ensures cause { HasCommandCause (K.faults self.old.keeper) (K.faults self.new.keeper) result }
        ensures crash { let state = desk_of K.faults C.days in LeavesBetween (state self.old) (state self.new)
            (crashes_of (K.holding self.old.keeper)) (crashes_of (K.holding self.new.keeper)) }
        ensures sound { IsSound (desk_of K.faults C.days self.new) }
        ensures durable { IsDurable (desk_of K.faults C.days self.new) (crashes_of (K.holding self.new.keeper)) }
        ensures origin { self.new.origin ≡ self.old.origin }
        ensures past { self.new.past ≡ self.old.past }
    {
        match drafter.copy() {
            Ok(drafter) => {
                let sent = Sent {
                    drafter,
                    request,
                    command,
                };
                do_command(alloc, self.keeper, self.clock, &mut self.book, sent, steps)
            }
            Err(Memory) => {
                drop(command);
                Err(CommandFault::Memory)
            }
        }
    }

    fn ask(&self, alloc: Global, question: &Question) -> Result<Answer, AskFault> {
        let register = &self.book.register;
        match self.book.tables.get(&question.work) {
            Some(kept) => kept.answer(alloc, &FromEnacted, register, question),
            None => refuse_unknown(register, question),
        }
    }

    fn ask_past<L: Ledger>(
        &mut self,
        alloc: Global,
        question: &Question,
        steps: &mut Steps<L>,
    ) -> Result<Answer, AskFault>
        requires { question.now.viewpoint < front self.old.entries }
        ensures answer { Answers result (answer_at self.old.entries question.now) }
        ensures alone { (self.new.keeper ≡ self.old.keeper) × (self.new.clock ≡ self.old.clock) }
        ensures same { desk_of K.faults C.days self.new ≡ desk_of K.faults C.days self.old }
        ensures crash { LeavesNoMore (crashes_of (K.holding self.old.keeper)) (crashes_of (K.holding self.new.keeper)) }
        ensures keys { AreKeysAfter result self.old.past
            (keys_asked self.old.entries question.now self.old.past) self.new.past }
        ensures steps { steps.new ≤ steps.old + past_cost self.old.entries question.now self.old.past }
    {
        self.book.past.answer_past(
            alloc,
            &FromEnacted,
            &FromLine,
            &self.book.register,
            question,
            steps,
        )
    }

    fn preview<L: Ledger>(
        &self,
        alloc: Global,
        drafter: &Drafter,
        question: &Question,
        steps: &mut Steps<L>,
    ) -> Result<Answer, AskFault> {
        let register = &self.book.register;
        preview(
            alloc,
            &FromEnacted,
            &FromLine,
            register,
            drafter,
            question,
            steps,
        )
    }

    fn draft(&self, alloc: Global, drafter: &Drafter) -> Result<Draft, Memory> {
        draft_of(alloc, &self.book.register, drafter)
    }

    fn front(&self) -> u32 {
        self.book.register.front()
    }

    fn register(&self) -> &Register {
        &self.book.register
    }

    ghost are_crashes = { λ office. crashes_are (K.holding office.keeper) (K.is_holding office.keeper) };

    ghost history_is = { λ office. refl };

    ghost origin_is = { λ office. refl };
}
