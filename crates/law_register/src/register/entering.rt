//! Entering: a command is judged, and becomes an entry where it is accepted.

ghost use Rattle.std.specs.Prelude.{◌≡◌, ◌++◌, ◌∷◌, [], true, OnErr, Ok};
ghost use Rattle.law_register.specs.Law.Spelling.{is_well_spelled};
ghost use Rattle.law_register.specs.Register.Entering.{Enters, entered, entry_of};
ghost use Rattle.law_register.specs.Register.Verdicts.{is_accepted, verdict};

use crate::{Command, Drafter, Entry, Register, Reply, Rule, Verdict};
use desk_base::{Day, Memory};
use std::alloc::Global;

/// Why a command is not entered.
#[derive(Debug, Drop)]
pub enum EnterFault {
    /// It breaks a rule.
    Rule(Rule),
    /// There was not enough memory.
    Memory,
}

impl From<Memory> for EnterFault {
    ghost use Rattle.std.specs.Prelude.{◌≡◌};
    ghost use Rattle.law_register.specs.declared.register.entering.EnterFault.TheVariants as fails;

    ghost from_gives = { λ _ e. e ≡ fails.Memory };

    fn from(_: Memory) -> Self {
        EnterFault::Memory
    }
}

impl Register {
    /// Judges a well-spelled command of a drafter's request, and appends it as an entry of this day where it is accepted. A repeat gets the
    /// first reply and changes nothing; nor does a command that is refused, or for which memory is wanting.
    #[tactic(auto, unfolding(crate::specs::Register::Entering::entered))]
    pub fn enter(
        &mut self,
        alloc: Global,
        drafter: &Drafter,
        request: u64,
        day: Day,
        command: Command,
    ) -> Result<Reply, EnterFault>
        requires { is_well_spelled command ≡ true }
        ensures outcome { Enters self.new.entries result (entered self.old.entries drafter.now request day command) }
        ensures err { OnErr result (self.new.entries ≡ self.old.entries) }
    {
        match self.judge(alloc, drafter, request, &command) {
            Ok(Verdict::Accepted { law, reply }) => {
                self.enter_accepted(drafter, request, day, law, reply, command)
            }
            Ok(Verdict::Repeat(reply)) => {
                drop(command);
                Ok(reply)
            }
            Ok(Verdict::Refused(rule)) => {
                drop(command);
                Err(EnterFault::Rule(rule))
            }
            Err(Memory) => {
                drop(command);
                Err(EnterFault::Memory)
            }
        }
    }

    fn enter_accepted(
        &mut self,
        drafter: &Drafter,
        request: u64,
        day: Day,
        law: Option<u32>,
        reply: Reply,
        command: Command,
    ) -> Result<Reply, EnterFault>
        requires accepted { is_accepted law (verdict self.old.entries drafter.now request command) ≡ true }
        requires spelled { is_well_spelled command ≡ true }
        ensures outcome { Enters self.new.entries result
            (Ok (self.old.entries ++ entry_of drafter.now request day law command ∷ [], reply)) }
        ensures err { OnErr result (self.new.entries ≡ self.old.entries) }
    {
        match drafter.copy() {
            Ok(drafter) => self.append(
                Entry {
                    drafter,
                    request,
                    day,
                    law,
                    command,
                },
                reply,
            ),
            Err(Memory) => {
                drop(command);
                Err(EnterFault::Memory)
            }
        }
    }

    fn append(&mut self, entry: Entry, reply: Reply) -> Result<Reply, EnterFault>
        requires accepted { is_accepted entry.law
            (verdict self.old.entries entry.drafter entry.request entry.command) ≡ true }
        requires spelled { is_well_spelled entry.command ≡ true }
        ensures outcome { Enters self.new.entries result (Ok (self.old.entries ++ entry ∷ [], reply)) }
        ensures err { OnErr result (self.new.entries ≡ self.old.entries) }
    {
        match self.reserve(&entry) {
            Ok(()) => {
                self.push(entry);
                Ok(reply)
            }
            Err(Memory) => {
                drop(entry);
                Err(EnterFault::Memory)
            }
        }
    }
}
