//! Knowing: what a reader knows of a work at a viewpoint, with what it carries.

ghost use Rattle.std.specs.Prelude.{◌≡◌, ◌+◌, ◌≤◌, IfOk, map, take};
ghost use Rattle.std.specs.List.{AllByRecursion};
ghost use Rattle.law_register.specs.Answer.Soundness.{IsSound};
ghost use Rattle.law_register.specs.Answer.Standing.{alone};
ghost use Rattle.law_register.specs.Provisions.Carrying.{carrying};
ghost use Rattle.law_register.specs.Provisions.Costs.{held_cost};
ghost use Rattle.law_register.specs.Provisions.Line.{IsLine, line};
ghost use Rattle.law_register.specs.Register.LawList.{laws};

use crate::lines::line_at;
use crate::making::make_all;
use crate::needing::needed;
use crate::{InLine, carry};
use desk_base::{Memory, Steps};
use law_register::{Carrier, Known, Register, Replayer};
use replay_core::FromEnacted;
use source_provisions::laws::{
    laws_have_lines, unnamed_provisions_carry_nothing, what_is_carried_is_sound,
};
use std::alloc::Global;
use std::sync::ledger::Ledger;

// What is known of a work with what it carries by a line of works, each as it is made from scratch.
fn carried_from<P: Replayer, L: Ledger, T: InLine>(
    alloc: Global,
    replayer: &P,
    works: &[T],
    known: Known,
    steps: &mut Steps<L>,
) -> Result<Known, Memory>
    requires line { IsLine (map T.known_of works.now) }
    requires sound { AllByRecursion IsSound (map T.known_of works.now) }
    requires each_alone { AllByRecursion (λ known. alone known ≡ known) (map T.known_of works.now) }
    requires alone { alone known ≡ known }
    ensures known { IfOk result (λ carried. carried ≡ carrying (map T.known_of works.now) known) }
    ensures steps { steps.new ≤ steps.old + held_cost (map T.known_of works.now) known }
{
    let needed = needed(alloc, works, &known)?;
    let made = make_all(alloc, replayer, works, needed.as_slice(), steps)?;
    carry(alloc, replayer, &made, known)
}

// The same by the line of a register at a viewpoint.
fn carried_at<P: Replayer, L: Ledger>(
    alloc: Global,
    replayer: &P,
    register: &Register,
    viewpoint: u32,
    known: Known,
    steps: &mut Steps<L>,
) -> Result<Known, Memory>
    requires { alone known ≡ known }
    ensures known { IfOk result
        (λ carried. carried ≡ carrying (line (take viewpoint (laws register.now.entries))) known) }
    ensures steps { steps.new ≤ steps.old + held_cost (line (take viewpoint (laws register.now.entries))) known }
{
    unnamed_provisions_carry_nothing();
    laws_have_lines();
    if !known.names_any() {
        return Ok(known);
    }
    let works = line_at(alloc, register, viewpoint)?;
    carried_from(alloc, replayer, works.as_slice(), known, steps)
}

/// Who finds out what a work carries by the line of its register, from scratch: of the works on which it depends, directly or through others,
/// the versions are made, and no more; nothing is, where no modification of it names a provision.
#[derive(Debug, Drop)]
pub struct FromLine;

impl Carrier for FromLine {
    fn carry<L: Ledger>(
        &self,
        alloc: Global,
        register: &Register,
        viewpoint: u32,
        known: Known,
        steps: &mut Steps<L>,
    ) -> Result<Known, Memory> {
        what_is_carried_is_sound();
        laws_have_lines();
        carried_at(alloc, &FromEnacted, register, viewpoint, known, steps)
    }
}
