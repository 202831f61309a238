//! Carrier: who finds out what a work carries of the provisions that make its modifications.

ghost use Rattle.std.specs.Prelude.{◌≡◌, ◌+◌, ◌≤◌, IfOk, IfSome, take};
ghost use Rattle.law_register.specs.Answer.Costs.{holding_at};
ghost use Rattle.law_register.specs.Answer.Soundness.{IsSound};
ghost use Rattle.law_register.specs.Answer.Standing.{alone};
ghost use Rattle.law_register.specs.Provisions.Carrying.{carrying, known_held};
ghost use Rattle.law_register.specs.Provisions.Costs.{held_cost};
ghost use Rattle.law_register.specs.Provisions.Line.{line};
ghost use Rattle.law_register.specs.Register.LawList.{laws};

use crate::laws::{entries_are_legal, known_works_carry_nothing};
use crate::{Known, Register, known_at};
use desk_base::{Memory, Steps};
use frbr_names::WorkName;
use std::alloc::Global;
use std::sync::ledger::Ledger;

/// Who finds out what a work carries.
pub trait Carrier {
    /// What is known of a work, with what it carries of provisions by the law that a viewpoint knows. It takes one step at most for each
    /// id that is applied to make the versions of the works on which it depends, directly or through others.
    fn carry<L: Ledger>(
        &self,
        alloc: Global,
        register: &Register,
        viewpoint: u32,
        known: Known,
        steps: &mut Steps<L>,
    ) -> Result<Known, Memory>
        requires { alone known ≡ known }
        ensures known { IfOk result
            (λ carried. carried ≡ carrying (line (take viewpoint (laws register.now.entries))) known) }
        ensures sound { IsSound known → IfOk result IsSound }
        ensures steps { steps.new ≤ steps.old + held_cost (line (take viewpoint (laws register.now.entries))) known };
}

/// What is known of a work at a viewpoint, with what it carries by the law that is known there, which can be replayed. `None`: none of
/// the law entries that the viewpoint knows enacts it.
pub fn known_held<H: Carrier, L: Ledger>(
    alloc: Global,
    carrier: &H,
    register: &Register,
    work: &WorkName,
    viewpoint: u32,
    steps: &mut Steps<L>,
) -> Result<Option<Known>, Memory>
    ensures known { IfOk result (λ known. known ≡ known_held register.now.entries work.now viewpoint) }
    ensures sound { IfOk result (λ known. IfSome known IsSound) }
    ensures steps { steps.new ≤ steps.old + holding_at register.now.entries work.now viewpoint }
{
    entries_are_legal(register);
    known_works_carry_nothing();
    match known_at(alloc, register, work, viewpoint)? {
        Some(known) => Ok(Some(carrier.carry(alloc, register, viewpoint, known, steps)?)),
        None => Ok(None),
    }
}
