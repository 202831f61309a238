//! The line of a command, which is given to the desk.

ghost use Rattle.std.specs.Prelude.{◌≡◌, ◌<◌, nat_lt, true, length, IfOk};
ghost use Rattle.law_register.specs.Law.Spelling.{is_well_spelled};
ghost use Rattle.desk_trial.specs.Commands.{IsTold};

use crate::replies::{fault_line, reply_line};
use akn_json::{Asked, ReadFail, put_form_fault, put_rule, read_command};
use desk_base::{Memory, Steps};
use law_register::{CommandFault, Desk};
use std::alloc::Global;
use std::sync::ledger::Ledger;

// The line of a command that a desk is asked to do.
fn told_of_asked<D: Desk, L: Ledger>(
    alloc: Global,
    desk: &mut D,
    asked: Asked,
    steps: &mut Steps<L>,
) -> Result<Vec<u8>, Memory>
    requires { is_well_spelled asked.command ≡ true }
    ensures { IfOk result (λ line. IsTold (D.state desk.old) (D.state desk.new) asked line.items) }
{
    let before = desk.register().len();
    let Asked {
        drafter,
        request,
        command,
    } = asked;
    match desk.command(alloc, &drafter, request, command, steps) {
        Ok(reply) => reply_line(alloc, before < desk.register().len(), reply),
        Err(CommandFault::Rule(rule)) => put_rule(alloc, &rule),
        Err(CommandFault::KeeperFault) => fault_line(alloc),
        Err(CommandFault::Memory) => Err(Memory),
    }
}

/// The line of the command that bytes are, or of their fault.
pub fn told_of_command<D: Desk, L: Ledger>(
    alloc: Global,
    desk: &mut D,
    bytes: &[u8],
    steps: &mut Steps<L>,
) -> Result<Vec<u8>, Memory> {
    match read_command(alloc, bytes) {
        Ok(asked) => told_of_asked(alloc, desk, asked, steps),
        Err(ReadFail::Form(fault)) => put_form_fault(alloc, fault),
        Err(ReadFail::Memory) => Err(Memory),
    }
}
