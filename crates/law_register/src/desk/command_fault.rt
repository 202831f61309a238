//! CommandFault: why a command was not done.

ghost use Rattle.std.specs.Prelude.{◌≡◌};
ghost use Rattle.law_register.specs.declared.desk.command_fault.CommandFault.TheVariants as fails;

use crate::Rule;
use desk_base::Memory;

/// Why a command was not done.
#[derive(Debug, Drop)]
pub enum CommandFault {
    /// It breaks a rule.
    Rule(Rule),
    /// The keeper failed, and its count of faults rose. The entry of this command, or an older one, is pending: the
    /// next command finds out whether it was kept.
    KeeperFault,
    /// There was not enough memory. Nothing was given to the keeper.
    Memory,
}

impl From<Memory> for CommandFault {
    ghost from_gives = { λ _ e. e ≡ fails.Memory };

    fn from(_: Memory) -> Self {
        CommandFault::Memory
    }
}
