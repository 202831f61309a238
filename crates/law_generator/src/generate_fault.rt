//! GenerateFault: why no register was generated.

ghost use Rattle.std.specs.Prelude.{◌≡◌};
ghost use Rattle.law_generator.specs.declared.generate_fault.GenerateFault.TheVariants as fails;

use desk_base::Memory;

/// Why no register was generated.
#[derive(Clone, Copy, Debug, PartialEq, Eq)]
pub enum GenerateFault {
    /// The keeper of the desk failed, and its count of faults rose. The entry of the last command is pending.
    KeeperFault,
    /// There was not enough memory.
    Memory,
}

impl From<Memory> for GenerateFault {
    ghost from_gives = { λ _ e. e ≡ fails.Memory };

    fn from(_: Memory) -> Self {
        GenerateFault::Memory
    }
}
