//! Build faults: why no tree is built of nodes.

ghost use Rattle.std.specs.Prelude.{◌≡◌};
ghost use Rattle.act_tree.specs.Faults.{fault_number, fault_name, fault_cause};

use crate::Cause;
use desk_base::Memory;

/// Why nodes make no tree, the first that holds in this order.
#[derive(Clone, Copy, Debug, PartialEq, Eq)]
pub enum BuildFault {
    /// Two provisions have one eId.
    EidTwice = 1,
    /// The text is deeper than 12 levels; a child of the root has depth 1.
    TooDeep,
    /// There are more provisions than the limit of the text says.
    TooManyNodes,
    /// A heading or content has more than 16,384 bytes.
    TextTooLong,
}

impl BuildFault {
    /// The number of the fault.
    pub fn number(self) -> u8
        ensures { result ≡ fault_number self }
    {
        self as u8
    }

    /// The name of the fault.
    pub fn name(self) -> &'static str
        ensures { result.now ≡ fault_name self }
    {
        match self {
            BuildFault::EidTwice => "EidTwice",
            BuildFault::TooDeep => "TooDeep",
            BuildFault::TooManyNodes => "TooManyNodes",
            BuildFault::TextTooLong => "TextTooLong",
        }
    }

    /// The cause that holds back a modification which would bring the fault.
    pub fn cause(self) -> Cause
        ensures { result ≡ fault_cause self }
    {
        match self {
            BuildFault::EidTwice => Cause::NumberTaken,
            BuildFault::TooDeep => Cause::TooDeep,
            BuildFault::TooManyNodes => Cause::TooManyNodes,
            BuildFault::TextTooLong => Cause::TextTooLong,
        }
    }
}

/// Why a tree was not built.
#[derive(Clone, Copy, Debug, PartialEq, Eq)]
pub enum BuildFail {
    /// The nodes make no tree.
    Fault(BuildFault),
    /// There was not enough memory.
    Memory,
}

impl From<Memory> for BuildFail {
    ghost use Rattle.std.specs.Prelude.{◌≡◌};
    ghost use Rattle.act_tree.specs.declared.build_fault.BuildFail.TheVariants as fails;

    ghost from_gives = { λ _ e. e ≡ fails.Memory };

    fn from(_: Memory) -> Self {
        BuildFail::Memory
    }
}
