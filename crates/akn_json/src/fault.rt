//! Why bytes are not of a form.

ghost use Rattle.std.specs.Prelude.{◌≡◌};
ghost use Rattle.akn_json.specs.Faults.{rule_name, rule_number};

use desk_base::Memory;
use std::alloc::{AllocError, AllocFailed};

/// The rule of a form that bytes break.
#[derive(Clone, Copy, Debug, PartialEq, Eq)]
pub enum FormRule {
    /// The bytes are no JSON text.
    NotJson = 1,
    /// A value is of another JSON kind than stated, or an object has other keys than stated.
    WrongShape = 2,
    /// An IRI, a language, the name of a drafter or an id breaks its rule.
    BadName = 3,
    /// A text that should be a day is none.
    BadDay = 4,
    /// The name of an element or a num breaks its rule.
    BadElement = 5,
    /// A number is no whole number in its range.
    BadNumber = 6,
    /// A command, a type or a position is not one of those listed.
    UnknownWord = 7,
    /// The day of an act does not agree with its IRI.
    DateDiffers = 8,
    /// There are more than 8,388,608 bytes.
    TooLong = 9,
}

impl FormRule {
    /// The number of the rule, as refusals print it.
    pub fn number(self) -> u8
        ensures { result ≡ rule_number self }
    {
        self as u8
    }

    /// The name of the rule, as refusals print it.
    pub fn name(self) -> &'static str
        ensures { result.now ≡ rule_name self }
    {
        match self {
            FormRule::NotJson => "NotJson",
            FormRule::WrongShape => "WrongShape",
            FormRule::BadName => "BadName",
            FormRule::BadDay => "BadDay",
            FormRule::BadElement => "BadElement",
            FormRule::BadNumber => "BadNumber",
            FormRule::UnknownWord => "UnknownWord",
            FormRule::DateDiffers => "DateDiffers",
            FormRule::TooLong => "TooLong",
        }
    }
}

/// The first rule of a form that bytes break, and where.
#[derive(Clone, Copy, Debug, PartialEq, Eq)]
pub struct FormFault {
    /// The rule.
    pub rule: FormRule,
    /// The place: k inside the k-th modification, from 1, in that of a command alone 1, and 0 elsewhere. What is read
    /// has no fault at a greater one than 8,388,608.
    pub place: u32,
}

/// Why a reading gave nothing.
#[derive(Clone, Copy, Debug, PartialEq, Eq)]
pub enum ReadFail {
    /// The bytes are not of the form.
    Form(FormFault),
    /// There was not enough memory.
    Memory,
}

impl From<Memory> for ReadFail {
    ghost use Rattle.std.specs.Prelude.{◌≡◌};
    ghost use Rattle.akn_json.specs.declared.fault.ReadFail.TheVariants as fails;

    ghost from_gives = { λ _ e. e ≡ fails.Memory };

    fn from(_: Memory) -> Self {
        ReadFail::Memory
    }
}

impl From<AllocError> for ReadFail {
    ghost use Rattle.std.specs.Prelude.{◌≡◌};
    ghost use Rattle.akn_json.specs.declared.fault.ReadFail.TheVariants as fails;

    ghost from_gives = { λ _ e. e ≡ fails.Memory };

    fn from(_: AllocError) -> Self {
        ReadFail::Memory
    }
}

impl<T: Drop> From<AllocFailed<T>> for ReadFail {
    ghost use Rattle.std.specs.Prelude.{◌≡◌};
    ghost use Rattle.akn_json.specs.declared.fault.ReadFail.TheVariants as fails;

    ghost from_gives = { λ _ e. e ≡ fails.Memory };

    fn from(_: AllocFailed<T>) -> Self {
        ReadFail::Memory
    }
}
