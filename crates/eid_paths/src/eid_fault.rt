//! Why a text is no eId.

ghost use Rattle.std.specs.Prelude.{◌≡◌};
ghost use Rattle.eid_paths.specs.EidFaults.{rule_name, rule_number};

/// The rule of eIds that a level breaks.
#[derive(Clone, Copy, Debug, PartialEq, Eq)]
pub enum EidRule {
    /// The level has no `_`, or what stands before it is the word of no element.
    UnknownElement,
    /// What stands behind the word is no num.
    BadNum,
    /// Nothing stands where a level should.
    EmptyLevel,
}

impl EidRule {
    /// The number of the rule, from 1 to 3.
    pub fn number(self) -> u8
        ensures { result ≡ rule_number self }
    {
        match self {
            EidRule::UnknownElement => 1,
            EidRule::BadNum => 2,
            EidRule::EmptyLevel => 3,
        }
    }

    /// The name of the rule.
    pub fn name(self) -> &'static str
        ensures { result.now ≡ rule_name self }
    {
        match self {
            EidRule::UnknownElement => "UnknownElement",
            EidRule::BadNum => "BadNum",
            EidRule::EmptyLevel => "EmptyLevel",
        }
    }
}

/// The first level that keeps a text from being an eId.
#[derive(Clone, Copy, Debug, PartialEq, Eq)]
pub struct EidFault {
    /// The rule that the level breaks.
    pub rule: EidRule,
    /// Where the level begins: so many bytes of the text stand before it.
    pub place: u64,
}
