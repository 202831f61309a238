//! The rules by which a question is refused.

ghost use Rattle.std.specs.Prelude.{◌≡◌};
ghost use Rattle.law_register.specs.Answer.Queries.{query_name, query_number};

use desk_base::{Day, Memory, Text};
use frbr_names::WorkName;

/// The rule that a question breaks, with the value that its refusal shows.
#[derive(Debug, Drop)]
pub enum QueryRule {
    /// No law entry of the viewpoint enacts the work, whose IRI is shown.
    UnknownWork(WorkName),
    /// The viewpoint is greater than the number of law entries, which is shown.
    ViewpointAhead(u32),
    /// The day asked for is before the act's day, which is shown.
    NotYetEnacted(Day),
    /// The language is not that of the act, which is shown.
    OtherLanguage([u8; 3]),
    /// No provision of the text has the eId, which is shown.
    UnknownPortion(Text),
}

impl QueryRule {
    /// The number of the rule, as refusals print it.
    pub fn number(&self) -> u8
        ensures { result ≡ query_number self.now }
    {
        match self {
            QueryRule::UnknownWork(_) => 1,
            QueryRule::ViewpointAhead(_) => 2,
            QueryRule::NotYetEnacted(_) => 3,
            QueryRule::OtherLanguage(_) => 4,
            QueryRule::UnknownPortion(_) => 5,
        }
    }

    /// The name of the rule, as refusals print it.
    pub fn name(&self) -> &'static str
        ensures { result.now ≡ query_name self.now }
    {
        match self {
            QueryRule::UnknownWork(_) => "UnknownWork",
            QueryRule::ViewpointAhead(_) => "ViewpointAhead",
            QueryRule::NotYetEnacted(_) => "NotYetEnacted",
            QueryRule::OtherLanguage(_) => "OtherLanguage",
            QueryRule::UnknownPortion(_) => "UnknownPortion",
        }
    }
}

/// Why a question was not answered.
#[derive(Debug, Drop)]
pub enum AskFault {
    /// It breaks a rule.
    Query(QueryRule),
    /// There was not enough memory.
    Memory,
}

impl From<Memory> for AskFault {
    ghost use Rattle.std.specs.Prelude.{◌≡◌};
    ghost use Rattle.law_register.specs.declared.answer.queries.AskFault.TheVariants as fails;

    ghost from_gives = { λ _ e. e ≡ fails.Memory };

    fn from(_: Memory) -> Self {
        AskFault::Memory
    }
}
