//! The rules by which a command is refused.

ghost use Rattle.std.specs.Prelude.{◌≡◌};
ghost use Rattle.law_register.specs.Register.Rules.{register_name, register_number};

use act_tree::BuildFault;
use desk_base::Id;
use frbr_names::WorkName;

/// The rule of the register that a command breaks, with the value that its refusal shows.
#[derive(Debug, Drop)]
pub enum Rule {
    /// The drafter used the number for another command. The number in the reply to that one is shown.
    NumberReused(u32),
    /// As many drafters have an entry as may have one, and this one has none. That number is shown.
    DraftersFull(u16),
    /// No law entry enacts the work, whose IRI is shown.
    UnknownWork(WorkName),
    /// A law entry enacts the work already. Its number is shown.
    WorkExists(u32),
    /// The text of an act is not well-formed by the limit that it states, or one that a modification brings is not by that of a
    /// plain act. The first of its faults is shown, by its number.
    BadTree(BuildFault),
    /// A list or a value in it breaks a bound. The number of the item is shown, from 1; 0 is the list
    /// itself, or an act.
    BadModification(u16),
    /// A period ends at its start or before. The number of the item is shown, from 1; 0 is an act.
    BadPeriod(u16),
    /// An id that is not recorded, or a destination's that is not recorded in this work, which is shown; or an item that is
    /// not in the draft, shown as that item of law entry 0.
    UnknownModification {
        /// The number of the law entry.
        law: u32,
        /// The number of the item in it.
        item: u32,
    },
    /// The id does not stand. The number of the law entry that withdrew it is shown.
    AlreadyWithdrawn(u32),
    /// The id stands, and is shown.
    NotWithdrawn(Id),
    /// A correction of another kind than its id, or a destination that is no textual modification. That id is shown.
    WrongKind(Id),
    /// A law entry that the drafter has not seen concerns the work. The last one's number is shown.
    Stale(u32),
    /// The draft has no item of the work, whose IRI is shown.
    EmptyDraft(WorkName),
    /// A draft would have more items than this number, which is shown.
    DraftFull(u16),
    /// A work would have more ids than this number, which is shown.
    WorkFull(u16),
    /// There would be more law entries than this number, which is shown.
    LawFull(u32),
    /// The entry, or all entries with it, would take too many bytes. The most of the register is shown.
    RegisterFull(u32),
}

impl Rule {
    /// The number of the rule, as refusals print it.
    pub fn number(&self) -> u8
        ensures { result ≡ register_number self.now }
    {
        match self {
            Rule::NumberReused(_) => 1,
            Rule::DraftersFull(_) => 2,
            Rule::UnknownWork(_) => 3,
            Rule::WorkExists(_) => 4,
            Rule::BadTree(_) => 5,
            Rule::BadModification(_) => 6,
            Rule::BadPeriod(_) => 7,
            Rule::UnknownModification { .. } => 8,
            Rule::AlreadyWithdrawn(_) => 9,
            Rule::NotWithdrawn(_) => 10,
            Rule::WrongKind(_) => 11,
            Rule::Stale(_) => 12,
            Rule::EmptyDraft(_) => 13,
            Rule::DraftFull(_) => 14,
            Rule::WorkFull(_) => 15,
            Rule::LawFull(_) => 16,
            Rule::RegisterFull(_) => 17,
        }
    }

    /// The name of the rule, as refusals print it.
    pub fn name(&self) -> &'static str
        ensures { result.now ≡ register_name self.now }
    {
        match self {
            Rule::NumberReused(_) => "NumberReused",
            Rule::DraftersFull(_) => "DraftersFull",
            Rule::UnknownWork(_) => "UnknownWork",
            Rule::WorkExists(_) => "WorkExists",
            Rule::BadTree(_) => "BadTree",
            Rule::BadModification(_) => "BadModification",
            Rule::BadPeriod(_) => "BadPeriod",
            Rule::UnknownModification { .. } => "UnknownModification",
            Rule::AlreadyWithdrawn(_) => "AlreadyWithdrawn",
            Rule::NotWithdrawn(_) => "NotWithdrawn",
            Rule::WrongKind(_) => "WrongKind",
            Rule::Stale(_) => "Stale",
            Rule::EmptyDraft(_) => "EmptyDraft",
            Rule::DraftFull(_) => "DraftFull",
            Rule::WorkFull(_) => "WorkFull",
            Rule::LawFull(_) => "LawFull",
            Rule::RegisterFull(_) => "RegisterFull",
        }
    }
}
