//! Why a text is no name: the first rule that it breaks, and where.

ghost use Rattle.std.specs.Prelude.{◌≡◌, ℕ, ◌-◌, min, length};
ghost use Rattle.frbr_names.specs.Faults.{rule_name, rule_number};
ghost use Rattle.frbr_names.specs.Reads.{fault_at};

/// The rule of names that a text breaks.
#[derive(Clone, Copy, Debug, PartialEq, Eq)]
pub enum NameRule {
    /// The text does not begin with `/akn/`.
    NotAkn = 1,
    /// The first part is no jurisdiction.
    BadJurisdiction = 2,
    /// The second part is not `act`.
    NotAnAct = 3,
    /// What should be a date is none, or a version is neither empty nor a day.
    BadDate = 4,
    /// The number of the work breaks its rule or is missing.
    BadNumber = 5,
    /// The part after the number does not begin with three lower-case letters and `@`.
    BadLanguage = 6,
    /// A component other than `main` is named.
    OtherComponent = 7,
    /// Something other than a portion stands at the end.
    BadPortion = 8,
}

impl NameRule {
    /// The number of the rule, as refusals print it.
    pub fn number(self) -> u8
        ensures { result ≡ rule_number self }
    {
        self as u8
    }

    /// The name of the rule, as refusals print it.
    pub fn name(self) -> &'static str
        ensures { result.now ≡ rule_name self }
    {
        match self {
            NameRule::NotAkn => "NotAkn",
            NameRule::BadJurisdiction => "BadJurisdiction",
            NameRule::NotAnAct => "NotAnAct",
            NameRule::BadDate => "BadDate",
            NameRule::BadNumber => "BadNumber",
            NameRule::BadLanguage => "BadLanguage",
            NameRule::OtherComponent => "OtherComponent",
            NameRule::BadPortion => "BadPortion",
        }
    }
}

/// The first rule that a text breaks, read from the left, and where.
#[derive(Clone, Copy, Debug, PartialEq, Eq)]
pub struct NameFault {
    /// The rule.
    pub rule: NameRule,
    /// The byte at which the part begins that breaks the rule, from 0; the end of the text, where the
    /// part is missing. A place past 4294967295 is that number.
    pub place: u32,
}

// A fault of the part that begins at a byte.
pub(crate) fn fault(rule: NameRule, place: usize) -> NameFault
    ensures { result ≡ fault_at rule place }
{
    let place = match u32::try_from(place) {
        Ok(place) => place,
        Err(_) => u32::MAX,
    };
    NameFault { rule, place }
}
