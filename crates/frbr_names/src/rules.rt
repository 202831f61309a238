//! The rules of the parts of a name.

ghost use Rattle.std.specs.Prelude.{◌≡◌};
ghost use Rattle.std.specs.List.{list_all};
ghost use Rattle.frbr_names.specs.Rules as spec;

fn is_lowercase_or_digit(byte: u8) -> bool
    ensures { result ≡ spec.is_lowercase_or_digit byte }
{
    byte.is_ascii_lowercase() || byte.is_ascii_digit()
}

fn are_lowercase_or_digits(bytes: &[u8]) -> bool
    ensures { result ≡ list_all spec.is_lowercase_or_digit bytes.now }
{
    bytes.iter().all(|byte| is_lowercase_or_digit(*byte))
}

fn is_name_byte(byte: u8) -> bool
    ensures { result ≡ spec.is_name_byte byte }
{
    byte.is_ascii_alphanumeric() || byte == b'-' || byte == b'.' || byte == b'_'
}

fn are_name_bytes(bytes: &[u8]) -> bool
    ensures { result ≡ list_all spec.is_name_byte bytes.now }
{
    bytes.iter().all(|byte| is_name_byte(*byte))
}

fn is_portion_byte(byte: u8) -> bool
    ensures { result ≡ spec.is_portion_byte byte }
{
    byte.is_ascii_alphanumeric() || byte == b'-' || byte == b'_'
}

fn are_portion_bytes(bytes: &[u8]) -> bool
    ensures { result ≡ list_all spec.is_portion_byte bytes.now }
{
    bytes.iter().all(|byte| is_portion_byte(*byte))
}

// Whether bytes are nothing or the subdivision of a country.
#[tactic(auto, unfolding(crate::specs::Rules::is_subdivision))]
fn is_subdivision(bytes: &[u8]) -> bool
    ensures { result ≡ spec.is_subdivision bytes.now }
{
    match bytes {
        [] => true,
        [dash, rest @ ..] => {
            *dash == b'-' && rest.len() >= 1 && rest.len() <= 8 && are_lowercase_or_digits(rest)
        }
    }
}

// Whether a part is a jurisdiction.
#[tactic(auto, unfolding(crate::specs::Rules::is_jurisdiction))]
pub(crate) fn is_jurisdiction(part: &[u8]) -> bool
    ensures { result ≡ spec.is_jurisdiction part.now }
{
    match part {
        [first, second, rest @ ..] => {
            first.is_ascii_lowercase() && second.is_ascii_lowercase() && is_subdivision(rest)
        }
        _ => false,
    }
}

#[tactic(auto, unfolding(crate::specs::Rules::begins_with_letter))]
fn begins_with_letter(part: &[u8]) -> bool
    ensures { result ≡ spec.begins_with_letter part.now }
{
    match part {
        [first, ..] => first.is_ascii_alphabetic(),
        [] => false,
    }
}

// Whether a part is a word, which names a subtype or an actor.
#[tactic(auto, unfolding(crate::specs::Rules::is_word))]
pub(crate) fn is_word(part: &[u8]) -> bool
    ensures { result ≡ spec.is_word part.now }
{
    begins_with_letter(part) && part.len() <= 32 && are_name_bytes(part)
}

// Whether bytes are the number of a work.
#[tactic(auto, unfolding(crate::specs::Rules::is_number))]
pub(crate) fn is_number(part: &[u8]) -> bool
    ensures { result ≡ spec.is_number part.now }
{
    part.len() >= 1 && part.len() <= 64 && are_name_bytes(part)
}

/// Whether bytes are a portion, as it stands behind `~` in the IRI of an expression: 1 to 512 ASCII letters, digits, `-` and `_`.
#[tactic(auto, unfolding(crate::specs::Rules::is_portion))]
pub fn is_portion(part: &[u8]) -> bool
    ensures { result ≡ spec.is_portion part.now }
{
    part.len() >= 1 && part.len() <= 512 && are_portion_bytes(part)
}
