//! Whole numbers as texts in decimal, without leading zeros.

ghost use Rattle.std.specs.Prelude.{◌≡◌, ◌≤◌, IfSome, IsTrue};
ghost use Rattle.std.specs.List.{list_all};
ghost use Rattle.std.specs.Char as char;
ghost use Rattle.std.specs.Str.Parse.{digits_value};
ghost use Rattle.desk_base.specs.Decimals as spec;

fn are_digits(bytes: &[u8]) -> bool
    ensures { result ≡ list_all char.is_ascii_digit bytes.now }
{
    bytes.iter().all(|byte| byte.is_ascii_digit())
}

fn is_decimal(text: &str) -> bool
    ensures { result ≡ spec.is_decimal text.now }
{
    let bytes = text.as_bytes();
    if bytes.is_empty() || !are_digits(bytes) {
        return false;
    }
    bytes.len() == 1 || bytes[0] != b'0'
}

// `None`: the number is greater than every `u64`.
fn value_of(text: &str) -> Option<u64>
    requires { IsTrue (spec.is_decimal text.now) }
    ensures { result ≡ spec.up_to 18446744073709551615 (digits_value 10 text.now) }
{
    text.parse::<u64>().ok()
}

/// The number that a text spells in decimal. `None`: it spells none, or one beyond the limit.
pub fn decimal_number(text: &str, most: u64) -> Option<u64>
    ensures value { result ≡ spec.decimal_up_to most text.now }
    ensures bound { IfSome result (λ n. n ≤ most) }
{
    if !is_decimal(text) {
        return None;
    }
    let n = value_of(text)?;
    if n > most {
        return None;
    }
    Some(n)
}
