//! Where a request begins in a stream, and where its head ends.

ghost use Rattle.std.specs.Prelude.{◌≡◌, ◌<◌, ◌≤◌, ◌-◌, ◌==◌, codes, drop, length, Some, IfSome, IfOk};
ghost use Rattle.std.specs.List.{starts_with};
ghost use Rattle.law_http.specs.Cutting as spec;

use crate::MessageRefusal;
use crate::buffer::Buffer;

/// The most bytes that a head has.
pub(crate) const MAX_HEAD: usize = 16_384;

fn after_empty_lines(bytes: &[u8]) -> &[u8]
    ensures { result.now ≡ spec.after_empty_lines bytes.now }
{
    let mut later = bytes;
    while let [b'\r', b'\n', behind @ ..] = later {
        later = behind;
    }
    later
}

/// Takes away the empty lines in front.
#[tactic(auto, using(crate::proofs::EmptyLines::after_short, crate::proofs::EmptyLines::after_drop))]
pub(crate) fn skip_empty_lines(bytes: &mut Buffer)
    ensures { bytes.new ≡ spec.after_empty_lines bytes.old }
{
    let count = bytes.len() - after_empty_lines(bytes.as_slice()).len();
    bytes.skip(count);
}

// Whether an empty line behind a line ends four bytes from here.
fn is_end(later: &[u8]) -> bool
    ensures { result ≡ starts_with ◌==◌ later.now (codes "\r\n\r\n") }
{
    match later {
        [b'\r', ..] => later.starts_with(b"\r\n\r\n"),
        _ => false,
    }
}

// How many bytes end with the first empty line behind a line.
fn head_end(bytes: &[u8]) -> Option<usize>
    ensures value { result ≡ spec.head_end bytes.now }
    ensures within { IfSome result (λ n. (0 < n) × (n ≤ length bytes.now)) }
{
    let mut later = bytes;
    while let [_, behind @ ..] = later {
        if is_end(later) {
            return Some(bytes.len() - later.len() + 4);
        }
        later = behind;
    }
    None
}

// The head that ends there, or the refusal where none does.
fn or_refusal(end: Option<usize>, is_short: bool) -> Result<usize, MessageRefusal>
    ensures value { result ≡ spec.or_refusal end is_short }
    ensures found { IfOk result (λ n. end ≡ Some n) }
{
    match end {
        Some(length) => Ok(length),
        None if is_short => Err(MessageRefusal::Truncated),
        None => Err(MessageRefusal::HeadTooLong),
    }
}

/// How long the head is that stands in front.
#[tactic(auto, using(crate::proofs::HeadEnds::take_min))]
pub(crate) fn head_length(bytes: &[u8]) -> Result<usize, MessageRefusal>
    ensures value { result ≡ spec.head_length bytes.now }
    ensures within { IfOk result (λ n. (0 < n) × (n ≤ length bytes.now)) }
    ensures limit { IfOk result (λ n. n ≤ MAX_HEAD) }
{
    let window = &bytes[..bytes.len().min(MAX_HEAD)];
    or_refusal(head_end(window), bytes.len() < MAX_HEAD)
}
