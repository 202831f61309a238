//! Standing: whether a modification counts on a day by what is carried of the provision that makes it.

ghost use Rattle.std.specs.Prelude.{◌≡◌};
ghost use Rattle.law_register.specs.Answer.Standing as spec;

use desk_base::{Day, Period};
use law_register::{Carried, KnownMod, Reading, Spans};

// Whether a day is in one of these periods.
fn is_within(spans: &[Period], day: Day) -> bool
    ensures { result ≡ spec.is_within spans.now day }
{
    for span in spans {
        if span.includes(day) {
            return true;
        }
    }
    false
}

// The periods on whose days a provision stands in a reading.
fn spans_in(reading: Reading, carried: &Carried) -> &Spans
    ensures { result.now ≡ spec.spans_in reading carried.now }
{
    match reading {
        Reading::Force => &carried.force,
        Reading::Efficacy => &carried.efficacy,
    }
}

// Whether a provision stands by what is carried of it; where nothing is, none is looked at.
fn stands_by(reading: Reading, day: Day, carried: &Option<Carried>) -> bool
    ensures { result ≡ spec.stands_by reading day carried.now }
{
    match carried {
        Some(carried) => is_within(spans_in(reading, carried).as_slice(), day),
        None => true,
    }
}

/// Whether a modification counts on a day: it stands, and so does the provision that makes it, where that is looked at.
pub fn counts(reading: Reading, day: Day, known: &KnownMod) -> bool
    ensures { result ≡ spec.counts reading day known.now }
{
    known.live && stands_by(reading, day, &known.carried)
}
