//! The dates that stand in names: a year alone, or a day.

ghost use Rattle.std.specs.Prelude.{◌≡◌, ◌≤◌, IfSome, length};
ghost use Rattle.desk_base.specs.Days as days;
ghost use Rattle.frbr_names.specs.Dates as spec;

use desk_base::Day;

/// The date of a work, as its IRI gives it.
#[derive(Clone, Copy, Debug, PartialEq, Eq)]
pub enum IriDate {
    /// A year alone, from 1 to 9999.
    Year(u16),
    /// The full date.
    Full(Day),
}

// What a digit is worth.
fn digit(byte: u8) -> Option<u16>
    ensures { result ≡ days.digit_of byte }
{
    if b'0' <= byte && byte <= b'9' {
        Some((byte - b'0') as u16)
    } else {
        None
    }
}

// What two digits are worth.
#[tactic(auto, unfolding(desk_base::specs::Days::pair_of))]
fn pair(a: u8, b: u8) -> Option<u16>
    ensures value { result ≡ days.pair_of a b }
    ensures bound { IfSome result (λ n. n ≤ 99) }
{
    let tens = digit(a)?;
    let ones = digit(b)?;
    Some(10 * tens + ones)
}

// The year that four digits spell.
#[tactic(auto, unfolding(crate::specs::Dates::year_of))]
fn year_of(part: &[u8]) -> Option<u16>
    requires { length part.now ≡ 4 }
    ensures { result ≡ spec.year_of part.now }
{
    let century = pair(part[0], part[1])?;
    let year = pair(part[2], part[3])?;
    let year = 100 * century + year;
    if year == 0 { None } else { Some(year) }
}

// The date that a part spells.
#[tactic(auto, unfolding(crate::specs::Dates::date_of))]
pub(crate) fn date_of(part: &str) -> Option<IriDate>
    ensures { result ≡ spec.date_of part.now }
{
    if part.len() == 4 {
        let year = year_of(part.as_bytes())?;
        Some(IriDate::Year(year))
    } else {
        let day = Day::from_text(part)?;
        Some(IriDate::Full(day))
    }
}

// The last decimal digit of a number, as it is printed.
fn last_digit(n: u16) -> u8
    ensures { result ≡ days.last_digit n }
{
    b'0' + (n % 10) as u8
}

// 1 January of a year, as it is spelled.
#[tactic(auto, unfolding(desk_base::specs::Days::date_text))]
fn spelled_first(year: u16) -> [u8; 10]
    ensures { result ≡ days.date_text year 1 1 }
{
    [
        last_digit(year / 1000),
        last_digit(year / 100),
        last_digit(year / 10),
        last_digit(year),
        b'-',
        b'0',
        b'1',
        b'-',
        b'0',
        b'1',
    ]
}

// 1 January of a year.
fn first_of_year(year: u16) -> Day
    requires low { 1 ≤ year }
    requires high { year ≤ 9999 }
    ensures { result ≡ days.number_of year 1 1 }
{
    let spelled = spelled_first(year);
    let Ok(text) = str::from_utf8(&spelled) else {
        unreachable!();
    };
    match Day::from_text(text) {
        Some(day) => day,
        None => unreachable!(),
    }
}

// The day that stands for a date: 1 January of a year.
pub(crate) fn first_day(date: IriDate) -> Day
    requires { spec.IsDate date }
    ensures { result ≡ spec.first_day date }
{
    match date {
        IriDate::Year(year) => first_of_year(year),
        IriDate::Full(day) => day,
    }
}

impl IriDate {
    /// Whether a day agrees with the date: it lies in the year that the date gives, or is the day.
    pub fn agrees_with(self, day: Day) -> bool
        ensures { result ≡ spec.agrees_with self day }
    {
        match self {
            IriDate::Year(year) => day.year() == year,
            IriDate::Full(named) => day == named,
        }
    }
}
