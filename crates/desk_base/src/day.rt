//! Day: a clause sees one as its number, 1 for 0001-01-01.

ghost use Rattle.std.specs.Prelude.{◌≡◌, ◌≤◌, pos, ◌≤ℤ◌, ◌↔◌, IfOk, IfSome, IsSome, string_bytes, unsigned_abs};
ghost use Rattle.desk_base.specs.Days as spec;

use crate::Memory;
use jiff_core::civil::Date;
use std::alloc::Global;
use std::marker::Model;

/// A day of the proleptic Gregorian calendar, from 0001-01-01 to 9999-12-31.
#[derive(Clone, Copy, Debug, PartialEq, Eq, PartialOrd, Ord, Hash)]
pub struct Day {
    number: u32,
}

impl Model for Day {
    ghost use Rattle.std.specs.Prelude.{ℕ};
    ghost use Rattle.desk_base.specs.Days.{IsDay};

    ghost Value = { ℕ };

    ghost view = { λ d. d.number };

    ghost invariant = { λ d. IsDay d.number };

    ghost inverse = { λ n. record { number = n } };
}

// What a digit is worth.
fn digit(byte: u8) -> Option<u16>
    ensures { result ≡ spec.digit_of byte }
{
    if b'0' <= byte && byte <= b'9' {
        Some((byte - b'0') as u16)
    } else {
        None
    }
}

// What two digits are worth.
#[tactic(auto, unfolding(crate::specs::Days::pair_of))]
fn pair(a: u8, b: u8) -> Option<u16>
    ensures value { result ≡ spec.pair_of a b }
    ensures bound { IfSome result (λ n. n ≤ 99) }
{
    let tens = digit(a)?;
    let ones = digit(b)?;
    Some(10 * tens + ones)
}

// The number of a date after the year 0.
fn number_of(date: Date) -> u32
    requires { pos 1 ≤ℤ date.year }
    ensures value { result ≡ spec.number_of (unsigned_abs date.year) date.month date.day }
    ensures bound { spec.IsDay result }
{
    date.days_since_min() - 3_652_424
}

// The day that a year, a month and a day of the month name, if the calendar has it.
#[tactic(auto, unfolding(crate::specs::Days::day_on))]
fn day_on(year: u16, month: u16, day: u16) -> Option<Day>
    requires year { year ≤ 9999 }
    requires month { month ≤ 99 }
    requires day { day ≤ 99 }
    ensures { result ≡ spec.day_on year month day }
{
    if year == 0 {
        return None;
    }
    match Date::new(year as i16, month as i8, day as i8) {
        Ok(date) => Some(Day {
            number: number_of(date),
        }),
        Err(_) => None,
    }
}

// The last decimal digit of a number, as it is printed.
fn last_digit(n: u16) -> u8
    ensures { result ≡ spec.last_digit n }
{
    b'0' + (n % 10) as u8
}

// The ten bytes of a date.
#[tactic(auto, unfolding(crate::specs::Days::date_text))]
fn date_bytes(date: Date) -> [u8; 10]
    ensures { result ≡ spec.date_text (unsigned_abs date.year) date.month date.day }
{
    let year = date.year.unsigned_abs();
    let month = date.month as u16;
    let day = date.day as u16;
    [
        last_digit(year / 1000),
        last_digit(year / 100),
        last_digit(year / 10),
        last_digit(year),
        b'-',
        last_digit(month / 10),
        last_digit(month),
        b'-',
        last_digit(day / 10),
        last_digit(day),
    ]
}

fn year_in(date: Date) -> u16
    ensures { result ≡ unsigned_abs date.year }
{
    date.year.unsigned_abs()
}

impl Day {
    /// The number of the day: 1 for 0001-01-01, and 3652059 for 9999-12-31.
    pub fn number(&self) -> i32
        ensures { result ≡ pos self.now }
    {
        self.number as i32
    }

    /// The day of a number, from 1 for 0001-01-01 to 3652059 for 9999-12-31; no other number has one.
    pub fn from_number(n: i32) -> Option<Day>
        ensures some { IsSome result ↔ ((pos 1 ≤ℤ n) × (n ≤ℤ pos 3652059)) }
        ensures value { IfSome result (λ d. pos d ≡ n) }
    {
        if 1 <= n && n <= 3_652_059 {
            Some(Day { number: n as u32 })
        } else {
            None
        }
    }

    /// The day on which so many seconds have gone by since 1970-01-01 began, by the clock of UTC. After 9999-12-31 it
    /// is that day still.
    pub(crate) fn since_1970(seconds: u64) -> Day
        ensures { result ≡ spec.day_since_1970 seconds }
    {
        Day {
            number: (719_163 + seconds / 86_400).min(3_652_059) as u32,
        }
    }

    /// The year in which the day lies.
    pub fn year(&self) -> u16
        ensures { result ≡ spec.year_of self.now }
    {
        year_in(Date::from_days_since_min(self.number + 3_652_424))
    }

    /// The day that a text spells. It has ten bytes, YYYY-MM-DD, a year from 0001, and a month and a
    /// day that the calendar has.
    #[tactic(auto, unfolding(crate::specs::Days::day_of))]
    pub fn from_text(text: &str) -> Option<Day>
        ensures { result ≡ spec.day_of text.now }
    {
        let text = text.as_bytes();
        if text.len() != 10 || text[4] != b'-' || text[7] != b'-' {
            return None;
        }
        let century = pair(text[0], text[1])?;
        let year = pair(text[2], text[3])?;
        let month = pair(text[5], text[6])?;
        let day = pair(text[8], text[9])?;
        day_on(100 * century + year, month, day)
    }

    /// Writes the ten bytes of the day, YYYY-MM-DD.
    pub fn put(&self, out: &mut [u8; 10])
        ensures { out.new ≡ spec.day_text self.now }
    {
        *out = date_bytes(Date::from_days_since_min(self.number + 3_652_424));
    }

    /// The day as it is printed, YYYY-MM-DD.
    pub fn spelled(self, alloc: Global) -> Result<String, Memory>
        ensures { IfOk result (λ s. string_bytes s ≡ spec.day_text self) }
    {
        let mut bytes = [0; 10];
        self.put(&mut bytes);
        match str::from_utf8(&bytes) {
            Ok(text) => Ok(String::from_str(alloc, text)?),
            Err(_) => unreachable!(),
        }
    }
}
