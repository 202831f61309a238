//! Laws of days, of sizes, of decimals and of equality, each as the contract of a function with an empty body.

ghost use Rattle.std.specs.Prelude.{◌≡◌, ◌≤◌, ◌↔◌, ℕ, List, IsTrue, Some};
ghost use Rattle.std.specs.Fmt.{decimal};
ghost use Rattle.desk_base.specs.Decimals.{decimal_up_to};
ghost use Rattle.desk_base.specs.Days.{IsDay, number_of, day_of, day_text};
ghost use Rattle.desk_base.specs.declared.id.Id.{Id as IdValue};
ghost use Rattle.desk_base.specs.declared.period.Period.{Period as PeriodValue};
ghost use Rattle.desk_base.specs.declared.sizes.TheConstants.{DAY_SIZE, ID_SIZE, PERIOD_SIZE};

use crate::{Day, Id, Period, Text};

/// A day has a number from 1 to 3652059.
pub fn day_is_numbered(_day: Day)
    ensures { IsDay _day }
{}

/// What a day spells is read as that day.
pub fn spelled_day_is_read(_number: u32)
    ensures { IsDay _number → day_of (day_text _number) ≡ Some _number }
{}

/// What is read as a day is what that day spells, so that a day has one spelling.
pub fn read_day_is_spelled(_text: &[u8], _number: u32)
    ensures { day_of _text.now ≡ Some _number → _text.now ≡ day_text _number }
{}

/// What is read is a day: its number is from 1 to 3652059.
pub fn read_number_is_day(_text: &[u8], _number: u32)
    ensures { day_of _text.now ≡ Some _number → IsDay _number }
{}

/// The count of days: 0001-01-01 is day 1, 1970-01-01 day 719163, and 9999-12-31 day 3652059.
pub fn days_are_counted_from_first()
    ensures first { number_of 1 1 1 ≡ 1 }
    ensures epoch { number_of 1970 1 1 ≡ 719163 }
    ensures last { number_of 9999 12 31 ≡ 3652059 }
{}

/// Where an entry is kept, a day takes four bytes, an id six, and a period eight.
pub fn sizes_are_these()
    ensures day { DAY_SIZE ≡ 4 }
    ensures id { ID_SIZE ≡ 6 }
    ensures period { PERIOD_SIZE ≡ 8 }
{}

/// What a number spells in decimal is read as that number, within every limit that it keeps.
pub fn spelled_number_is_read(_number: u64, _most: u64)
    ensures { _number ≤ _most → decimal_up_to _most (decimal _number) ≡ Some _number }
{}

/// What is read as a number is what that number spells, so that a number has one spelling.
pub fn read_decimal_is_spelled(_text: &[u8], _number: u64, _most: u64)
    ensures { decimal_up_to _most _text.now ≡ Some _number → _text.now ≡ decimal _number }
{}

/// `==` holds of texts, ids and periods exactly where they are equal.
pub fn equality_is_decided()
    ensures texts { (a b : List ℕ) → IsTrue (⟦<Text as PartialEq>⟧.eq a b) ↔ (a ≡ b) }
    ensures ids { (a b : IdValue) → IsTrue (⟦<Id as PartialEq>⟧.eq a b) ↔ (a ≡ b) }
    ensures periods { (a b : PeriodValue) → IsTrue (⟦<Period as PartialEq>⟧.eq a b) ↔ (a ≡ b) }
{}
