//! Days of the generated register.

ghost use Rattle.std.specs.Prelude.{◌≡◌};
ghost use Rattle.law_generator.specs.Acts as acts;
ghost use Rattle.law_generator.specs.Drawn as spec;

use crate::draws::Draws;
use desk_base::Day;

/// The day of the act, and of each entry: 2000-01-01.
pub fn first_day() -> Day
    ensures { result ≡ acts.first_day }
{
    Day::from_number(730_120).unwrap()
}

/// The day that is drawn, one of the 3,650 from the first day on.
pub fn drawn_day(draws: &mut Draws) -> Day
    ensures state { draws.new.state ≡ spec.next draws.old.state }
    ensures value { result ≡ spec.day_drawn draws.new.state }
{
    let later = draws.below(3_650) as i32;
    Day::from_number(730_120 + later).unwrap()
}
