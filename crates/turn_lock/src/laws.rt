//! What the rule of the turns means, as the contracts of empty functions.

ghost use Rattle.std.specs.Prelude.{◌≡◌};
ghost use Rattle.turn_lock.specs.OneHistory.{OneHasTheTurn, OneHistory};
ghost use Rattle.turn_lock.specs.declared.steps.TheConstants.{HOME, LENGTH, NEXT, SERVED};
ghost use Rattle.turn_lock.specs.declared.turning.TheConstants.{MOST_PAUSES};
ghost use Rattle.turn_lock.specs.declared.view.TheConstants.{MOST_CALLERS};

use crate::Held;

/// At most one pass has the turn.
pub fn one_has_the_turn<T: Held>()
    ensures { OneHasTheTurn T.history T.origin }
{}

/// Of what two passes have seen, the one list begins with the other.
pub fn all_see_one_history<T: Held>()
    ensures { OneHistory T.history T.origin }
{}

/// Turns are for at most 64 callers, each of whom pauses at most 300 times before he sleeps; the words are that of the
/// next ticket, of the one that is served, and of the length, and the slot is the value's home.
pub fn limits_are_these()
    ensures callers { MOST_CALLERS ≡ 64 }
    ensures pauses { MOST_PAUSES ≡ 300 }
    ensures next_ticket { NEXT ≡ 0 }
    ensures ticket_served { SERVED ≡ 1 }
    ensures length { LENGTH ≡ 2 }
    ensures home { HOME ≡ 0 }
{}
