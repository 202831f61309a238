//! What holds of orders, breakpoints and replays. Each law is a function that does nothing, whose clause is the law.

ghost use Rattle.std.specs.Prelude.{◌≡◌, ◌++◌, [], ℕ, Option, false};
ghost use Rattle.std.specs.List.{list_any};
ghost use Rattle.std.specs.List.Sorted.{IsStrictlySortedBy};
ghost use Rattle.std.specs.Ordering.{nat_cmp};
ghost use Rattle.desk_base.specs.declared.id.Id.{Id};
ghost use Rattle.law_register.specs.Answer.Answers.{answer_of_text};
ghost use Rattle.law_register.specs.Answer.Breakpoints.{breakpoints, has_day, is_named};
ghost use Rattle.law_register.specs.Answer.Counted.{is_same_id};
ghost use Rattle.law_register.specs.Answer.Order.{due_cmp, due_on, is_due_id, order};
ghost use Rattle.law_register.specs.Answer.Renewing.{both_costs};
ghost use Rattle.law_register.specs.Answer.Replay.{as_enacted, replay_on, replayed};
ghost use Rattle.law_register.specs.Answer.Soundness.{IsSound, id_twice};
ghost use Rattle.law_register.specs.Answer.Standing.{alone};
ghost use Rattle.law_register.specs.Answer.Versions.{version_view};

use crate::{Known, Question, Reading, Version};
use desk_base::{Day, Id};

/// What is due on a day ascends by its keys: the day from which it bears, the day of its source, the bytes of the source's IRI,
/// the place in it, and the id.
pub fn order_ascends(_known: &Known, _reading: Reading, _day: Day)
    ensures { IsStrictlySortedBy due_cmp (due_on _known.now _reading _day) }
{}

/// An id is in the order of a day exactly where a modification of that id stands, is textual and bears on the day.
pub fn order_has_what_bears(_known: &Known, _reading: Reading, _day: Day)
    ensures { (id : Id) → list_any (is_same_id id) (order _known.now _reading _day)
        ≡ is_due_id _known.now _reading _day id }
{}

/// Each id is in the order of a day once.
pub fn order_has_each_once(_known: &Known, _reading: Reading, _day: Day)
    requires { IsSound _known.now }
    ensures { id_twice (order _known.now _reading _day) ≡ false }
{}

/// Breakpoints ascend, so each is one once.
pub fn breakpoints_ascend(_known: &Known)
    ensures { IsStrictlySortedBy nat_cmp (breakpoints _known.now) }
{}

/// The breakpoints are exactly the days that the act's force period and the modifications that stand name.
pub fn breakpoints_are_named(_known: &Known)
    ensures { (day : ℕ) → has_day day (breakpoints _known.now) ≡ is_named _known.now day }
{}

/// To replay some and then others is to replay the others on the version of the first.
pub fn replay_goes_on(_known: &Known, _version: &Version, _first: &[Id], _others: &[Id])
    ensures { replayed _known.now.mods (version_view _version.now) (_first.now ++ _others.now)
        ≡ replayed _known.now.mods (replayed _known.now.mods (version_view _version.now) _first.now) _others.now }
{}

/// What is shown of a text does not depend on how many law entries there are, nor on how many of them are known.
pub fn texts_are_shown_alike(_known: &Known, _version: &Version, _question: &Question)
    ensures { (viewpoint front : ℕ)
        → answer_of_text (record _known.now { viewpoint = viewpoint; front = front }) (version_view _version.now) _question.now
        ≡ answer_of_text _known.now (version_view _version.now) _question.now }
{}

/// What is shown of a text does not depend on what is carried: flags are those of force and efficacy alone.
pub fn texts_are_shown_alone(_known: &Known, _version: &Version, _question: &Question)
    ensures { answer_of_text (alone _known.now) (version_view _version.now) _question.now
        ≡ answer_of_text _known.now (version_view _version.now) _question.now }
{}

/// An act that nothing modifies stays as enacted on each day, and keeping its versions costs nothing.
pub fn bare_acts_stay(_known: &Known, _reading: Reading)
    requires { _known.now.mods ≡ [] }
    ensures versions { (day : ℕ) → replay_on _known.now _reading day ≡ as_enacted _known.now.act }
    ensures costs { (touched : Option ℕ) → both_costs _known.now touched ≡ 0 }
{}
