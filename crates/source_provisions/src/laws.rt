//! What holds of the texts of all works on a day. Each law is a function that does nothing, whose clause is the law.

ghost use Rattle.std.specs.Prelude.{◌≡◌, ◌<◌, ◌≤◌, ◌++◌, ◌∷◌, [], ◌&&◌, ℕ, IfSome, List, Some, false, true, filter, length, map, nat_le, nat_lt, take};
ghost use Rattle.std.specs.List.{AllByRecursion, list_any};
ghost use Rattle.law_register.specs.declared.answer.question.Reading.{Reading};
ghost use Rattle.law_register.specs.declared.law.act.Act.{Act};
ghost use Rattle.law_register.specs.declared.law.command.Command.{Command};
ghost use Rattle.law_register.specs.declared.law.command.Command.TheVariants.{Enact};
ghost use Rattle.law_register.specs.declared.register.entry.Entry.{Entry};
ghost use Rattle.law_register.specs.declared.register.known.Known.{Known};
ghost use Rattle.law_register.specs.Answer.Breakpoints.{breakpoints};
ghost use Rattle.law_register.specs.Answer.Costs.{revision_cost};
ghost use Rattle.law_register.specs.Answer.Order.{order};
ghost use Rattle.law_register.specs.Answer.Renewing.{command_cost};
ghost use Rattle.law_register.specs.Answer.Replay.{replay_on};
ghost use Rattle.law_register.specs.Answer.Soundness.{IsSound, id_twice};
ghost use Rattle.law_register.specs.Answer.Standing.{alone};
ghost use Rattle.law_register.specs.Answer.Touched.{day_among, touched_days};
ghost use Rattle.law_register.specs.Register.KnownNext.{known_now};
ghost use Rattle.law_register.specs.Register.LawList.{laws};
ghost use Rattle.law_register.specs.Register.Verdicts.{is_legal};
ghost use Rattle.law_register.specs.Provisions.Carrying.{carrying, held_now};
ghost use Rattle.law_register.specs.Provisions.Costs.{entry_cost_in, held_cost, revision_cost_in};
ghost use Rattle.law_register.specs.Provisions.Depending.{IsChain, breakpoints_of, days_along, depends, depends_in, own_days};
ghost use Rattle.version_cache.specs.Agreement.{IsEarly};
ghost use Rattle.source_provisions.specs.Once.{AreOnce};
ghost use Rattle.source_provisions.specs.Held.{HoldingValue, IsRight, holding_of, work_held};
ghost use Rattle.law_register.specs.Provisions.Line.{IsLine, line, work_in};
ghost use Rattle.law_register.specs.Provisions.Looking.{looked_at, names_any};
ghost use Rattle.law_register.specs.Provisions.Touching.{touched, touched_works};
ghost use Rattle.law_register.specs.Provisions.Trees.{AgreesOn, WorkText, is_borne_id, order_in, text_alone, trees, version_in, work_borne};

/// The works of a law are a line: the act of the latest day first, on one day by the bytes of the IRI, and each IRI once.
pub fn laws_have_lines()
    ensures { (law : List Command) → IsLine (line law) }
{}

/// A provision that is not looked at changes nothing: a work of which none is counts as it is known by itself.
pub fn what_is_not_looked_at_changes_nothing()
    ensures { (works : List Known) (texts : List WorkText) (reading : Reading) (day : ℕ) (known : Known)
        → list_any (λ m. looked_at works known.act.day m.body) known.mods ≡ false
        → work_borne works texts reading day known ≡ alone known }
{}

/// Where no modification names a provision, each work has the text that its own modifications make, and its own days alone.
pub fn unnamed_provisions_change_nothing()
    ensures texts { (works : List Known) (reading : Reading) (day : ℕ) → list_any names_any works ≡ false
        → trees works reading day ≡ map (text_alone reading day) works }
    ensures days { (works : List Known) → list_any names_any works ≡ false → days_along works ≡ map own_days works }
    ensures independent { (works : List Known) (known : Known) (work : List ℕ) → names_any known ≡ false
        → depends works known work ≡ false }
{}

/// Where no modification names a provision, neither before an entry nor with it, each work is touched as if it stood alone.
pub fn unnamed_provisions_reach_nothing()
    ensures { (entries : List Entry) (entry : Entry) (work : List ℕ) (known : Known)
        → list_any names_any (line (laws entries)) ≡ false
        → list_any names_any (line (laws (entries ++ entry ∷ []))) ≡ false
        → work_in work (line (laws (entries ++ entry ∷ []))) ≡ Some known
        → touched entries entry work ≡ day_among (touched_days entries entry) work }
{}

/// Where no modification of a work names a provision, it costs what it cost to revise its versions, and nothing has to be held. What touches
/// nothing costs nothing.
pub fn unnamed_provisions_cost_nothing()
    ensures revising { (works : List Known) (known : Known) (reading : Reading) (touched : ℕ) → names_any known ≡ false
        → revision_cost_in works known reading touched ≡ revision_cost (alone known) reading touched }
    ensures holding { (works : List Known) (known : Known) → names_any known ≡ false → held_cost works known ≡ 0 }
    ensures untouched { (entries : List Entry) (entry : Entry) → touched_works entries entry ≡ []
        → entry_cost_in entries entry ≡ 0 }
{}

/// An entry that enacts a work on which none depends costs nothing: its text is the act as enacted, and it changes that of no other.
pub fn acts_on_which_none_depends_cost_nothing()
    ensures { (entries : List Entry) (entry : Entry) (act : Act) → entry.command ≡ Enact act
        → ((work : List ℕ) → depends_in (line (laws (entries ++ entry ∷ []))) work act.work ≡ false)
        → command_cost entries entry ≡ 0 }
{}

/// The days of each work of a line are those that it names itself, and those of the works on which it depends.
pub fn days_are_own_and_of_sources()
    ensures { (works : List Known) → IsLine works
        → AllByRecursion (λ w. w.days ≡ breakpoints_of works w.known) (days_along works) }
{}

/// Works that depend on each other in turn are of later and later days, so none depends on itself through others.
pub fn works_depend_on_later_ones()
    ensures { (works : List Known) (known : Known) (chain : List Known)
        → AllByRecursion (λ next. work_in next.act.work works ≡ Some next) chain
        → IsChain works known chain
        → AllByRecursion (λ next. known.act.day < next.act.day) chain }
{}

/// A text is made by the works ahead of it in the line: what stands behind changes nothing of it.
pub fn works_behind_change_nothing()
    ensures { (front behind : List Known) (reading : Reading) (day : ℕ) → IsLine (front ++ behind)
        → take (length front) (trees (front ++ behind) reading day) ≡ trees front reading day }
{}

/// The texts of a line belong together: each is the replay of what bears by its own periods and whose provision, where it is looked at,
/// stands in one of these texts on that very day.
pub fn texts_bear_each_other()
    ensures { (works : List Known) (reading : Reading) (day : ℕ) → IsLine works
        → AllByRecursion (λ text. text.version ≡ version_in works text.known reading day) (trees works reading day) }
{}

/// What bears is what bears by its own periods, in the same order, but for the modifications whose provision is looked at and does not
/// stand. No id is of two modifications.
pub fn orders_leave_out_what_is_not_borne()
    ensures { (works : List Known) (known : Known) (reading : Reading) (day : ℕ) → id_twice (map (λ m. m.id) known.mods) ≡ false
        → order_in works known reading day
        ≡ filter (is_borne_id works (trees works reading day) reading day known) (order (alone known) reading day) }
{}

/// Between two days that no breakpoint of a work parts its text stands still: the same modifications bear on both, in the same order.
pub fn texts_stand_still()
    ensures { (works : List Known) (known : Known) (reading : Reading) (from day : ℕ) → from ≤ day
        → list_any (λ d. nat_lt from d && nat_le d day) (breakpoints_of works known) ≡ false
        → order_in works known reading day ≡ order_in works known reading from }
{}

/// Nothing changes in a work before its touched day, and in one that an entry does not touch nothing changes on any day: the same
/// modifications bear, in the same order, each says the same, and they make the same text.
pub fn works_change_from_their_touched_days()
    ensures { (entries : List Entry) (entry : Entry) (work : List ℕ) (reading : Reading) (day : ℕ) (old new : Known)
        → is_legal entries ≡ true
        → work_in work (line (laws entries)) ≡ Some old
        → work_in work (line (laws (entries ++ entry ∷ []))) ≡ Some new
        → IsEarly day (touched entries entry work)
        → AgreesOn (line (laws entries)) (line (laws (entries ++ entry ∷ []))) old new reading day }
{}

/// What is held, where it is right for what is known of a work, says what bears: on each day and in each reading the same
/// modifications as by the texts of all works, in the same order.
pub fn what_is_held_bears()
    ensures { (works : List Known) (known : Known) (holding : HoldingValue) (reading : Reading) (day : ℕ)
        → IsRight works known holding
        → order (work_held holding.held reading day known) reading day ≡ order_in works known reading day }
{}

/// What is to be held can be reckoned from the texts of all works, and is right then.
pub fn what_is_to_be_held_is_there()
    ensures { (works : List Known) (known : Known) → IsRight works known (holding_of works known) }
{}

/// What a work carries of its provisions says what bears: on each day and in each reading the same modifications as by the texts of all
/// works, in the same order; they make the same text. Its breakpoints are those that it has in the line, and its versions cost the same.
pub fn what_is_carried_bears()
    ensures orders { (works : List Known) (known : Known) (reading : Reading) (day : ℕ) → IsLine works
        → order (carrying works known) reading day ≡ order_in works known reading day }
    ensures versions { (works : List Known) (known : Known) (reading : Reading) (day : ℕ) → IsLine works
        → replay_on (carrying works known) reading day ≡ version_in works known reading day }
    ensures days { (works : List Known) (known : Known) → breakpoints (carrying works known) ≡ breakpoints_of works known }
    ensures costs { (works : List Known) (known : Known) (reading : Reading) (touched : ℕ) → IsLine works
        → revision_cost (carrying works known) reading touched ≡ revision_cost_in works known reading touched }
{}

/// What carries can be replayed, where it can be as it is known by itself.
pub fn what_is_carried_is_sound()
    ensures { (works : List Known) (known : Known) → IsLine works → IsSound (alone known) → IsSound (carrying works known) }
{}

/// What is held of a work at the front can be replayed; and with an entry more it makes the same text on each day before the touched day of
/// the work.
pub fn what_is_held_stays_until_touched()
    ensures sound { (entries : List Entry) (work : List ℕ) → is_legal entries ≡ true → IfSome (held_now entries work) IsSound }
    ensures texts { (entries : List Entry) (entry : Entry) (work : List ℕ) (reading : Reading) (day : ℕ) (old new : Known)
        → is_legal entries ≡ true
        → known_now entries work ≡ Some old
        → known_now (entries ++ entry ∷ []) work ≡ Some new
        → IsEarly day (touched entries entry work)
        → replay_on (carrying (line (laws entries)) old) reading day
        ≡ replay_on (carrying (line (laws (entries ++ entry ∷ []))) new) reading day }
{}

/// Each work stands once among those that an entry touches.
pub fn touched_works_stand_once()
    ensures { (entries : List Entry) (entry : Entry) → is_legal entries ≡ true → AreOnce (touched_works entries entry) }
{}

/// Where no modification of a work names a provision, nothing is carried.
pub fn unnamed_provisions_carry_nothing()
    ensures { (works : List Known) (known : Known) → names_any known ≡ false → carrying works known ≡ alone known }
{}
