//! The rules that what a reference names may break, but that its work is not known.

ghost use Rattle.std.specs.Prelude.{◌≡◌};
ghost use Rattle.std.specs.Option.{option_copied};
ghost use Rattle.act_tree.specs.Seen.{tree_view};
ghost use Rattle.law_register.specs.Answer.Answers as answers;
ghost use Rattle.law_office.specs.Targets as spec;

use act_tree::Tree;
use desk_base::Day;
use law_register::Act;

// The number of the rule that a text has no provision of the eId that is named.
const UNKNOWN_PORTION: u8 = 5;

/// Whether the day of a version is before that of an act.
pub(crate) fn is_too_early(version: Option<Day>, act: &Act) -> bool
    ensures { result ≡ answers.is_too_early version act.now }
{
    version.is_some_and(|day| day < act.day)
}

/// The number of the rule that no provision of a text has the eId that is named, if one is and none has it.
pub(crate) fn portion_rule(tree: &Tree, portion: Option<&str>) -> Option<u8>
    ensures { result ≡ spec.portion_rule (tree_view tree.now) (option_copied portion.entry) }
{
    match portion {
        Some(eid) => match tree.find_eid(eid) {
            Some(_) => None,
            None => Some(UNKNOWN_PORTION),
        },
        None => None,
    }
}
