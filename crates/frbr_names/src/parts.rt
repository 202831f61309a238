//! The parts of a name: what stands between its slashes.

ghost use Rattle.std.specs.Prelude.{◌≡◌};
ghost use Rattle.std.specs.Option.{option_copied};
ghost use Rattle.frbr_names.specs.Parts as spec;
ghost use Rattle.frbr_names.specs.Reads.{place_of};

// The byte at which what is left of a text begins.
pub(crate) fn place_of(text: &str, left: &str) -> usize
    ensures { result ≡ place_of text.now left.now }
{
    text.len().saturating_sub(left.len())
}

// The part that stands first.
#[tactic(auto, unfolding(crate::specs::Parts::part_of))]
pub(crate) fn part(left: &str) -> &str
    ensures { result.now ≡ spec.part_of left.now }
{
    match left.split_once('/') {
        Some((part, _)) => part,
        None => left,
    }
}

// What stands behind the next slash; nothing, where none comes.
#[tactic(auto, unfolding(crate::specs::Parts::behind_part))]
pub(crate) fn behind_part(left: &str) -> &str
    ensures { result.now ≡ spec.behind_part left.now }
{
    match left.split_once('/') {
        Some((_, behind)) => behind,
        None => "",
    }
}

// What stands behind the next slash, if one comes.
#[tactic(auto, unfolding(crate::specs::Parts::behind_slash))]
pub(crate) fn behind_slash(left: &str) -> Option<&str>
    ensures { option_copied result ≡ spec.behind_slash left.now }
{
    match left.split_once('/') {
        Some((_, behind)) => Some(behind),
        None => None,
    }
}

// What stands behind a front, where the text begins with it.
#[tactic(auto, unfolding(crate::specs::Parts::after_front))]
pub(crate) fn after_front<'a>(front: &str, text: &'a str) -> Option<&'a str>
    ensures { option_copied result ≡ spec.after_front front.now text.now }
{
    text.strip_prefix(front)
}
