//! How the IRI of an expression is read: a work's, `/`, a language, `@`, a day or nothing, and then
//! perhaps `/!main` and a portion.

ghost use Rattle.std.specs.Prelude.{◌≡◌, Ok, IfOk, IfSome, IsTrue};
ghost use Rattle.std.specs.Option.{option_copied};
ghost use Rattle.frbr_names.specs.ExpressionViews.{expression_view};
ghost use Rattle.frbr_names.specs.Expressions as spec;
ghost use Rattle.frbr_names.specs.Parts.{behind_slash, part_of};
ghost use Rattle.frbr_names.specs.Reads.{Gives};
ghost use Rattle.frbr_names.specs.Rules.{is_number};
ghost use Rattle.frbr_names.specs.WorkViews.{front_view, work_view};
ghost use Rattle.frbr_names.specs.Works.{front_of};

use crate::expression_iri::ExpressionIri;
use crate::fault::{NameFault, NameRule, fault};
use crate::parts::{after_front, behind_part, behind_slash, part, place_of};
use crate::rules::{is_number, is_portion};
use crate::work_iri::WorkIri;
use crate::work_reading::{Front, front_of};
use desk_base::Day;

// The language that a part begins with, before its sign.
#[tactic(auto, unfolding(crate::specs::Expressions::language_of, crate::specs::Expressions::is_language))]
fn language_of(part: &[u8]) -> Option<[u8; 3]>
    ensures value { result ≡ spec.language_of part.now }
    ensures kept { IfSome result (λ language. IsTrue (spec.is_language language)) }
{
    match part {
        [first, second, third, sign, ..] => {
            let are_letters = first.is_ascii_lowercase()
                && second.is_ascii_lowercase()
                && third.is_ascii_lowercase();
            if are_letters && *sign == b'@' {
                Some([*first, *second, *third])
            } else {
                None
            }
        }
        _ => None,
    }
}

// What stands behind the sign of a part.
#[tactic(auto, unfolding(crate::specs::Expressions::behind_sign))]
fn behind_sign(part: &str) -> &str
    ensures { result.now ≡ spec.behind_sign part.now }
{
    match part.split_once('@') {
        Some((_, behind)) => behind,
        None => "",
    }
}

// The version that stands behind a sign.
#[tactic(auto, unfolding(crate::specs::Expressions::version_in))]
fn version_in(place: usize, spelled: &str) -> Result<Option<Day>, NameFault>
    ensures { Gives (λ version. version) result (spec.version_in place spelled.now) }
{
    if spelled.is_empty() {
        return Ok(None);
    }
    match Day::from_text(spelled) {
        Some(day) => Ok(Some(day)),
        None => Err(fault(NameRule::BadDate, place)),
    }
}

// The portion that stands behind a tilde.
#[tactic(auto, unfolding(crate::specs::Expressions::portion_in, crate::specs::Expressions::is_portion_or_none))]
fn portion_in(place: usize, spelled: &str) -> Result<Option<&str>, NameFault>
    ensures value { Gives option_copied result (spec.portion_in place spelled.now) }
    ensures kept { IfOk result (λ portion. IsTrue (spec.is_portion_or_none (option_copied portion))) }
{
    let Some(portion) = after_front("~", spelled) else {
        return Err(fault(NameRule::BadPortion, place));
    };
    if is_portion(portion.as_bytes()) {
        Ok(Some(portion))
    } else {
        Err(fault(NameRule::BadPortion, place))
    }
}

// Whether the name of a component ends here.
#[tactic(auto, unfolding(crate::specs::Expressions::is_component_end))]
fn is_component_end(rest: &[u8]) -> bool
    ensures { result ≡ spec.is_component_end rest.now }
{
    match rest {
        [] => true,
        [byte, ..] => *byte == b'/' || *byte == b'~',
    }
}

// What stands behind the component `main`.
#[tactic(auto, unfolding(crate::specs::Expressions::behind_main, crate::specs::Expressions::is_portion_or_none))]
fn behind_main(place: usize, rest: &str) -> Result<Option<&str>, NameFault>
    ensures value { Gives option_copied result (spec.behind_main place rest.now) }
    ensures kept { IfOk result (λ portion. IsTrue (spec.is_portion_or_none (option_copied portion))) }
{
    if rest.is_empty() {
        return Ok(None);
    }
    match after_front("/", rest) {
        Some(spelled) => portion_in(place, spelled),
        None => portion_in(place, rest),
    }
}

// What stands behind the slash after a version.
#[tactic(auto, unfolding(crate::specs::Expressions::ending_in))]
fn ending_in<'a>(text: &str, behind: &'a str) -> Result<Option<&'a str>, NameFault>
    ensures value { Gives option_copied result (spec.ending_in text.now behind.now) }
    ensures kept { IfOk result (λ portion. IsTrue (spec.is_portion_or_none (option_copied portion))) }
{
    let place = place_of(text, behind).saturating_sub(1);
    if !behind.starts_with('!') {
        return portion_in(place, behind);
    }
    let Some(rest) = after_front("!main", behind) else {
        return Err(fault(NameRule::OtherComponent, place));
    };
    if !is_component_end(rest.as_bytes()) {
        return Err(fault(NameRule::OtherComponent, place));
    }
    behind_main(place_of(text, rest), rest)
}

// What stands after a version.
#[tactic(auto, unfolding(crate::specs::Expressions::is_portion_or_none))]
fn ending_of<'a>(text: &str, left: &'a str) -> Result<Option<&'a str>, NameFault>
    ensures value { Gives option_copied result (spec.ending_of text.now (behind_slash left.now)) }
    ensures kept { IfOk result (λ portion. IsTrue (spec.is_portion_or_none (option_copied portion))) }
{
    match behind_slash(left) {
        Some(behind) => ending_in(text, behind),
        None => Ok(None),
    }
}

// The work that a name begins with.
#[tactic(auto, unfolding(crate::specs::Expressions::work_in))]
fn work_in<'a>(text: &'a str, front: &Front<'a>) -> WorkIri<'a>
    requires front { front_of text.now ≡ Ok (front_view front.now) }
    requires number { IsTrue (is_number (part_of front.now.left.now)) }
    ensures { work_view result ≡ spec.work_in text.now (front_view front.now) }
{
    let number = part(front.left);
    let end = place_of(text, front.left) + number.len();
    WorkIri {
        text: &text[..end],
        jurisdiction: front.jurisdiction,
        date: front.date,
        number,
    }
}

// What a name says from the number of the work on.
#[tactic(auto, unfolding(crate::specs::Expressions::expression_behind))]
fn expression_behind<'a>(text: &'a str, front: &Front<'a>) -> Result<ExpressionIri<'a>, NameFault>
    requires { front_of text.now ≡ Ok (front_view front.now) }
    ensures { Gives expression_view result (spec.expression_behind text.now (front_view front.now)) }
{
    if !is_number(part(front.left).as_bytes()) {
        return Err(fault(NameRule::BadNumber, place_of(text, front.left)));
    }
    let left = behind_part(front.left);
    let place = place_of(text, left);
    let Some(language) = language_of(part(left).as_bytes()) else {
        return Err(fault(NameRule::BadLanguage, place));
    };
    let version = version_in(place + 4, behind_sign(part(left)))?;
    let portion = ending_of(text, left)?;
    Ok(ExpressionIri {
        work: work_in(text, front),
        language,
        version,
        portion,
    })
}

/// Reads the IRI of an expression. It gives the first fault from the left where the text is none.
#[tactic(auto, unfolding(crate::specs::Expressions::expression_of))]
pub fn parse_expression(text: &str) -> Result<ExpressionIri<'_>, NameFault>
    ensures { Gives expression_view result (spec.expression_of text.now) }
{
    match front_of(text) {
        Ok(front) => expression_behind(text, &front),
        Err(fault) => Err(fault),
    }
}

/// Whether a text is the IRI of an expression.
pub fn is_expression(text: &str) -> bool
    ensures { result ≡ spec.is_expression text.now }
{
    match parse_expression(text) {
        Ok(_) => true,
        Err(_) => false,
    }
}
