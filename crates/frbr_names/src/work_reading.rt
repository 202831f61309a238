//! How the IRI of a work is read: `/akn/`, a jurisdiction, `/act/`, at most two words, a date and a
//! number.

ghost use Rattle.std.specs.Prelude.{◌≡◌};
ghost use Rattle.frbr_names.specs.Reads.{Gives};
ghost use Rattle.frbr_names.specs.WorkViews.{front_view, work_view};
ghost use Rattle.frbr_names.specs.Works as spec;

use crate::date::{IriDate, date_of};
use crate::fault::{NameFault, NameRule, fault};
use crate::parts::{after_front, behind_part, part, place_of};
use crate::rules::{is_jurisdiction, is_number, is_word};
use crate::work_iri::WorkIri;

// What a name says before the number of the work, and what is left from there on.
#[derive(Clone, Copy)]
pub(crate) struct Front<'a> {
    pub jurisdiction: &'a str,
    pub date: IriDate,
    pub left: &'a str,
}

// What is left behind a word, where one stands first.
#[tactic(auto, unfolding(crate::specs::Works::behind_word))]
fn behind_word(left: &str) -> &str
    ensures { result.now ≡ spec.behind_word left.now }
{
    if is_word(part(left).as_bytes()) {
        behind_part(left)
    } else {
        left
    }
}

// The front of a name.
#[tactic(auto, unfolding(crate::specs::Works::front_of))]
pub(crate) fn front_of(text: &str) -> Result<Front<'_>, NameFault>
    ensures { Gives front_view result (spec.front_of text.now) }
{
    let Some(left) = after_front("/akn/", text) else {
        return Err(fault(NameRule::NotAkn, 0));
    };
    let jurisdiction = part(left);
    if !is_jurisdiction(jurisdiction.as_bytes()) {
        return Err(fault(NameRule::BadJurisdiction, place_of(text, left)));
    }
    let kind = behind_part(left);
    if part(kind) != "act" {
        return Err(fault(NameRule::NotAnAct, place_of(text, kind)));
    }
    let dated = behind_word(behind_word(behind_part(kind)));
    let Some(date) = date_of(part(dated)) else {
        return Err(fault(NameRule::BadDate, place_of(text, dated)));
    };
    Ok(Front {
        jurisdiction,
        date,
        left: behind_part(dated),
    })
}

/// Reads the IRI of a work. It gives the first fault from the left where the text is none.
#[tactic(auto, unfolding(crate::specs::Works::work_of))]
pub fn parse_work(text: &str) -> Result<WorkIri<'_>, NameFault>
    ensures { Gives work_view result (spec.work_of text.now) }
{
    match front_of(text) {
        Ok(front) => {
            if is_number(front.left.as_bytes()) {
                Ok(WorkIri {
                    text,
                    jurisdiction: front.jurisdiction,
                    date: front.date,
                    number: front.left,
                })
            } else {
                Err(fault(NameRule::BadNumber, place_of(text, front.left)))
            }
        }
        Err(fault) => Err(fault),
    }
}
