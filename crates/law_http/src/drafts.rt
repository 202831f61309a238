//! What a drafter asks: the items of his draft, or a preview.

ghost use Rattle.std.specs.Prelude.{◌≡◌};
ghost use Rattle.frbr_names.specs.ExpressionViews.{expression_view};
ghost use Rattle.law_http.specs.Asking as spec;

use crate::Query;
use crate::asking::{AskFail, broken, portion_of, reading_in};
use akn_json::FormRule;
use desk_base::{Day, Text};
use frbr_names::{ExpressionIri, WorkName, parse_expression};
use law_register::{Drafter, Question, Reading};
use std::alloc::Global;

/// What will be asked of a version of a work once a drafter's draft of it is filed.
#[derive(Debug, Drop)]
pub struct PreviewAsked {
    /// Whose draft it is.
    pub drafter: Drafter,
    /// The IRI of the work.
    pub work: WorkName,
    /// Three lower-case letters.
    pub language: [u8; 3],
    /// The day of the version.
    pub day: Day,
    /// The eId of the provision asked for. `None`: the whole act.
    pub portion: Option<Text>,
    /// What counts as bearing.
    pub reading: Reading,
}

impl PreviewAsked {
    /// The drafter, and the question, whose viewpoint is not read.
    pub fn question(self) -> (Drafter, Question)
        ensures drafter { result.0 ≡ self.drafter }
        ensures question { result.1 ≡ spec.question_previewed self }
    {
        let language = self.language;
        let question = Question {
            work: self.work,
            language,
            version: Some(self.day),
            portion: self.portion,
            viewpoint: 0,
            reading: self.reading,
        };
        (self.drafter, question)
    }
}

/// The drafter whom a query names.
#[tactic(auto, unfolding(crate::specs::Asking::drafter_in))]
pub fn drafter_in(alloc: Global, query: &Query) -> Result<Drafter, AskFail>
    ensures { spec.Gives result (spec.drafter_in query.now) }
{
    let Some(name) = query.value("drafter") else {
        return Err(broken(FormRule::WrongShape));
    };
    match Drafter::from_text(alloc, name)? {
        Some(drafter) => Ok(drafter),
        None => Err(broken(FormRule::BadName)),
    }
}

#[tactic(auto, unfolding(crate::specs::Asking::preview_of))]
fn preview_of(
    alloc: Global,
    drafter: Drafter,
    iri: &ExpressionIri<'_>,
    query: &Query,
) -> Result<PreviewAsked, AskFail>
    ensures { spec.Gives result (spec.preview_of drafter (expression_view iri.now) query.now) }
{
    let Some(day) = iri.version else {
        return Err(broken(FormRule::BadDay));
    };
    let reading = reading_in(query.value("reading"))?;
    let language = iri.language;
    Ok(PreviewAsked {
        drafter,
        work: WorkName::copy_of(alloc, &iri.work)?,
        language,
        day,
        portion: portion_of(alloc, iri.portion)?,
        reading,
    })
}

/// The preview that a query asks for. The name of the drafter is judged first, then the expression, then its version, which has to have
/// a day, and then the reading.
#[tactic(auto, unfolding(crate::specs::Asking::preview_in))]
pub fn preview_in(alloc: Global, query: &Query) -> Result<PreviewAsked, AskFail>
    ensures { spec.Gives result (spec.preview_in query.now) }
{
    let drafter = drafter_in(alloc, query)?;
    let Some(name) = query.value("expression") else {
        return Err(broken(FormRule::WrongShape));
    };
    match parse_expression(name) {
        Ok(iri) => preview_of(alloc, drafter, &iri, query),
        Err(_) => Err(broken(FormRule::BadName)),
    }
}
