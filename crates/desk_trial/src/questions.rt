//! Questions, as a line spells them.

ghost use Rattle.std.specs.Prelude.{◌≡◌, IfOk};
ghost use Rattle.std.specs.Option.{option_copied};
ghost use Rattle.desk_trial.specs.Knowing as spec;

use desk_base::{Memory, Text, decimal_number};
use frbr_names::{ExpressionIri, WorkName, parse_expression, parse_work};
use law_register::{Question, Reading};
use std::alloc::Global;

// The viewpoint that a word spells. `None`: it spells none.
fn viewpoint_named(word: &str) -> Option<u32> {
    Some(decimal_number(word, 4_294_967_295)? as u32)
}

// The eId of a portion, if one is named.
fn portion_named(alloc: Global, portion: Option<&str>) -> Result<Option<Text>, Memory>
    ensures { IfOk result (λ named. named ≡ option_copied portion.entry) }
{
    match portion {
        Some(eid) => Ok(Some(Text::copy_of(alloc, eid)?)),
        None => Ok(None),
    }
}

// The question for an expression, at a viewpoint and in a reading.
fn question_for(
    alloc: Global,
    iri: &ExpressionIri<'_>,
    viewpoint: u32,
    reading: Reading,
) -> Result<Question, Memory>
    ensures { IfOk result (λ question. question ≡ spec.question_for iri.now viewpoint reading) }
{
    Ok(Question {
        work: WorkName::copy_of(alloc, &iri.work)?,
        language: iri.language,
        version: iri.version,
        portion: portion_named(alloc, iri.portion)?,
        viewpoint,
        reading,
    })
}

// The question for the expression that a text spells, if it spells one.
fn question_of(
    alloc: Global,
    expression: &str,
    viewpoint: u32,
    reading: Reading,
) -> Result<Option<Question>, Memory> {
    match parse_expression(expression) {
        Ok(iri) => Ok(Some(question_for(alloc, &iri, viewpoint, reading)?)),
        Err(_) => Ok(None),
    }
}

// The question of two words behind that for an expression.
fn question_of_words(
    alloc: Global,
    expression: &str,
    viewpoint: &str,
    reading: &str,
) -> Result<Option<Question>, Memory> {
    match (viewpoint_named(viewpoint), Reading::from_name(reading)) {
        (Some(viewpoint), Some(reading)) => question_of(alloc, expression, viewpoint, reading),
        _ => Ok(None),
    }
}

/// The question that `EXPRESSION VIEWPOINT READING` spells. `None`: it spells none.
pub fn read_question(alloc: Global, words: &str) -> Result<Option<Question>, Memory> {
    match words.split_once(' ') {
        Some((expression, rest)) => match rest.split_once(' ') {
            Some((viewpoint, reading)) => {
                question_of_words(alloc, expression, viewpoint, reading)
            }
            None => Ok(None),
        },
        None => Ok(None),
    }
}

// The work whose IRI a text is, if it is one.
fn work_named(alloc: Global, text: &str) -> Result<Option<WorkName>, Memory> {
    match parse_work(text) {
        Ok(iri) => Ok(Some(WorkName::copy_of(alloc, &iri)?)),
        Err(_) => Ok(None),
    }
}

/// The work and the viewpoint that `WORK VIEWPOINT` spells. `None`: it spells none.
pub fn read_known(alloc: Global, words: &str) -> Result<Option<(WorkName, u32)>, Memory> {
    match words.split_once(' ') {
        Some((work, viewpoint)) => match viewpoint_named(viewpoint) {
            Some(viewpoint) => Ok(work_named(alloc, work)?.map(|work| (work, viewpoint))),
            None => Ok(None),
        },
        None => Ok(None),
    }
}
