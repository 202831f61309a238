//! What a request asks of a desk.

ghost use Rattle.std.specs.Option.{option_copied};
ghost use Rattle.std.specs.Prelude.{◌≡◌, true, IfOk};
ghost use Rattle.akn_json.specs.Reading.Commands.{asked_of};
ghost use Rattle.akn_json.specs.Reading.Reads.{broken as at_no_place};
ghost use Rattle.frbr_names.specs.ExpressionViews.{expression_view};
ghost use Rattle.law_http.specs.Asking as spec;
ghost use Rattle.law_register.specs.Law.Spelling.{is_well_spelled};
ghost use Rattle.law_http.specs.declared.asking.AskFail.TheVariants as fails;

use crate::drafts::{PreviewAsked, drafter_in, preview_in};
use crate::route::{judged, split_target, with_method};
use crate::{Bytes, Query, Request, RequestRefusal, Route, Routes};
use akn_json::{Asked, FormFault, FormRule, ReadFail, read_command};
use desk_base::{Day, Memory, Text, decimal_number};
use frbr_names::{ExpressionIri, WorkName, parse_expression};
use law_register::{Drafter, Question, Reading};
use std::alloc::Global;

/// A question about the text of a work. Its viewpoint may be left out.
#[derive(Debug, Drop)]
pub struct TextAsked {
    /// The IRI of the work.
    pub work: WorkName,
    /// Three lower-case letters.
    pub language: [u8; 3],
    /// The day of the version. `None`: the act as enacted.
    pub version: Option<Day>,
    /// The eId of the provision asked for. `None`: the whole act.
    pub portion: Option<Text>,
    /// The number of law entries that are known. `None`: all that there are.
    pub viewpoint: Option<u32>,
    /// What counts as bearing.
    pub reading: Reading,
}

/// What a request asks.
#[derive(Debug, Drop)]
pub enum Asking {
    /// How many law entries there are.
    Front,
    /// The text of a work.
    Text(TextAsked),
    /// The text of a work as it will be once a drafter's draft of it is filed.
    Preview(PreviewAsked),
    /// The items of a drafter's draft.
    Draft(Drafter),
    /// A command.
    Command(Asked),
}

/// Why a request asks nothing.
#[derive(Clone, Copy, Debug)]
pub enum AskFail {
    /// It gets this refusal.
    Refused(RequestRefusal),
    /// There was not enough memory.
    Memory,
}

impl From<Memory> for AskFail {
    ghost from_gives = { λ _ e. e ≡ fails.Memory };

    fn from(_: Memory) -> Self {
        AskFail::Memory
    }
}

impl From<RequestRefusal> for AskFail {
    ghost from_gives = { λ refusal e. e ≡ fails.Refused refusal };

    fn from(refusal: RequestRefusal) -> Self {
        AskFail::Refused(refusal)
    }
}

fn bad_form(fault: FormFault) -> AskFail
    ensures { result ≡ fails.Refused (spec.bad_form fault) }
{
    AskFail::Refused(RequestRefusal::BadForm {
        form: fault.rule.number(),
        place: fault.place,
    })
}

/// A value of a query breaks a rule.
pub fn broken(rule: FormRule) -> AskFail
    ensures { result ≡ fails.Refused (spec.bad_form (at_no_place rule)) }
{
    bad_form(FormFault { rule, place: 0 })
}

fn viewpoint_in(value: Option<&str>) -> Result<Option<u32>, AskFail>
    ensures { spec.Gives result (spec.viewpoint_in (option_copied value.entry)) }
{
    let Some(text) = value else {
        return Ok(None);
    };
    match decimal_number(text, 4_294_967_295) {
        Some(viewpoint) => Ok(Some(viewpoint as u32)),
        None => Err(broken(FormRule::BadNumber)),
    }
}

/// The reading that a value names, and else that of what is in force.
pub fn reading_in(value: Option<&str>) -> Result<Reading, AskFail>
    ensures { spec.Gives result (spec.reading_in (option_copied value.entry)) }
{
    let Some(word) = value else {
        return Ok(Reading::Force);
    };
    match Reading::from_name(word) {
        Some(reading) => Ok(reading),
        None => Err(broken(FormRule::UnknownWord)),
    }
}

/// The portion of an expression, if it has one.
pub fn portion_of(alloc: Global, portion: Option<&str>) -> Result<Option<Text>, Memory>
    ensures { IfOk result (λ text. text ≡ option_copied portion.entry) }
{
    match portion {
        Some(eid) => Ok(Some(Text::copy_of(alloc, eid)?)),
        None => Ok(None),
    }
}

#[tactic(auto, unfolding(crate::specs::Asking::text_of))]
fn text_of(alloc: Global, iri: &ExpressionIri<'_>, query: &Query) -> Result<TextAsked, AskFail>
    ensures { spec.Gives result (spec.text_of (expression_view iri.now) query.now) }
{
    let viewpoint = viewpoint_in(query.value("viewpoint"))?;
    let reading = reading_in(query.value("reading"))?;
    let language = iri.language;
    Ok(TextAsked {
        work: WorkName::copy_of(alloc, &iri.work)?,
        language,
        version: iri.version,
        portion: portion_of(alloc, iri.portion)?,
        viewpoint,
        reading,
    })
}

#[tactic(auto, unfolding(crate::specs::Asking::text_in))]
fn text_in(alloc: Global, query: &Query) -> Result<TextAsked, AskFail>
    ensures { spec.Gives result (spec.text_in query.now) }
{
    let Some(name) = query.value("expression") else {
        return Err(broken(FormRule::WrongShape));
    };
    match parse_expression(name) {
        Ok(iri) => text_of(alloc, &iri, query),
        Err(_) => Err(broken(FormRule::BadName)),
    }
}

fn command_in(alloc: Global, body: &Bytes) -> Result<Asked, AskFail>
    ensures value { spec.Gives result (spec.or_bad_form (asked_of body.now)) }
    ensures spelled { IfOk result (λ asked. is_well_spelled asked.command ≡ true) }
{
    match read_command(alloc, body.as_slice()) {
        Ok(asked) => Ok(asked),
        Err(ReadFail::Form(fault)) => Err(bad_form(fault)),
        Err(ReadFail::Memory) => Err(AskFail::Memory),
    }
}

impl TextAsked {
    /// The question where so many law entries are known: it is asked at that viewpoint where it names none.
    pub fn question(self, front: u32) -> Question
        ensures { result ≡ spec.question_at front self }
    {
        let language = self.language;
        Question {
            work: self.work,
            language,
            version: self.version,
            portion: self.portion,
            viewpoint: self.viewpoint.unwrap_or(front),
            reading: self.reading,
        }
    }
}

impl Request {
    #[tactic(auto, unfolding(crate::specs::Asking::asking_of))]
    fn read_asking(&self, alloc: Global, routes: &Routes) -> Result<Asking, AskFail>
        ensures value { spec.Gives result (spec.asking_of self.now) }
        ensures spelled { IfOk result spec.IsSpelled }
    {
        let (path, query) = split_target(self.target.as_str());
        let route = with_method(self.method.as_str(), routes.at(path))?;
        let query = judged(Query::from_text(alloc, query)?, route)?;
        match route {
            Route::Front => Ok(Asking::Front),
            Route::Text => Ok(Asking::Text(text_in(alloc, &query)?)),
            Route::Preview => Ok(Asking::Preview(preview_in(alloc, &query)?)),
            Route::Draft => Ok(Asking::Draft(drafter_in(alloc, &query)?)),
            Route::Commands => Ok(Asking::Command(command_in(alloc, &self.body)?)),
        }
    }

    /// What the request asks, or why it gets no answer. Its route is judged first, then the keys of its query, then
    /// their values in the order drafter, expression, viewpoint, reading, and then its body. A command that is asked for is
    /// well spelled.
    pub fn asking(
        &self,
        alloc: Global,
        routes: &Routes,
    ) -> Result<Result<Asking, RequestRefusal>, Memory>
        ensures value { IfOk result (λ asked. asked ≡ spec.asking_of self.now) }
        ensures spelled { IfOk result spec.IfSpelled }
    {
        match self.read_asking(alloc, routes) {
            Ok(asking) => Ok(Ok(asking)),
            Err(AskFail::Refused(refusal)) => Ok(Err(refusal)),
            Err(AskFail::Memory) => Err(Memory),
        }
    }

    /// The same by paths that were made before. `None`: there was not enough memory for them.
    pub(crate) fn asking_by(
        &self,
        alloc: Global,
        routes: Option<&Routes>,
    ) -> Result<Result<Asking, RequestRefusal>, Memory>
        ensures value { IfOk result (λ asked. asked ≡ spec.asking_of self.now) }
        ensures spelled { IfOk result spec.IfSpelled }
    {
        let Some(routes) = routes else {
            return Err(Memory);
        };
        self.asking(alloc, routes)
    }
}
