//! Responding: what a desk answers to a request.

ghost use Rattle.std.specs.Prelude.{◌≡◌, ◌≤◌, ◌+◌, None, Result, Ok, Err, IfOk, length, vec_capacity};
ghost use Rattle.law_register.specs.Answer.Answers.{Answers};
ghost use Rattle.law_register.specs.declared.answer.answer.Answer.{Answer as AnswerValue};
ghost use Rattle.law_register.specs.declared.answer.queries.QueryRule.{QueryRule as RuleOfQuestion};
ghost use Rattle.law_register.specs.declared.answer.queries.AskFault.TheVariants as ask;
ghost use Rattle.law_http.specs.Asking.{IsSpelled, asking_of};
ghost use Rattle.law_http.specs.Responses.{Says, first_lines};
ghost use Rattle.law_http.specs.Serving as spec;
ghost use Rattle.law_http.specs.Telling as telling;
ghost use Rattle.law_http.specs.declared.response.Response.TheVariants.{MemoryFault};
ghost use Rattle.law_http.specs.declared.status.Status.TheVariants as status;
ghost use Rattle.law_http.specs.declared.telling.DeskTold.TheVariants as told;

use crate::acknowledging::{acknowledged, begun, numbered};
use crate::telling::{DeskTold, tell};
use crate::{Asking, Request, Response, Routes, Status, refused_request};
use akn_json::{put_answer, put_draft, put_query_rule, put_rule};
use desk_base::{Memory, Steps};
use law_register::{Answer, AskFault, CommandFault, Desk, Draft, QueryRule, Reply, Rule};
use std::alloc::Global;
use std::sync::ledger::Ledger;

fn query_status(rule: &QueryRule) -> Status
    ensures { result ≡ spec.query_status rule.now }
{
    match rule {
        QueryRule::ViewpointAhead(_) => Status::Conflict,
        _ => Status::NotFound,
    }
}

fn rule_status(rule: &Rule) -> Status
    ensures { result ≡ spec.rule_status rule.now }
{
    match rule {
        Rule::UnknownWork(_) | Rule::UnknownModification { .. } => Status::NotFound,
        Rule::BadTree(_) | Rule::BadModification(_) | Rule::BadPeriod(_) => Status::BadRequest,
        _ => Status::Conflict,
    }
}

fn front_response(alloc: Global, number: u32, closes: bool) -> Response
    ensures { Says (spec.front_reply closes number) result }
{
    match begun(alloc, Status::Ok, closes) {
        Ok(message) => numbered(message, Status::Ok, closes, "{\"front\":", number),
        Err(_) => Response::MemoryFault,
    }
}

fn query_response(alloc: Global, rule: &QueryRule, closes: bool) -> Response
    ensures { Says (spec.query_reply closes rule.now) result }
{
    match put_query_rule(alloc, rule) {
        Ok(object) => Response::of(alloc, query_status(rule), None, closes, object.as_slice()),
        Err(_) => Response::MemoryFault,
    }
}

fn shown(alloc: Global, answer: &Answer, closes: bool) -> Response
    ensures { Says (spec.shown_reply closes answer.now) result }
{
    match put_answer(alloc, answer) {
        Ok(object) => Response::around(alloc, Status::Ok, closes, object),
        Err(_) => Response::MemoryFault,
    }
}

fn answer_response(alloc: Global, told: Result<Answer, AskFault>, closes: bool) -> Response
    ensures says { (answer : Result AnswerValue RuleOfQuestion) → Answers told answer
        → Says (spec.answer_reply closes answer) result }
    ensures memory { told ≡ Err ask.Memory → result ≡ MemoryFault }
{
    match told {
        Ok(answer) => shown(alloc, &answer, closes),
        Err(AskFault::Query(rule)) => query_response(alloc, &rule, closes),
        Err(AskFault::Memory) => Response::MemoryFault,
    }
}

fn rule_response(alloc: Global, rule: &Rule, closes: bool) -> Response
    ensures { Says (spec.rule_reply closes rule.now) result }
{
    match put_rule(alloc, rule) {
        Ok(object) => Response::of(alloc, rule_status(rule), None, closes, object.as_slice()),
        Err(_) => Response::MemoryFault,
    }
}

// What is said of a command that is done, in the room that was made for it where it is accepted.
fn outcome_response(
    alloc: Global,
    message: Vec<u8>,
    closes: bool,
    done: Result<Reply, CommandFault>,
) -> Response
    requires room { length message.items + 160 ≤ vec_capacity message }
    requires begun { message.items ≡ first_lines status.Created None closes }
    ensures { spec.SaysOutcome closes done result }
{
    match done {
        Ok(reply) => acknowledged(message, closes, reply),
        Err(CommandFault::Rule(rule)) => rule_response(alloc, &rule, closes),
        Err(CommandFault::KeeperFault) => Response::KeeperFault { closes },
        Err(CommandFault::Memory) => Response::MemoryFault,
    }
}

fn items_response(alloc: Global, draft: &Draft, closes: bool) -> Response
    ensures { Says (spec.draft_reply closes draft.now) result }
{
    match put_draft(alloc, draft) {
        Ok(object) => Response::around(alloc, Status::Ok, closes, object),
        Err(_) => Response::MemoryFault,
    }
}

fn draft_response(alloc: Global, listed: Result<Draft, Memory>, closes: bool) -> Response
    ensures { telling.SaysTold closes (told.Draft listed) result }
{
    match listed {
        Ok(draft) => items_response(alloc, &draft, closes),
        Err(_) => Response::MemoryFault,
    }
}

/// The room for the response to a command that is accepted, where one is asked for.
pub(crate) fn room_for(
    alloc: Global,
    asking: &Asking,
    closes: bool,
) -> Result<Option<Vec<u8>>, Memory>
    ensures { IfOk result (telling.HasRoom asking.now closes) }
{
    match asking {
        Asking::Command(_) => Ok(Some(begun(alloc, Status::Created, closes)?)),
        _ => Ok(None),
    }
}

/// The response that says what a desk told, in the room that was made for it.
pub(crate) fn response_of(
    alloc: Global,
    told: DeskTold,
    room: Option<Vec<u8>>,
    closes: bool,
) -> Response
    requires { telling.HasRoomFor told closes room }
    ensures { telling.SaysTold closes told result }
{
    match told {
        DeskTold::Front(number) => front_response(alloc, number, closes),
        DeskTold::Answer(answer) => answer_response(alloc, answer, closes),
        DeskTold::Draft(draft) => draft_response(alloc, draft, closes),
        DeskTold::Outcome(done) => match room {
            Some(message) => outcome_response(alloc, message, closes, done),
            None => unreachable!(),
        },
    }
}

fn answered<D: Desk, L: Ledger>(
    alloc: Global,
    desk: &mut D,
    asking: Asking,
    closes: bool,
    steps: &mut Steps<L>,
) -> Response
    requires { IsSpelled asking }
    ensures { spec.ServesWithin D.state D.crashes D.past D.judging closes (Ok asking) desk.old desk.new result
        steps.old steps.new }
{
    let Ok(room) = room_for(alloc, &asking, closes) else {
        return Response::MemoryFault;
    };
    let told = tell(alloc, desk, asking, steps);
    response_of(alloc, told, room, closes)
}

/// The response of a desk to a request, as `respond` gives it, by paths that were made before. `None`: there was not enough
/// memory for them, which the fixed 500 says.
pub(crate) fn respond_by<D: Desk, L: Ledger>(
    alloc: Global,
    routes: Option<&Routes>,
    desk: &mut D,
    request: &Request,
    steps: &mut Steps<L>,
) -> Response
    ensures { spec.ServesWithin D.state D.crashes D.past D.judging request.now.closes (asking_of request.now) desk.old desk.new result
        steps.old steps.new }
{
    match request.asking_by(alloc, routes) {
        Ok(Ok(asking)) => answered(alloc, desk, asking, request.closes, steps),
        Ok(Err(refusal)) => refused_request(alloc, refusal, request.closes),
        Err(_) => Response::MemoryFault,
    }
}

/// The response of a desk to a request. The room for the response to a command that is accepted is made before the
/// desk is asked, so that what was entered is acknowledged; where there is not enough memory it is the fixed 500.
pub fn respond<D: Desk, L: Ledger>(
    alloc: Global,
    desk: &mut D,
    request: &Request,
    steps: &mut Steps<L>,
) -> Response
    ensures { spec.ServesWithin D.state D.crashes D.past D.judging request.now.closes (asking_of request.now) desk.old desk.new result
        steps.old steps.new }
{
    let routes = Routes::new(alloc).ok();
    respond_by(alloc, routes.as_ref(), desk, request, steps)
}
