//! A connection to a desk in turns: in a turn the desk is asked, and nothing else is done. A request is read and understood
//! before it, and its response is made and written after it.

ghost use Rattle.std.specs.Prelude.{◌≡◌, ◌≤◌, ◌+◌, ℕ, true, List, Ok, Option, Some, length};
ghost use Rattle.std.specs.Io.KnownBytes.{prepend_known};
ghost use mathlib.Core.List.{IsPrefix};
ghost use Rattle.law_register.specs.Desk.History.{entries_of};
ghost use Rattle.law_register.specs.Desk.States.{IsSound};
ghost use Rattle.law_register.specs.Register.Verdicts.{is_legal};
ghost use Rattle.turn_lock.specs.Passes.{IsPassOf, made_by, seen_by};
ghost use Rattle.turn_lock.specs.Turned.{id_of};
ghost use Rattle.law_http.specs.Asking.{IsSpelled, asking_of};
ghost use Rattle.law_http.specs.Connections as spec;
ghost use Rattle.law_http.specs.Hearing.{AreHeard, IsHeardOf, Spends};
ghost use Rattle.law_http.specs.Streaming as stream;
ghost use Rattle.law_http.specs.Telling as telling;
ghost use Rattle.law_http.specs.ServedMembers.{HasMemberCause, IsMemberServed, SpendsMember};
ghost use Rattle.law_http.specs.declared.heard.Heard.{Heard as Member};
ghost use Rattle.law_http.specs.declared.heard.Request.{Request as Wanted};

use crate::putting::{MemberServed, either, end_where, is_fault, leave, put_before, refuse};
use crate::responding::{response_of, room_for};
use crate::telling::{DeskTold, tell};
use crate::{
    Asking, Heard, Request, Response, Rest, Routes, Served, StreamEnd, read_request,
    refused_request,
};
use desk_base::{Link, Steps};
use law_register::Desk;
use law_register::laws::entries_are_legal;
use std::alloc::Global;
use std::sync::Wait;
use std::sync::ledger::Ledger;
use turn_lock::{Pass, Turns};

// What holds of a desk whenever it is found.
fn is_known<D: Desk>(desk: &D)
    ensures legal { is_legal (D.state desk.now).entries ≡ true }
    ensures sound { IsSound (D.state desk.now) }
{
    entries_are_legal(desk.register())
}

// What a desk tells that is found in a turn, and will be found again.
fn tell_at<D: Desk, L: Ledger>(
    alloc: Global,
    desk: &mut D,
    asking: Asking,
    steps: &mut Steps<L>,
) -> DeskTold
    requires { IsSpelled asking }
    ensures tells { telling.Tells D.state D.crashes D.past asking desk.old desk.new result }
    ensures sound { IsSound (D.state desk.old) }
    ensures legal { is_legal (D.state desk.new).entries ≡ true }
    ensures appends { IsPrefix (D.history desk.old) (D.history desk.new) }
    ensures origin { D.origin desk.new ≡ D.origin desk.old }
{
    is_known(desk);
    let told = tell(alloc, desk, asking, steps);
    is_known(desk);
    told
}

// Waits for a turn, and has the desk that is found tell what is asked.
fn tell_in_turn<R: Wait, D: Desk, L: Ledger>(
    rt: &R,
    alloc: Global,
    turns: &Turns<D>,
    pass: &mut Pass<D>,
    asking: Asking,
    steps: &mut Steps<L>,
) -> DeskTold
    requires own { IsPassOf (id_of turns.now) pass.old }
    requires spelled { IsSpelled asking }
    ensures turn { spec.IsTurnOf D.state D.crashes D.past D.history asking
        (spec.view_of pass.old) (spec.view_of pass.new) result }
    ensures pass { spec.StaysPass turns.now pass.old pass.new }
{
    turns.with_turn(rt, pass, |desk| tell_at(alloc, desk, asking, steps))
}

// Asks a desk in a turn. What is said of what it tells is made outside it, and so is the room for it.
fn ask_in_turn<R: Wait, D: Desk, L: Ledger>(
    rt: &R,
    alloc: Global,
    turns: &Turns<D>,
    pass: &mut Pass<D>,
    asking: Asking,
    closes: bool,
    steps: &mut Steps<L>,
) -> Response
    requires own { IsPassOf (id_of turns.now) pass.old }
    requires spelled { IsSpelled asking }
    ensures answers { (request : Wanted) → request.closes ≡ closes → asking_of request ≡ Ok asking
        → spec.AnswersSeen request (spec.view_of pass.old) (spec.view_of pass.new) result }
    ensures pass { spec.StaysPass turns.now pass.old pass.new }
{
    let Ok(room) = room_for(alloc, &asking, closes) else {
        return Response::MemoryFault;
    };
    let told = tell_in_turn(rt, alloc, turns, pass, asking, steps);
    response_of(alloc, told, room, closes)
}

// Answers a request: in a turn, unless it is refused before anything is asked.
fn answer_in_turn<R: Wait, D: Desk, L: Ledger>(
    rt: &R,
    alloc: Global,
    routes: Option<&Routes>,
    turns: &Turns<D>,
    pass: &mut Pass<D>,
    request: &Request,
    steps: &mut Steps<L>,
) -> Response
    requires { IsPassOf (id_of turns.now) pass.old }
    ensures answers { spec.AnswersSeen request.now (spec.view_of pass.old) (spec.view_of pass.new) result }
    ensures pass { spec.StaysPass turns.now pass.old pass.new }
{
    match request.asking_by(alloc, routes) {
        Ok(Ok(asking)) => ask_in_turn(rt, alloc, turns, pass, asking, request.closes, steps),
        Ok(Err(refusal)) => refused_request(alloc, refusal, request.closes),
        Err(_) => Response::MemoryFault,
    }
}

fn answer<R: Wait, K: Link, D: Desk, L: Ledger>(
    rt: &R,
    alloc: Global,
    routes: Option<&Routes>,
    link: &mut K,
    turns: &Turns<D>,
    pass: &mut Pass<D>,
    request: &Request,
    steps: &mut Steps<L>,
) -> MemberServed
    requires { IsPassOf (id_of turns.now) pass.old }
    ensures served { (left rest over : Option (List ℕ)) → IsHeardOf left rest (Heard.Request request.now)
        → IsMemberServed spec.AnswersSeen left rest over (K.written link.old) (K.written link.new)
        (spec.view_of pass.old) (spec.view_of pass.new) result.faulted result.end }
    ensures reads { HasMemberCause stream.HasReadCause result.end
        (K.read_faults link.old) (K.read_faults link.new) }
    ensures writes { HasMemberCause stream.HasWriteCause result.end
        (K.write_faults link.old) (K.write_faults link.new) }
    ensures left { K.left link.new ≡ K.left link.old }
    ensures room { K.room link.new ≡ K.room link.old }
    ensures origin { K.origin link.new ≡ K.origin link.old }
    ensures pass { spec.StaysPass turns.now pass.old pass.new }
{
    let response = answer_in_turn(rt, alloc, routes, turns, pass, request, steps);
    let end = put_before(link, &response, end_where(request.closes));
    let faulted = is_fault(&response);
    MemberServed { end, faulted }
}

// What comes of a member of the stream.
fn act_on<R: Wait, K: Link, D: Desk, L: Ledger>(
    rt: &R,
    alloc: Global,
    routes: Option<&Routes>,
    link: &mut K,
    turns: &Turns<D>,
    pass: &mut Pass<D>,
    heard: &Heard,
    steps: &mut Steps<L>,
) -> MemberServed
    requires { IsPassOf (id_of turns.now) pass.old }
    ensures served { (left rest over : Option (List ℕ)) → IsHeardOf left rest heard.now
        → IsMemberServed spec.AnswersSeen left rest over (K.written link.old) (K.written link.new)
        (spec.view_of pass.old) (spec.view_of pass.new) result.faulted result.end }
    ensures spent { (before now : ℕ) → Spends before now heard.now → SpendsMember result.end before now }
    ensures reads { HasMemberCause stream.HasReadCause result.end
        (K.read_faults link.old) (K.read_faults link.new) }
    ensures writes { HasMemberCause stream.HasWriteCause result.end
        (K.write_faults link.old) (K.write_faults link.new) }
    ensures left { K.left link.new ≡ K.left link.old }
    ensures room { K.room link.new ≡ K.room link.old }
    ensures origin { K.origin link.new ≡ K.origin link.old }
    ensures pass { spec.StaysPass turns.now pass.old pass.new }
{
    match heard {
        Heard::Request(request) => answer(rt, alloc, routes, link, turns, pass, request, steps),
        Heard::End => MemberServed {
            end: Some(StreamEnd::End),
            faulted: false,
        },
        Heard::Refused(refusal) => MemberServed {
            end: refuse(alloc, link, *refusal),
            faulted: false,
        },
    }
}

fn serve_member<R: Wait, K: Link, D: Desk, L: Ledger>(
    rt: &R,
    alloc: Global,
    routes: Option<&Routes>,
    link: &mut K,
    rest: &mut Rest,
    turns: &Turns<D>,
    pass: &mut Pass<D>,
    steps: &mut Steps<L>,
) -> MemberServed
    requires { IsPassOf (id_of turns.now) pass.old }
    ensures served { IsMemberServed spec.AnswersSeen
        (prepend_known rest.old (K.left link.old)) (prepend_known rest.new (K.left link.new)) (K.left link.new)
        (K.written link.old) (K.written link.new) (spec.view_of pass.old) (spec.view_of pass.new) result.faulted result.end }
    ensures spent { SpendsMember result.end
        (length rest.old + K.room link.old) (length rest.new + K.room link.new) }
    ensures reads { HasMemberCause stream.HasReadCause result.end
        (K.read_faults link.old) (K.read_faults link.new) }
    ensures writes { HasMemberCause stream.HasWriteCause result.end
        (K.write_faults link.old) (K.write_faults link.new) }
    ensures origin { K.origin link.new ≡ K.origin link.old }
    ensures pass { spec.StaysPass turns.now pass.old pass.new }
{
    match read_request(alloc, link, rest) {
        Ok(heard) => act_on(rt, alloc, routes, link, turns, pass, &heard, steps),
        Err(fault) => MemberServed {
            end: leave(link, fault),
            faulted: false,
        },
    }
}

/// Reads requests from a link and answers each before more is read, as `serve_stream` does, over a desk that several
/// callers use in turns. Each request that asks something is asked under one turn; what it asks is understood before, and
/// the response is made after, so both wait for nobody, as reading and writing do. Nothing that was seen before is unseen
/// later, so a caller finds what was acknowledged to him. It waits for each turn.
pub fn serve_connection<R: Wait, K: Link, D: Desk, L: Ledger>(
    rt: &R,
    alloc: Global,
    link: &mut K,
    turns: &Turns<D>,
    pass: &mut Pass<D>,
    steps: &mut Steps<L>,
) -> Served
    requires own { IsPassOf (id_of turns.now) pass.old }
    requires legal { is_legal (entries_of (seen_by pass.old)) ≡ true }
    ensures answered { spec.IsWellAnswered (seen_by pass.old) (seen_by pass.new) (K.left link.old) (K.left link.new)
        (K.written link.old) (K.written link.new) result }
    ensures grows { IsPrefix (seen_by pass.old) (seen_by pass.new) }
    ensures legal { is_legal (entries_of (seen_by pass.new)) ≡ true }
    ensures made { (bytes : List ℕ) (members : List Member) → K.left link.old ≡ Some bytes → AreHeard bytes members
        → spec.IsMadeOf (spec.commands_heard members) (seen_by pass.new) (made_by pass.old) (made_by pass.new) }
    ensures reads { stream.HasReadCause result.end (K.read_faults link.old) (K.read_faults link.new) }
    ensures writes { stream.HasWriteCause result.end (K.write_faults link.old) (K.write_faults link.new) }
    ensures room { K.room link.new ≤ K.room link.old }
    ensures origin { K.origin link.new ≡ K.origin link.old }
    ensures pass { spec.StaysPass turns.now pass.old pass.new }
{
    let routes = Routes::new(alloc).ok();
    let mut rest = Rest::new();
    let mut faulted = false;
    'members: loop {
        let member = serve_member(
            rt,
            alloc,
            routes.as_ref(),
            link,
            &mut rest,
            turns,
            pass,
            steps,
        );
        faulted = either(faulted, member.faulted);
        match member.end {
            Some(end) => return Served { end, faulted },
            None => continue,
        }
    }
}
