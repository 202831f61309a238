//! The lines of replies and of faults, and of the front.

ghost use Rattle.std.specs.Prelude.{◌≡◌, false, IfOk, length, string_bytes};
ghost use Rattle.law_register.specs.Register.LawList.{front};
ghost use Rattle.desk_trial.specs.Commands as spec;
ghost use Rattle.desk_trial.specs.Knowing.{front_line};

use akn_json::put_damage;
use desk_base::Memory;
use law_register::{FaultMark, OpenFault, Register, Reply};
use std::alloc::Global;

// The text of a reply.
fn reply_text(alloc: Global, reply: Reply) -> Result<String, Memory>
    ensures { IfOk result (λ text. string_bytes text ≡ spec.reply_text reply) }
{
    match reply {
        Reply::Law(number) => Ok(format!(in alloc; "{{\"law\":{number}}}")?),
        Reply::Draft(number) => Ok(format!(in alloc; "{{\"draft\":{number}}}")?),
    }
}

// The line of a reply that is given again.
fn repeat_line(alloc: Global, reply: Reply) -> Result<Vec<u8>, Memory>
    ensures { IfOk result (λ line. line.items ≡ spec.reply_line false reply) }
{
    let mut line = String::from_str(alloc, "repeat ")?;
    line.push_str(reply_text(alloc, reply)?.as_str())?;
    Ok(line.into_bytes())
}

/// The line of a reply, to a command that is new or to a repeat.
pub fn reply_line(alloc: Global, is_new: bool, reply: Reply) -> Result<Vec<u8>, Memory>
    ensures { IfOk result (λ line. line.items ≡ spec.reply_line is_new reply) }
{
    if is_new {
        Ok(reply_text(alloc, reply)?.into_bytes())
    } else {
        repeat_line(alloc, reply)
    }
}

/// The line of a fault of the keeper.
pub fn fault_line(alloc: Global) -> Result<Vec<u8>, Memory>
    ensures { IfOk result (λ line. line.items ≡ spec.fault_text) }
{
    Ok(String::from_str(alloc, "{\"fault\":\"keeper\"}")?.into_bytes())
}

/// The line of the marks that faults of the keeper left: of each the drafter, the request, and how many entries stood.
pub fn marks_line(alloc: Global, marks: &[FaultMark]) -> Result<Vec<u8>, Memory> {
    let mut line = String::from_str(alloc, "marks")?;
    for mark in marks {
        let (drafter, request, entries) = (mark.drafter.as_str(), mark.request, mark.entries);
        line.push_str(format!(in alloc; " {drafter} {request} {entries}")?.as_str())?;
    }
    Ok(line.into_bytes())
}

/// The line of a register that was not opened.
pub fn refused_line(alloc: Global, fault: OpenFault) -> Result<Vec<u8>, Memory> {
    match fault {
        OpenFault::Failed => fault_line(alloc),
        OpenFault::Damaged(damage) => put_damage(alloc, damage),
        OpenFault::Memory => Err(Memory),
    }
}

/// The line of how many law entries and how many entries a register has.
pub fn front_line(alloc: Global, register: &Register) -> Result<Vec<u8>, Memory>
    ensures { IfOk result (λ line. line.items ≡ front_line (front register.now.entries) (length register.now.entries)) }
{
    let (law, entries) = (register.front(), register.len());
    Ok(format!(in alloc; "law {law} entries {entries}")?.into_bytes())
}
