//! The lines of replies.

ghost use Rattle.std.specs.Prelude.{◌≡◌, IfOk, string_bytes};
ghost use Rattle.table_trial.specs.Replies as spec;

use desk_base::{Day, Memory};
use law_register::Reply;
use std::alloc::Global;

/// The line of these words.
pub fn said(alloc: Global, words: &str) -> Result<Vec<u8>, Memory>
    ensures { IfOk result (λ line. line.items ≡ words.now) }
{
    Ok(String::from_str(alloc, words)?.into_bytes())
}

// The text of a reply.
fn reply_text(alloc: Global, reply: Reply) -> Result<String, Memory>
    ensures { IfOk result (λ text. string_bytes text ≡ spec.reply_text reply) }
{
    match reply {
        Reply::Law(number) => Ok(format!(in alloc; "{{\"law\":{number}}}")?),
        Reply::Draft(number) => Ok(format!(in alloc; "{{\"draft\":{number}}}")?),
    }
}

/// The line of a command that was accepted and touches a day: the reply, the day, and what it costs to revise the table that is kept.
pub fn touching_line(alloc: Global, reply: Reply, day: Day, cost: u64) -> Result<Vec<u8>, Memory>
    ensures { IfOk result (λ line. line.items ≡ spec.touching_line reply day cost) }
{
    let mut line = reply_text(alloc, reply)?;
    line.push_str(" touched ")?;
    line.push_str(day.spelled(alloc)?.as_str())?;
    line.push_str(format!(in alloc; " cost {cost}")?.as_str())?;
    Ok(line.into_bytes())
}

/// The line of a command that was accepted and touches no day.
pub fn untouched_line(alloc: Global, reply: Reply) -> Result<Vec<u8>, Memory>
    ensures { IfOk result (λ line. line.items ≡ spec.untouched_line reply) }
{
    let mut line = reply_text(alloc, reply)?;
    line.push_str(" touched none cost 0")?;
    Ok(line.into_bytes())
}

/// The line of a reply that is given again.
pub fn repeat_line(alloc: Global, reply: Reply) -> Result<Vec<u8>, Memory> {
    let mut line = String::from_str(alloc, "repeat ")?;
    line.push_str(reply_text(alloc, reply)?.as_str())?;
    Ok(line.into_bytes())
}
