//! Touching: the works that a command would touch, each from a day on, if it came now.

ghost use Rattle.std.specs.Prelude.{◌≡◌, IfOk, IfSome, true};
ghost use Rattle.law_register.specs.Register.Verdicts.{is_accepted, verdict};

use akn_json::{Asked, ReadFail, read_command};
use desk_base::{Day, Memory};
use frbr_names::WorkName;
use held_provisions::touched_works;
use law_register::{Entry, Register, Verdict};
use std::alloc::Global;

// The line of touched works: of each the name and the day.
fn touched_line(alloc: Global, touched: &[(WorkName, Day)]) -> Result<Vec<u8>, Memory> {
    let mut line = String::from_str(alloc, "touched")?;
    for (work, day) in touched {
        let (work, day) = (work.as_str(), day.spelled(alloc)?);
        let day = day.as_str();
        line.push_str(format!(in alloc; " {work} {day}")?.as_str())?;
    }
    Ok(line.into_bytes())
}

// The line of a command that is refused, or came before: nothing would be touched.
fn none_line(alloc: Global) -> Result<Vec<u8>, Memory> {
    Ok(String::from_str(alloc, "none")?.into_bytes())
}

// The line of an entry that is accepted.
fn told_of_accepted(alloc: Global, register: &Register, entry: &Entry) -> Result<Vec<u8>, Memory>
    requires { is_accepted entry.now.law (verdict register.now.entries entry.now.drafter entry.now.request
        entry.now.command) ≡ true }
{
    let touched = touched_works(alloc, register, entry)?;
    touched_line(alloc, touched.as_slice())
}

// The law number with which a command is accepted, if it is.
fn law_accepted(
    alloc: Global,
    register: &Register,
    asked: &Asked,
) -> Result<Option<Option<u32>>, Memory>
    ensures { IfOk result (λ accepted. IfSome accepted (λ law. is_accepted law (verdict register.now.entries
        asked.now.drafter asked.now.request asked.now.command) ≡ true)) }
{
    match register.judge(alloc, &asked.drafter, asked.request, &asked.command) {
        Ok(Verdict::Accepted { law, .. }) => Ok(Some(law)),
        Ok(_) => Ok(None),
        Err(Memory) => Err(Memory),
    }
}

// The entry that a command becomes.
fn entry_of(asked: Asked, day: Day, law: Option<u32>) -> Entry
    ensures { result ≡ record { drafter = asked.drafter; request = asked.request; day = day; law = law; command = asked.command } }
{
    let Asked {
        drafter,
        request,
        command,
    } = asked;
    Entry {
        drafter,
        request,
        day,
        law,
        command,
    }
}

// The line of a command that is accepted with this law number. Its day decides nothing.
fn told_of_entry(
    alloc: Global,
    register: &Register,
    asked: Asked,
    day: Day,
    law: Option<u32>,
) -> Result<Vec<u8>, Memory>
    requires { is_accepted law (verdict register.now.entries asked.drafter asked.request asked.command) ≡ true }
{
    let entry = entry_of(asked, day, law);
    let told = told_of_accepted(alloc, register, &entry);
    drop(entry);
    told
}

// The line of a command by what the register says of it.
fn told_of_asked(
    alloc: Global,
    register: &Register,
    asked: Asked,
    day: Day,
) -> Result<Vec<u8>, Memory> {
    match law_accepted(alloc, register, &asked) {
        Ok(Some(law)) => told_of_entry(alloc, register, asked, day, law),
        Ok(None) => {
            drop(asked);
            none_line(alloc)
        }
        Err(Memory) => {
            drop(asked);
            Err(Memory)
        }
    }
}

/// The line of `touched COMMAND`: the works that the command would touch. `None`: the text is no command.
pub fn told_of_touched(
    alloc: Global,
    register: &Register,
    text: &str,
) -> Result<Option<Vec<u8>>, Memory> {
    let Some(day) = Day::from_number(1) else {
        return Ok(None);
    };
    match read_command(alloc, text.as_bytes()) {
        Ok(asked) => match told_of_asked(alloc, register, asked, day) {
            Ok(told) => Ok(Some(told)),
            Err(Memory) => Err(Memory),
        },
        Err(ReadFail::Form(_)) => Ok(None),
        Err(ReadFail::Memory) => Err(Memory),
    }
}
