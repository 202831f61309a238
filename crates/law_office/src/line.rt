//! The line of works: in which order what is kept of them is made once a keeper is opened.

ghost use Rattle.std.specs.Prelude.{◌≡◌, ◌++◌, IfOk, OnOk, map};
ghost use Rattle.law_register.specs.Register.LawList.{acts_by, acts_of, laws};
ghost use Rattle.law_office.specs.Line.{AreInLine, dated_work};

use desk_base::{Day, Memory};
use frbr_names::WorkName;
use law_register::{Command, Register};
use std::alloc::Global;
use std::cmp::Reverse;

/// A work, with the day of its act. The later act comes first, and of acts of one day that of which the IRI has the
/// lesser bytes.
#[derive(PartialEq, Eq, PartialOrd, Ord, Drop)]
pub struct DatedWork {
    /// The day of its act.
    pub day: Reverse<Day>,
    /// The work.
    pub work: WorkName,
}

// Adds the work that a command enacts, if it enacts one.
fn add_enacted(command: &Command, works: &mut Vec<DatedWork>) -> Result<(), Memory>
    ensures { OnOk result (works.new.items ≡ works.old.items ++ map dated_work (acts_by command.now)) }
{
    match command {
        Command::Enact { act } => {
            let day = Reverse(act.day);
            let work = act.work.copy()?;
            works.push(DatedWork { day, work })?;
            Ok(())
        }
        _ => Ok(()),
    }
}

// The works that law entries enact, in the order of these entries.
fn dated_works(alloc: Global, register: &Register) -> Result<Vec<DatedWork>, Memory>
    ensures { IfOk result (λ works. works.items ≡ map dated_work (acts_of (laws register.now.entries))) }
{
    let mut works = Vec::new(alloc);
    for index in 0..register.len() {
        add_enacted(&register.entry(index).command, &mut works)?;
    }
    Ok(works)
}

// The works that law entries enact, in line.
pub(crate) fn line_of(alloc: Global, register: &Register) -> Result<Vec<DatedWork>, Memory>
    ensures { IfOk result (λ line. AreInLine register.now.entries (map (λ d. d.work) line.items)) }
{
    let mut line = dated_works(alloc, register)?;
    line.sort()?;
    Ok(line)
}
