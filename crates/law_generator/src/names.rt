//! Names of the generated register: of its work, of the source of its modifications, of its sections, and of its drafter.

ghost use Rattle.std.specs.Prelude.{◌≡◌, ◌≤◌, IfOk};
ghost use Rattle.law_generator.specs.Acts as acts;
ghost use Rattle.law_generator.specs.Drawn as spec;
ghost use Rattle.law_generator.specs.Named.{NamesWork};

use desk_base::{Memory, Text};
use eid_paths::Num;
use frbr_names::{WorkName, parse_work};
use std::alloc::Global;

// The work whose IRI a text is.
fn work_named(alloc: Global, text: &str) -> Result<WorkName, Memory>
    requires { NamesWork text.now }
    ensures { IfOk result (λ name. name ≡ text.now) }
{
    match parse_work(text) {
        Ok(iri) => WorkName::copy_of(alloc, &iri),
        Err(_) => unreachable!(),
    }
}

/// The work of the act.
#[tactic(auto, unfolding(crate::specs::Acts::work))]
pub fn work(alloc: Global) -> Result<WorkName, Memory>
    ensures { IfOk result (λ name. name ≡ acts.work) }
{
    work_named(alloc, "/akn/gb/act/2000-01-01/1")
}

/// The work that each modification comes from.
#[tactic(auto, unfolding(crate::specs::Drawn::source_work))]
pub fn source_work(alloc: Global) -> Result<WorkName, Memory>
    ensures { IfOk result (λ name. name ≡ spec.source_work) }
{
    work_named(alloc, "/akn/gb/act/1999/1")
}

/// The num of a section, in decimal.
pub fn section_num(alloc: Global, number: u64) -> Result<Num, Memory>
    requires { number ≤ 64 }
    ensures { IfOk result (λ num. num ≡ acts.section_num number) }
{
    let text = format!(in alloc; "{number}")?;
    Ok(Num::from_text(text.as_str()).unwrap())
}

/// The wId of a section.
pub fn section_wid(alloc: Global, number: u64) -> Result<Text, Memory>
    ensures { IfOk result (λ wid. wid ≡ spec.section_wid number) }
{
    Text::from_string(format!(in alloc; "sec_{number}")?)
}
