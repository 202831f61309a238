//! Commanding: the command of a request, which is drawn.

ghost use Rattle.std.specs.Prelude.{◌≡◌, ◌++◌, ◌∷◌, ◌<◌, [], IfOk, OnOk};
ghost use Rattle.law_generator.specs.Drawn as spec;

use crate::choice::{Choice, choice_of};
use crate::days::drawn_day;
use crate::draws::Draws;
use crate::enacting::{SECTIONS, enactment};
use crate::names::{section_wid, source_work, work};
use desk_base::{Day, Id, Memory, Period, Text};
use law_register::{Command, ModSource, Modification, Mods};
use std::alloc::Global;
use textual_mods::{Spot, TextualMod};

// The source of each modification.
fn source(alloc: Global) -> Result<ModSource, Memory>
    ensures { IfOk result (λ source. source ≡ spec.source) }
{
    Ok(ModSource {
        href: source_work(alloc)?,
        place: 0,
        provision: None,
    })
}

// A modification that makes an edit from a day on.
fn textual(source: ModSource, start: Day, edit: TextualMod) -> Modification
    requires { source ≡ spec.source }
    ensures { result ≡ spec.textual start edit }
{
    Modification::Textual {
        source,
        force: Period { start, end: None },
        edit,
    }
}

// The substitution of a text in a section, from a day on.
fn substitution(alloc: Global, section: u64, start: Day) -> Result<Modification, Memory>
    ensures { IfOk result (λ modification. modification ≡ spec.substitution section start) }
{
    let source = source(alloc)?;
    let wid = section_wid(alloc, section)?;
    let old = Text::copy_of(alloc, "e")?;
    let new = Text::copy_of(alloc, "ee")?;
    let spot = Spot { old, occurrence: 1 };
    Ok(textual(source, start, TextualMod::SubstituteText { wid, spot, new }))
}

// The repeal of a section, from a day on.
fn repeal(alloc: Global, section: u64, start: Day) -> Result<Modification, Memory>
    ensures { IfOk result (λ modification. modification ≡ spec.repeal section start) }
{
    let source = source(alloc)?;
    let wid = section_wid(alloc, section)?;
    Ok(textual(source, start, TextualMod::Repeal { wid }))
}

// The list of one modification.
fn alone(alloc: Global, body: Modification) -> Result<Mods, Memory>
    ensures { IfOk result (λ mods. mods ≡ body ∷ []) }
{
    let mut mods = Mods::new(alloc);
    mods.push(body)?;
    Ok(mods)
}

// The record of one modification of the act.
fn record_of(alloc: Global, body: Modification) -> Result<Command, Memory>
    ensures { IfOk result (λ command. command ≡ spec.record_of body) }
{
    let mods = alone(alloc, body)?;
    let work = work(alloc)?;
    Ok(Command::Record { work, mods })
}

// The number of a section, which is drawn.
fn drawn_section(draws: &mut Draws) -> u64
    ensures state { draws.new.state ≡ spec.next draws.old.state }
    ensures value { result ≡ spec.section_drawn draws.new.state }
{
    draws.below(SECTIONS) + 1
}

// The substitution of a text, whose section and day are drawn.
fn drawn_substitution(alloc: Global, draws: &mut Draws) -> Result<Modification, Memory>
    ensures state { draws.new.state ≡ spec.next (spec.next draws.old.state) }
    ensures value { IfOk result (λ modification. modification ≡ spec.substitution_behind draws.old.state) }
{
    let section = drawn_section(draws);
    let start = drawn_day(draws);
    substitution(alloc, section, start)
}

// The repeal of a section, which is drawn with its day.
fn drawn_repeal(alloc: Global, draws: &mut Draws) -> Result<Modification, Memory>
    ensures state { draws.new.state ≡ spec.next (spec.next draws.old.state) }
    ensures value { IfOk result (λ modification. modification ≡ spec.repeal_behind draws.old.state) }
{
    let section = drawn_section(draws);
    let start = drawn_day(draws);
    repeal(alloc, section, start)
}

// The first modification of a law entry behind the first, which is drawn.
fn drawn_id(front: u32, draws: &mut Draws) -> Id
    requires { 1 < front }
    ensures state { draws.new.state ≡ spec.next draws.old.state }
    ensures value { result ≡ spec.id_drawn front draws.new.state }
{
    let law = draws.below((front - 1) as u64) + 2;
    Id {
        law: law as u32,
        item: 1,
    }
}

// The command that is drawn behind so many law entries.
#[tactic(auto, unfolding(crate::specs::Drawn::behind))]
fn drawn_command(alloc: Global, front: u32, draws: &mut Draws) -> Result<Command, Memory>
    ensures command { IfOk result (λ command. command ≡ (spec.behind front draws.old.state).command) }
    ensures state { OnOk result (draws.new.state ≡ (spec.behind front draws.old.state).state) }
{
    match choice_of(front, draws.below(8)) {
        Choice::Substitution => record_of(alloc, drawn_substitution(alloc, draws)?),
        Choice::Repeal => record_of(alloc, drawn_repeal(alloc, draws)?),
        Choice::Withdrawal => Ok(Command::Withdraw {
            id: drawn_id(front, draws),
        }),
        Choice::Correction => {
            let id = drawn_id(front, draws);
            let body = drawn_substitution(alloc, draws)?;
            Ok(Command::Correct { id, body })
        }
    }
}

/// The command of a request, behind so many law entries: the first enacts the act, and each other one is drawn.
#[tactic(auto, unfolding(crate::specs::Drawn::asked))]
pub fn command_of(
    alloc: Global,
    request: u64,
    front: u32,
    draws: &mut Draws,
) -> Result<Command, Memory>
    ensures command { IfOk result (λ command. command ≡ (spec.asked request front draws.old.state).command) }
    ensures state { OnOk result (draws.new.state ≡ (spec.asked request front draws.old.state).state) }
{
    if request == 1 {
        enactment(alloc)
    } else {
        drawn_command(alloc, front, draws)
    }
}
