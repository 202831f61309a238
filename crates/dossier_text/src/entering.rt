//! Entering: the register that a dossier makes. Its act is enacted first, and then each modification is recorded alone.

ghost use Rattle.std.specs.Prelude.{◌≡◌, ◌++◌, ◌∷◌, [], true, map, IfOk, OnOk};
ghost use Rattle.std.specs.List.{list_all};
ghost use Rattle.law_register.specs.Law.Spelling.{are_spelled_modifications, is_spelled_act, is_well_spelled};
ghost use Rattle.dossier_text.specs.Entering as spec;
ghost use Rattle.dossier_text.specs.Entering.{Enters};

use akn_json::Dossier;
use desk_base::{Day, Memory};
use frbr_names::WorkName;
use law_register::{Act, Command, Drafter, EnterFault, Modification, Mods, Register};
use std::alloc::Global;

// Who sends the commands of a dossier.
#[tactic(auto, unfolding(crate::specs::Entering::sender))]
fn sender(alloc: Global) -> Result<Drafter, Memory>
    ensures { IfOk result (λ drafter. drafter ≡ spec.sender) }
{
    Ok(Drafter::from_text(alloc, "text")?.unwrap())
}

// The day of each entry.
fn first_day() -> Day
    ensures { result ≡ spec.first_day }
{
    Day::from_number(1).unwrap()
}

// The list of one modification.
fn alone(alloc: Global, body: Modification) -> Result<Mods, Memory>
    ensures { IfOk result (λ mods. mods ≡ body ∷ []) }
{
    let mut mods = Mods::new(alloc);
    mods.push(body)?;
    Ok(mods)
}

// The record of one modification of a work.
fn record_of(alloc: Global, work: &WorkName, body: Modification) -> Result<Command, Memory>
    ensures { IfOk result (λ command. command ≡ spec.record_of work.now body) }
{
    let mods = alone(alloc, body)?;
    let work = work.copy()?;
    Ok(Command::Record { work, mods })
}

// Adds the record of each modification of a work.
fn add_records(
    alloc: Global,
    commands: &mut Vec<Command>,
    work: &WorkName,
    mods: Mods,
) -> Result<(), Memory>
    ensures { OnOk result (commands.new.items ≡ commands.old.items ++ map (spec.record_of work.now) mods) }
{
    for body in mods.into_vec() {
        commands.push(record_of(alloc, work, body)?)?;
    }
    Ok(())
}

// The commands of an act and its modifications.
fn commands_of(alloc: Global, act: Act, mods: Mods) -> Result<Vec<Command>, Memory>
    ensures { IfOk result (λ commands. commands.items ≡ spec.commands_of (record { act = act; mods = mods })) }
{
    let work = act.work.copy()?;
    let mut commands = Vec::new(alloc);
    commands.push(Command::Enact { act })?;
    add_records(alloc, &mut commands, &work, mods)?;
    Ok(commands)
}

// Enters commands one after another, until one is refused.
fn enter_all(
    alloc: Global,
    register: &mut Register,
    drafter: &Drafter,
    commands: Vec<Command>,
) -> Result<(), EnterFault>
    requires sent { drafter.now ≡ spec.sender }
    requires spelled { list_all is_well_spelled commands.items ≡ true }
    ensures { Enters (λ _. register.new.entries) result (spec.all_entered register.old.entries 1 commands.items) }
{
    let mut request = 1;
    for command in commands {
        register.enter(alloc, drafter, request, first_day(), command)?;
        request += 1;
    }
    Ok(())
}

/// The register that a well-spelled dossier makes, or the rule that its first refused command breaks.
#[tactic(auto, unfolding(crate::specs::Entering::entries_of))]
pub fn register_of(alloc: Global, dossier: Dossier) -> Result<Register, EnterFault>
    requires act { is_spelled_act dossier.act ≡ true }
    requires mods { are_spelled_modifications dossier.mods ≡ true }
    ensures { Enters (λ register. register.entries) result (spec.entries_of dossier) }
{
    let drafter = sender(alloc)?;
    let commands = commands_of(alloc, dossier.act, dossier.mods)?;
    let mut register = Register::new(alloc);
    match enter_all(alloc, &mut register, &drafter, commands) {
        Ok(()) => Ok(register),
        Err(fault) => {
            drop(register);
            Err(fault)
        }
    }
}
