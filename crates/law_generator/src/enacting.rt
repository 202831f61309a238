//! Enacting: the act of the generated register, 64 sections of one sentence each.

ghost use Rattle.std.specs.Prelude.{◌≡◌, ◌≤◌, IfOk};
ghost use Rattle.act_tree.specs.Branches.{height};
ghost use Rattle.act_tree.specs.Specs.{spec_view};
ghost use Rattle.law_generator.specs.Acts as spec;

use crate::days::first_day;
use crate::names::{section_num, work};
use act_tree::{NodeLimit, NodeSpec, Nodes, Refs, SharedNodes};
use desk_base::{Memory, Period, Text};
use eid_paths::{Element, Numbering};
use law_register::{Act, Command};
use std::alloc::Global;

/// How many sections the act has.
pub const SECTIONS: u64 = 64;

// The sentence of a section, which names its number.
fn sentence(alloc: Global, number: u64) -> Result<Text, Memory>
    ensures { IfOk result (λ text. text ≡ spec.sentence number) }
{
    Text::from_string(format!(in alloc; "Text {number}.")?)
}

// A section, with nothing beneath it.
fn section(alloc: Global, number: u64) -> Result<NodeSpec, Memory>
    requires { number ≤ 64 }
    ensures node { IfOk result (λ node. spec_view node ≡ spec.section number) }
    ensures depth { IfOk result (λ node. height (spec_view node) ≡ 1) }
{
    let num = section_num(alloc, number)?;
    let heading = Text::copy_of(alloc, "")?;
    let content = sentence(alloc, number)?;
    Ok(NodeSpec {
        element: Element::Section,
        num,
        heading,
        content,
        refs: Refs::new(alloc),
        children: Nodes::new(alloc),
    })
}

// The sections of the act, in order.
#[tactic(auto, using(crate::proofs::Steps::sections_none, crate::proofs::Steps::sections_more))]
fn sections(alloc: Global) -> Result<Nodes, Memory>
    ensures { IfOk result (λ nodes. nodes ≡ spec.sections 64) }
{
    let mut nodes = Nodes::new(alloc);
    for before in 0..SECTIONS {
        nodes.push(section(alloc, before + 1)?)?;
    }
    Ok(nodes)
}

/// The command that enacts the act.
#[tactic(auto, unfolding(crate::specs::Acts::act))]
pub fn enactment(alloc: Global) -> Result<Command, Memory>
    ensures { IfOk result (λ command. command ≡ spec.enactment) }
{
    let body = SharedNodes::new(alloc, sections(alloc)?)?;
    let work = work(alloc)?;
    Ok(Command::Enact {
        act: Act {
            work,
            language: *b"eng",
            day: first_day(),
            numbering: Numbering::DEFAULT,
            limit: NodeLimit::Plain,
            force: Period {
                start: first_day(),
                end: None,
            },
            body,
        },
    })
}
