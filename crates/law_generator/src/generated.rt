//! Generated: what is told of a register that was generated.

ghost use Rattle.std.specs.Prelude.{◌≡◌, IfOk};
ghost use Rattle.law_generator.specs.Courses.{line_of};

use desk_base::Memory;
use std::alloc::Global;

/// What is told of a register that was generated.
#[derive(Clone, Copy, Debug, PartialEq, Eq)]
pub struct Generated {
    /// How many commands were given to the desk.
    pub commands: u16,
    /// How many of them were accepted: the entries.
    pub accepted: usize,
    /// How many law entries there are.
    pub law: u32,
    /// How many modifications the text of the act on 2010-01-01 has.
    pub applied: usize,
    /// How many it could not have.
    pub unapplied: usize,
}

impl Generated {
    /// The line that tells it, with a line feed.
    #[tactic(auto, unfolding(crate::specs::Courses::line_of))]
    pub fn line(self, alloc: Global) -> Result<Vec<u8>, Memory>
        ensures { IfOk result (λ line. line.items ≡ line_of self) }
    {
        let Generated {
            commands,
            accepted,
            law,
            applied,
            unapplied,
        } = self;
        let line = format!(in alloc;
            "commands {commands} accepted {accepted} law {law} applied {applied} unapplied {unapplied}\n"
        )?;
        Ok(line.into_bytes())
    }
}
