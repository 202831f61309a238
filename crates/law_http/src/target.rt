//! Target: a clause sees it as the list of its bytes.

ghost use Rattle.std.specs.Prelude.{◌≡◌, IfOk};

use desk_base::Memory;
use std::alloc::Global;
use std::marker::Model;

/// The target of a request, as it was sent.
#[derive(Debug, Drop)]
pub struct Target(String);

impl Model for Target {
    ghost use Rattle.std.specs.Prelude.{ℕ, List, string_bytes};

    ghost Value = { List ℕ };

    ghost view = { λ t. string_bytes t.0 };
}

impl Target {
    /// The target that a text spells, in memory of its own.
    pub fn copy_of(alloc: Global, text: &str) -> Result<Target, Memory>
        ensures { IfOk result (λ target. target ≡ text.now) }
    {
        Ok(Target(String::from_str(alloc, text)?))
    }

    /// The target as a text.
    pub fn as_str(&self) -> &str
        ensures { result.now ≡ self.now }
    {
        self.0.as_str()
    }
}
