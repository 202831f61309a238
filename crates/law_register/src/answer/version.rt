//! A version: what a replay gives.

ghost use Rattle.std.specs.Prelude.{◌≡◌, true, IfOk};
ghost use Rattle.act_tree.specs.Seen.{is_own};
ghost use Rattle.law_register.specs.Answer.Versions.{version_view};

use crate::{Ids, Unapplied};
use act_tree::Tree;
use desk_base::Memory;
use std::alloc::Global;

/// The text of an act on a day, and what became of its modifications.
#[derive(Debug, Drop)]
pub struct Version {
    /// The text.
    pub tree: Tree,
    /// The modifications that were applied, in order.
    pub applied: Ids,
    /// Those that could not be applied, in order, each with its cause.
    pub unapplied: Unapplied,
}

impl Version {
    /// The same version, in memory of its own; what provisions say is shared.
    pub fn copy(&self, alloc: Global) -> Result<Version, Memory>
        ensures version { IfOk result (λ version. version_view version ≡ version_view self.now) }
        ensures own { IfOk result (λ version. is_own version.tree ≡ true) }
    {
        Ok(Version {
            tree: self.tree.copy(alloc)?,
            applied: self.applied.copy()?,
            unapplied: self.unapplied.copy()?,
        })
    }

    /// The same version, kept: its tree is read as any other and can't be changed, and shares what it lies in with what was
    /// kept of this one before (`Tree::keep`).
    pub fn keep(&mut self, alloc: Global) -> Result<Version, Memory>
        ensures same { version_view self.new ≡ version_view self.old }
        ensures own { is_own self.old.tree ≡ true → is_own self.new.tree ≡ true }
        ensures kept { IfOk result (λ version. version_view version ≡ version_view self.old) }
    {
        Ok(Version {
            tree: self.tree.keep(alloc)?,
            applied: self.applied.copy()?,
            unapplied: self.unapplied.copy()?,
        })
    }
}
