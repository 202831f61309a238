//! KeptVersion: a version as replay makes it, which rows share and others are continued from. A clause sees it as its version
//! (`kept_view`).

ghost use Rattle.std.specs.Arc.{arc_value};
ghost use Rattle.law_register.specs.Answer.Soundness.{IsReplayed};
ghost use Rattle.law_register.specs.Answer.Versions.{version_view};
ghost use Rattle.version_cache.specs.Kept.{IsReplayed-prop};

use desk_base::Memory;
use law_register::Version;
use std::alloc::Global;
use std::sync::Arc;

/// A version as replay makes it, behind a count.
#[derive(Debug, Drop)]
pub struct KeptVersion {
    version: Arc<Version>,
    ghost replayed: { IsReplayed (version_view (arc_value version)) } by { IsReplayed-prop (version_view (arc_value version)) },
}

impl KeptVersion {
    ghost use Rattle.std.specs.Prelude.{◌≡◌, true, IfOk};
    ghost use Rattle.act_tree.specs.Seen.{is_own};
    ghost use Rattle.version_cache.specs.Rows.{kept_view};

    /// The version, kept behind a count: its tree shares what it lies in with what was kept of the version before.
    pub fn new(alloc: Global, version: Version) -> Result<KeptVersion, Memory>
        requires { IsReplayed (version_view version) }
        ensures { IfOk result (λ kept. kept_view kept ≡ version_view version) }
    {
        let mut version = version;
        KeptVersion::of(alloc, &mut version)
    }

    /// The same as `new`, of a version that goes on: it stays as it is.
    pub fn of(alloc: Global, version: &mut Version) -> Result<KeptVersion, Memory>
        requires { IsReplayed (version_view version.old) }
        ensures same { version_view version.new ≡ version_view version.old }
        ensures own { is_own version.old.tree ≡ true → is_own version.new.tree ≡ true }
        ensures kept { IfOk result (λ kept. kept_view kept ≡ version_view version.old) }
    {
        let kept = version.keep(alloc)?;
        Ok(KeptVersion {
            version: Arc::new(alloc, kept)?,
        })
    }

    /// The same version, shared.
    pub fn share(&self) -> Result<KeptVersion, Memory>
        ensures { IfOk result (λ kept. kept_view kept ≡ kept_view self.now) }
    {
        Ok(KeptVersion {
            version: self.version.clone()?,
        })
    }

    /// The version.
    pub fn version(&self) -> &Version
        ensures same { version_view result.now ≡ kept_view self.now }
        ensures replayed { IsReplayed (version_view result.now) }
    {
        &self.version
    }
}
