//! Row: a version of a work, and the day from which on it is the text.

ghost use Rattle.std.specs.Prelude.{◌≡◌};
ghost use Rattle.law_register.specs.Answer.Versions.{version_view};
ghost use Rattle.version_cache.specs.Rows.{row_view};

use crate::kept_version::KeptVersion;
use desk_base::Day;
use law_register::Version;

/// A version, and the day from which on it is the text.
#[derive(Debug, Drop)]
pub struct Row {
    /// The day.
    pub day: Day,
    /// The version.
    pub kept: KeptVersion,
}

impl Row {
    /// The version. It takes no memory.
    pub fn version(&self) -> &Version
        ensures { version_view result.now ≡ (row_view self.now).version }
    {
        self.kept.version()
    }
}
