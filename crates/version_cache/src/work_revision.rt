//! WorkRevision: what is to be kept of a work in place of what is. A clause sees what is known now by itself, its days, and the revisions
//! of both tables (`work_revision_view`).

ghost use Rattle.std.specs.Prelude.{◌≡◌, option_map};
ghost use Rattle.version_cache.specs.Seen.{revision_view, work_revision_view};

use crate::Revision;
use desk_base::Day;
use law_register::{Days, Known};

/// What is known now of a work by itself, its days, and the revisions of its tables, of force and of efficacy; none, where no day is
/// touched.
#[derive(Debug, Drop)]
pub struct WorkRevision {
    pub(crate) known: Known,
    pub(crate) names: bool,
    pub(crate) days: Days,
    pub(crate) tables: Option<(Revision, Revision)>,
}

impl WorkRevision {
    /// What is known now of the work by itself.
    pub fn known(&self) -> &Known
        ensures { result.now ≡ (work_revision_view self.now).known }
    {
        &self.known
    }

    /// Whether a modification of it names a provision now.
    pub fn names_any(&self) -> bool
        ensures { result ≡ (work_revision_view self.now).names }
    {
        self.names
    }

    /// The days on which its text may change now, ascending.
    pub fn days(&self) -> &[Day]
        ensures { result.now ≡ (work_revision_view self.now).days }
    {
        self.days.as_slice()
    }

    /// The revision of its table of force. `None`: no day is touched.
    pub fn force(&self) -> Option<&Revision>
        ensures { option_map (λ force. revision_view force.now) result
            ≡ option_map (λ both. both.0) (work_revision_view self.now).tables }
    {
        match &self.tables {
            Some((force, _)) => Some(force),
            None => None,
        }
    }
}
