//! Source: a work that others may depend on, by its tables. A clause sees what is kept of it (`source_view`).

ghost use Rattle.std.specs.Prelude.{◌≡◌, option_map};
ghost use Rattle.law_register.specs.Answer.Versions.{version_view};
ghost use Rattle.held_provisions.specs.Fitting.{IsRevisionIf-prop};
ghost use Rattle.version_cache.specs.Seen.{work_revision_view, work_view};
ghost use Rattle.version_cache.specs.Tables.{version_on};
ghost use Rattle.version_cache.specs.Works as works;

use crate::InLine;
use desk_base::Day;
use law_register::{Known, Reading, Version};
use version_cache::{WorkRevision, WorkTables};

/// A work by its tables, once a revision of them is committed, if there is one.
#[derive(Debug, Drop)]
pub struct Source<'a> {
    /// The tables.
    pub tables: &'a WorkTables,
    /// A revision that was made from them.
    pub revision: Option<&'a WorkRevision>,
    ghost fits: { works.IsRevisionIf (work_view tables.now) (option_map (λ r. work_revision_view r.now) revision) } by { IsRevisionIf-prop (work_view tables.now) (option_map (λ r. work_revision_view r.now) revision) },
}

impl<'a> Source<'a> {
    ghost use Rattle.held_provisions.specs.Kept.{source_view};

    /// What is known of the work by itself.
    pub fn known(&self) -> &Known
        ensures { result.now ≡ (source_view self.now).known }
    {
        match self.revision {
            Some(revision) => revision.known(),
            None => self.tables.known(),
        }
    }

    /// Its version of a day, in a reading. It takes no memory.
    pub fn on(&self, reading: Reading, day: Day) -> &Version
        ensures { version_view result.now ≡ version_on (works.table_in reading (source_view self.now)) day }
    {
        self.tables.on_after(self.revision, reading, day)
    }

    /// The days on which its text may change, ascending.
    pub fn days(&self) -> &[Day]
        ensures { result.now ≡ (source_view self.now).days }
    {
        match self.revision {
            Some(revision) => revision.days(),
            None => self.tables.days(),
        }
    }
}

impl<'a> InLine for Source<'a> {
    ghost use Rattle.held_provisions.specs.Kept.{source_view};

    ghost known_of = { λ source. (source_view source).known };

    fn known(&self) -> &Known {
        Source::known(self)
    }
}
