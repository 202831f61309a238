//! SourcesThen: what is kept of works, with the revisions that an entry has made so far. A clause sees what is kept then of each.

ghost use Rattle.std.specs.Prelude.{◌≡◌, map, option_map};
ghost use Rattle.held_provisions.specs.Kept.{source_view};
ghost use Rattle.version_cache.specs.Seen.{work_revision_view};
ghost use Rattle.law_office.specs.Fits.{FitOnce-prop};
ghost use Rattle.law_office.specs.Movements.{FitOnce, kept_then, revision_among, then_of};
ghost use Rattle.law_office.specs.Tables.{enacted_view, kept_in, revised_view};

use crate::book::KeptWorks;
use frbr_names::WorkName;
use held_provisions::{Source, Sources};
use version_cache::{WorkRevision, WorkTables};

/// What is kept of works, and the revisions so far.
#[derive(Drop)]
pub(crate) struct SourcesThen<'a> {
    /// What is kept.
    pub tables: &'a KeptWorks,
    /// The work that is enacted, if one is.
    pub enacted: Option<&'a (WorkName, WorkTables)>,
    /// The revisions, each of the work that it names.
    pub revised: &'a [(WorkName, WorkRevision)],
    ghost fit: { FitOnce (map revised_view revised.now) (kept_in tables.now) } by { FitOnce-prop (map revised_view revised.now) (kept_in tables.now) },
}

/// The revision of a work among these, if it is revised.
pub(crate) fn revision_among<'a>(
    revised: &'a [(WorkName, WorkRevision)],
    work: &str,
) -> Option<&'a WorkRevision>
    ensures { option_map (λ r. work_revision_view r.now) result
        ≡ revision_among (map revised_view revised.now) work.now }
{
    for one in revised {
        if one.0.as_str() == work {
            return Some(&one.1);
        }
    }
    None
}

// What is kept of a work, with the revision of it, if there is one.
fn found_kept<'a>(
    tables: &'a KeptWorks,
    revised: &'a [(WorkName, WorkRevision)],
    work: &WorkName,
) -> Option<Source<'a>>
    requires { FitOnce (map revised_view revised.now) (kept_in tables.now) }
    ensures { option_map source_view result ≡ kept_then (map revised_view revised.now) (kept_in tables.now) work.now }
{
    let tables = tables.get(work)?;
    let revision = revision_among(revised, work.as_str());
    Some(Source { tables, revision })
}

// What is kept of a work, where this one is enacted or that one is revised.
fn found_then<'a>(
    tables: &'a KeptWorks,
    enacted: Option<&'a (WorkName, WorkTables)>,
    revised: &'a [(WorkName, WorkRevision)],
    work: &WorkName,
) -> Option<Source<'a>>
    requires { FitOnce (map revised_view revised.now) (kept_in tables.now) }
    ensures { option_map source_view result ≡ then_of (option_map (λ e. enacted_view e.now) enacted.entry)
        (map revised_view revised.now) (kept_in tables.now) work.now }
{
    let Some((name, made)) = enacted else {
        return found_kept(tables, revised, work);
    };
    if *name == *work {
        let tables = made;
        let revision = None;
        Some(Source { tables, revision })
    } else {
        found_kept(tables, revised, work)
    }
}

impl Sources for SourcesThen<'_> {
    ghost use Rattle.law_office.specs.Sources.{kept_of_then};

    ghost kept_of = { kept_of_then };

    fn find<'a>(&'a self, work: &WorkName) -> Option<Source<'a>> {
        found_then(self.tables, self.enacted, self.revised, work)
    }
}
