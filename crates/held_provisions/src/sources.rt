//! Sources: what is kept of works on which others may depend, found by their names.

ghost use Rattle.std.specs.Prelude.{◌≡◌, ℕ, List, Option, find, map, option_map};
ghost use Rattle.std.specs.Str.{bytes_eq};
ghost use Rattle.version_cache.specs.Seen.{work_view};
ghost use Rattle.version_cache.specs.Works.{WorkValue};
ghost use Rattle.held_provisions.specs.Kept.{source_view};

use crate::Source;
use frbr_names::WorkName;
use version_cache::WorkTables;

/// What is kept of works.
pub trait Sources {
    /// What is kept of a work, if anything is.
    ghost kept_of: { Self → List ℕ → Option WorkValue };

    /// What is kept of a work, if anything is.
    fn find<'a>(&'a self, work: &WorkName) -> Option<Source<'a>>
        ensures { option_map source_view result ≡ kept_of self.now work.now };
}

/// The works that were made, by the order of the line.
#[derive(Debug, Drop)]
pub(crate) struct MadeWorks {
    /// What was made of each.
    pub made: Vec<WorkTables>,
}

// The first of these works that has this name.
fn first_named<'a>(made: &'a [WorkTables], work: &WorkName) -> Option<&'a WorkTables>
    ensures { option_map (λ found. work_view found.now) result
        ≡ find (λ kept. bytes_eq kept.known.act.work work.now) (map work_view made.now) }
{
    for one in made {
        if one.known().act.work == *work {
            return Some(one);
        }
    }
    None
}

impl Sources for MadeWorks {
    ghost use Rattle.held_provisions.specs.Sources.{made_of};

    ghost kept_of = { made_of };

    fn find<'a>(&'a self, work: &WorkName) -> Option<Source<'a>> {
        let tables = first_named(self.made.as_slice(), work)?;
        let revision = None;
        Some(Source { tables, revision })
    }
}
