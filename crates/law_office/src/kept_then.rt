//! KeptThen: what is kept of a work, with the revision of it that is not committed yet. A clause sees what is kept then (`then_view`).

ghost use Rattle.std.specs.Prelude.{option_map};
ghost use Rattle.version_cache.specs.Seen.{work_revision_view, work_view};
ghost use Rattle.version_cache.specs.Works.{IsRevisionIf};
ghost use Rattle.law_office.specs.Fits.{IsRevisionIf-prop};

use crate::target_rules::{is_too_early, portion_rule};
use act_tree::Tree;
use desk_base::Day;
use frbr_names::ExpressionIri;
use law_register::{Known, QueryRule, Reading};
use version_cache::{WorkRevision, WorkTables};

/// What is kept of a work, with its revision, if there is one.
#[derive(Drop)]
pub(crate) struct KeptThen<'a> {
    /// What is kept now.
    pub kept: &'a WorkTables,
    /// Its revision.
    pub revision: Option<&'a WorkRevision>,
    ghost fits: { IsRevisionIf (work_view kept.now) (option_map (λ r. work_revision_view r.now) revision) } by { IsRevisionIf-prop (work_view kept.now) (option_map (λ r. work_revision_view r.now) revision) },
}

impl<'a> KeptThen<'a> {
    ghost use Rattle.std.specs.Prelude.{◌≡◌};
    ghost use Rattle.act_tree.specs.Seen.{tree_view};
    ghost use Rattle.frbr_names.specs.ExpressionViews.{expression_view};
    ghost use Rattle.law_register.specs.Answer.Replay.{as_enacted};
    ghost use Rattle.law_office.specs.Targets as spec;
    ghost use Rattle.law_office.specs.Targets.{then_view};

    // What is known of the work then.
    fn known(&self) -> &Known
        ensures { result.now ≡ (then_view self.now).known }
    {
        match self.revision {
            Some(revision) => revision.known(),
            None => self.kept.known(),
        }
    }

    // The text of a version then. Nothing is replayed.
    fn text(&self, version: Option<Day>) -> &Tree
        requires { (then_view self.now).force.enacted ≡ as_enacted (then_view self.now).known.act }
        ensures { tree_view result.now ≡ (spec.version_named (then_view self.now) version).tree }
    {
        match version {
            Some(day) => &self.kept.on_after(self.revision, Reading::Force, day).tree,
            None => &self.kept.enacted().tree,
        }
    }

    /// The number of the first rule that what is named of the work breaks then. It takes no memory.
    pub(crate) fn rule(&self, target: &ExpressionIri<'_>) -> Option<u8>
        requires { (then_view self.now).force.enacted ≡ as_enacted (then_view self.now).known.act }
        ensures { result ≡ spec.rule_broken (then_view self.now) (expression_view target.now) }
    {
        let act = &self.known().act;
        if is_too_early(target.version, act) {
            return Some(QueryRule::NotYetEnacted(act.day).number());
        }
        if target.language != act.language {
            return Some(QueryRule::OtherLanguage(act.language).number());
        }
        portion_rule(self.text(target.version), target.portion)
    }
}
