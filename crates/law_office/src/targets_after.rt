//! TargetsAfter: what references name, by the tables that an entry leaves. A clause sees it as the entries that there are then.

ghost use Rattle.std.specs.Prelude.{◌≡◌, ◌++◌, ◌∷◌, [], None, map, option_map};
ghost use Rattle.frbr_names.specs.ExpressionViews.{expression_view};
ghost use Rattle.law_refs.specs.Missing.{missing};
ghost use Rattle.law_office.specs.Movements.{FitOnce, kept_then, then_of};
ghost use Rattle.law_office.specs.Tables.{enacted_view, kept_in, revised_view};
ghost use Rattle.law_office.specs.Targets as spec;
ghost use Rattle.law_office.specs.Targets.{AreAfter};

use crate::book::KeptWorks;
use crate::kept_then::KeptThen;
use crate::moving::Moved;
use crate::sources_then::revision_among;
use crate::spelled::Spelled;
use desk_base::{Memory, Steps};
use frbr_names::{ExpressionIri, WorkName};
use law_refs::Targets;
use law_register::{Entry, Register};
use std::alloc::Global;
use std::marker::Model;
use std::sync::ledger::Ledger;
use version_cache::{WorkRevision, WorkTables};

// The numbers of the rules that no entry enacts a work, and that a text has no provision of an eId.
const UNKNOWN_WORK: u8 = 1;

const UNKNOWN_PORTION: u8 = 5;

/// What is kept of works as an entry leaves it: what is kept now, and what the entry makes of it.
#[derive(Drop)]
pub(crate) struct TargetsAfter<'a> {
    register: &'a Register,
    entry: Option<&'a Entry>,
    tables: &'a KeptWorks,
    enacted: Option<&'a (WorkName, WorkTables)>,
    revised: &'a [(WorkName, WorkRevision)],
}

impl<'a> Model for TargetsAfter<'a> {
    ghost use Rattle.std.specs.Prelude.{List, map, option_map};
    ghost use Rattle.law_register.specs.declared.register.entry.Entry.{Entry as EntryValue};
    ghost use Rattle.law_office.specs.Tables.{enacted_view, kept_in, revised_view};
    ghost use Rattle.law_office.specs.Targets.{AreAfter, with_entry};

    ghost Value = { List EntryValue };

    ghost use Rattle.std.specs.Coded.{Coded, code_by, coded×, coded_ℕ, coded_list, codes};
    ghost use Rattle.act_tree.specs.Codes.{branches_code};
    ghost use Rattle.act_tree.specs.OwnCode.{own_code};

    ghost coded = { Prim.hlevel (codes, branches_code own_code) };

    ghost view = { λ t. with_entry t.register.now.entries (option_map (λ e. e.now) t.entry) };

    ghost invariant = { λ t. AreAfter (with_entry t.register.now.entries (option_map (λ e. e.now) t.entry))
        (option_map (λ e. enacted_view e.now) t.enacted) (map revised_view t.revised.now) (kept_in t.tables.now) };
}

// What is kept of a work, with the revision of it, if there is one.
fn kept_revised<'a>(
    tables: &'a KeptWorks,
    revised: &'a [(WorkName, WorkRevision)],
    work: &str,
) -> Option<KeptThen<'a>>
    requires { FitOnce (map revised_view revised.now) (kept_in tables.now) }
    ensures { option_map spec.then_view result ≡ kept_then (map revised_view revised.now) (kept_in tables.now) work.now }
{
    let kept = tables.get(Spelled { text: work })?;
    let revision = revision_among(revised, work);
    Some(KeptThen { kept, revision })
}

// What is kept of a work, where this one is enacted or that one is revised.
fn kept_then<'a>(
    tables: &'a KeptWorks,
    enacted: Option<&'a (WorkName, WorkTables)>,
    revised: &'a [(WorkName, WorkRevision)],
    work: &str,
) -> Option<KeptThen<'a>>
    requires { FitOnce (map revised_view revised.now) (kept_in tables.now) }
    ensures { option_map spec.then_view result ≡ then_of (option_map (λ e. enacted_view e.now) enacted.entry)
        (map revised_view revised.now) (kept_in tables.now) work.now }
{
    let Some((name, kept)) = enacted else {
        return kept_revised(tables, revised, work);
    };
    if name.as_str() == work {
        let revision = None;
        Some(KeptThen { kept, revision })
    } else {
        kept_revised(tables, revised, work)
    }
}

impl<'a> TargetsAfter<'a> {
    /// As things stand now.
    pub(crate) fn now(register: &'a Register, tables: &'a KeptWorks) -> TargetsAfter<'a>
        requires { AreAfter register.now.entries None [] (kept_in tables.now) }
        ensures { result ≡ register.now.entries }
    {
        TargetsAfter {
            register,
            entry: None,
            tables,
            enacted: None,
            revised: &[],
        }
    }

    /// Behind an entry that moves works.
    pub(crate) fn moving(
        register: &'a Register,
        entry: &'a Entry,
        tables: &'a KeptWorks,
        moved: &'a Moved,
    ) -> TargetsAfter<'a>
        requires { AreAfter (register.now.entries ++ entry.now ∷ []) (option_map enacted_view moved.now.enacted)
            (map revised_view moved.now.revised.items) (kept_in tables.now) }
        ensures { result ≡ register.now.entries ++ entry.now ∷ [] }
    {
        TargetsAfter {
            register,
            entry: Some(entry),
            tables,
            enacted: moved.enacted.as_ref(),
            revised: moved.revised.as_slice(),
        }
    }

    // The number of the first rule that a target breaks. It takes no memory.
    fn rule(&self, target: &ExpressionIri<'_>) -> Option<u8>
        ensures { result ≡ missing self.now (expression_view target.now) }
    {
        let work = target.work.text;
        match kept_then(self.tables, self.enacted, self.revised, work) {
            Some(kept) => kept.rule(target),
            None => Some(UNKNOWN_WORK),
        }
    }
}

impl Targets for TargetsAfter<'_> {
    ghost broken_rule = { missing };

    fn broken<L: Ledger>(
        &self,
        _alloc: Global,
        target: &ExpressionIri<'_>,
        steps: &mut Steps<L>,
    ) -> Result<Option<u8>, Memory> {
        steps.tick();
        Ok(self.rule(target))
    }
}
