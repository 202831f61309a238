//! Renewing: changes are made to what is kept. None of it takes memory.

ghost use Rattle.std.specs.Prelude.{◌≡◌, ◌≤◌, ◌++◌, ◌∷◌, [], List, ℕ, None, Some, IfSome, if◌then◌else◌, map, option_map};
ghost use Rattle.std.specs.Map.{keys_of};
ghost use Rattle.std.specs.Str.{bytes_eq};
ghost use Rattle.indexmap.specs.IndexMap.{get_by, insert_entry, spare};
ghost use Rattle.version_cache.specs.Seen.{work_revision_view, work_view};
ghost use Rattle.version_cache.specs.Works.{AreRevisionsOf};
ghost use Rattle.law_office.specs.References.{index_after};
ghost use Rattle.law_office.specs.Tables.{Fit, applied, enacted_view, kept_in, revised_view, with_enacted, with_revision, with_revisions};

use crate::book::{Changes, KeptWorks};
use frbr_names::WorkName;
use indexmap::IndexMap;
use law_refs::{RefIndex, RefRevision};
use version_cache::{WorkRevision, WorkTables};

// Takes the revision of a work.
fn renew(tables: &mut KeptWorks, work: &WorkName, revision: WorkRevision)
    requires { IfSome (kept_in tables.old work.now)
        (λ kept. AreRevisionsOf kept (work_revision_view revision).tables) }
    ensures kept { (w : List ℕ) → kept_in tables.new w
        ≡ with_revision (work.now, work_revision_view revision) w (kept_in tables.old w) }
    ensures spare { spare tables.new ≡ spare tables.old }
{
    match tables.get_mut(work) {
        Some(kept) => kept.commit(revision),
        None => drop(revision),
    }
}

// Takes these revisions, one after another.
fn renew_all(tables: &mut KeptWorks, revised: Vec<(WorkName, WorkRevision)>)
    requires { Fit (map revised_view revised.items) (kept_in tables.old) }
    ensures kept { (w : List ℕ) → kept_in tables.new w
        ≡ with_revisions (map revised_view revised.items) w (kept_in tables.old w) }
    ensures spare { spare tables.new ≡ spare tables.old }
{
    for (work, revision) in revised {
        renew(tables, &work, revision);
    }
}

// Puts a value at a work, for which there is room: in the place of what is there, or behind all others.
fn put<V: Drop>(map: &mut IndexMap<WorkName, V>, work: WorkName, value: V)
    requires { 1 ≤ spare map.old }
    ensures value { (w : List ℕ) → get_by (bytes_eq w) map.new
        ≡ (if bytes_eq work w then Some value else get_by (bytes_eq w) map.old) }
    ensures entries { map.new.entries ≡ insert_entry bytes_eq map.old.entries work value }
{
    let _ = map.insert(work, value);
}

// Keeps a work, which goes last where nothing is kept of it.
pub(crate) fn add(tables: &mut KeptWorks, work: WorkName, kept: WorkTables)
    requires { 1 ≤ spare tables.old }
    ensures kept { (w : List ℕ) → kept_in tables.new w
        ≡ with_enacted (Some (work, work_view kept)) w (kept_in tables.old w) }
    ensures key { kept_in tables.old work ≡ None
        → keys_of tables.new.entries ≡ keys_of tables.old.entries ++ work ∷ [] }
{
    put(tables, work, kept);
}

// Keeps a work that is enacted, if one is.
fn enact(tables: &mut KeptWorks, enacted: Option<(WorkName, WorkTables)>)
    requires { 1 ≤ spare tables.old }
    ensures { (w : List ℕ) → kept_in tables.new w
        ≡ with_enacted (option_map enacted_view enacted) w (kept_in tables.old w) }
{
    if let Some((work, kept)) = enacted {
        add(tables, work, kept);
    }
}

// Takes the revision of the index, if there is one.
fn renew_refs(index: &mut RefIndex, refs: Option<RefRevision>)
    ensures { index.new ≡ index_after refs index.old }
{
    if let Some(revision) = refs {
        index.commit(revision);
    }
}

// Makes changes, for which there is room.
pub(crate) fn apply(tables: &mut KeptWorks, index: &mut RefIndex, changes: Changes)
    requires fit { Fit (map revised_view changes.revised.items) (kept_in tables.old) }
    requires space { 1 ≤ spare tables.old }
    ensures tables { (w : List ℕ) → kept_in tables.new w ≡ applied changes (kept_in tables.old) w }
    ensures index { index.new ≡ index_after changes.refs index.old }
{
    let Changes {
        enacted,
        revised,
        refs,
    } = changes;
    renew_all(tables, revised);
    enact(tables, enacted);
    renew_refs(index, refs);
}
