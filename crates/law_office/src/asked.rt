//! Asked: the works that are asked when an entry comes, in the order of the line: those that name a provision, and the one that the entry
//! concerns.

ghost use Rattle.std.specs.Prelude.{◌≡◌, ◌++◌, IfOk, OnOk, map, option_map};
ghost use Rattle.std.specs.List.{IsDistinct};
ghost use Rattle.std.specs.Option.{option_to_list};
ghost use Rattle.std.specs.Str.{bytes_eq};
ghost use Rattle.law_office.specs.Asked as spec;
ghost use Rattle.law_office.specs.Noting.{AreNoted};
ghost use Rattle.law_office.specs.Tables.{kept_in};
ghost use Rattle.version_cache.specs.Seen.{work_view};

use crate::book::{KeptWorks, Naming};
use crate::line::DatedWork;
use desk_base::Memory;
use frbr_names::WorkName;
use held_provisions::InLine;
use law_register::Known;
use std::alloc::Global;
use std::cmp::Reverse;
use version_cache::WorkTables;

/// A work that is asked.
#[derive(Drop)]
pub(crate) struct AskedWork<'a> {
    /// What is known of it by itself.
    pub known: &'a Known,
}

impl<'a> InLine for AskedWork<'a> {
    ghost known_of = { λ asked. asked.known.now };

    fn known(&self) -> &Known {
        self.known
    }
}

fn dated(work: &WorkName, known: &Known) -> Result<DatedWork, Memory>
    ensures { IfOk result (λ one. one ≡ spec.dated_known work.now known.now) }
{
    Ok(DatedWork {
        day: Reverse(known.act.day),
        work: work.copy()?,
    })
}

/// Whether a work is the one that is concerned.
pub(crate) fn is_that(concerned: Option<&Known>, work: &WorkName) -> bool
    ensures { result ≡ spec.is_that (option_map (λ known. known.now) concerned.entry) work.now }
{
    match concerned {
        Some(known) => known.act.work == *work,
        None => false,
    }
}

// Adds a work that names a provision, unless it is the one that is concerned.
fn add_naming(
    names: &mut Vec<DatedWork>,
    work: &WorkName,
    kept: &WorkTables,
    concerned: Option<&Known>,
) -> Result<(), Memory>
    ensures { OnOk result (names.new.items ≡ names.old.items
        ++ spec.naming (option_map (λ known. known.now) concerned.entry) work.now (work_view kept.now)) }
{
    if kept.names_any() && !is_that(concerned, work) {
        names.push(dated(work, kept.known())?)?;
    }
    Ok(())
}

// The same, if anything is kept of it.
fn add_naming_if(
    names: &mut Vec<DatedWork>,
    tables: &KeptWorks,
    work: &WorkName,
    concerned: Option<&Known>,
) -> Result<(), Memory>
    ensures { OnOk result (names.new.items ≡ names.old.items
        ++ spec.naming_if (option_map (λ known. known.now) concerned.entry) work.now (kept_in tables.now work.now)) }
{
    match tables.get(work) {
        Some(kept) => add_naming(names, work, kept, concerned),
        None => Ok(()),
    }
}

// Of works that may name a provision those that do, but for the one that is concerned.
fn names_naming(
    alloc: Global,
    tables: &KeptWorks,
    naming: &Naming,
    concerned: Option<&Known>,
) -> Result<Vec<DatedWork>, Memory>
    ensures { IfOk result (λ names. names.items
        ≡ spec.all_naming (kept_in tables.now) (option_map (λ known. known.now) concerned.entry) naming.now.keys) }
{
    let mut names = Vec::new(alloc);
    for work in naming {
        add_naming_if(&mut names, tables, work, concerned)?;
    }
    Ok(names)
}

// Adds the one that is concerned, if one is.
fn add_concerned(names: &mut Vec<DatedWork>, concerned: Option<&Known>) -> Result<(), Memory>
    ensures { OnOk result (names.new.items
        ≡ names.old.items ++ spec.dated_if (option_map (λ known. known.now) concerned.entry)) }
{
    if let Some(known) = concerned {
        names.push(dated(&known.act.work, known)?)?;
    }
    Ok(())
}

// No two works of a set have one name.
fn names_are_apart(naming: &Naming)
    ensures { IsDistinct bytes_eq naming.now.keys }
{
    let _ = naming.len();
}

/// The names of the works that are asked, in line, where those are among these that name a provision. It walks over these alone.
pub(crate) fn names_asked(
    alloc: Global,
    tables: &KeptWorks,
    naming: &Naming,
    concerned: Option<&Known>,
) -> Result<Vec<DatedWork>, Memory>
    requires named { AreNoted naming.now (kept_in tables.now) }
    ensures { IfOk result (λ names. spec.AreAsked (kept_in tables.now)
        (option_map (λ known. known.now) concerned.entry) names.items) }
{
    names_are_apart(naming);
    let mut names = names_naming(alloc, tables, naming, concerned)?;
    add_concerned(&mut names, concerned)?;
    names.sort()?;
    Ok(names)
}

// Adds a work as it is known now, if it is kept.
fn add_now<'a>(
    asked: &mut Vec<AskedWork<'a>>,
    tables: &'a KeptWorks,
    work: &WorkName,
) -> Result<(), Memory>
    ensures { OnOk result (map (λ one. one.known.now) asked.new.items ≡ map (λ one. one.known.now) asked.old.items
        ++ option_to_list (option_map (λ one. one.known) (kept_in tables.now work.now))) }
{
    match tables.get(work) {
        Some(kept) => {
            let known = kept.known();
            asked.push(AskedWork { known })?;
            Ok(())
        }
        None => Ok(()),
    }
}

/// The works of these names that are kept, as they are known now.
pub(crate) fn asked_now<'a>(
    alloc: Global,
    tables: &'a KeptWorks,
    names: &[DatedWork],
) -> Result<Vec<AskedWork<'a>>, Memory>
    ensures { IfOk result (λ asked. map (λ one. one.known.now) asked.items
        ≡ spec.known_of_all (kept_in tables.now) (map (λ d. d.work) names.now)) }
{
    let mut asked = Vec::new(alloc);
    for one in names {
        add_now(&mut asked, tables, &one.work)?;
    }
    Ok(asked)
}

// The work of a name as it is known once an entry stands behind the others: the one that it concerns as that makes it.
fn known_then<'a>(
    tables: &'a KeptWorks,
    concerned: Option<&'a Known>,
    work: &WorkName,
) -> Option<&'a Known>
    ensures { option_map (λ known. known.now) result
        ≡ spec.known_then (kept_in tables.now) (option_map (λ known. known.now) concerned.entry) work.now }
{
    if is_that(concerned, work) {
        return concerned;
    }
    match tables.get(work) {
        Some(kept) => Some(kept.known()),
        None => None,
    }
}

// Adds a work as it is known once the entry stands behind the others, if it is.
fn add_then<'a>(
    asked: &mut Vec<AskedWork<'a>>,
    tables: &'a KeptWorks,
    concerned: Option<&'a Known>,
    work: &WorkName,
) -> Result<(), Memory>
    ensures { OnOk result (map (λ one. one.known.now) asked.new.items ≡ map (λ one. one.known.now) asked.old.items
        ++ option_to_list (spec.known_then (kept_in tables.now) (option_map (λ known. known.now) concerned.entry) work.now)) }
{
    match known_then(tables, concerned, work) {
        Some(known) => {
            asked.push(AskedWork { known })?;
            Ok(())
        }
        None => Ok(()),
    }
}

/// The works of these names as they are known once the entry stands behind the others.
pub(crate) fn asked_then<'a>(
    alloc: Global,
    tables: &'a KeptWorks,
    concerned: Option<&'a Known>,
    names: &[DatedWork],
) -> Result<Vec<AskedWork<'a>>, Memory>
    ensures { IfOk result (λ asked. map (λ one. one.known.now) asked.items
        ≡ spec.known_then_all (kept_in tables.now) (option_map (λ known. known.now) concerned.entry) (map (λ d. d.work) names.now)) }
{
    let mut asked = Vec::new(alloc);
    for one in names {
        add_then(&mut asked, tables, concerned, &one.work)?;
    }
    Ok(asked)
}
