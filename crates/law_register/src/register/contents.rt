//! Contents of entries: the work that a command names, the act that it enacts, the modification that it brings, and the items of drafts.

ghost use Rattle.std.specs.Prelude.{◌≡◌, ◌==◌, ◌&&◌, ℕ, List, [], ◌∷◌, ◌++◌, ◌≤◌, length, filter, not, option_map, slice_get, Some, IfOk, OnOk};
ghost use Rattle.law_register.specs.Register.Indexes.{told_at, work_named, act_of, body_of, marks_work};
ghost use Rattle.law_register.specs.Register.Listing.{item_told, item_marked, items_marked, work_told, works_at};
ghost use Rattle.std.specs.List.{list_any};
ghost use Rattle.law_register.specs.declared.register.limits.TheConstants.{MOST_DRAFT_ITEMS};

use crate::register::indexes::{ItemMark, ItemMarks};
use crate::{Act, Command, Draft, DraftItem, Entry, Modification};
use arrayvec::ArrayVec;
use desk_base::Memory;
use frbr_names::WorkName;
use std::alloc::Global;

/// The work that a command names.
pub fn work_named(command: &Command) -> Option<&WorkName>
    ensures { option_map (λ w. w.now) result ≡ work_named command.now }
{
    match command {
        Command::Enact { act } => Some(&act.work),
        Command::Record { work, .. } => Some(work),
        Command::DraftAdd { work, .. } => Some(work),
        Command::File { work, .. } => Some(work),
        _ => None,
    }
}

/// The modification that a command brings: the one at a place of a record, or else its only one.
pub fn body_of(command: &Command, place: usize) -> Option<&Modification>
    ensures { option_map (λ m. m.now) result ≡ body_of place command.now }
{
    match command {
        Command::Record { mods, .. } => mods.as_slice().get(place),
        Command::Correct { body, .. } => Some(body),
        Command::DraftAdd { body, .. } => Some(body),
        _ => None,
    }
}

/// The act that a command enacts.
pub fn act_of(command: &Command) -> Option<&Act>
    ensures { option_map (λ a. a.now) result ≡ act_of command.now }
{
    match command {
        Command::Enact { act } => Some(act),
        _ => None,
    }
}

/// The work that the command of the entry at an index names.
pub fn work_at(entries: &[Entry], index: usize) -> Option<&WorkName>
    ensures { option_map (λ w. w.now) result ≡ told_at entries.now index work_named }
{
    work_named(&entries.get(index)?.command)
}

/// The modification that the command of the entry at an index brings.
pub fn body_at(entries: &[Entry], index: usize, place: usize) -> Option<&Modification>
    ensures { option_map (λ m. m.now) result ≡ told_at entries.now index (body_of place) }
{
    body_of(&entries.get(index)?.command, place)
}

/// The act that the command of the entry at an index enacts.
pub fn act_at(entries: &[Entry], index: usize) -> Option<&Act>
    ensures { option_map (λ a. a.now) result ≡ told_at entries.now index act_of }
{
    act_of(&entries.get(index)?.command)
}

fn add_work(entries: &[Entry], at: usize, works: &mut Vec<WorkName>) -> Result<(), Memory>
    ensures { OnOk result (works.new.items ≡ works.old.items ++ work_told (told_at entries.now at act_of)) }
{
    match act_at(entries, at) {
        Some(act) => Ok(works.push(act.work.copy()?)?),
        None => Ok(()),
    }
}

/// The works that the entries at these indexes enact.
pub fn works_at(alloc: Global, entries: &[Entry], ats: &[usize]) -> Result<Vec<WorkName>, Memory>
    ensures { IfOk result (λ works. works.items ≡ works_at entries.now ats.now) }
{
    let mut works = Vec::new(alloc);
    for at in ats {
        add_work(entries, *at, &mut works)?;
    }
    Ok(works)
}

/// Whether an item of a draft modifies a work.
pub fn is_item_of(entries: &[Entry], mark: ItemMark, work: &WorkName) -> bool
    ensures { result ≡ marks_work entries.now work.now mark }
{
    work_at(entries, mark.entry).is_some_and(|own| own == work)
}

/// The items of a draft that modify a work, in order.
pub fn items_of(entries: &[Entry], items: &[ItemMark], work: &WorkName) -> ItemMarks
    requires { length items.now ≤ MOST_DRAFT_ITEMS }
    ensures { result.items ≡ filter (marks_work entries.now work.now) items.now }
{
    let mut kept = ArrayVec::new();
    for mark in items {
        if is_item_of(entries, *mark, work) {
            kept.push(*mark);
        }
    }
    kept
}

/// The items of a draft that modify other works, in order.
pub fn items_but(entries: &[Entry], items: &[ItemMark], work: &WorkName) -> ItemMarks
    requires { length items.now ≤ MOST_DRAFT_ITEMS }
    ensures { result.items ≡ filter (λ m. not (marks_work entries.now work.now m)) items.now }
{
    let mut kept = ArrayVec::new();
    for mark in items {
        if !is_item_of(entries, *mark, work) {
            kept.push(*mark);
        }
    }
    kept
}

/// The items of a draft without the one of a number.
pub fn without_item(items: &[ItemMark], item: u32) -> ItemMarks
    requires { length items.now ≤ MOST_DRAFT_ITEMS }
    ensures { result.items ≡ filter (λ m. not (m.item == item)) items.now }
{
    let mut kept = ArrayVec::new();
    for mark in items {
        if mark.item != item {
            kept.push(*mark);
        }
    }
    kept
}

fn add_item(
    alloc: Global,
    entries: &[Entry],
    mark: ItemMark,
    work: &WorkName,
    draft: &mut Draft,
) -> Result<(), Memory>
    ensures { OnOk result
        (draft.new ≡ draft.old ++ item_told mark.item (Some work.now) (told_at entries.now mark.entry (body_of 0))) }
{
    match body_at(entries, mark.entry, 0) {
        Some(body) => {
            let item = DraftItem {
                item: mark.item,
                work: work.copy()?,
                body: body.copy(alloc)?,
            };
            Ok(draft.push(item)?)
        }
        None => Ok(()),
    }
}

fn add_marked(
    alloc: Global,
    entries: &[Entry],
    mark: ItemMark,
    draft: &mut Draft,
) -> Result<(), Memory>
    ensures { OnOk result (draft.new ≡ draft.old ++ item_marked entries.now mark) }
{
    match work_at(entries, mark.entry) {
        Some(work) => add_item(alloc, entries, mark, work, draft),
        None => Ok(()),
    }
}

/// The items of a draft, by their marks.
pub fn items_told(alloc: Global, entries: &[Entry], marks: &[ItemMark]) -> Result<Draft, Memory>
    ensures { IfOk result (λ draft. draft ≡ items_marked entries.now marks.now) }
{
    let mut draft = Draft::new(alloc);
    for mark in marks {
        add_marked(alloc, entries, *mark, &mut draft)?;
    }
    Ok(draft)
}

/// Whether one of the items of a draft has a number.
pub fn has_item(items: &[ItemMark], item: u32) -> bool
    ensures { result ≡ list_any (λ m. m.item == item) items.now }
{
    items.iter().any(|mark| mark.item == item)
}
