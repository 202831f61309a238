//! Marks: what one more entry makes of those of each index. None of these calls takes memory.

ghost use Rattle.std.specs.Prelude.{◌≡◌, ◌||◌, ◌==◌, ◌&&◌, ◌+◌, ◌-◌, ◌<◌, ◌≤◌, ◌^◌, ℕ, List, [], ◌∷◌, ◌++◌, length, filter, map, slice_get, take, drop, Option, Some, None, IfSome, IfNone, IsTrue, true, option_map, is_some, if◌then◌else◌, vec_len, vec_capacity};
ghost use Rattle.std.specs.Str.{bytes_eq};
ghost use Rattle.indexmap.specs.IndexMap.{get_by, index_map_len, spare};
ghost use Rattle.law_register.specs.Answer.Counted.{is_same_id};
ghost use Rattle.law_register.specs.Register.Indexes as spec;
ghost use Rattle.law_register.specs.Register.Concerns.{is_named};
ghost use Rattle.law_register.specs.Register.Marks as marking;
ghost use Rattle.law_register.specs.Register.Indexes.{added_of, drafter_in, id_in, ids_in, is_request, items_in, recorded_from, work_in};
ghost use Rattle.law_register.specs.Register.Drafts.{additions};
ghost use Rattle.law_register.specs.declared.register.limits.TheConstants.{MOST_DRAFT_ITEMS, MOST_IDS, MOST_REGISTER_BYTES};
ghost use Rattle.textual_mods.specs.declared.fitting.TheConstants.{MAX_ITEMS};

use crate::law::sizes::entry_size;
use crate::register::contents;
use crate::register::indexes::{
    BodyMark, DrafterKey, DrafterMark, Drafters, EnactedMark, IdMark, Indexes, ItemMark, ItemMarks,
    KnownIds, RequestKey, RequestMark, Requests, StepMark, WorkKey, WorkMark, Works, drafter_key,
    work_key,
};
use crate::{Command, Drafter, Entry, Modification, Reply, Standing};
use arrayvec::ArrayVec;
use desk_base::Id;
use frbr_names::WorkName;

/// Gives a request a mark.
pub fn put_request(requests: &mut Requests, drafter: DrafterKey, request: u64, mark: RequestMark)
    requires { 0 < spare requests.old }
    ensures marks { (d : List ℕ) (r : ℕ) → get_by (is_request d r) requests.new
        ≡ (if bytes_eq drafter.items d && (request == r) then Some mark else get_by (is_request d r) requests.old) }
    ensures room { spare requests.old ≤ spare requests.new + 1 }
{
    let key = RequestKey { drafter, request };
    let _ = requests.insert(key, mark);
}

/// Gives a drafter a mark, and gives back the one that it had.
pub fn put_drafter(
    drafters: &mut Drafters,
    drafter: DrafterKey,
    mark: DrafterMark,
) -> Option<DrafterMark>
    requires { 0 < spare drafters.old }
    ensures had { result ≡ drafter_in drafters.old drafter.items }
    ensures marks { (d : List ℕ) → drafter_in drafters.new d
        ≡ (if bytes_eq drafter.items d then Some mark else drafter_in drafters.old d) }
    ensures count { index_map_len drafters.new ≡ index_map_len drafters.old + (if is_some result then 0 else 1) }
    ensures room { spare drafters.old ≤ spare drafters.new + 1 }
{
    match drafters.insert(drafter, mark) {
        Ok(had) => had,
        Err(_) => None,
    }
}

/// Gives a work a mark.
pub fn put_work(works: &mut Works, work: WorkKey, mark: WorkMark)
    requires { 0 < spare works.old }
    ensures marks { (w : List ℕ) → work_in works.new w
        ≡ (if bytes_eq work.items w then Some mark else work_in works.old w) }
    ensures room { spare works.old ≤ spare works.new + 1 }
{
    let _ = works.insert(work, mark);
}

/// Gives an id a mark.
pub fn put_id(ids: &mut KnownIds, id: Id, mark: IdMark)
    requires { 0 < spare ids.old }
    ensures marks { (i : Id) → id_in ids.new i ≡ (if is_same_id id i then Some mark else id_in ids.old i) }
    ensures room { spare ids.old ≤ spare ids.new + 1 }
{
    let _ = ids.insert(id, mark);
}

/// Records modifications as the items of a law entry, from 1 on.
pub fn record(ids: &mut KnownIds, number: u32, recorded: usize, bodies: &[BodyMark])
    requires few { length bodies.now ≤ MAX_ITEMS }
    requires room { MAX_ITEMS ≤ spare ids.old }
    ensures { (i : Id) → id_in ids.new i ≡ recorded_from number recorded 1 bodies.now i (id_in ids.old i) }
{
    let mut item = 1;
    for body in bodies {
        let id = Id { law: number, item };
        let mark = IdMark {
            recorded,
            entry: body.entry,
            place: body.place,
            standing: Standing::Live,
        };
        put_id(ids, id, mark);
        item += 1;
    }
}

fn items_after(
    items: ItemMarks,
    entries: &[Entry],
    at: usize,
    number: u32,
    command: &Command,
) -> ItemMarks
    requires few { length items.items + additions command.now ≤ MOST_DRAFT_ITEMS }
    ensures { result.items ≡ spec.items_after entries.now at number command.now items.items }
{
    match command {
        Command::DraftAdd { .. } => {
            let mut items = items;
            let item = ItemMark {
                item: number,
                entry: at,
            };
            items.push(item);
            items
        }
        Command::DraftDrop { item } => contents::without_item(&items, *item),
        Command::File { work, .. } => contents::items_but(entries, &items, work),
        _ => items,
    }
}

fn additions(command: &Command) -> u32
    ensures { result ≡ additions command.now }
{
    match command {
        Command::DraftAdd { .. } => 1,
        _ => 0,
    }
}

fn mark_or_none(had: Option<DrafterMark>) -> DrafterMark
    ensures added { result.added ≡ added_of had }
    ensures items { result.items.items ≡ items_in had }
{
    match had {
        Some(mark) => mark,
        None => DrafterMark {
            added: 0,
            items: ArrayVec::new(),
        },
    }
}

fn redrafted(mark: DrafterMark, entries: &[Entry], at: usize, command: &Command) -> DrafterMark
    requires few { length mark.items.items + additions command.now ≤ MOST_DRAFT_ITEMS }
    requires small { mark.added ≤ MOST_REGISTER_BYTES }
    ensures added { result.added ≡ mark.added + additions command.now }
    ensures items { result.items.items ≡ spec.items_after entries.now at (mark.added + 1) command.now mark.items.items }
{
    let added = mark.added;
    DrafterMark {
        added: added + additions(command),
        items: items_after(mark.items, entries, at, added + 1, command),
    }
}

fn redraft(
    drafters: &mut Drafters,
    drafter: &Drafter,
    entries: &[Entry],
    at: usize,
    command: &Command,
)
    requires room { 2 ≤ spare drafters.old }
    requires few { length (items_in (drafter_in drafters.old drafter.now)) + additions command.now ≤ MOST_DRAFT_ITEMS }
    requires small { added_of (drafter_in drafters.old drafter.now) ≤ MOST_REGISTER_BYTES }
    ensures added { (d : List ℕ) → added_of (drafter_in drafters.new d)
        ≡ (if bytes_eq drafter.now d then added_of (drafter_in drafters.old d) + additions command.now
        else added_of (drafter_in drafters.old d)) }
    ensures items { (d : List ℕ) → items_in (drafter_in drafters.new d)
        ≡ (if bytes_eq drafter.now d
        then spec.items_after entries.now at (added_of (drafter_in drafters.old d) + 1) command.now
        (items_in (drafter_in drafters.old d))
        else items_in (drafter_in drafters.old d)) }
    ensures present { (d : List ℕ) → is_some (drafter_in drafters.new d)
        ≡ bytes_eq drafter.now d || is_some (drafter_in drafters.old d) }
    ensures count { index_map_len drafters.new
        ≡ index_map_len drafters.old + (if is_some (drafter_in drafters.old drafter.now) then 0 else 1) }
{
    let had = put_drafter(drafters, drafter_key(drafter), mark_or_none(None));
    let mark = redrafted(mark_or_none(had), entries, at, command);
    put_drafter(drafters, drafter_key(drafter), mark);
}

fn leaves_drafts(command: &Command) -> bool
    ensures { result ≡ spec.leaves_drafts command.now }
{
    !matches!(
        command,
        Command::DraftAdd { .. } | Command::DraftDrop { .. } | Command::File { .. }
    )
}

// Whether the last entry is of this drafter.
fn is_last(entries: &[Entry], drafter: &Drafter) -> bool
    ensures { IsTrue result → marking.IsOfLast entries.now drafter.now }
{
    match entries.last() {
        Some(last) => last.drafter == *drafter,
        None => false,
    }
}

// A mark takes a kilobyte, so one that would stay as it is is not moved; who sent the last entry has one, and is not looked up.
fn stays_as_it_is(
    drafters: &Drafters,
    drafter: &Drafter,
    entries: &[Entry],
    command: &Command,
) -> bool
    requires last { (d : List ℕ) → marking.IsOfLast entries.now d → is_some (drafter_in drafters.now d) ≡ true }
    ensures { result ≡ (spec.leaves_drafts command.now && is_some (drafter_in drafters.now drafter.now)) }
{
    if !leaves_drafts(command) {
        return false;
    }
    if is_last(entries, drafter) {
        return true;
    }
    drafters.get(&drafter_key(drafter)).is_some()
}

/// Notes what a command of a drafter, at this index, makes of the draft.
pub fn note_draft(
    drafters: &mut Drafters,
    drafter: &Drafter,
    entries: &[Entry],
    at: usize,
    command: &Command,
)
    requires last { (d : List ℕ) → marking.IsOfLast entries.now d → is_some (drafter_in drafters.old d) ≡ true }
    requires room { 2 ≤ spare drafters.old }
    requires few { length (items_in (drafter_in drafters.old drafter.now)) + additions command.now ≤ MOST_DRAFT_ITEMS }
    requires small { added_of (drafter_in drafters.old drafter.now) ≤ MOST_REGISTER_BYTES }
    ensures added { (d : List ℕ) → added_of (drafter_in drafters.new d)
        ≡ (if bytes_eq drafter.now d then added_of (drafter_in drafters.old d) + additions command.now
        else added_of (drafter_in drafters.old d)) }
    ensures items { (d : List ℕ) → items_in (drafter_in drafters.new d)
        ≡ (if bytes_eq drafter.now d
        then spec.items_after entries.now at (added_of (drafter_in drafters.old d) + 1) command.now
        (items_in (drafter_in drafters.old d))
        else items_in (drafter_in drafters.old d)) }
    ensures present { (d : List ℕ) → is_some (drafter_in drafters.new d)
        ≡ bytes_eq drafter.now d || is_some (drafter_in drafters.old d) }
    ensures count { index_map_len drafters.new
        ≡ index_map_len drafters.old + (if is_some (drafter_in drafters.old drafter.now) then 0 else 1) }
{
    if !stays_as_it_is(drafters, drafter, entries, command) {
        redraft(drafters, drafter, entries, at, command);
    }
}

fn corrected(mark: IdMark, at: usize) -> IdMark
    ensures { result ≡ spec.corrected at mark }
{
    IdMark {
        entry: at,
        place: 0,
        ..mark
    }
}

fn correct(ids: &mut KnownIds, id: Id, at: usize)
    ensures { (i : Id) → id_in ids.new i
        ≡ (if is_same_id id i then option_map (spec.corrected at) (id_in ids.old i) else id_in ids.old i) }
{
    match ids.get_mut(&id) {
        Some(mark) => *mark = corrected(*mark, at),
        None => {}
    }
}

fn with_standing(mark: IdMark, standing: Standing) -> IdMark
    ensures { result ≡ spec.with_standing standing mark }
{
    IdMark { standing, ..mark }
}

fn set_standing(ids: &mut KnownIds, id: Id, standing: Standing)
    ensures { (i : Id) → id_in ids.new i
        ≡ (if is_same_id id i then option_map (spec.with_standing standing) (id_in ids.old i) else id_in ids.old i) }
{
    match ids.get_mut(&id) {
        Some(mark) => *mark = with_standing(*mark, standing),
        None => {}
    }
}

/// Notes what the command of law entry `number`, which stands at this index and records these modifications, makes of the ids.
pub fn note_ids(ids: &mut KnownIds, number: u32, at: usize, command: &Command, bodies: &[BodyMark])
    requires few { length bodies.now ≤ MAX_ITEMS }
    requires room { MAX_ITEMS ≤ spare ids.old }
    ensures { (i : Id) → id_in ids.new i ≡ spec.id_after number at command.now bodies.now i (id_in ids.old i) }
{
    match command {
        Command::Record { .. } => record(ids, number, at, bodies),
        Command::File { .. } => record(ids, number, at, bodies),
        Command::Correct { id, .. } => correct(ids, *id, at),
        Command::Withdraw { id } => set_standing(ids, *id, Standing::Withdrawn(number)),
        Command::Restore { id } => set_standing(ids, *id, Standing::Live),
        _ => {}
    }
}

fn work_after(
    mark: Option<WorkMark>,
    number: u32,
    at: usize,
    command: &Command,
    count: u32,
) -> WorkMark
    requires { ids_in mark + count < 2 ^ 32 }
    ensures { result ≡ spec.work_after number at command.now count mark }
{
    let (enacted, ids) = match mark {
        Some(mark) => (mark.enacted, mark.ids),
        None => (None, 0),
    };
    WorkMark {
        enacted: enacted_after(enacted, number, at, command),
        last: number,
        ids: ids + count,
    }
}

fn enacted_after(
    enacted: Option<EnactedMark>,
    number: u32,
    at: usize,
    command: &Command,
) -> Option<EnactedMark>
    ensures { result ≡ spec.enacted_after number at command.now enacted }
{
    if let Some(mark) = enacted {
        return Some(mark);
    }
    match command {
        Command::Enact { .. } => Some(EnactedMark { entry: at, number }),
        _ => None,
    }
}

// Changes the mark of a work where it stands, and gives the one that it was.
fn change_work(
    works: &mut Works,
    work: &WorkName,
    number: u32,
    at: usize,
    command: &Command,
    count: u32,
) -> Option<WorkMark>
    requires { ids_in (work_in works.old work.now) + count < 2 ^ 32 }
    ensures had { result ≡ work_in works.old work.now }
    ensures marks { IfSome result (λ had. (w : List ℕ) → work_in works.new w
        ≡ (if bytes_eq work.now w then Some (spec.work_after number at command.now count (Some had))
        else work_in works.old w)) }
    ensures same { IfNone result (works.new ≡ works.old) }
{
    match works.get_mut(work) {
        Some(mark) => {
            let had = *mark;
            *mark = work_after(Some(had), number, at, command, count);
            Some(had)
        }
        None => None,
    }
}

/// Notes what the command of law entry `number`, which stands at this index and records so many modifications, makes of the work that
/// it concerns. It gives the number of the last law entry before it that concerns the work, or 0.
pub fn note_work(
    works: &mut Works,
    work: &WorkName,
    number: u32,
    at: usize,
    command: &Command,
    count: u32,
) -> u32
    requires room { 0 < spare works.old }
    requires few { ids_in (work_in works.old work.now) + count < 2 ^ 32 }
    ensures marks { (w : List ℕ) → work_in works.new w
        ≡ (if bytes_eq work.now w then Some (spec.work_after number at command.now count (work_in works.old w))
        else work_in works.old w) }
    ensures before { result ≡ spec.last_in (work_in works.old work.now) }
{
    match change_work(works, work, number, at, command, count) {
        Some(had) => had.last,
        None => {
            let mark = work_after(None, number, at, command, count);
            put_work(works, work_key(work), mark);
            0
        }
    }
}

fn note_places(all: &mut Vec<BodyMark>, at: usize, mods: &[Modification])
    requires { vec_len all.old + length mods.now ≤ vec_capacity all.old }
    ensures items { all.new.items ≡ all.old.items ++ marking.places at 0 mods.now }
    ensures len { vec_len all.new ≡ vec_len all.old + length mods.now }
{
    for (place, _) in mods.iter().enumerate() {
        all.push_reserved(BodyMark { entry: at, place });
    }
}

fn note_items(all: &mut Vec<BodyMark>, items: &[ItemMark])
    requires { vec_len all.old + length items.now ≤ vec_capacity all.old }
    ensures items { all.new.items ≡ all.old.items ++ map marking.item_body items.now }
    ensures len { vec_len all.new ≡ vec_len all.old + length items.now }
{
    for item in items {
        all.push_reserved(BodyMark {
            entry: item.entry,
            place: 0,
        });
    }
}

fn note_filed(
    all: &mut Vec<BodyMark>,
    drafters: &Drafters,
    drafter: &Drafter,
    entries: &[Entry],
    work: &WorkName,
)
    requires few { length (items_in (drafter_in drafters.now drafter.now)) ≤ MOST_DRAFT_ITEMS }
    requires room { vec_len all.old + MOST_DRAFT_ITEMS ≤ vec_capacity all.old }
    ensures items { all.new.items ≡ all.old.items ++ map marking.item_body
        (filter (spec.marks_work entries.now work.now) (items_in (drafter_in drafters.now drafter.now))) }
    ensures more { vec_len all.old ≤ vec_len all.new }
    ensures few { vec_len all.new ≤ vec_len all.old + MOST_DRAFT_ITEMS }
{
    match drafters.get(&drafter_key(drafter)) {
        Some(mark) => note_items(all, &contents::items_of(entries, &mark.items, work)),
        None => {}
    }
}

// A mark is written where it stays, and only a command that files looks its drafter up: most entries record nothing.
fn put_bodies(
    all: &mut Vec<BodyMark>,
    drafters: &Drafters,
    drafter: &Drafter,
    entries: &[Entry],
    command: &Command,
)
    requires few { length (items_in (drafter_in drafters.now drafter.now)) ≤ MOST_DRAFT_ITEMS }
    requires mods { length (marking.mods_of command.now) ≤ MAX_ITEMS }
    requires room { vec_len all.old + MOST_DRAFT_ITEMS ≤ vec_capacity all.old }
    ensures items { all.new.items ≡ all.old.items ++ marking.bodies_of entries.now (length entries.now)
        (items_in (drafter_in drafters.now drafter.now)) command.now }
    ensures more { vec_len all.old ≤ vec_len all.new }
    ensures few { vec_len all.new ≤ vec_len all.old + MOST_DRAFT_ITEMS }
{
    match command {
        Command::Record { mods, .. } => note_places(all, entries.len(), mods.as_slice()),
        Command::File { work, .. } => note_filed(all, drafters, drafter, entries, work),
        _ => {}
    }
}

fn count_from(all: &[BodyMark], first: usize) -> u32
    requires more { first ≤ length all.now }
    requires few { length all.now ≤ first + MOST_DRAFT_ITEMS }
    ensures value { result ≡ length (drop first all.now) }
    ensures few { result ≤ MOST_DRAFT_ITEMS }
{
    all[first..].len() as u32
}

// Notes the modifications that a command of a drafter records, behind `first` others, and counts them.
fn note_bodies(
    all: &mut Vec<BodyMark>,
    first: usize,
    drafters: &Drafters,
    drafter: &Drafter,
    entries: &[Entry],
    command: &Command,
) -> u32
    requires first { first ≡ length all.old.items }
    requires few { length (items_in (drafter_in drafters.now drafter.now)) ≤ MOST_DRAFT_ITEMS }
    requires mods { length (marking.mods_of command.now) ≤ MAX_ITEMS }
    requires room { vec_len all.old + MOST_DRAFT_ITEMS ≤ vec_capacity all.old }
    ensures items { all.new.items ≡ all.old.items ++ marking.bodies_of entries.now (length entries.now)
        (items_in (drafter_in drafters.now drafter.now)) command.now }
    ensures behind { drop first all.new.items ≡ marking.bodies_of entries.now (length entries.now)
        (items_in (drafter_in drafters.now drafter.now)) command.now }
    ensures count { result ≡ length (marking.bodies_of entries.now (length entries.now)
        (items_in (drafter_in drafters.now drafter.now)) command.now) }
    ensures more { vec_len all.old ≤ vec_len all.new }
    ensures few { result ≤ MOST_DRAFT_ITEMS }
{
    put_bodies(all, drafters, drafter, entries, command);
    count_from(all, first)
}

fn work_of_id<'a>(ids: &KnownIds, entries: &'a [Entry], id: Id) -> Option<&'a WorkName>
    ensures { option_map (λ w. w.now) result ≡ spec.work_of_mark entries.now (id_in ids.now id) }
{
    contents::work_at(entries, ids.get(&id)?.recorded)
}

fn concerned<'a>(ids: &KnownIds, entries: &'a [Entry], command: &'a Command) -> Option<&'a WorkName>
    ensures { option_map (λ w. w.now) result ≡ spec.concerned_by entries.now (id_in ids.now) command.now }
{
    match command {
        Command::Enact { act } => Some(&act.work),
        Command::Record { work, .. } => Some(work),
        Command::File { work, .. } => Some(work),
        Command::Correct { id, .. } => work_of_id(ids, entries, *id),
        Command::Withdraw { id } => work_of_id(ids, entries, *id),
        Command::Restore { id } => work_of_id(ids, entries, *id),
        _ => None,
    }
}

fn note_concerned(
    works: &mut Works,
    work: Option<&WorkName>,
    number: u32,
    at: usize,
    command: &Command,
    count: u32,
) -> u32
    requires room { 0 < spare works.old }
    requires few { (w : List ℕ) → ids_in (work_in works.old w) ≤ MOST_IDS }
    requires count { count ≤ MAX_ITEMS }
    ensures marks { (w : List ℕ) → work_in works.new w
        ≡ (if is_named w (option_map (λ n. n.now) work.entry)
        then Some (spec.work_after number at command.now count (work_in works.old w))
        else work_in works.old w) }
    ensures before { result ≡ marking.last_before (work_in works.old) (option_map (λ n. n.now) work.entry) }
{
    match work {
        Some(work) => note_work(works, work, number, at, command, count),
        None => 0,
    }
}

/// The number of the last law entry that concerns a work, or 0.
pub fn last_on(works: &Works, work: &WorkName) -> u32
    ensures { result ≡ spec.last_in (work_in works.now work.now) }
{
    works.get(work).map_or(0, |mark| mark.last)
}

fn note_step(steps: &mut Vec<StepMark>, command: &Command, step: StepMark)
    requires { vec_len steps.old < vec_capacity steps.old }
    ensures { steps.new.items ≡ marking.with_step command.now step steps.old.items }
{
    match command {
        Command::DraftAdd { .. } => {}
        Command::DraftDrop { .. } => {}
        _ => steps.push_reserved(step),
    }
}

fn note_act(acts: &mut Vec<usize>, command: &Command, at: usize)
    requires { vec_len acts.old < vec_capacity acts.old }
    ensures { acts.new.items ≡ marking.with_act command.now at acts.old.items }
{
    match command {
        Command::Enact { .. } => acts.push_reserved(at),
        _ => {}
    }
}

/// 1 for a law entry, 0 for an entry of a draft.
pub fn law_count(command: &Command) -> u32
    ensures { result ≡ marking.law_count command.now }
{
    match command {
        Command::DraftAdd { .. } => 0,
        Command::DraftDrop { .. } => 0,
        _ => 1,
    }
}

impl Indexes {
    ghost use Rattle.law_register.specs.Register.Registers.{index_room};
    ghost use Rattle.law_register.specs.Register.Marks.{CanNote, IsNoted};
    ghost use Rattle.law_register.specs.Register.Indexes.{drafter_mark};

    /// Notes an entry behind others, which gets this reply. It takes no memory.
    pub fn note(&mut self, entries: &[Entry], entry: &Entry, reply: Reply)
        requires fits { CanNote self.old entries.now entry.now }
        requires room { 1 ≤ index_room self.old }
        ensures { IsNoted self.old self.new entries.now entry.now reply }
    {
        let at = entries.len();
        let number = self.front + 1;
        let command = &entry.command;
        let work = concerned(&self.ids, entries, command);
        let first = self.bodies.len();
        let count = note_bodies(
            &mut self.bodies,
            first,
            &self.drafters,
            &entry.drafter,
            entries,
            command,
        );
        let before = note_concerned(&mut self.works, work, number, at, command, count);
        let step = StepMark {
            entry: at,
            first,
            until: first + count as usize,
            before,
        };
        note_step(&mut self.steps, command, step);
        note_act(&mut self.acts, command, at);
        note_ids(&mut self.ids, number, at, command, &self.bodies[first..]);
        put_request(
            &mut self.requests,
            drafter_key(&entry.drafter),
            entry.request,
            RequestMark { entry: at, reply },
        );
        note_draft(&mut self.drafters, &entry.drafter, entries, at, command);
        self.front += law_count(command);
        self.size += entry_size(entry);
    }
}
