//! Looking: which provisions are looked at, and which works depend on which.

ghost use Rattle.std.specs.Prelude.{◌≡◌, find, map, option_map};
ghost use Rattle.std.specs.Str.{bytes_eq};
ghost use Rattle.law_register.specs.Provisions.Depending as depending;
ghost use Rattle.law_register.specs.Provisions.Line as line;
ghost use Rattle.law_register.specs.Provisions.Looking as looking;

use crate::InLine;
use desk_base::Day;
use frbr_names::WorkName;
use law_register::{Known, KnownMod, ModSource, Modification};

fn find_work<'a, T: InLine>(work: &WorkName, works: &'a [T]) -> Option<&'a T>
    ensures { option_map (λ found. found.now) result
        ≡ find (λ one. bytes_eq (T.known_of one).act.work work.now) works.now }
{
    for one in works {
        if one.known().act.work == *work {
            return Some(one);
        }
    }
    None
}

/// The work of this IRI in a line.
pub fn work_in<'a, T: InLine>(work: &WorkName, works: &'a [T]) -> Option<&'a T>
    ensures found { option_map (λ found. found.now) result
        ≡ find (λ one. bytes_eq (T.known_of one).act.work work.now) works.now }
    ensures known { option_map (λ found. T.known_of found.now) result ≡ line.work_in work.now (map T.known_of works.now) }
{
    find_work(work, works)
}

// Whether the work of a source is enacted in a line, by an act of a later day than this one.
fn is_enacted_after<T: InLine>(works: &[T], day: Day, source: &ModSource) -> bool
    ensures { result ≡ looking.is_after day (line.work_in source.now.href (map T.known_of works.now)) }
{
    match work_in(&source.href, works) {
        Some(found) => day < found.known().act.day,
        None => false,
    }
}

fn source_looked_at<T: InLine>(works: &[T], day: Day, source: &ModSource) -> bool
    ensures { result ≡ looking.source_looked_at (map T.known_of works.now) day source.now }
{
    source.provision.is_some() && is_enacted_after(works, day, source)
}

/// Whether the provision that makes a modification of an act of this day is looked at.
pub fn looked_at<T: InLine>(works: &[T], day: Day, body: &Modification) -> bool
    ensures { result ≡ looking.looked_at (map T.known_of works.now) day body.now }
{
    match body {
        Modification::Textual { source, .. } => source_looked_at(works, day, source),
        Modification::Force { .. } | Modification::Efficacy { .. } => false,
    }
}

/// Whether a modification of an act of this day stands, comes from a work, and its provision there is looked at.
pub fn comes_from<T: InLine>(works: &[T], day: Day, work: &WorkName, known: &KnownMod) -> bool
    ensures { result ≡ depending.comes_from (map T.known_of works.now) day work.now known.now }
{
    known.live && looked_at(works, day, &known.body) && known.body.source().href == *work
}

/// Whether a work depends on another: one of its modifications comes from there.
pub fn depends<T: InLine>(works: &[T], known: &Known, on: &WorkName) -> bool
    ensures { result ≡ depending.depends (map T.known_of works.now) known.now on.now }
{
    for one in known.mods.as_slice() {
        if comes_from(works, known.act.day, on, one) {
            return true;
        }
    }
    false
}

/// The same of the work of this IRI, where the line has it.
pub fn depends_in<T: InLine>(works: &[T], work: &WorkName, on: &WorkName) -> bool
    ensures { result ≡ depending.depends_in (map T.known_of works.now) work.now on.now }
{
    match work_in(work, works) {
        Some(found) => depends(works, found.known(), on),
        None => false,
    }
}
