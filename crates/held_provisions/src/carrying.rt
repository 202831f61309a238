//! Carrying: what is known of a work, with what is carried of the provisions that make its modifications, from what is kept of the works
//! that have them. Nothing is applied.

ghost use Rattle.std.specs.Prelude.{◌≡◌, IfOk, List, OnOk, map, option_map};
ghost use Rattle.law_register.specs.Answer.Breakpoints.{insert_days};
ghost use Rattle.law_register.specs.Answer.Standing.{alone};
ghost use Rattle.law_register.specs.Provisions.Carrying.{carrying};
ghost use Rattle.law_register.specs.Provisions.Line.{IsLine};
ghost use Rattle.law_register.specs.Provisions.Spans.{spans_of};
ghost use Rattle.law_register.specs.declared.register.known.Known.{Known as KnownValue};
ghost use Rattle.held_provisions.specs.Kept.{source_view};
ghost use Rattle.held_provisions.specs.Sources as spec;

use crate::spans::{add_ended, add_not_ended, since_when, stands_in};
use crate::{Source, Sources};
use desk_base::{Day, Memory, Text};
use law_register::{
    Carried, Days, Known, KnownMod, KnownMods, ModSource, Modification, Reading, Replayer, Spans,
};
use source_provisions::laws::unnamed_provisions_carry_nothing;
use std::alloc::Global;
use std::collections::BTreeSet;

// The longest periods on whose days a provision stands by what is kept of its work. It is asked on the days alone on which text and flags
// of the work may change.
fn spans_in_source<P: Replayer>(
    alloc: Global,
    replayer: &P,
    source: &Source<'_>,
    reading: Reading,
    provision: &Text,
) -> Result<Spans, Memory>
    ensures { IfOk result (λ spans. spans
        ≡ spans_of (spec.stands_kept (source_view source.now) reading provision.now) (source_view source.now).days) }
{
    let known = source.known();
    let mut spans = Spans::new(alloc);
    let mut since = None;
    let days = source.days();
    for day in days {
        let version = source.on(reading, *day);
        let holds = stands_in(alloc, replayer, known, reading, *day, version, provision)?;
        add_ended(&mut spans, &since, *day, holds)?;
        since = since_when(&since, *day, holds);
    }
    add_not_ended(&mut spans, &since)?;
    Ok(spans)
}

// What is carried of a provision, by what is kept of its work.
fn carried_in<P: Replayer>(
    alloc: Global,
    replayer: &P,
    source: &Source<'_>,
    provision: &Text,
) -> Result<Carried, Memory>
    ensures { IfOk result (λ carried. carried ≡ spec.carried_in (source_view source.now) provision.now) }
{
    Ok(Carried {
        force: spans_in_source(alloc, replayer, source, Reading::Force, provision)?,
        efficacy: spans_in_source(alloc, replayer, source, Reading::Efficacy, provision)?,
    })
}

// What is kept of a work, where its act is of a later day than this one.
fn if_later<'a>(day: Day, source: Source<'a>) -> Option<Source<'a>>
    ensures { option_map source_view result ≡ spec.if_later day (source_view source.entry) }
{
    if day < source.known().act.day {
        Some(source)
    } else {
        None
    }
}

// What is kept of the work whose provision is looked at from an act of this day.
fn source_kept<'a, S: Sources>(sources: &'a S, day: Day, source: &ModSource) -> Option<Source<'a>>
    ensures { option_map source_view result ≡ spec.source_kept (S.kept_of sources.now) day source.now }
{
    if source.provision.is_none() {
        return None;
    }
    match sources.find(&source.href) {
        Some(found) => if_later(day, found),
        None => None,
    }
}

fn body_kept<'a, S: Sources>(sources: &'a S, day: Day, body: &Modification) -> Option<Source<'a>>
    ensures { option_map source_view result ≡ spec.body_kept (S.kept_of sources.now) day body.now }
{
    match body {
        Modification::Textual { source, .. } => source_kept(sources, day, source),
        Modification::Force { .. } | Modification::Efficacy { .. } => None,
    }
}

// What is kept of the work from which a modification of an act of this day comes that stands, where its provision is looked at.
fn mod_kept<'a, S: Sources>(sources: &'a S, day: Day, known: &KnownMod) -> Option<Source<'a>>
    ensures { option_map source_view result ≡ spec.mod_kept (S.kept_of sources.now) day known.now }
{
    if known.live {
        body_kept(sources, day, &known.body)
    } else {
        None
    }
}

// What is carried of the provision that a source names, if it names one.
fn carried_of<P: Replayer>(
    alloc: Global,
    replayer: &P,
    source: &Source<'_>,
    provision: &Option<Text>,
) -> Result<Option<Carried>, Memory>
    ensures { IfOk result (λ carried. carried ≡ option_map (spec.carried_in (source_view source.now)) provision.now) }
{
    match provision {
        Some(provision) => Ok(Some(carried_in(alloc, replayer, source, provision)?)),
        None => Ok(None),
    }
}

// What a modification of an act of this day carries.
fn carried_for<P: Replayer, S: Sources>(
    alloc: Global,
    replayer: &P,
    sources: &S,
    day: Day,
    known: &KnownMod,
) -> Result<Option<Carried>, Memory>
    ensures { IfOk result (λ carried. carried ≡ spec.carried_for (S.kept_of sources.now) day known.now) }
{
    match mod_kept(sources, day, known) {
        Some(source) => carried_of(alloc, replayer, &source, &known.body.source().provision),
        None => Ok(None),
    }
}

fn mod_carrying<P: Replayer, S: Sources>(
    alloc: Global,
    replayer: &P,
    sources: &S,
    day: Day,
    known: &KnownMod,
) -> Result<KnownMod, Memory>
    ensures { IfOk result (λ m. m ≡ spec.mod_carrying_by (S.kept_of sources.now) day known.now) }
{
    Ok(KnownMod {
        id: known.id,
        live: known.live,
        body: known.body.copy(alloc)?,
        carried: carried_for(alloc, replayer, sources, day, known)?,
    })
}

fn mods_carrying<P: Replayer, S: Sources>(
    alloc: Global,
    replayer: &P,
    sources: &S,
    day: Day,
    mods: &[KnownMod],
) -> Result<KnownMods, Memory>
    ensures { IfOk result (λ copies. copies ≡ map (spec.mod_carrying_by (S.kept_of sources.now) day) mods.now) }
{
    let mut copies = KnownMods::new(alloc);
    for known in mods {
        copies.push(mod_carrying(alloc, replayer, sources, day, known)?)?;
    }
    Ok(copies)
}

// Puts days in their places, from the last on.
fn insert_days(days: &mut BTreeSet<Day>, new: &[Day]) -> Result<(), Memory>
    ensures { OnOk result (days.new.keys ≡ insert_days new.now days.old.keys) }
{
    for index in (0..new.len()).rev() {
        days.insert(new[index])?;
    }
    Ok(())
}

fn listed(alloc: Global, days: &BTreeSet<Day>) -> Result<Days, Memory>
    ensures { IfOk result (λ list. list ≡ days.now.keys) }
{
    let mut items = Vec::new(alloc);
    for day in days {
        items.push(*day)?;
    }
    Ok(Days::from(items))
}

// Puts the days of the work in their places from which a modification of an act of this day comes.
fn insert_source<S: Sources>(
    days: &mut BTreeSet<Day>,
    sources: &S,
    day: Day,
    known: &KnownMod,
) -> Result<(), Memory>
    ensures { OnOk result
        (days.new.keys ≡ insert_days (spec.days_for (S.kept_of sources.now) day known.now) days.old.keys) }
{
    match mod_kept(sources, day, known) {
        Some(source) => insert_days(days, source.days()),
        None => Ok(()),
    }
}

// The days on which the texts of the works may change from which modifications of an act of this day come, ascending, each once.
fn days_by<S: Sources>(
    alloc: Global,
    sources: &S,
    day: Day,
    mods: &[KnownMod],
) -> Result<Days, Memory>
    ensures { IfOk result (λ days. days ≡ spec.days_by (S.kept_of sources.now) day mods.now) }
{
    let mut days = BTreeSet::new(alloc);
    for index in (0..mods.len()).rev() {
        insert_source(&mut days, sources, day, &mods[index])?;
    }
    listed(alloc, &days)
}

// What is known of a work, with what it carries.
fn copy_carrying<P: Replayer, S: Sources>(
    alloc: Global,
    replayer: &P,
    sources: &S,
    known: &Known,
) -> Result<Known, Memory>
    ensures { IfOk result (λ copy. copy ≡ spec.carrying_by (S.kept_of sources.now) known.now) }
{
    let day = known.act.day;
    let mods = known.mods.as_slice();
    Ok(Known {
        act: known.act.copy()?,
        enacted: known.enacted,
        viewpoint: known.viewpoint,
        front: known.front,
        mods: mods_carrying(alloc, replayer, sources, day, mods)?,
        source_days: days_by(alloc, sources, day, mods)?,
    })
}

/// What is known of a work, with what is carried of the provisions that make its modifications, where what is kept has its sources in a
/// line: in each reading the periods on whose days each provision stands that is looked at, and the days on which the texts of their works
/// may change. A work of which no modification names a provision is given back as it came.
pub fn carry<P: Replayer, S: Sources>(
    alloc: Global,
    replayer: &P,
    sources: &S,
    known: Known,
) -> Result<Known, Memory>
    requires { alone known ≡ known }
    ensures { (line : List KnownValue) → IsLine line → spec.AreSources line known (S.kept_of sources.now)
        → IfOk result (λ carried. carried ≡ carrying line known) }
{
    unnamed_provisions_carry_nothing();
    if !known.names_any() {
        return Ok(known);
    }
    let carried = copy_carrying(alloc, replayer, sources, &known);
    drop(known);
    carried
}
