//! Modifications of force and of efficacy.

ghost use Rattle.std.specs.Prelude.{◌≡◌, ◌++◌, OnOk};
ghost use Rattle.json.specs.Tree.{json_tokens, members_tokens};
ghost use Rattle.serde_json.specs.Written.{outline, members_outline};
ghost use Rattle.akn_json.specs.Printing.Bearings as spec;

use super::members::put_text;
use super::parts::{put_day, put_kind, put_period, put_provision};
use crate::reading::{EfficacyKind, ForceKind, Worded};
use bearing_mods::{EfficacyEffect, ForceEffect};
use desk_base::{Day, Id, Memory, Period};
use json::Writer;
use law_register::{Destination, ModSource};
use std::alloc::Global;

fn put_id(out: &mut Writer, alloc: Global, id: Id) -> Result<(), Memory>
    ensures tokens { OnOk result (out.new.tokens
        ≡ out.old.tokens ++ json_tokens (outline (spec.destination_data (Destination.Modification id)))) }
    ensures before { OnOk result (out.new.before ≡ out.old.before) }
{
    let text = id.spelled(alloc)?;
    out.begin_object()?;
    put_text(out, "modification", text.as_str())?;
    out.end_object()?;
    Ok(())
}

fn put_destination(out: &mut Writer, alloc: Global, to: &Destination) -> Result<(), Memory>
    ensures tokens { OnOk result (out.new.tokens
        ≡ out.old.tokens ++ json_tokens (outline (spec.destination_data to.now))) }
    ensures before { OnOk result (out.new.before ≡ out.old.before) }
{
    match to {
        Destination::Modification(id) => put_id(out, alloc, *id),
        Destination::Node(wid) => put_provision(out, wid.as_str()),
    }
}

// The destination, the day from which a modification is counted, its source and its kind, and the end of its object.
fn put_counted(
    out: &mut Writer,
    alloc: Global,
    to: &Destination,
    on: Day,
    source: &ModSource,
    word: &str,
) -> Result<(), Memory>
    ensures tokens { OnOk result (out.new.tokens
        ≡ out.old.tokens ++ members_tokens (members_outline (spec.counted_data to.now on source.now word.now))) }
    ensures before { OnOk result (out.new.before ≡ out.old.before) }
{
    out.key("destination")?;
    put_destination(out, alloc, to)?;
    put_day(out, alloc, "on", on)?;
    put_kind(out, source, word)?;
    Ok(())
}

// A modification with a date.
fn put_dated(
    out: &mut Writer,
    alloc: Global,
    source: &ModSource,
    to: &Destination,
    on: Day,
    date: Day,
    word: &str,
) -> Result<(), Memory>
    ensures tokens { OnOk result (out.new.tokens
        ≡ out.old.tokens ++ json_tokens (outline (spec.dated_data source.now to.now on date word.now))) }
    ensures before { OnOk result (out.new.before ≡ out.old.before) }
{
    out.begin_object()?;
    put_day(out, alloc, "date", date)?;
    put_counted(out, alloc, to, on, source, word)
}

/// A force modification.
pub fn put_force(
    out: &mut Writer,
    alloc: Global,
    source: &ModSource,
    to: &Destination,
    on: Day,
    effect: ForceEffect,
) -> Result<(), Memory>
    ensures tokens { OnOk result (out.new.tokens
        ≡ out.old.tokens ++ json_tokens (outline (spec.force_data source.now to.now on effect))) }
    ensures before { OnOk result (out.new.before ≡ out.old.before) }
{
    match effect {
        ForceEffect::Entry(date) => {
            put_dated(out, alloc, source, to, on, date, ForceKind::Entry.word())
        }
        ForceEffect::Postponed(date) => {
            put_dated(
                out,
                alloc,
                source,
                to,
                on,
                date,
                ForceKind::Postponement.word(),
            )
        }
        ForceEffect::Ended(date) => {
            put_dated(out, alloc, source, to, on, date, ForceKind::End.word())
        }
        ForceEffect::Prorogued(date) => {
            put_dated(
                out,
                alloc,
                source,
                to,
                on,
                date,
                ForceKind::Prorogation.word(),
            )
        }
        ForceEffect::ReEnacted(date) => {
            put_dated(
                out,
                alloc,
                source,
                to,
                on,
                date,
                ForceKind::ReEnactment.word(),
            )
        }
    }
}

// A retroactivity, which is counted from its date.
fn put_retroactivity(
    out: &mut Writer,
    alloc: Global,
    source: &ModSource,
    to: &Destination,
    date: Day,
) -> Result<(), Memory>
    ensures tokens { OnOk result (out.new.tokens ≡ out.old.tokens
        ++ json_tokens (outline (spec.efficacy_data source.now to.now date (EfficacyEffect.Retroactive date)))) }
    ensures before { OnOk result (out.new.before ≡ out.old.before) }
{
    out.begin_object()?;
    put_day(out, alloc, "date", date)?;
    out.key("destination")?;
    put_destination(out, alloc, to)?;
    put_kind(out, source, EfficacyKind::Retroactivity.word())?;
    Ok(())
}

// An extra efficacy, which has no date.
fn put_extra(
    out: &mut Writer,
    alloc: Global,
    source: &ModSource,
    to: &Destination,
    on: Day,
) -> Result<(), Memory>
    ensures tokens { OnOk result (out.new.tokens ≡ out.old.tokens
        ++ json_tokens (outline (spec.efficacy_data source.now to.now on EfficacyEffect.Extra))) }
    ensures before { OnOk result (out.new.before ≡ out.old.before) }
{
    out.begin_object()?;
    put_counted(
        out,
        alloc,
        to,
        on,
        source,
        EfficacyKind::ExtraEfficacy.word(),
    )
}

// An inapplication, which has a period of days.
fn put_inapplication(
    out: &mut Writer,
    alloc: Global,
    source: &ModSource,
    to: &Destination,
    on: Day,
    days: Period,
) -> Result<(), Memory>
    ensures tokens { OnOk result (out.new.tokens ≡ out.old.tokens
        ++ json_tokens (outline (spec.efficacy_data source.now to.now on (EfficacyEffect.Inapplied days)))) }
    ensures before { OnOk result (out.new.before ≡ out.old.before) }
{
    out.begin_object()?;
    out.key("days")?;
    put_period(out, alloc, days)?;
    put_counted(
        out,
        alloc,
        to,
        on,
        source,
        EfficacyKind::Inapplication.word(),
    )
}

/// An efficacy modification.
pub fn put_efficacy(
    out: &mut Writer,
    alloc: Global,
    source: &ModSource,
    to: &Destination,
    on: Day,
    effect: EfficacyEffect,
) -> Result<(), Memory>
    ensures tokens { OnOk result (out.new.tokens
        ≡ out.old.tokens ++ json_tokens (outline (spec.efficacy_data source.now to.now on effect))) }
    ensures before { OnOk result (out.new.before ≡ out.old.before) }
{
    match effect {
        EfficacyEffect::Entry(date) => {
            put_dated(out, alloc, source, to, on, date, EfficacyKind::Entry.word())
        }
        EfficacyEffect::Ended(date) => {
            put_dated(out, alloc, source, to, on, date, EfficacyKind::End.word())
        }
        EfficacyEffect::Retroactive(date) => put_retroactivity(out, alloc, source, to, date),
        EfficacyEffect::Postponed(date) => {
            put_dated(
                out,
                alloc,
                source,
                to,
                on,
                date,
                EfficacyKind::Postponement.word(),
            )
        }
        EfficacyEffect::Prorogued(date) => {
            put_dated(
                out,
                alloc,
                source,
                to,
                on,
                date,
                EfficacyKind::Prorogation.word(),
            )
        }
        EfficacyEffect::Extra => put_extra(out, alloc, source, to, on),
        EfficacyEffect::Inapplied(days) => put_inapplication(out, alloc, source, to, on, days),
    }
}
