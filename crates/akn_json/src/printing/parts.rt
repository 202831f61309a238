//! The parts that printed modifications share.
//!
//! A call that fails leaves behind what it has written, and the writer is then let go.

ghost use Rattle.std.specs.Prelude.{◌≡◌, [], ◌∷◌, ◌++◌, OnOk};
ghost use Rattle.desk_base.specs.Days.{day_text};
ghost use Rattle.json.specs.Token.{key, string};
ghost use Rattle.json.specs.Tree.{json_tokens, members_tokens};
ghost use Rattle.serde_json.specs.Written.{outline, members_outline};
ghost use Rattle.akn_json.specs.Printing.Parts.{period_data, provision_data, named_data, source_data, until_data, kind_data};

use super::members::{put_number, put_text};
use desk_base::{Day, Memory, Period, Text};
use json::Writer;
use law_register::ModSource;
use std::alloc::Global;

/// A day at a key.
pub fn put_day(out: &mut Writer, alloc: Global, name: &str, day: Day) -> Result<(), Memory>
    ensures tokens { OnOk result (out.new.tokens
        ≡ out.old.tokens ++ key name.now ∷ string (day_text day) ∷ []) }
    ensures before { OnOk result (out.new.before ≡ out.old.before) }
{
    let text = day.spelled(alloc)?;
    put_text(out, name, text.as_str())
}

// The end of a period, exactly where it has one, and the end of its object.
fn put_until(out: &mut Writer, alloc: Global, end: Option<Day>) -> Result<(), Memory>
    ensures tokens { OnOk result (out.new.tokens
        ≡ out.old.tokens ++ members_tokens (members_outline (until_data end))) }
    ensures before { OnOk result (out.new.before ≡ out.old.before) }
{
    if let Some(day) = end {
        put_day(out, alloc, "until", day)?;
    }
    out.end_object()?;
    Ok(())
}

/// A period.
pub fn put_period(out: &mut Writer, alloc: Global, period: Period) -> Result<(), Memory>
    ensures tokens { OnOk result (out.new.tokens ≡ out.old.tokens ++ json_tokens (outline (period_data period))) }
    ensures before { OnOk result (out.new.before ≡ out.old.before) }
{
    out.begin_object()?;
    put_day(out, alloc, "from", period.start)?;
    put_until(out, alloc, period.end)
}

/// A provision, by its wId.
pub fn put_provision(out: &mut Writer, wid: &str) -> Result<(), Memory>
    ensures tokens { OnOk result (out.new.tokens ≡ out.old.tokens ++ json_tokens (outline (provision_data wid.now))) }
    ensures before { OnOk result (out.new.before ≡ out.old.before) }
{
    out.begin_object()?;
    put_text(out, "wId", wid)?;
    out.end_object()?;
    Ok(())
}

// The provision that modifies, exactly where one is named, and the end of the source.
fn put_named(out: &mut Writer, provision: &Option<Text>) -> Result<(), Memory>
    ensures tokens { OnOk result (out.new.tokens
        ≡ out.old.tokens ++ members_tokens (members_outline (named_data provision.now))) }
    ensures before { OnOk result (out.new.before ≡ out.old.before) }
{
    if let Some(wid) = provision {
        put_text(out, "provision", wid.as_str())?;
    }
    out.end_object()?;
    Ok(())
}

// The work that modifies, the place in it, and the provision of it.
fn put_source(out: &mut Writer, source: &ModSource) -> Result<(), Memory>
    ensures tokens { OnOk result (out.new.tokens
        ≡ out.old.tokens ++ json_tokens (outline (source_data source.now))) }
    ensures before { OnOk result (out.new.before ≡ out.old.before) }
{
    out.begin_object()?;
    put_text(out, "href", source.href.as_str())?;
    put_number(out, "place", u64::from(source.place))?;
    put_named(out, &source.provision)
}

/// The source of a modification and the word for its kind, and the end of its object.
pub fn put_kind(out: &mut Writer, source: &ModSource, word: &str) -> Result<(), Memory>
    ensures tokens { OnOk result (out.new.tokens
        ≡ out.old.tokens ++ members_tokens (members_outline (kind_data source.now word.now))) }
    ensures before { OnOk result (out.new.before ≡ out.old.before) }
{
    out.key("source")?;
    put_source(out, source)?;
    put_text(out, "type", word)?;
    out.end_object()?;
    Ok(())
}
