//! The small values of an entry: days, periods, ids, numberings, destinations and occurrences.

ghost use Rattle.std.specs.Prelude.{◌≡◌, ◌≤◌, ◌++◌, OnOk, IfSome};
ghost use Rattle.entry_codec.specs.Values as spec;
ghost use Rattle.entry_codec.specs.Typed as typed;
ghost use Rattle.desk_base.specs.Days.{IsDay};

use super::numbers::{put_number16, put_number32};
use super::texts::put_text;
use crate::typed::numbering_is_typed;
use desk_base::laws::day_is_numbered;
use desk_base::{Day, Id, Memory, Period};
use eid_paths::{Element, Numbering};
use law_register::Destination;
use textual_mods::Spot;

fn number_of(day: Day) -> u32
    ensures { result ≡ day }
{
    day.number() as u32
}

#[tactic(auto, unfolding(crate::specs::Values::day))]
pub(super) fn put_day(out: &mut Vec<u8>, day: Day) -> Result<(), Memory>
    ensures bytes { OnOk result (out.new.items ≡ out.old.items ++ spec.day.spell day) }
    ensures typed { OnOk result (IsDay day) }
{
    day_is_numbered(day);
    put_number32(out, number_of(day))
}

#[tactic(auto, unfolding(crate::specs::Values::day_or_none, crate::specs::Values::day))]
fn put_day_or_none(out: &mut Vec<u8>, day: Option<Day>) -> Result<(), Memory>
    ensures bytes { OnOk result (out.new.items ≡ out.old.items ++ spec.day_or_none.spell day) }
    ensures typed { OnOk result (IfSome day IsDay) }
{
    match day {
        Some(day) => put_day(out, day),
        None => put_number32(out, 0),
    }
}

/// The number of a law entry, or none.
#[tactic(auto, unfolding(crate::specs::Values::law))]
pub(super) fn put_law(out: &mut Vec<u8>, law: Option<u32>) -> Result<(), Memory>
    ensures bytes { OnOk result (out.new.items ≡ out.old.items ++ spec.law.spell law) }
    ensures typed { OnOk result (IfSome law typed.IsNumber32) }
{
    match law {
        Some(number) => put_number32(out, number),
        None => put_number32(out, 0),
    }
}

#[tactic(auto, unfolding(crate::specs::Values::period))]
pub(super) fn put_period(out: &mut Vec<u8>, period: Period) -> Result<(), Memory>
    ensures bytes { OnOk result (out.new.items ≡ out.old.items ++ spec.period.spell period) }
    ensures typed { OnOk result (typed.IsPeriod period) }
{
    let Period { start, end } = period;
    put_day(out, start)?;
    put_day_or_none(out, end)?;
    Ok(())
}

#[tactic(auto, unfolding(crate::specs::Values::id))]
pub(super) fn put_id(out: &mut Vec<u8>, id: Id) -> Result<(), Memory>
    ensures bytes { OnOk result (out.new.items ≡ out.old.items ++ spec.id.spell id) }
    ensures typed { OnOk result (typed.IsId id) }
{
    put_number32(out, id.law)?;
    put_number16(out, id.item)?;
    Ok(())
}

// The bit of an element, where it is numbered throughout.
fn bit_of(numbering: &Numbering, element: Element, bit: u16) -> u16
    ensures value { result ≡ spec.bit_of numbering.now element bit }
    ensures bound { result ≤ bit }
{
    if numbering.has(element) { bit } else { 0 }
}

#[tactic(auto, unfolding(crate::specs::Values::numbering_number))]
fn numbering_number(n: &Numbering) -> u16
    ensures { result ≡ spec.numbering_number n.now }
{
    bit_of(n, Element::Article, 1)
        + bit_of(n, Element::Section, 2)
        + bit_of(n, Element::Chapter, 4)
        + bit_of(n, Element::Paragraph, 8)
        + bit_of(n, Element::Subparagraph, 16)
        + bit_of(n, Element::Subsection, 32)
        + bit_of(n, Element::Clause, 64)
        + bit_of(n, Element::Subclause, 128)
        + bit_of(n, Element::Alinea, 256)
        + bit_of(n, Element::Part, 512)
        + bit_of(n, Element::Title, 1024)
        + bit_of(n, Element::Book, 2048)
        + bit_of(n, Element::Point, 4096)
        + bit_of(n, Element::Indent, 8192)
}

#[tactic(auto, unfolding(crate::specs::Values::numbering))]
pub(super) fn put_numbering(out: &mut Vec<u8>, numbering: &Numbering) -> Result<(), Memory>
    ensures bytes { OnOk result (out.new.items ≡ out.old.items ++ spec.numbering.spell numbering.now) }
    ensures typed { OnOk result (typed.IsNumbering numbering.now) }
{
    numbering_is_typed(numbering);
    put_number16(out, numbering_number(numbering))
}

#[tactic(auto, unfolding(crate::specs::Values::destination))]
pub(super) fn put_destination(out: &mut Vec<u8>, destination: &Destination) -> Result<(), Memory>
    ensures bytes { OnOk result (out.new.items ≡ out.old.items ++ spec.destination.spell destination.now) }
    ensures typed { OnOk result (typed.IsDestination destination.now) }
{
    match destination {
        Destination::Modification(id) => {
            out.push(0)?;
            put_id(out, *id)?;
        }
        Destination::Node(wid) => {
            out.push(1)?;
            put_text(out, wid.as_str())?;
        }
    }
    Ok(())
}

/// An occurrence of a text.
#[tactic(auto, unfolding(crate::specs::Values::spot))]
pub(super) fn put_spot(out: &mut Vec<u8>, spot: &Spot) -> Result<(), Memory>
    ensures bytes { OnOk result (out.new.items ≡ out.old.items ++ spec.spot.spell spot.now) }
    ensures typed { OnOk result (typed.IsSpot spot.now) }
{
    put_text(out, spot.old.as_str())?;
    put_number16(out, spot.occurrence)?;
    Ok(())
}
