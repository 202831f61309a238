//! What keeps a register from being opened is printed.

ghost use Rattle.std.specs.Prelude.{◌≡◌, ◌++◌, OnOk, IfOk};
ghost use Rattle.json.specs.Tree.{json_tokens};
ghost use Rattle.serde_json.specs.Written.{outline, compact_text};
ghost use Rattle.akn_json.specs.Printing.Damages.{byte_data, damage_data};

use super::members::{put_number, put_text};
use desk_base::Memory;
use json::Writer;
use law_register::Damage;
use std::alloc::Global;

// The byte at a place; null where the bytes end.
fn put_byte(out: &mut Writer, byte: Option<u8>) -> Result<(), Memory>
    ensures tokens { OnOk result (out.new.tokens ≡ out.old.tokens ++ json_tokens (outline (byte_data byte))) }
    ensures before { OnOk result (out.new.before ≡ out.old.before) }
{
    match byte {
        Some(byte) => out.u64(u64::from(byte))?,
        None => out.null()?,
    }
    Ok(())
}

fn put_journal(out: &mut Writer, place: u64, byte: Option<u8>) -> Result<(), Memory>
    ensures tokens { OnOk result (out.new.tokens
        ≡ out.old.tokens ++ json_tokens (outline (damage_data (Damage.Journal place byte)))) }
    ensures before { OnOk result (out.new.before ≡ out.old.before) }
{
    out.begin_object()?;
    out.key("byte")?;
    put_byte(out, byte)?;
    put_text(out, "damaged", "journal")?;
    put_number(out, "place", place)?;
    out.end_object()?;
    Ok(())
}

fn put_entry(out: &mut Writer, number: u64, place: u64, byte: Option<u8>) -> Result<(), Memory>
    ensures tokens { OnOk result (out.new.tokens
        ≡ out.old.tokens ++ json_tokens (outline (damage_data (Damage.Entry number place byte)))) }
    ensures before { OnOk result (out.new.before ≡ out.old.before) }
{
    out.begin_object()?;
    out.key("byte")?;
    put_byte(out, byte)?;
    put_text(out, "damaged", "entry")?;
    put_number(out, "number", number)?;
    put_number(out, "place", place)?;
    out.end_object()?;
    Ok(())
}

fn put_order(out: &mut Writer, number: u64, rule: u8) -> Result<(), Memory>
    ensures tokens { OnOk result (out.new.tokens
        ≡ out.old.tokens ++ json_tokens (outline (damage_data (Damage.Order number rule)))) }
    ensures before { OnOk result (out.new.before ≡ out.old.before) }
{
    out.begin_object()?;
    put_text(out, "damaged", "order")?;
    put_number(out, "number", number)?;
    put_number(out, "rule", u64::from(rule))?;
    out.end_object()?;
    Ok(())
}

fn put_damaged(out: &mut Writer, damage: Damage) -> Result<(), Memory>
    ensures tokens { OnOk result (out.new.tokens ≡ out.old.tokens ++ json_tokens (outline (damage_data damage))) }
    ensures before { OnOk result (out.new.before ≡ out.old.before) }
{
    match damage {
        Damage::Journal { place, byte } => put_journal(out, place, byte),
        Damage::Entry {
            number,
            place,
            byte,
        } => put_entry(out, number, place, byte),
        Damage::Order { number, rule } => put_order(out, number, rule),
    }
}

/// The bytes of what keeps a register from being opened: what is damaged, and where. They are JSON with no space, and no line feed
/// stands behind them.
pub fn put_damage(alloc: Global, damage: Damage) -> Result<Vec<u8>, Memory>
    ensures { IfOk result (λ bytes. bytes.items ≡ compact_text (damage_data damage)) }
{
    let mut out = Writer::new(Vec::new(alloc));
    put_damaged(&mut out, damage)?;
    Ok(out.into_inner())
}
