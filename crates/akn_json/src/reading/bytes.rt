//! The JSON value that bytes are.

ghost use Rattle.std.specs.Prelude.{◌≡◌, ◌≤◌, IfOk, length};
ghost use Rattle.serde_json.specs.Data.{depth};
ghost use Rattle.serde_json.specs.Read.{max_depth, read};
ghost use Rattle.akn_json.specs.Reading.Bytes as spec;
ghost use Rattle.akn_json.specs.Reading.Reads.{Gives, broken, or_fault};
ghost use Rattle.akn_json.specs.Reading.Values.{seen};
ghost use Rattle.akn_json.specs.Reading.Widths.{width};
ghost use Rattle.akn_json.specs.declared.fault.FormRule.TheVariants.{NotJson};

use super::faults::{NOT_JSON, TOO_LONG};
use super::values::is_in_range;
use crate::ReadFail;
use json::{Error, Reader, Scratch, Value};
use std::alloc::Global;

/// The most bytes of a dossier, and of a command. Longer ones are not read, whatever they say.
pub const MAX_DOSSIER_BYTES: usize = 8_388_608;

// serde_json reads no value that nests deeper, and so the calls over one do not either. Each item of a list takes a byte at least.
const MAX_DEPTH: usize = 127;

// The value that a text is. Texts without an escape are borrowed from it, and the others from the scratch.
fn read<'a>(alloc: Global, text: &'a str, scratch: &'a mut Scratch) -> Result<Value<'a>, ReadFail>
    ensures value { Gives seen result (or_fault (broken NotJson) (read text.now)) }
    ensures nests { IfOk result (λ v. depth (seen v) ≤ max_depth) }
    ensures lists { IfOk result (λ v. width (seen v) ≤ length text.now) }
{
    let mut reader = Reader::new(text, scratch)?;
    let value = match Value::read(alloc, &mut reader, MAX_DEPTH) {
        Ok(value) => value,
        Err(Error::OutOfMemory) => return Err(ReadFail::Memory),
        Err(_) => return Err(NOT_JSON),
    };
    if reader.next().is_some() {
        return Err(NOT_JSON);
    }
    if !is_in_range(&value) {
        return Err(NOT_JSON);
    }
    Ok(value)
}

fn json_value<'a>(
    alloc: Global,
    bytes: &'a [u8],
    scratch: &'a mut Scratch,
) -> Result<Value<'a>, ReadFail>
    ensures value { Gives seen result (or_fault (broken NotJson) (spec.json_of bytes.now)) }
    ensures nests { IfOk result (λ v. depth (seen v) ≤ max_depth) }
    ensures lists { IfOk result (λ v. width (seen v) ≤ length bytes.now) }
{
    match simdutf8::compat::from_utf8(bytes) {
        Ok(text) => read(alloc, text, scratch),
        Err(_) => Err(NOT_JSON),
    }
}

/// The JSON value of bytes that are to be of a form. Their length is judged before all else.
pub(super) fn value_of<'a>(
    alloc: Global,
    bytes: &'a [u8],
    scratch: &'a mut Scratch,
) -> Result<Value<'a>, ReadFail>
    ensures value { Gives seen result (spec.value_of bytes.now) }
    ensures nests { IfOk result (λ v. depth (seen v) ≤ max_depth) }
    ensures lists { IfOk result (λ v. width (seen v) ≤ spec.most_bytes) }
{
    if bytes.len() > MAX_DOSSIER_BYTES {
        return Err(TOO_LONG);
    }
    json_value(alloc, bytes, scratch)
}
