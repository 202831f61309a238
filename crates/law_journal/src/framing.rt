//! Framing: payloads as one write of a journal brings them.

ghost use Rattle.std.specs.Prelude.{◌≡◌, ◌<◌, ◌++◌, [], ◌∷◌, All, IfOk, IsTrue, OnOk, length, map};
ghost use Rattle.law_journal.specs.Grammar.{four_bytes, frame_of, is_size};
ghost use Rattle.law_journal.specs.Journals.{AreFrames, IsFramed};

use desk_base::Memory;
use std::alloc::Global;

// Puts a payload behind its length, and takes the memory for the gate, too.
fn put_sized(framed: &mut Vec<u8>, payload: &[u8]) -> Result<(), Memory>
    requires { IsTrue (is_size (length payload.now)) }
    ensures { OnOk result (framed.new.items ≡ framed.old.items ++ (four_bytes (length payload.now) ++ payload.now)) }
{
    let size = payload.len();
    let bytes = [
        (size / 16_777_216) as u8,
        (size / 65_536 % 256) as u8,
        (size / 256 % 256) as u8,
        (size % 256) as u8,
    ];
    framed.reserve(size + 5)?;
    framed.extend_from_slice(&bytes)?;
    framed.extend_from_slice(payload)?;
    Ok(())
}

/// The frame of a payload: its length in four bytes, the payload, and a closed gate.
pub fn frame(alloc: Global, payload: &[u8]) -> Result<Vec<u8>, Memory>
    requires { IsTrue (is_size (length payload.now)) }
    ensures bytes { IfOk result (λ framed. framed.items ≡ frame_of payload.now) }
    ensures frames { IfOk result (λ framed. AreFrames (payload.now ∷ []) framed.items) }
    ensures framed { IfOk result (λ framed. IsFramed framed.items) }
{
    let mut framed = Vec::new(alloc);
    put_sized(&mut framed, payload)?;
    framed.push(0)?;
    Ok(framed)
}

/// The frames of payloads, one behind the other. The gates between them are open, and the last one is closed.
pub fn frames(alloc: Global, payloads: &[Vec<u8>]) -> Result<Vec<u8>, Memory>
    requires some { 0 < length payloads.now }
    requires sizes { All (λ payload. IsTrue (is_size (length payload.items))) payloads.now }
    ensures frames { IfOk result (λ framed. AreFrames (map (λ payload. payload.items) payloads.now) framed.items) }
    ensures framed { IfOk result (λ framed. IsFramed framed.items) }
{
    let mut framed = Vec::new(alloc);
    put_sized(&mut framed, payloads[0].as_slice())?;
    for payload in &payloads[1..] {
        framed.push(1)?;
        put_sized(&mut framed, payload.as_slice())?;
    }
    framed.push(0)?;
    Ok(framed)
}
