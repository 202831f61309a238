//! Drafter: the name of one who sends commands. A clause sees one as the list of its bytes.

ghost use Rattle.std.specs.Prelude.{◌≡◌, ◌==◌, IfOk};
ghost use Rattle.std.proofs.Common.{rules};
ghost use Rattle.std.specs.Cmp.Rules.{comparing, hashing};
ghost use Rattle.std.specs.Cmp.Lexicographic.{pointwise};
ghost use Rattle.std.specs.Hash as fed;
ghost use Rattle.law_register.specs.Register.Drafters as spec;

use arrayvec::ArrayVec;
use desk_base::{Memory, Text};
use std::alloc::Global;
use std::hash::{Hash, Hasher};
use std::marker::Model;

/// The name of a drafter: 1 to 32 bytes of lower-case letters, digits, `-`, `.` and `_`.
#[derive(Debug, Drop)]
pub struct Drafter {
    pub(crate) name: Text,
}

impl Model for Drafter {
    ghost use Rattle.std.specs.Prelude.{ℕ, List, ◌≡◌, true};
    ghost use Rattle.law_register.specs.Register.Drafters.{is_drafter};

    ghost Value = { List ℕ };

    ghost view = { λ d. d.name };

    ghost invariant = { λ d. is_drafter d.name ≡ true };
}

fn is_drafter_byte(byte: u8) -> bool
    ensures { result ≡ spec.is_drafter_byte byte }
{
    byte.is_ascii_lowercase()
        || byte.is_ascii_digit()
        || byte == b'-'
        || byte == b'.'
        || byte == b'_'
}

fn are_drafter_bytes(bytes: &[u8]) -> bool
    ensures { result ≡ spec.are_drafter_bytes bytes.now }
{
    bytes.iter().all(|byte| is_drafter_byte(*byte))
}

impl Drafter {
    /// The drafter whose name a text spells. `None`: it is not 1 to 32 of a name's bytes.
    pub fn from_text(alloc: Global, text: &str) -> Result<Option<Drafter>, Memory>
        ensures { IfOk result (λ found. found ≡ spec.drafter_of text.now) }
    {
        let bytes = text.as_bytes();
        if bytes.is_empty() || bytes.len() > 32 || !are_drafter_bytes(bytes) {
            return Ok(None);
        }
        Ok(Some(Drafter {
            name: Text::copy_of(alloc, text)?,
        }))
    }

    /// The bytes of the name, which take no memory.
    pub(crate) fn key(&self) -> ArrayVec<u8, 32>
        ensures { result.items ≡ self.now }
    {
        let mut key = ArrayVec::new();
        for byte in self.name.as_str().as_bytes() {
            key.push(*byte);
        }
        key
    }

    /// The name as Rust's text.
    pub fn as_str(&self) -> &str
        ensures { result.now ≡ self.now }
    {
        self.name.as_str()
    }

    /// The same drafter; the name is shared.
    pub fn copy(&self) -> Result<Drafter, Memory>
        ensures { IfOk result (λ drafter. drafter ≡ self.now) }
    {
        Ok(Drafter {
            name: self.name.copy()?,
        })
    }
}

impl PartialEq for Drafter {
    ghost eq = { pointwise ◌==◌ };

    ghost laws = { Prim.search (comparing, rules) };

    fn eq(&self, other: &Drafter) -> bool {
        self.as_str() == other.as_str()
    }
}

impl Eq for Drafter {
    ghost laws = { Prim.search (comparing, rules) };
}

impl Hash for Drafter {
    ghost hash_input = { fed.str };

    ghost respects_eq = { Prim.search (hashing, rules) };

    fn hash<H: Hasher>(&self, state: &mut H) {
        self.as_str().hash(state);
    }
}
