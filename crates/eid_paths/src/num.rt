//! Num: the number of a provision. A clause sees one as the list of its bytes.

ghost use Rattle.std.specs.Prelude.{◌≡◌, ◌==◌, IsTrue};
ghost use Rattle.std.specs.List.{list_all};
ghost use Rattle.std.specs.Cmp.Lexicographic.{pointwise};
ghost use Rattle.std.specs.Cmp.Rules.{comparing};
ghost use Rattle.std.proofs.Common.{rules};
ghost use Rattle.eid_paths.specs.Nums as spec;
ghost use Rattle.eid_paths.specs.Nums.{num_of};

use std::marker::Model;

/// A num: 1 to 16 bytes, each an ASCII letter, a digit or `-`.
#[derive(Debug, Drop)]
pub struct Num {
    bytes: [u8; 16],
    len: usize,
}

impl Model for Num {
    ghost use Rattle.std.specs.Prelude.{ℕ, List, take, ◌≤◌, IsTrue};
    ghost use Rattle.std.specs.Str.{IsUtf8};
    ghost use Rattle.eid_paths.specs.Nums.{is_num};

    ghost Value = { List ℕ };

    ghost view = { λ n. take n.len n.bytes };

    ghost invariant = { λ n. (n.len ≤ 16) × IsUtf8 (take n.len n.bytes) × IsTrue (is_num (take n.len n.bytes)) };
}

fn is_num_byte(byte: u8) -> bool
    ensures { result ≡ spec.is_num_byte byte }
{
    byte.is_ascii_alphanumeric() || byte == b'-'
}

fn are_num_bytes(bytes: &[u8]) -> bool
    ensures { result ≡ list_all spec.is_num_byte bytes.now }
{
    bytes.iter().all(|byte| is_num_byte(*byte))
}

impl Num {
    /// The num that a text spells. `None`: it is not 1 to 16 of a num's bytes.
    pub fn from_text(text: &str) -> Option<Num>
        ensures { result ≡ num_of text.now }
    {
        let spelled = text.as_bytes();
        if spelled.is_empty() || spelled.len() > 16 || !are_num_bytes(spelled) {
            return None;
        }
        let mut bytes = [0; 16];
        let len = spelled.len();
        bytes[..len].copy_from_slice(spelled);
        Some(Num { bytes, len })
    }

    /// The bytes of the num.
    pub fn as_bytes(&self) -> &[u8]
        ensures { result.now ≡ self.now }
    {
        &self.bytes[..self.len]
    }

    /// The num as Rust's text.
    pub fn as_str(&self) -> &str
        ensures { result.now ≡ self.now }
    {
        self.spelled()
    }

    // The num as Rust's text, with the rule that nums keep.
    pub(crate) fn spelled(&self) -> &str
        ensures value { result.now ≡ self.now }
        ensures rule { IsTrue (spec.is_num self.now) }
    {
        str::from_utf8(&self.bytes[..self.len]).unwrap()
    }

    /// The same num, with the rule that nums keep.
    pub fn copy(&self) -> Num
        ensures value { result ≡ self.now }
        ensures rule { IsTrue (spec.is_num result) }
    {
        Num {
            bytes: self.bytes,
            len: self.len,
        }
    }
}

impl PartialEq for Num {
    ghost eq = { pointwise ◌==◌ };

    ghost laws = { Prim.search (comparing, rules) };

    fn eq(&self, other: &Num) -> bool {
        self.as_bytes() == other.as_bytes()
    }
}

impl Eq for Num {
    ghost laws = { Prim.search (comparing, rules) };
}
