//! Hashes of levels: equal levels have equal ones.

ghost use Rattle.std.specs.Prelude.{◌≡◌};
ghost use Rattle.act_tree.specs.LevelHashes as spec;
ghost use Rattle.eid_paths.specs.Levels.{level_text};

use eid_paths::{Element, Num};

#[tactic(auto, unfolding(crate::specs::LevelHashes::hash_with))]
fn hash_with(hash: u32, byte: u8) -> u32
    ensures { result ≡ spec.hash_with hash byte }
{
    hash.wrapping_mul(16_777_619).wrapping_add(u32::from(byte))
}

/// The hash of bytes behind others, which have a hash already: 0 where there are none.
pub fn hash_on(hash: u32, bytes: &[u8]) -> u32
    ensures { result ≡ spec.hash_on hash bytes.now }
{
    let mut hash = hash;
    for byte in bytes {
        hash = hash_with(hash, *byte);
    }
    hash
}

/// The hash of a level. Its text is not spelled.
pub fn level_hash(element: Element, num: &Num) -> u32
    ensures { result ≡ spec.level_hash (level_text element num.now) }
{
    let word = hash_on(0, element.word().as_bytes());
    let joined = hash_on(word, b"_");
    hash_on(joined, num.as_bytes())
}
