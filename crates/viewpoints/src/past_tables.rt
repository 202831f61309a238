//! PastTables: a clause sees them as the pairs of a key and what is kept under it, the latest first.

ghost use Rattle.std.specs.Prelude.{◌≡◌, ◌≤◌, List, [], length, IfOk, OnOk, OnErr, option_map, slice_get, Some};
ghost use Rattle.std.specs.List.{IsDistinct};
ghost use Rattle.std.specs.Map.{keys_of, lookup};
ghost use Rattle.std.specs.NonZero.{non_zero_usize_get};
ghost use Rattle.law_register.specs.declared.register.entry.Entry.{Entry};
ghost use Rattle.law_register.specs.Answer.PastKeys.{is_same_key};
ghost use Rattle.viewpoints.specs.Right.{IsLatest, IsRight};
ghost use Rattle.viewpoints.specs.declared.past_tables.PastTable.{PastTable as TableValue};

use crate::PastKey;
use desk_base::Memory;
use law_register::{Dated, Known};
use lru::LruCache;
use std::alloc::Global;
use std::marker::Model;
use std::num::NonZeroUsize;

/// The versions of a work as it was known, in one reading.
#[derive(Debug, Drop)]
pub struct PastTable<T> {
    /// What they were made for. The front is that of the register at the time.
    pub known: Known,
    /// The versions by day.
    pub table: T,
}

/// The tables of 16 past viewpoints at most, the latest first.
#[derive(Debug, Drop)]
pub struct PastTables<T> {
    tables: LruCache<PastKey, PastTable<T>>,
}

impl<T> Model for PastTables<T> {
    ghost use Rattle.std.specs.Prelude.{◌≡◌, List};
    ghost use Rattle.std.specs.Coded.{codes, coded_list, coded×};
    ghost use Rattle.act_tree.specs.Codes.{branches_code};
    ghost use Rattle.act_tree.specs.OwnCode.{own_code};
    ghost use Rattle.law_register.specs.declared.answer.past_key.PastKey.{PastKey};
    ghost use Rattle.viewpoints.specs.declared.past_tables.PastTable.{PastTable};

    ghost Value = { List (PastKey × PastTable T) };

    ghost coded = { Prim.hlevel (codes, branches_code own_code, T.code) };

    ghost view = { λ p. p.tables.entries };

    ghost invariant = { λ p. p.tables.cap ≡ 16 };
}

const MOST_TABLES: usize = 16;

fn most_tables() -> NonZeroUsize
    ensures { non_zero_usize_get result ≡ 16 }
{
    match NonZeroUsize::new(MOST_TABLES) {
        Some(most) => most,
        None => unreachable!(),
    }
}

impl<T: Dated> PastTables<T> {
    /// Nothing is kept at first, which is right for any register.
    #[tactic(auto, using(crate::proofs::Staying::nothing_is_right))]
    pub fn new(alloc: Global) -> Result<PastTables<T>, Memory>
        ensures none { IfOk result (λ past. past ≡ []) }
        ensures right { IfOk result (λ past. (entries : List Entry) → IsRight T.version_on entries past) }
    {
        Ok(PastTables {
            tables: LruCache::new(alloc, most_tables())?,
        })
    }
}

impl<T> PastTables<T> {
    /// How many are kept.
    pub fn len(&self) -> usize
        ensures len { result ≡ length self.now }
        ensures most { result ≤ 16 }
        ensures once { IsDistinct is_same_key (keys_of self.now) }
    {
        self.tables.len()
    }

    pub(crate) fn kept(&self, key: &PastKey) -> Option<&PastTable<T>>
        ensures { option_map (λ kept. kept.now) result ≡ lookup (is_same_key key.now) self.now }
    {
        self.tables.peek(key)
    }

    pub(crate) fn latest(&self) -> Option<&PastTable<T>>
        ensures { option_map (λ kept. kept.now) result ≡ option_map (λ e. e.1) (slice_get self.now 0) }
    {
        let (_, kept) = self.tables.peek_mru()?;
        Some(kept)
    }

    // Makes what is kept under a key the latest.
    pub(crate) fn renew(&mut self, key: &PastKey)
        ensures { (kept : TableValue T) → lookup (is_same_key key.now) self.old ≡ Some kept
            → IsLatest key.now kept self.old self.new }
    {
        let _few = self.len();
        self.tables.promote(key);
    }
}

impl<T: Drop> PastTables<T> {
    pub(crate) fn add(&mut self, key: PastKey, kept: PastTable<T>) -> Result<(), Memory>
        ensures ok { OnOk result (IsLatest key kept self.old self.new) }
        ensures err { OnErr result (self.new ≡ self.old) }
    {
        let _few = self.len();
        self.tables.put(key, kept)?;
        Ok(())
    }
}
