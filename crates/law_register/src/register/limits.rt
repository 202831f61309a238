//! The limits that the register keeps.

/// The most drafters that have an entry.
pub const MOST_DRAFTERS: u16 = 256;

/// The most items of a draft.
pub const MOST_DRAFT_ITEMS: u16 = 64;

/// The most ids of a work.
pub const MOST_IDS: u16 = 512;

/// The most law entries.
pub const MOST_LAWS: u32 = 65_535;

/// The most bytes of an entry.
pub const MOST_ENTRY_BYTES: u64 = 16_777_216;

/// The most bytes of all entries.
pub const MOST_REGISTER_BYTES: u32 = 536_870_912;
