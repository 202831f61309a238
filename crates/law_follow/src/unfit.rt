//! Unfit: why a payload may not stand behind those of a register.

use entry_codec::CodecFault;

/// Why a payload may not stand behind those of a register.
#[derive(Clone, Copy)]
pub enum Unfit {
    /// It spells no entry.
    NoEntry(CodecFault),
    /// Its entry is not accepted there: the number of the rule that refuses it, as damage tells it.
    NotAccepted(u8),
    /// There was not enough memory to say so.
    Memory,
}
