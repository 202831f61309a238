//! Why bytes are no entry.

/// The first field of the bytes that breaks its rule, or that they do not hold whole.
#[derive(Clone, Copy, Debug, PartialEq, Eq)]
pub struct CodecFault {
    /// The place where the field begins, from 0. A length or a count is a field of its own, and what it announces is the
    /// next. For bytes left over it is the first of them.
    pub place: u64,
    /// The byte at the place. `None`: the bytes end there.
    pub byte: Option<u8>,
}

/// Why a decoding gave nothing.
#[derive(Clone, Copy, Debug, PartialEq, Eq)]
pub enum DecodeFail {
    /// The bytes spell no entry.
    Fault(CodecFault),
    /// There was not enough memory.
    Memory,
}
