//! Damage: what keeps a register from being opened.

/// Why the payloads of a keeper are no register.
#[derive(Clone, Copy, Debug, PartialEq, Eq)]
pub enum Damage {
    /// What holds the payloads is damaged.
    Journal {
        /// The first place that shows it.
        place: u64,
        /// The byte there, if there is one.
        byte: Option<u8>,
    },
    /// A payload is no entry.
    Entry {
        /// Its number, from 1.
        number: u64,
        /// The first place in it that shows it.
        place: u64,
        /// The byte there, if there is one.
        byte: Option<u8>,
    },
    /// An entry is not accepted behind those before it.
    Order {
        /// The number of its payload, from 1.
        number: u64,
        /// The number of the rule that refuses it: that of a reused request number where it is a repeat, and 0 where
        /// it would be accepted with another law number.
        rule: u8,
    },
}
