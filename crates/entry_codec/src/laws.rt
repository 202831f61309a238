//! Laws of the format. Each is a function whose clause is the law: it looks at what it is given, and does nothing. No program
//! calls one.

ghost use Rattle.std.specs.Prelude.{◌≡◌, ◌++◌, [], ℕ, List, length, nat_lt, Ok, true};
ghost use Rattle.std.specs.List.{list_all};
ghost use Rattle.law_register.specs.Law.Sizes.{entry_size};
ghost use Rattle.law_register.specs.Law.Spellable.{can_be_spelled};
ghost use Rattle.law_register.specs.Law.Spelling.{is_well_spelled};
ghost use Rattle.law_register.specs.declared.register.entry.Entry.{Entry as EntryValue};
ghost use Rattle.entry_codec.specs.Entries.{decoding, keeps_rules, spelling};

use crate::typed::entry_is_typed;
use law_register::laws::{entries_are_well_spelled, entries_can_be_spelled};
use law_register::{Entry, Register};

/// Bytes that are decoded are the spelling of the entry that they give, so that an entry has one spelling and bytes left
/// over are never accepted. The entry keeps the rules of the format, is well spelled, and can be spelled.
pub fn decoded_is_spelled(bytes: &[u8])
    ensures spelling { (e : EntryValue) → decoding bytes.now ≡ Ok e → spelling e ≡ bytes.now }
    ensures kept { (e : EntryValue) → decoding bytes.now ≡ Ok e → keeps_rules e ≡ true }
    ensures well { (e : EntryValue) → decoding bytes.now ≡ Ok e → is_well_spelled e.command ≡ true }
    ensures able { (e : EntryValue) → decoding bytes.now ≡ Ok e → can_be_spelled e ≡ true }
{
    let _ = bytes.len();
}

/// The same of any bytes, of which no slice is there: numbers below 256 that are decoded are the spelling of what they give.
pub fn decoded_list_is_spelled()
    ensures { (bytes : List ℕ) → list_all (λ b. nat_lt b 256) bytes ≡ true → (e : EntryValue) → decoding bytes ≡ Ok e
        → spelling e ≡ bytes }
{}

/// The spelling of an entry that keeps the rules of the format is decoded as that entry, and as no other.
pub fn spelled_is_decoded()
    ensures { (e : EntryValue) → keeps_rules e ≡ true → decoding (spelling e) ≡ Ok e }
{}

/// The spelling of an entry that is well spelled and can be spelled has as many bytes as its size says.
pub fn spelling_has_its_size()
    ensures { (e : EntryValue) → is_well_spelled e.command ≡ true → can_be_spelled e ≡ true
        → length (spelling e) ≡ entry_size e }
{}

/// No spelling of an entry begins another's.
pub fn spelling_begins_no_other()
    ensures { (e f : EntryValue) (rest : List ℕ) → keeps_rules e ≡ true → keeps_rules f ≡ true
        → spelling e ++ rest ≡ spelling f → rest ≡ [] }
{}

/// An entry that is well spelled and can be spelled keeps the rules of the format, since the types of its parts keep the others;
/// so its spelling, in which `encode` gives it, is decoded as that entry.
pub fn encoded_is_decoded(entry: &Entry)
    requires able { can_be_spelled entry.now ≡ true }
    requires well { is_well_spelled entry.now.command ≡ true }
    ensures kept { keeps_rules entry.now ≡ true }
    ensures again { decoding (spelling entry.now) ≡ Ok entry.now }
{
    entry_is_typed(entry);
}

/// An entry that was decoded is encoded in the bytes of which it was: it may be, and they are its spelling.
pub fn decoded_is_encoded(bytes: &[u8], entry: &Entry)
    requires { decoding bytes.now ≡ Ok entry.now }
    ensures able { can_be_spelled entry.now ≡ true }
    ensures well { is_well_spelled entry.now.command ≡ true }
    ensures again { spelling entry.now ≡ bytes.now }
{
    decoded_is_spelled(bytes);
}

/// Each entry of a register keeps the rules of the format, so that its spelling is decoded as that entry.
pub fn entries_keep_rules(register: &Register)
    ensures { list_all keeps_rules register.now.entries ≡ true }
{
    entries_are_well_spelled(register);
    entries_can_be_spelled(register);
    for index in 0..register.len() {
        encoded_is_decoded(register.entry(index));
    }
}
