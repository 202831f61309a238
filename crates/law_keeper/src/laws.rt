//! Laws of keepers, each as the contract of a function with an empty body.

ghost use Rattle.std.specs.Prelude.{◌≡◌, ◌↔◌, ◌≤◌, Ok, Err, ℕ, IsTrue};
ghost use Rattle.law_journal.specs.Grammar.{Listing, is_size, with_last, with_more};
ghost use Rattle.law_keeper.specs.declared.keep_fault.KeepFault.TheVariants.{Failed};
ghost use Rattle.law_keeper.specs.declared.journal_keeper.TheConstants.{FIRST};
ghost use Rattle.law_keeper.specs.Keepers.{Appends, AppendsAll, IsSettled, IsWithFront, IsWithOrWithout, Keeps, bytes_of};

use crate::Keeper;

/// After an append that failed, the list that is found is the one from before, or has the payload behind it.
pub fn failed_append_leaves_one_of_two<K: Keeper>(_payload: &[u8])
    ensures { (old failed found : K)
        → (K.holding old).tells
        → Appends _payload.now (K.holding old) (K.holding failed) (Err Failed)
        → Keeps (K.holding failed) (K.holding found)
        → IsWithOrWithout (K.holding old).list _payload.now (K.holding found).list }
{}

/// Once an append has succeeded, no crash leaves a list without the payload.
pub fn kept_payload_outlives_crash<K: Keeper>(_payload: &[u8])
    ensures { (old new : K) (end : ℕ) (list : Listing)
        → (K.holding old).tells
        → (K.holding new).tells_crash
        → Appends _payload.now (K.holding old) (K.holding new) (Ok end)
        → IsSettled (K.holding new)
        → (K.holding new).may_leave list
        → list ≡ with_last _payload.now (K.holding old).list }
{}

/// After an append of several payloads that failed, the list that is found has some of them behind it, the first ones.
pub fn failed_append_leaves_some_of_several<K: Keeper>(_payloads: &[Vec<u8>])
    ensures { (old failed found : K)
        → (K.holding old).tells
        → AppendsAll (bytes_of _payloads.now) (K.holding old) (K.holding failed) (Err Failed)
        → Keeps (K.holding failed) (K.holding found)
        → IsWithFront (K.holding old).list (bytes_of _payloads.now) (K.holding found).list }
{}

/// Once an append of several payloads has succeeded, no crash leaves a list without them.
pub fn kept_payloads_outlive_crash<K: Keeper>(_payloads: &[Vec<u8>])
    ensures { (old new : K) (end : ℕ) (list : Listing)
        → (K.holding old).tells
        → (K.holding new).tells_crash
        → AppendsAll (bytes_of _payloads.now) (K.holding old) (K.holding new) (Ok end)
        → IsSettled (K.holding new)
        → (K.holding new).may_leave list
        → list ≡ with_more (bytes_of _payloads.now) (K.holding old).list }
{}

/// A payload has 1 to 16,777,216 bytes; the cursors of a journal are the places of its gates, counted from place 8.
pub fn limits_are_these()
    ensures payload { (n : ℕ) → IsTrue (is_size n) ↔ ((1 ≤ n) × (n ≤ 16777216)) }
    ensures first_gate { FIRST ≡ 8 }
{}
