//! Laws of the journal's format, as the contract of a function with an empty body.

ghost use Rattle.std.specs.Prelude.{◌≡◌, ◌≢◌, ◌↔◌, ◌+◌, ◌^◌, ◌≤◌, ℕ, List, [], ◌∷◌, Ok, Some, IsTrue, length};
ghost use Rattle.law_journal.specs.Grammar.{ends, frame_of, gate_in, is_size, length_at, list_of, magic, step_at};
ghost use Rattle.law_journal.specs.declared.scanning.TheConstants.{MAGIC};
ghost use Rattle.law_journal.specs.declared.system_file.TheConstants.{LIMIT};
ghost use Rattle.law_journal.specs.declared.window.TheConstants.{PIECE};

/// The numbers of the format and its limits.
pub fn limits_are_these()
    ensures magic { magic ≡ 65 ∷ 75 ∷ 78 ∷ 76 ∷ 65 ∷ 87 ∷ 48 ∷ 49 ∷ [] }
    ensures written_magic { MAGIC ≡ magic }
    ensures payload { (n : ℕ) → IsTrue (is_size n) ↔ ((1 ≤ n) × (n ≤ 16777216)) }
    ensures frame { (payload : List ℕ) → length (frame_of payload) ≡ length payload + 5 }
    ensures open_gate { (place : ℕ) (rest : List ℕ) → step_at place (1 ∷ rest) ≡ length_at (place + 1) rest }
    ensures closed_gate { (place gate : ℕ) (rest : List ℕ) → gate ≢ 1 → step_at place (gate ∷ rest) ≡ ends }
    ensures first_gate { gate_in (Ok []) 8 ≡ Some 0 }
    ensures empty { (file : List ℕ) → length file ≤ 9 → list_of file ≡ Ok [] }
    ensures place { LIMIT ≡ 2 ^ 63 }
    ensures piece { PIECE ≡ 65536 }
{}
