//! What holds of the tables of works that depend on each other. Each law is a function that does nothing, whose clause is the law.

ghost use Rattle.std.specs.Prelude.{◌≡◌, ◌++◌, ◌∷◌, [], ℕ, List, None, true, false};
ghost use Rattle.law_register.specs.declared.register.entry.Entry.{Entry};
ghost use Rattle.law_register.specs.Provisions.Carrying.{held_now};
ghost use Rattle.law_register.specs.Provisions.Touching.{is_concerned, touched};
ghost use Rattle.law_register.specs.Register.Verdicts.{is_legal};
ghost use Rattle.version_cache.specs.Works.{AreRightEarlyIf, IsForIf, WorkValue};

/// What is kept of a work for what legal entries make known of it is right, with one entry more, on each day of the calendar before the
/// touched day of the work; on all days, where it has none.
pub fn tables_are_right_until_touched()
    ensures { (entries : List Entry) (entry : Entry) (work : List ℕ) (kept : WorkValue)
        → is_legal (entries ++ entry ∷ []) ≡ true
        → IsForIf (held_now entries work) kept
        → AreRightEarlyIf (held_now (entries ++ entry ∷ []) work) (touched entries entry work) kept }
{}

/// What is kept of a work that an entry neither concerns nor touches is for what is known with it, too: on each day the same provisions
/// stand, and its text may change on the same days.
pub fn untouched_works_stay()
    ensures { (entries : List Entry) (entry : Entry) (work : List ℕ) (kept : WorkValue)
        → is_legal (entries ++ entry ∷ []) ≡ true
        → IsForIf (held_now entries work) kept
        → is_concerned entries entry work ≡ false
        → touched entries entry work ≡ None
        → IsForIf (held_now (entries ++ entry ∷ []) work) kept }
{}
