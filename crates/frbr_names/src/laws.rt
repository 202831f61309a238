//! Laws of names, each as the contract of a function with an empty body.

ghost use Rattle.std.specs.Prelude.{◌≡◌, ℕ, List, Ok};
ghost use Rattle.frbr_names.specs.Expressions.{Expression, KeepsRules, SpellsExpression, expression_of, expression_text};
ghost use Rattle.frbr_names.specs.Works.{KeepRules, SpellsWork, Work, WorkParts, work_from, work_of, work_text};

/// The IRI of a work that is spelled of parts which keep their rules is read as what they say.
pub fn spelled_work_is_read()
    ensures { (parts : WorkParts) → KeepRules parts → work_of (work_text parts) ≡ Ok (work_from parts) }
{}

/// What is read as the IRI of a work is spelled of parts that keep their rules, and says what they say.
pub fn read_work_is_spelled(_text: &[u8])
    ensures { (work : Work) → work_of _text.now ≡ Ok work → SpellsWork _text.now work }
{}

/// The IRI of an expression that is spelled of parts which keep their rules is read as what they say,
/// however it ends.
pub fn spelled_expression_is_read(_text: &[u8])
    ensures any { (e : Expression) → SpellsExpression _text.now e → expression_of _text.now ≡ Ok e }
    ensures own { (e : Expression) → KeepsRules e → expression_of (expression_text e) ≡ Ok e }
{}

/// What is read as the IRI of an expression is spelled of parts that keep their rules, but for how it ends.
pub fn read_expression_is_spelled(_text: &[u8])
    ensures { (e : Expression) → expression_of _text.now ≡ Ok e → SpellsExpression _text.now e }
{}
