//! Laws of the tables. Each is a function that does nothing, whose clause is the law.

ghost use Rattle.std.specs.Prelude.{◌≡◌, ℕ, List};
ghost use Rattle.law_register.specs.Answer.Queries.{query_name, query_number};
ghost use Rattle.law_register.specs.declared.answer.queries.QueryRule.{QueryRule};
ghost use Rattle.law_register.specs.declared.register.entry.Entry.{Entry};
ghost use Rattle.law_reports.specs.Dangling.{IsDanglingTable, cause_named};
ghost use Rattle.law_reports.specs.Unapplied.{IsUnapplied};

/// What could not be applied on a day is one table: the works stand in the order of the bytes of their IRIs, and of each what could
/// not be applied stands in the order in which it was tried, so that two tables of one register and day are the same bytes.
pub fn unapplied_is_one_table()
    ensures { (entries : List Entry) (day : ℕ) (one other : List ℕ)
        → IsUnapplied entries day one → IsUnapplied entries day other → one ≡ other }
{}

/// What dangles on a day is one table: the works stand in the order of the bytes of their IRIs, each once, and the references of each
/// in the order of its text, so that two tables of one register and day are the same bytes.
pub fn dangling_is_one_table()
    ensures { (entries : List Entry) (day : ℕ) (one other : List ℕ)
        → IsDanglingTable entries day one → IsDanglingTable entries day other → one ≡ other }
{}

/// The name of a cause is that of the rule by which the question for what the reference names is refused.
pub fn causes_are_named_as_rules()
    ensures { (rule : QueryRule) → cause_named (query_number rule) ≡ query_name rule }
{}
