//! Laws of openings, and of offices that threads use in turn. Each law of an opening is a function that does nothing,
//! whose clause is the law.

ghost use Rattle.std.specs.Prelude.{◌≡◌, ◌++◌, ◌∷◌, [], true, List, Ok};
ghost use Rattle.law_journal.specs.Grammar.{Listing};
ghost use Rattle.std.specs.List.{list_all};
ghost use Rattle.law_register.specs.Desk.States.{MayFollow};
ghost use Rattle.law_register.specs.Register.Verdicts.{is_legal};
ghost use Rattle.law_register.specs.declared.register.entry.Entry.{Entry};
ghost use Rattle.entry_codec.specs.Entries.{keeps_rules};
ghost use Rattle.law_office.specs.Opening.{HasBytes, opened, opened_of, spellings};

use crate::Office;
use desk_base::Clock;
use law_keeper::Keeper;

/// The spellings of legal entries that keep the rules of the format are opened as exactly these entries.
pub fn spelled_entries_are_opened()
    ensures all { (entries : List Entry) → is_legal entries ≡ true → list_all keeps_rules entries ≡ true
        → opened (spellings entries) ≡ Ok entries }
    ensures more { (entries : List Entry) (entry : Entry) → opened (spellings entries) ≡ Ok entries
        → MayFollow entries entry → keeps_rules entry ≡ true
        → opened (spellings (entries ++ entry ∷ [])) ≡ Ok (entries ++ entry ∷ []) }
{}

/// What is opened is a legal register: each entry is accepted behind those before it, with its law number. Payloads of
/// bytes are exactly the spellings of the entries that they are opened as, and these keep the rules of the format.
pub fn opened_entries_are_legal()
    ensures legal { (list : Listing) (entries : List Entry) → opened_of list ≡ Ok entries → is_legal entries ≡ true }
    ensures spelled { (list : Listing) (entries : List Entry) → HasBytes list → opened_of list ≡ Ok entries
        → list ≡ Ok (spellings entries) }
    ensures kept { (list : Listing) (entries : List Entry) → HasBytes list → opened_of list ≡ Ok entries
        → list_all keeps_rules entries ≡ true }
{}

// Takes what may cross threads, and gives it back.
fn crossed<T: Send>(value: T) -> T
    ensures { result ≡ value }
{
    value
}

/// An office may cross threads where its keeper and its clock may: it is given back as it came.
pub fn offices_may_cross_threads<'k, 'c, K: Keeper + Send, C: Clock + Send>(
    office: Office<'k, 'c, K, C>,
) -> Office<'k, 'c, K, C>
    ensures { result ≡ office.entry }
{
    crossed(office)
}
