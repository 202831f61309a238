//! What holds of commands and of registers. Each law is a function that does nothing, whose clause is the law.

ghost use Rattle.std.specs.Prelude.{◌≡◌, ◌≤◌, ◌↔◌, ◌++◌, ◌∷◌, [], ◌&&◌, ℕ, List, IsTrue, false, true, length, map, Option, None, Some, option_map, slice_get};
ghost use Rattle.std.specs.List.{AllByRecursion, list_any};
ghost use Rattle.std.specs.Option.{option_to_list};
ghost use Rattle.desk_base.specs.declared.id.Id.{Id};
ghost use Rattle.act_tree.specs.declared.limits.NodeLimit.TheVariants.{Wide};
ghost use Rattle.law_register.specs.declared.law.act.Act.{Act};
ghost use Rattle.law_register.specs.declared.law.command.Command.{Command as CommandValue};
ghost use Rattle.law_register.specs.declared.law.command.Command.TheVariants.{Correct, DraftAdd, DraftDrop, Enact, File, Record, Restore, Withdraw};
ghost use Rattle.law_register.specs.declared.law.format.EntryFormat.TheVariants.{First, Second};
ghost use Rattle.law_register.specs.declared.law.modification.Modification.{Modification as ModificationValue};
ghost use Rattle.law_register.specs.declared.register.entry.Entry.{Entry};
ghost use Rattle.law_register.specs.declared.register.known.Known.{Known as KnownValue};
ghost use Rattle.law_register.specs.declared.register.limits.TheConstants as limits;
ghost use Rattle.law_register.specs.declared.register.verdict.Reply.{Reply};
ghost use Rattle.law_register.specs.declared.register.verdict.Verdict.TheVariants.{Accepted};
ghost use Rattle.law_register.specs.Answer.Asking.{known_when_enacted};
ghost use Rattle.law_register.specs.Answer.Previews.{known_by_law};
ghost use Rattle.law_register.specs.Answer.Renewing.{command_cost, entry_cost, judging_cost};
ghost use Rattle.law_register.specs.Answer.Standing.{alone};
ghost use Rattle.law_register.specs.Answer.Touched.{touched_day, touched_days, work_entered};
ghost use Rattle.law_register.specs.Provisions.Touching.{touched_works};
ghost use Rattle.law_register.specs.Register.Concerns.{is_named};
ghost use Rattle.law_register.specs.Register.Drafters.{is_drafter};
ghost use Rattle.law_register.specs.Register.KnownIds.{enacted, ids_of, known_at};
ghost use Rattle.law_register.specs.Register.KnownNext.{at_viewpoint, bare, known_next, known_now, up_to};
ghost use Rattle.law_register.specs.Register.LawList.{laws, law_of, front, law_numbers, first_numbers};
ghost use Rattle.law_register.specs.Law.Formats.{format_of};
ghost use Rattle.law_register.specs.Law.Same.{same_command};
ghost use Rattle.law_register.specs.Law.Sizes.{entry_size};
ghost use Rattle.law_register.specs.Law.Sources.{names_provision};
ghost use Rattle.law_register.specs.Law.Spellable.{can_all_be_spelled, can_be_spelled};
ghost use Rattle.law_register.specs.Law.Spelling.{is_well_spelled};
ghost use Rattle.law_register.specs.Register.Registers.{are_well_spelled};
ghost use Rattle.law_register.specs.Register.Verdicts.{is_accepted, is_legal, verdict};
ghost use Rattle.law_register.specs.declared.register.limits.TheConstants.{MOST_IDS, MOST_REGISTER_BYTES};

use crate::{Command, Drafter, Entry, Register};
use frbr_names::WorkName;

/// The limits of the register, which the definitions of its rules cite.
pub fn limits_are_these()
    ensures drafters { limits.MOST_DRAFTERS ≡ 256 }
    ensures draft_items { limits.MOST_DRAFT_ITEMS ≡ 64 }
    ensures ids { limits.MOST_IDS ≡ 512 }
    ensures laws { limits.MOST_LAWS ≡ 65535 }
    ensures entry_bytes { limits.MOST_ENTRY_BYTES ≡ 16777216 }
    ensures register_bytes { limits.MOST_REGISTER_BYTES ≡ 536870912 }
{}

/// `==` holds of commands exactly where they are equal, and so does what verdicts ask of a repeat.
#[tactic(auto, using(crate::proofs::Equality::commands_decide), unfolding(crate::specs::Law::Same::same_command))]
pub fn equality_is_decided()
    ensures commands { (a b : CommandValue) → IsTrue (⟦<Command as PartialEq>⟧.eq a b) ↔ (a ≡ b) }
    ensures repeats { (a b : CommandValue) → IsTrue (same_command a b) ↔ (a ≡ b) }
{}

/// A command asks for the second format exactly where the act that it enacts is wide, or one of the modifications that it
/// brings names the provision of its source; what brings neither act nor modification is spelled in the first.
#[tactic(auto, unfolding(crate::specs::Law::Formats::asks_second))]
pub fn formats_go_by_need()
    ensures enacting { (act : Act) → (format_of (Enact act) ≡ Second) ↔ (act.limit ≡ Wide) }
    ensures recording { (work : List ℕ) (mods : List ModificationValue)
        → (format_of (Record work mods) ≡ Second) ↔ IsTrue (list_any names_provision mods) }
    ensures correcting { (id : Id) (body : ModificationValue)
        → (format_of (Correct id body) ≡ Second) ↔ IsTrue (names_provision body) }
    ensures drafting { (work : List ℕ) (body : ModificationValue)
        → (format_of (DraftAdd work body) ≡ Second) ↔ IsTrue (names_provision body) }
    ensures withdrawing { (id : Id) → format_of (Withdraw id) ≡ First }
    ensures restoring { (id : Id) → format_of (Restore id) ≡ First }
    ensures dropping { (item : ℕ) → format_of (DraftDrop item) ≡ First }
    ensures filing { (work : List ℕ) (seen : ℕ) → format_of (File work seen) ≡ First }
{}

/// The entries of a register are legal.
pub fn entries_are_legal(register: &Register)
    ensures { is_legal register.now.entries ≡ true }
{
    let _ = &register.entries;
}

/// Legal entries grow one by one: none are legal, and one more behind others is exactly where the others are and it is accepted
/// behind them with its law number.
pub fn legal_entries_grow()
    ensures none { is_legal [] ≡ true }
    ensures more { (entries : List Entry) (entry : Entry) → is_legal (entries ++ entry ∷ [])
        ≡ (is_legal entries && is_accepted entry.law (verdict entries entry.drafter entry.request entry.command)) }
{}

/// Among legal entries each request of a drafter stands once: two of one drafter and one request are one, at one index.
pub fn legal_requests_are_once()
    ensures { (entries : List Entry) → is_legal entries ≡ true → (i j : ℕ) (a b : Entry)
        → slice_get entries i ≡ Some a → slice_get entries j ≡ Some b
        → a.drafter ≡ b.drafter → a.request ≡ b.request → i ≡ j }
{}

/// Each entry of a register is well spelled.
pub fn entries_are_well_spelled(register: &Register)
    ensures { are_well_spelled register.now.entries ≡ true }
{
    let _ = &register.entries;
}

/// An entry that is accepted behind those of a register, and is well spelled, can be spelled as bytes.
pub fn accepted_can_be_spelled(_register: &Register, _entry: &Entry)
    requires accepted { is_accepted _entry.now.law
        (verdict _register.now.entries _entry.now.drafter _entry.now.request _entry.now.command) ≡ true }
    requires spelled { is_well_spelled _entry.now.command ≡ true }
    ensures { can_be_spelled _entry.now ≡ true }
{}

/// Each entry of a register can be spelled as bytes.
pub fn entries_can_be_spelled(register: &Register)
    ensures { can_all_be_spelled register.now.entries ≡ true }
{
    let _ = &register.entries;
}

/// An entry that is accepted behind those of a register takes 1 to 16,777,216 bytes.
pub fn accepted_are_small(_register: &Register, _entry: &Entry)
    requires { is_accepted _entry.now.law
        (verdict _register.now.entries _entry.now.drafter _entry.now.request _entry.now.command) ≡ true }
    ensures some { 1 ≤ entry_size _entry.now }
    ensures most { entry_size _entry.now ≤ 16777216 }
{}

/// A register has 536,870,912 entries at most.
pub fn entries_are_few(register: &Register)
    ensures { length register.now.entries ≤ MOST_REGISTER_BYTES }
{
    let _ = &register.entries;
}

/// The name of a drafter keeps its rule.
pub fn drafters_are_named(drafter: &Drafter)
    ensures { is_drafter drafter.now ≡ true }
{
    let _ = &drafter.name;
}

/// The IRI of a work is short.
pub fn works_are_short(work: &WorkName)
    ensures { length work.now ≤ 162 }
{
    let _ = work.date();
}

/// Of each request of a drafter a register has one entry at most.
pub fn requests_are_once(register: &Register)
    ensures { (i j : ℕ) (a b : Entry)
        → slice_get register.now.entries i ≡ Some a → slice_get register.now.entries j ≡ Some b
        → a.drafter ≡ b.drafter → a.request ≡ b.request → i ≡ j }
{
    let _ = &register.entries;
}

/// The law entries of a register are numbered 1, 2, .. in order.
pub fn laws_are_numbered(register: &Register)
    ensures { law_numbers register.now.entries ≡ first_numbers (front register.now.entries) }
{
    let _ = &register.entries;
}

/// A work has 512 ids at most.
pub fn ids_are_few(register: &Register, _work: &WorkName)
    ensures { length (ids_of _work.now (laws register.now.entries)) ≤ MOST_IDS }
{
    let _ = &register.entries;
}

/// Behind legal entries one entry more makes known of each work what it is to the law, from what was known of it.
pub fn knowledge_grows()
    ensures { (entries : List Entry) (entry : Entry) (work : List ℕ) → is_legal entries ≡ true
        → known_now (entries ++ entry ∷ []) work ≡ known_next entries entry work (known_now entries work) }
{}

/// An entry leaves what is known of each work that it does not concern, but for how many law entries there are; and what is known at
/// the front counts them all.
pub fn other_works_stay()
    ensures others { (entries : List Entry) (entry : Entry) (work : List ℕ)
        → is_named work (work_entered entries (law_of entries entry)) ≡ false
        → known_now (entries ++ entry ∷ []) work
        ≡ option_map (up_to (front (entries ++ entry ∷ []))) (known_now entries work) }
    ensures counts { (entries : List Entry) (work : List ℕ) (known : KnownValue) → known_now entries work ≡ Some known
        → up_to (front entries) known ≡ known }
{}

/// An entry touches works exactly where it touches a day; then that is the day of each, and each is the work that it concerns.
pub fn touched_days_are_of_the_work_concerned()
    ensures days { (entries : List Entry) (entry : Entry)
        → map (λ touched. touched.1) (touched_days entries entry) ≡ option_to_list (touched_day entries entry) }
    ensures works { (entries : List Entry) (entry : Entry)
        → AllByRecursion (λ touched. work_entered entries (law_of entries entry) ≡ Some touched.0) (touched_days entries entry) }
{}

/// What is known of a work when it was enacted is its act alone: nothing is recorded in a work before.
pub fn enacted_acts_are_bare()
    ensures { (entries : List Entry) (work : List ℕ) → is_legal entries ≡ true
        → known_when_enacted entries work (enacted work (laws entries)) ≡ option_map bare (known_now entries work) }
{}

/// At the front and ahead of it all law entries are known.
pub fn all_is_known_ahead()
    ensures { (entries : List Entry) (work : List ℕ) (viewpoint : ℕ) → front entries ≤ viewpoint
        → known_at entries work viewpoint
        ≡ option_map (at_viewpoint viewpoint) (known_now entries work) }
{}

/// The steps of a command that is accepted are those of its entry: one for each id that is applied, of which one that touches no work takes
/// none, as an entry of a draft, and one for each reference that is judged anew for it.
pub fn commands_cost_what_they_touch()
    ensures accepted { (entries : List Entry) (entry : Entry) (law : Option ℕ) (reply : Reply)
        → verdict entries entry.drafter entry.request entry.command ≡ Accepted law reply
        → command_cost entries entry ≡ entry_cost entries (record entry { law = law }) }
    ensures judged { (judging : List Entry → Entry → ℕ) (entries : List Entry) (entry : Entry) (law : Option ℕ) (reply : Reply)
        → verdict entries entry.drafter entry.request entry.command ≡ Accepted law reply
        → judging_cost judging entries entry ≡ judging entries (record entry { law = law }) }
    ensures untouched { (entries : List Entry) (entry : Entry) → touched_works entries entry ≡ []
        → command_cost entries entry ≡ 0 }
    ensures drafting { (entries : List Entry) (entry : Entry) → law_of entries entry ≡ []
        → command_cost entries entry ≡ 0 }
{}

/// What a law makes known of a work carries nothing, whatever a viewpoint knows of it.
pub fn known_works_carry_nothing()
    ensures laws { (law : List CommandValue) (work : List ℕ) (known : KnownValue) → known_by_law law work ≡ Some known
        → alone known ≡ known }
    ensures viewpoints { (entries : List Entry) (work : List ℕ) (viewpoint : ℕ) (known : KnownValue)
        → known_at entries work viewpoint ≡ Some known → alone known ≡ known }
{}
