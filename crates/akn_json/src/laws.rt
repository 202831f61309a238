//! Laws of the forms. Each is a function whose clause is the law: it looks at what it is given, and does nothing. No program
//! calls one.

ghost use Rattle.std.specs.Prelude.{◌≡◌, [], Ok, Some, codes, true};
ghost use Rattle.json.specs.Json.{Json};
ghost use Rattle.serde_json.specs.Data.{Data};
ghost use Rattle.serde_json.specs.Find.{get};
ghost use Rattle.serde_json.specs.Read.{of_json};
ghost use Rattle.serde_json.specs.Written.{compact_text};
ghost use Rattle.law_register.specs.Law.Spellable.{can_spell_modification};
ghost use Rattle.law_register.specs.Law.Spelling.{is_spelled_modification};
ghost use Rattle.law_register.specs.Register.Drafts.{draft_of};
ghost use Rattle.akn_json.specs.Printing.Drafts.{draft_value, modification_data};
ghost use Rattle.akn_json.specs.Reading.Commands.{body_in};
ghost use Rattle.akn_json.specs.Reading.Drafts as told;
ghost use Rattle.akn_json.specs.Reading.Keys.{HasKeys};
ghost use Rattle.akn_json.specs.Reading.Modifications.{modification_in};
ghost use Rattle.akn_json.specs.Reading.Values.{data_of, is_in_range, kept};
ghost use Rattle.akn_json.specs.declared.reading.bytes.TheConstants.{MAX_DOSSIER_BYTES};
ghost use Rattle.akn_json.specs.declared.reading.tables.TheConstants as tables;

use crate::printing::typed::{draft_is_typed, modification_is_typed};
use law_register::laws::{entries_are_well_spelled, entries_can_be_spelled};
use law_register::{Draft, Drafter, Modification, Register};

/// What a draft prints of a modification is read as that modification, where it is well spelled: no key is lost, and none
/// is told otherwise than it is read. So it is in a command, whatever else that holds, and so is the text of it, where it can be
/// spelled as bytes.
pub fn printed_is_read(modification: &Modification)
    ensures value { is_spelled_modification modification.now ≡ true
        → modification_in (modification_data modification.now) ≡ Ok modification.now }
    ensures command { is_spelled_modification modification.now ≡ true → (d : Data)
        → get (codes "modification") d ≡ Some (modification_data modification.now) → body_in d ≡ Ok modification.now }
    ensures text { is_spelled_modification modification.now ≡ true → can_spell_modification modification.now ≡ true
        → told.modification_told (compact_text (modification_data modification.now)) ≡ Ok modification.now }
{
    modification_is_typed(modification);
}

/// The bytes of a draft are JSON, and are read as that draft, item by item, where each modification is well spelled and can be
/// spelled.
pub fn printed_draft_is_read(draft: &Draft)
    ensures { told.are_spelled_items draft.now ≡ true → told.can_spell_items draft.now ≡ true
        → told.draft_told (compact_text (draft_value draft.now)) ≡ Ok draft.now }
{
    draft_is_typed(draft);
}

/// The bytes of a draft that a register has of a drafter are read as that draft.
pub fn kept_draft_is_read(register: &Register, drafter: &Drafter, draft: &Draft)
    requires { draft.now ≡ draft_of drafter.now register.now.entries }
    ensures { told.draft_told (compact_text (draft_value draft.now)) ≡ Ok draft.now }
{
    let _ = drafter.as_str();
    entries_are_well_spelled(register);
    entries_can_be_spelled(register);
    printed_draft_is_read(draft);
}

/// A value that borrows its text means what serde_json makes of that text: nothing where a number is out of range, and else the
/// value in which a number has its value and of a repeated key the last one counts.
pub fn borrowed_is_read()
    ensures { (j : Json) → of_json j ≡ kept (is_in_range j) (data_of j) }
{}

/// The most bytes of a dossier, and of a command.
pub fn limit_is_this()
    ensures { MAX_DOSSIER_BYTES ≡ 8388608 }
{}

/// The keys of the objects of which a dossier is made: those at which each has a member, and those at which it may have one.
pub fn keys_of_acts()
    ensures dossier { HasKeys tables.DOSSIER (codes "act modifications") [] }
    ensures act { HasKeys tables.ACT (codes "FRBRuri FRBRdate FRBRlanguage force body") (codes "numbering nodeLimit") }
    ensures node { HasKeys tables.NODE (codes "element num") (codes "heading content refs children") }
    ensures period { HasKeys tables.PERIOD (codes "from") (codes "until") }
{}

/// The same of a modification, which has exactly one of its keys, of its source, and of what it is directed at.
pub fn keys_of_parts()
    ensures modification { HasKeys tables.MODIFICATION [] (codes "textualMod forceMod efficacyMod") }
    ensures source { HasKeys tables.SOURCE (codes "href place") (codes "provision") }
    ensures provision { HasKeys tables.PROVISION (codes "wId") [] }
    ensures anchor { HasKeys tables.ANCHOR (codes "wId pos") [] }
    ensures other_modification { HasKeys tables.OTHER_MODIFICATION (codes "modification") [] }
{}

/// The same of textual modifications.
pub fn keys_of_edits()
    ensures repeal { HasKeys tables.REPEAL (codes "type source force destination") [] }
    ensures substitution_of_nodes { HasKeys tables.SUBSTITUTION_OF_NODES
        (codes "type source force destination new") [] }
    ensures substitution_of_text { HasKeys tables.SUBSTITUTION_OF_TEXT
        (codes "type source force destination old new") (codes "occurrence") }
    ensures insertion_of_nodes { HasKeys tables.INSERTION_OF_NODES (codes "type source force destination new") [] }
    ensures insertion_at_an_end { HasKeys tables.INSERTION_AT_AN_END
        (codes "type source force destination new") [] }
    ensures insertion_beside_a_text { HasKeys tables.INSERTION_BESIDE_A_TEXT
        (codes "type source force destination new old") (codes "occurrence") }
    ensures renumbering { HasKeys tables.RENUMBERING (codes "type source force renumber") [] }
    ensures new_num { HasKeys tables.NEW_NUM (codes "wId num") [] }
    ensures split_at_a_child { HasKeys tables.SPLIT_AT_A_CHILD
        (codes "type source force destination child num") (codes "heading") }
    ensures split_at_a_text { HasKeys tables.SPLIT_AT_A_TEXT
        (codes "type source force destination old num") (codes "occurrence heading") }
    ensures join { HasKeys tables.JOIN (codes "type source force destination second") (codes "separator") }
{}

/// The same of modifications of force and of efficacy.
pub fn keys_of_bearings()
    ensures dated { HasKeys tables.DATED (codes "type source destination on date") [] }
    ensures retroactivity { HasKeys tables.RETROACTIVITY (codes "type source destination date") [] }
    ensures extra_efficacy { HasKeys tables.EXTRA_EFFICACY (codes "type source destination on") [] }
    ensures inapplication { HasKeys tables.INAPPLICATION (codes "type source destination on days") [] }
{}

/// The same of commands.
pub fn keys_of_commands()
    ensures enactment { HasKeys tables.ENACT (codes "drafter request command act") [] }
    ensures recording { HasKeys tables.RECORD (codes "drafter request command work modifications") [] }
    ensures correction { HasKeys tables.CORRECT (codes "drafter request command id modification") [] }
    ensures withdrawal { HasKeys tables.WITHDRAW (codes "drafter request command id") [] }
    ensures restoring { HasKeys tables.RESTORE (codes "drafter request command id") [] }
    ensures addition { HasKeys tables.DRAFT_ADD (codes "drafter request command work modification") [] }
    ensures dropping { HasKeys tables.DRAFT_DROP (codes "drafter request command item") [] }
    ensures filing { HasKeys tables.FILE (codes "drafter request command work seen") [] }
{}
