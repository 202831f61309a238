//! How the IRI of an expression is spelled: part by part.

ghost use Rattle.std.specs.Prelude.{◌≡◌, ◌++◌, OnOk, IfOk, string_bytes, encode_utf8_all};
ghost use Rattle.std.specs.Option.{option_copied};
ghost use Rattle.frbr_names.specs.Expressions as spec;

use desk_base::{Day, Memory};
use std::alloc::Global;

fn push_language(text: &mut String, language: [u8; 3]) -> Result<(), Memory>
    ensures { OnOk result (string_bytes text.new ≡ string_bytes text.old ++ encode_utf8_all language) }
{
    for letter in language {
        text.push(char::from(letter))?;
    }
    Ok(())
}

/// The letters of a language.
pub fn spelled_language(alloc: Global, language: [u8; 3]) -> Result<String, Memory>
    ensures { IfOk result (λ text. string_bytes text ≡ encode_utf8_all language) }
{
    let mut text = String::new(alloc);
    push_language(&mut text, language)?;
    Ok(text)
}

// Adds the day of a version, or nothing for the expression as it was first.
fn push_version(text: &mut String, alloc: Global, version: Option<Day>) -> Result<(), Memory>
    ensures { OnOk result (string_bytes text.new ≡ string_bytes text.old ++ spec.version_text version) }
{
    if let Some(day) = version {
        text.push_str(day.spelled(alloc)?.as_str())?;
    }
    Ok(())
}

fn push_portion(text: &mut String, portion: Option<&str>) -> Result<(), Memory>
    ensures { OnOk result
        (string_bytes text.new ≡ string_bytes text.old ++ spec.portion_text (option_copied portion.entry)) }
{
    if let Some(portion) = portion {
        text.push_str("/~")?;
        text.push_str(portion)?;
    }
    Ok(())
}

/// The IRI of an expression in its shortest form, of the IRI of its work, its language, the day of its version and its
/// portion: the component `main` is not named, and a portion stands behind `/~`.
pub fn spelled_expression(
    alloc: Global,
    work: &str,
    language: [u8; 3],
    version: Option<Day>,
    portion: Option<&str>,
) -> Result<String, Memory>
    ensures { IfOk result (λ text. string_bytes text
        ≡ spec.spelled_expression work.now (encode_utf8_all language) version (option_copied portion.entry)) }
{
    let mut text = String::from_str(alloc, work)?;
    text.push_str("/")?;
    push_language(&mut text, language)?;
    text.push_str("@")?;
    push_version(&mut text, alloc, version)?;
    push_portion(&mut text, portion)?;
    Ok(text)
}
