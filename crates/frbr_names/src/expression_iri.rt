//! ExpressionIri: a clause sees one as its work, its language, its version and its portion.

ghost use Rattle.std.specs.Prelude.{IsTrue};
ghost use Rattle.std.specs.Option.{option_copied};
ghost use Rattle.frbr_names.specs.Expressions.{is_language, is_portion_or_none};

use crate::expression_spelling::spelled_expression;
use crate::work_iri::WorkIri;
use desk_base::{Day, Memory, Text};
use std::alloc::Global;

/// The IRI of an expression, in parts of the text that it was read from.
#[derive(Clone, Copy, Debug)]
pub struct ExpressionIri<'a> {
    /// The work.
    pub work: WorkIri<'a>,
    /// The language: three lower-case letters.
    pub language: [u8; 3],
    /// The day of the version; none for the expression as it was first.
    pub version: Option<Day>,
    /// The portion that is named, if one is.
    pub portion: Option<&'a str>,
    pub ghost language_kept: { IsTrue (is_language language) },
    pub ghost portion_kept: { IsTrue (is_portion_or_none (option_copied portion)) },
}

impl ExpressionIri<'_> {
    ghost use Rattle.std.specs.Prelude.{◌≡◌, IfOk};
    ghost use Rattle.frbr_names.specs.Expressions.{expression_text};
    ghost use Rattle.frbr_names.specs.ExpressionViews.{expression_view};

    /// The text of the IRI in its shortest form: the component `main` is not named, and a portion stands
    /// behind `/~`.
    #[tactic(auto, using(crate::proofs::LetterLemmas::letters_encoded), unfolding(crate::specs::Expressions::expression_text))]
    pub fn put(&self, alloc: Global) -> Result<Text, Memory>
        ensures { IfOk result (λ text. text ≡ expression_text (expression_view self.now)) }
    {
        let text = spelled_expression(
            alloc,
            self.work.text,
            self.language,
            self.version,
            self.portion,
        )?;
        Text::from_string(text)
    }
}
