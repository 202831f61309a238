//! Text jobs: which text the words of the command line ask for.

ghost use Rattle.std.specs.Prelude.{◌≡◌, map};
ghost use Rattle.dossier_text.specs.Jobs.{text_job_of, text_named};

use desk_base::Day;
use law_register::Reading;
use std::convert::AsStr;

/// A day, and what of the text counts on it.
#[derive(Clone, Copy, Debug, PartialEq, Eq)]
pub struct TextJob {
    /// The day.
    pub day: Day,
    /// What is in force, or what has effect.
    pub reading: Reading,
}

impl TextJob {
    /// The text on the day that a word names, in a reading, if both were named.
    pub fn named(date: &str, reading: Option<Reading>) -> Option<TextJob>
        ensures { result ≡ text_named date.now reading }
    {
        Some(TextJob {
            day: Day::from_text(date)?,
            reading: reading?,
        })
    }

    /// The text that the words behind `text` ask for. `None`: they ask for none.
    pub fn from_words<S: AsStr>(words: &[S]) -> Option<TextJob>
        ensures { result ≡ text_job_of (map S.text words.now) }
    {
        if words.len() == 1 {
            return TextJob::named(words[0].as_str(), Some(Reading::Force));
        }
        if words.len() == 2 {
            return TextJob::named(words[0].as_str(), Reading::from_name(words[1].as_str()));
        }
        None
    }
}
