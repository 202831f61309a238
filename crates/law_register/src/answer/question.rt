//! A question: which text of which act is asked for.

ghost use Rattle.std.specs.Prelude.{◌≡◌};
ghost use Rattle.law_register.specs.Answer.Answers as answers;
ghost use Rattle.law_register.specs.Answer.Questions.{reading_name, reading_named};
ghost use Rattle.law_register.specs.Answer.Answers.{Judges};
ghost use Rattle.law_register.specs.Register.KnownNext.{up_to};

use crate::{Act, AskFault, Known, QueryRule};
use desk_base::{Day, Memory, Text};
use frbr_names::WorkName;

/// Whether texts in force or texts in effect are read.
#[derive(Clone, Copy, Debug, PartialEq, Eq)]
pub enum Reading {
    /// What is in force bears.
    Force,
    /// What has efficacy bears.
    Efficacy,
}

impl Reading {
    /// The word for the reading.
    pub fn name(self) -> &'static str
        ensures { result.now ≡ reading_name self }
    {
        match self {
            Reading::Force => "force",
            Reading::Efficacy => "efficacy",
        }
    }

    /// The reading that a word names. `None`: it names none.
    pub fn from_name(word: &str) -> Option<Reading>
        ensures { result ≡ reading_named word.now }
    {
        if word == Reading::Force.name() {
            Some(Reading::Force)
        } else if word == Reading::Efficacy.name() {
            Some(Reading::Efficacy)
        } else {
            None
        }
    }
}

// Whether the day of a version is before that of the act.
fn is_too_early(version: Option<Day>, act: &Act) -> bool
    ensures { result ≡ answers.is_too_early version act.now }
{
    version.is_some_and(|day| day < act.day)
}

/// What is asked: an expression of a work, as known at a viewpoint, in a reading.
#[derive(Debug, Drop)]
pub struct Question {
    /// The IRI of the work.
    pub work: WorkName,
    /// Three lower-case letters.
    pub language: [u8; 3],
    /// The day of the version. `None`: the act as enacted.
    pub version: Option<Day>,
    /// The eId of the provision asked for. `None`: the whole act.
    pub portion: Option<Text>,
    /// The number of law entries that are known.
    pub viewpoint: u32,
    /// What counts as bearing.
    pub reading: Reading,
}

impl Question {
    ghost use Rattle.std.specs.Prelude.{IfOk};

    /// The same question; its texts are shared.
    pub fn copy(&self) -> Result<Question, Memory>
        ensures { IfOk result (λ question. question ≡ self.now) }
    {
        let portion = match &self.portion {
            Some(eid) => Some(eid.copy()?),
            None => None,
        };
        Ok(Question {
            work: self.work.copy()?,
            language: self.language,
            version: self.version,
            portion,
            viewpoint: self.viewpoint,
            reading: self.reading,
        })
    }

    /// The day on which it is answered: that of its version, or without one the act's own.
    pub fn asked_day(&self, act: &Act) -> Day
        ensures { result ≡ answers.asked_day self.now.version act.now }
    {
        self.version.unwrap_or(act.day)
    }

    /// The first rule that it breaks before any text is looked at, by what is known of its work once there are so many law entries:
    /// any but that of the portion.
    pub fn first_rule(&self, known: &Known, front: u32) -> Result<Option<QueryRule>, Memory>
        ensures { IfOk result (λ rule. rule ≡ answers.first_rule (up_to front known.now) self.now) }
    {
        if self.viewpoint < known.enacted {
            let work = self.work.copy()?;
            return Ok(Some(QueryRule::UnknownWork(work)));
        }
        if front < self.viewpoint {
            return Ok(Some(QueryRule::ViewpointAhead(front)));
        }
        if is_too_early(self.version, &known.act) {
            return Ok(Some(QueryRule::NotYetEnacted(known.act.day)));
        }
        if self.language != known.act.language {
            return Ok(Some(QueryRule::OtherLanguage(known.act.language)));
        }
        Ok(None)
    }

    /// Whether it may be answered from a text, by what is known of its work once there are so many law entries.
    pub fn judge(&self, known: &Known, front: u32) -> Result<(), AskFault>
        ensures { Judges result (answers.first_rule (up_to front known.now) self.now) }
    {
        match self.first_rule(known, front)? {
            Some(rule) => Err(AskFault::Query(rule)),
            None => Ok(()),
        }
    }
}
