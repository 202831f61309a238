//! Amiss: which word of the command line is wrong, and what is wanted in its place.

ghost use Rattle.std.specs.Prelude.{◌≡◌, ◌∷◌, map, string_bytes};
ghost use Rattle.lawdesk.specs.Amiss as spec;
ghost use Rattle.lawdesk.specs.declared.amiss.Wanted.TheVariants as wanted;

use crate::job::counted;
use desk_base::{Day, decimal_number};
use frbr_names::parse_work;
use law_register::Reading;

/// What is wanted at a place of the command line.
#[derive(Clone, Copy, Debug, PartialEq, Eq)]
pub enum Wanted {
    /// The name of a command.
    Command,
    /// The name of a table.
    Table,
    /// A day.
    Day,
    /// A reading, which may be left out.
    Reading,
    /// The IRI of a work.
    Work,
    /// A seed.
    Seed,
    /// How many requests.
    Count,
    /// The number behind which an export begins.
    From,
    /// A port.
    Port,
    /// How many connections.
    Connections,
    /// No word.
    Nothing,
}

/// The first word that is wrong.
#[derive(Clone, Copy, Debug, PartialEq, Eq)]
pub struct Amiss {
    /// Its index, from 0. Where a word is missing, it is the one behind the last.
    pub index: usize,
    /// What is wanted in its place.
    pub wanted: Wanted,
}

const COMMAND: &[Wanted] = &[Wanted::Command];

const TEXT: &[Wanted] = &[Wanted::Command, Wanted::Day, Wanted::Reading];

const GENERATE: &[Wanted] = &[Wanted::Command, Wanted::Seed, Wanted::Count];

const EXPORT: &[Wanted] = &[Wanted::Command, Wanted::From];

const SERVE: &[Wanted] = &[Wanted::Command, Wanted::Port, Wanted::Connections];

const REPORT: &[Wanted] = &[Wanted::Command, Wanted::Table];

const LIFECYCLE: &[Wanted] = &[Wanted::Command, Wanted::Table, Wanted::Work];

const CORRESPONDENCE: &[Wanted] = &[
    Wanted::Command,
    Wanted::Table,
    Wanted::Work,
    Wanted::Day,
    Wanted::Day,
];

const OF_DAY: &[Wanted] = &[Wanted::Command, Wanted::Table, Wanted::Day];

// Whether a word is the name of a command.
fn is_command(word: &str) -> bool
    ensures { result ≡ spec.is_command word.now }
{
    word == "text" || word == "check" || word == "batch" || word == "report" || is_later(word)
}

// Whether a word is the name of one of the other commands.
fn is_later(word: &str) -> bool
    ensures { result ≡ spec.is_later word.now }
{
    word == "generate" || word == "export" || word == "follow" || word == "serve"
}

// Whether a word is the name of a table.
fn is_table(name: &str) -> bool
    ensures { result ≡ spec.is_table name.now }
{
    name == "lifecycle" || name == "correspondence" || name == "unapplied" || name == "dangling"
}

// Whether a word is what is wanted.
fn is_wanted(wanted: Wanted, word: &str) -> bool
    ensures { result ≡ spec.is_wanted wanted word.now }
{
    match wanted {
        Wanted::Command => is_command(word),
        Wanted::Table => is_table(word),
        Wanted::Day => Day::from_text(word).is_some(),
        Wanted::Reading => Reading::from_name(word).is_some(),
        Wanted::Work => parse_work(word).is_ok(),
        Wanted::Seed => decimal_number(word, 18_446_744_073_709_551_615).is_some(),
        Wanted::Count => counted(word, 2_000).is_some(),
        Wanted::From => decimal_number(word, 18_446_744_073_709_551_615).is_some(),
        Wanted::Port => counted(word, 65_535).is_some(),
        Wanted::Connections => counted(word, 1_000_000).is_some(),
        Wanted::Nothing => false,
    }
}

// What is wanted of the words of a report, by the name of its table.
fn wants_of_table(name: &str) -> &'static [Wanted]
    ensures { result.now ≡ wanted.Command ∷ wanted.Table ∷ spec.wants_of_table name.now }
{
    if name == "lifecycle" {
        return LIFECYCLE;
    }
    if name == "correspondence" {
        return CORRESPONDENCE;
    }
    OF_DAY
}

// What is wanted of the words behind this one, which there is.
fn wants_behind(word: &str, words: &[String]) -> &'static [Wanted]
    ensures { result.now ≡ wanted.Command ∷ spec.wants_behind word.now (map string_bytes words.now) }
{
    if word == "text" {
        return TEXT;
    }
    if word == "generate" {
        return GENERATE;
    }
    if word == "report" {
        return wants_of_report(words);
    }
    wants_of_other(word)
}

// What is wanted of the words of a report.
fn wants_of_report(words: &[String]) -> &'static [Wanted]
    ensures { result.now ≡ wanted.Command ∷ spec.wants_of_report (map string_bytes words.now) }
{
    if words.is_empty() {
        return REPORT;
    }
    wants_of_table(words[0].as_str())
}

// What is wanted of the words of the other commands.
fn wants_of_other(word: &str) -> &'static [Wanted]
    ensures { result.now ≡ wanted.Command ∷ spec.wants_of_other word.now }
{
    if word == "export" {
        return EXPORT;
    }
    if word == "serve" {
        return SERVE;
    }
    COMMAND
}

// What is wanted of words, one after another.
fn wants_of(words: &[String]) -> &'static [Wanted]
    ensures { result.now ≡ spec.wants_of (map string_bytes words.now) }
{
    if words.is_empty() {
        return COMMAND;
    }
    wants_behind(words[0].as_str(), &words[1..])
}

// The first word that is not what is wanted.
#[tactic(auto, using(crate::proofs::Misfits::amiss_at, crate::proofs::Misfits::amiss_behind))]
fn first_amiss(wants: &[Wanted], words: &[String]) -> Option<Amiss>
    ensures { result ≡ spec.amiss_from 0 wants.now (map string_bytes words.now) }
{
    for (index, wanted) in wants.iter().enumerate() {
        if index == words.len() {
            return match wanted {
                Wanted::Reading => None,
                _ => Some(Amiss {
                    index,
                    wanted: *wanted,
                }),
            };
        }
        if !is_wanted(*wanted, words[index].as_str()) {
            return Some(Amiss {
                index,
                wanted: *wanted,
            });
        }
    }
    if wants.len() == words.len() {
        return None;
    }
    Some(Amiss {
        index: wants.len(),
        wanted: Wanted::Nothing,
    })
}

impl Amiss {
    /// The first of the words that is wrong. `None`: they are a form of the command line.
    pub fn of(words: &[String]) -> Option<Amiss>
        ensures { result ≡ spec.amiss (map string_bytes words.now) }
    {
        first_amiss(wants_of(words), words)
    }
}
