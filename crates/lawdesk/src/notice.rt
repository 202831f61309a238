//! Notices: what is said on standard error, beside the status.

ghost use Rattle.std.specs.Prelude.{◌≡◌, ◌++◌, Some, map, option_map, string_bytes};
ghost use Rattle.std.specs.Char.{is_ascii_graphic};
ghost use Rattle.std.specs.List.{list_all};
ghost use Rattle.lawdesk.specs.Notices as spec;
ghost use Rattle.lawdesk.specs.Notices.{notice_of, said_text};

use crate::amiss::{Amiss, Wanted};
use crate::run_two::{asks_move, words_for_other};
use crate::usage::USAGE_TEXT;

pub const UNREAD: &str = "lawdesk: standard input could not be read";

pub const UNWRITTEN: &str = "lawdesk: standard output could not be written";

pub const UNKEPT: &str = "lawdesk: the journal lawdesk.jnl could not be opened, read or written";

pub const HELD: &str = "lawdesk: another process holds lawdesk.jnl";

pub const UNKEPT_TABLE: &str =
    "lawdesk: lawdesk.db could not be opened, read or written, or another process holds it";

pub const UNMOVED: &str =
    "lawdesk: lawdesk.jnl or lawdesk.db could not be opened, read or written, or another process holds it";

pub const UNGATED: &str =
    "lawdesk: the port could not be listened at, or a connection could not be had";

pub const WANTING: &str = "lawdesk: there was not enough memory";

/// What keeps the register that was asked for.
#[derive(Clone, Copy, Debug, PartialEq, Eq)]
pub enum Kept {
    /// The journal.
    Journal,
    /// The journal, which another process holds.
    HeldJournal,
    /// The database of SQLite.
    Table,
    /// The journal and that, of which the one is moved to the other.
    Both,
}

/// What is said: these pieces in one line, and the usage on lines of its own where there is one.
#[derive(Clone, Copy)]
pub struct Said<'a> {
    /// What the line begins with.
    pub begin: &'static str,
    /// Of what it speaks.
    pub subject: &'a str,
    /// What it says of that.
    pub says: &'static str,
    /// What is wanted.
    pub wanted: &'static str,
    /// What stands between that and the word that is wrong.
    pub link: &'static str,
    /// The word that is wrong.
    pub word: &'a str,
    /// The usage.
    pub usage: &'static str,
}

// A line alone.
fn line(begin: &'static str) -> Said<'static>
    ensures { said_text result ≡ begin.now }
{
    Said {
        begin,
        subject: "",
        says: "",
        wanted: "",
        link: "",
        word: "",
        usage: "",
    }
}

// Whether each byte is visible and ASCII.
fn are_visible(bytes: &[u8]) -> bool
    ensures { result ≡ list_all is_ascii_graphic bytes.now }
{
    bytes.iter().all(|byte| byte.is_ascii_graphic())
}

// Whether a word is shown as it is.
fn is_plain(word: &str) -> bool
    ensures { result ≡ spec.is_plain word.now }
{
    let bytes = word.as_bytes();
    if bytes.is_empty() || bytes.len() > 40 {
        return false;
    }
    are_visible(bytes)
}

// What a word is called by its place.
fn place_name(index: usize) -> &'static str
    ensures { result.now ≡ spec.place_name index }
{
    match index {
        0 => "the 1st word",
        1 => "the 2nd word",
        2 => "the 3rd word",
        3 => "the 4th word",
        4 => "the 5th word",
        _ => "the 6th word",
    }
}

// How a word is shown.
fn shown(word: &str, index: usize) -> &str
    ensures { result.now ≡ spec.shown word.now index }
{
    if is_plain(word) {
        return word;
    }
    place_name(index)
}

// What is wanted, in words.
fn wanted_text(wanted: Wanted) -> &'static str
    ensures { result.now ≡ spec.wanted_text wanted }
{
    match wanted {
        Wanted::Command => "a command",
        Wanted::Table => "a table, lifecycle, correspondence, unapplied or dangling",
        Wanted::Day => "a day, as 2011-01-01",
        Wanted::Reading => "a reading, force or efficacy",
        Wanted::Work => "the IRI of an act, as /akn/gb/act/2010-05-01/7",
        Wanted::Seed => "a seed, from 0 to 18446744073709551615",
        Wanted::Count => "a count, from 1 to 2000",
        Wanted::From => "a number, from 0 to 18446744073709551615",
        Wanted::Port => "a port, from 1 to 65535",
        Wanted::Connections => "a count of connections, from 1 to 1000000",
        Wanted::Nothing => "no more words",
    }
}

// What is said of words, and the usage.
fn no_form<'a>(subject: &'a str, says: &'static str) -> Said<'a>
    ensures { said_text result ≡ spec.with_usage (subject.now ++ says.now) }
{
    Said {
        begin: "lawdesk: ",
        subject,
        says,
        wanted: "",
        link: "",
        word: "",
        usage: USAGE_TEXT,
    }
}

// What is said of a word that is no command, or that is one alone.
fn no_command(word: &str) -> Said<'_>
    ensures { said_text result ≡ spec.no_command word.now }
{
    if word == "move" {
        return no_form("", "move stands alone");
    }
    no_form(word, " is no command")
}

// What is said where a command wants what is missing.
fn missing<'a>(command: &'a str, wanted: Wanted) -> Said<'a>
    ensures { said_text result ≡ spec.missing command.now wanted }
{
    Said {
        begin: "lawdesk: ",
        subject: command,
        says: " wants ",
        wanted: wanted_text(wanted),
        link: "",
        word: "",
        usage: USAGE_TEXT,
    }
}

// What is said where a command wants something else than a word.
fn unwanted<'a>(command: &'a str, wanted: Wanted, word: &'a str) -> Said<'a>
    ensures { said_text result ≡ spec.unwanted command.now wanted word.now }
{
    Said {
        begin: "lawdesk: ",
        subject: command,
        says: " wants ",
        wanted: wanted_text(wanted),
        link: ", and not ",
        word,
        usage: USAGE_TEXT,
    }
}

// What is said of a word that is there.
#[tactic(auto, unfolding(crate::specs::Notices::wrong_word))]
fn wrong_word<'a>(command: &'a str, wanted: Wanted, word: &'a str) -> Said<'a>
    ensures { said_text result ≡ spec.wrong_word command.now wanted word.now }
{
    match wanted {
        Wanted::Command => no_command(word),
        _ => unwanted(command, wanted, word),
    }
}

// What is said of words of which this one is wrong.
fn wrong_words(words: &[String], index: usize, wanted: Wanted) -> Said<'_>
    ensures { said_text result ≡ spec.wrong_words (map string_bytes words.now) index wanted }
{
    if words.is_empty() {
        return no_form("", "no command is given");
    }
    if index >= words.len() {
        return missing(words[0].as_str(), wanted);
    }
    let word = shown(words[index].as_str(), index);
    wrong_word(words[0].as_str(), wanted, word)
}

// What is said of words that are no form of the command line.
fn usage(words: &[String]) -> Said<'_>
    ensures { said_text result ≡ spec.usage_of (Some (map string_bytes words.now)) }
{
    match Amiss::of(words) {
        Some(Amiss { index, wanted }) => wrong_words(words, index, wanted),
        None => line(USAGE_TEXT),
    }
}

// What is said where what keeps the register failed.
fn unkept(kept: Kept) -> Said<'static>
    ensures { said_text result ≡ spec.kept_text kept }
{
    match kept {
        Kept::Journal => line(UNKEPT),
        Kept::HeldJournal => line(HELD),
        Kept::Table => line(UNKEPT_TABLE),
        Kept::Both => line(UNMOVED),
    }
}

/// What keeps the register that words ask for, and whether another process holds the journal.
pub fn kept_by(words: &[String], is_held: bool) -> Kept
    ensures { result ≡ spec.kept_by (map string_bytes words.now) is_held }
{
    if is_held {
        return Kept::HeldJournal;
    }
    if asks_move(words) {
        return Kept::Both;
    }
    match words_for_other(words) {
        Some(_) => Kept::Table,
        None => Kept::Journal,
    }
}

/// What is said beside a status: at 2 which word is wrong and the usage, and what failed at 3, 4, 5, 7 and 8. Of a journal that another
/// process holds, it is said that one does. `None` in the place of the words: some word is no text.
pub fn notice(status: u8, kept: Kept, words: Option<&[String]>) -> Option<Said<'_>>
    ensures { option_map said_text result
        ≡ notice_of status kept (option_map (λ ws. map string_bytes ws.now) words.entry) }
{
    match status {
        2 => match words {
            Some(words) => Some(usage(words)),
            None => Some(no_form("", "a word is no text in UTF-8")),
        },
        3 => Some(line(UNREAD)),
        4 => Some(line(UNWRITTEN)),
        5 => Some(unkept(kept)),
        7 => Some(line(WANTING)),
        8 => Some(line(UNGATED)),
        _ => None,
    }
}
