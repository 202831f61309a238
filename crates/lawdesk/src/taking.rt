//! Taking: the words of the command line, as clap takes them.

ghost use Rattle.std.specs.Prelude.{◌≡◌, IfErr, IfOk, false, map, string_bytes};
ghost use Rattle.std.specs.List.{list_any};
ghost use Rattle.clap.specs.Words.{kind_of};
ghost use Rattle.lawdesk.specs.Taking.{begins_with_dash, given, words_in};

use clap::error::ErrorKind;
use clap::{Arg, ArgAction, ArgMatches, Command, Error};
use std::alloc::Global;

// Whether a word begins with a dash.
fn begins_with_dash(word: &str) -> bool
    ensures { result ≡ begins_with_dash word.now }
{
    let bytes = word.as_bytes();
    !bytes.is_empty() && bytes[0] == b'-'
}

/// Whether some word begins with a dash.
pub fn has_dash(words: &[String]) -> bool
    ensures { result ≡ list_any begins_with_dash (map string_bytes words.now) }
{
    for word in words {
        if begins_with_dash(word.as_str()) {
            return true;
        }
    }
    false
}

/// The words as clap takes them: all of them, in their order. It refuses only for want of memory.
pub fn take_words<'a>(alloc: Global, words: &'a [String]) -> Result<ArgMatches<'a>, Error>
    requires { list_any begins_with_dash (map string_bytes words.now) ≡ false }
    ensures taken { IfOk result (λ matches. words_in matches ≡ given (map string_bytes words.entry.now)) }
    ensures memory { IfErr result (λ e. kind_of e ≡ ErrorKind.OutOfMemory) }
{
    let rest = Arg::new(alloc, "words")
        .action(ArgAction::Append)
        .trailing_var_arg(true);
    let command = Command::new(alloc, "lawdesk")
        .no_binary_name(true)
        .disable_help_flag(true)
        .arg(rest)?;
    command.try_get_matches_from(words)
}
