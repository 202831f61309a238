//! Job: what the words of the command line ask for.

ghost use Rattle.std.specs.Prelude.{◌≡◌, ◌≢◌, ◌≤◌, [], ◌∷◌, None, ℕ, List, map, option_map, string_bytes, IfOk, IfSome, OnErr};
ghost use Rattle.lawdesk.specs.Jobs.{counted, export_job, generate_job, job_of, pair_job, plain_job, serve_job, serve_named, serving_of, text_job, triple_job, word_job};
ghost use Rattle.lawdesk.specs.Taking.{given, words_in};
ghost use Rattle.lawdesk.specs.ReportJobs.{report_job};
ghost use Rattle.lawdesk.specs.declared.job.Job.TheVariants as jobs;

use crate::report_job::ReportJob;
use crate::taking::{has_dash, take_words};
use clap::ArgMatches;
use desk_base::{Memory, decimal_number};
use desk_serving::ServeJob;
use dossier_text::TextJob;
use law_register::Reading;
use std::alloc::Global;
use std::convert::AsStr;

/// A seed, and how many requests.
#[derive(Clone, Copy, Debug, PartialEq, Eq)]
pub struct GenerateJob {
    /// The seed.
    pub seed: u64,
    /// How many requests, from 1 to 2,000.
    pub count: u16,
}

/// What the program is asked to do.
#[derive(Debug, PartialEq, Eq, Drop)]
pub enum Job {
    /// Read a dossier, and print the text of its act on that day, in that reading.
    Text(TextJob),
    /// Open the register that is kept, and say how many entries it has, or what is damaged.
    Check,
    /// Serve the requests of the source over the register that is kept.
    Batch,
    /// Open the register that is kept, and write a table of what it knows, or what is damaged.
    Report(ReportJob),
    /// Generate a register, and say what became of its commands.
    Generate(GenerateJob),
    /// Open the register that is kept, and write the frames of all its payloads above this number, or what is damaged.
    Export(u64),
    /// Open the register that is kept, and take the frames of the source.
    Follow,
    /// Serve connections over the register that is kept.
    Serve(ServeJob),
}

// The job of the text on a day, where the words name a day and a reading.
fn text_job(date: &str, reading: Option<Reading>) -> Option<Job>
    ensures { result ≡ text_job date.now reading }
{
    Some(Job::Text(TextJob::named(date, reading)?))
}

/// The number from 1 up to `most` that a word names.
pub fn counted(word: &str, most: u64) -> Option<u64>
    ensures value { result ≡ counted most word.now }
    ensures bound { IfSome result (λ n. n ≤ most) }
{
    let count = decimal_number(word, most)?;
    if count == 0 {
        return None;
    }
    Some(count)
}

// The job of generating a register, where the words name a seed and a count.
fn generate_job(seed: &str, count: &str) -> Option<Job>
    ensures { result ≡ generate_job seed.now count.now }
{
    let seed = decimal_number(seed, 18_446_744_073_709_551_615)?;
    let count = counted(count, 2_000)?;
    Some(Job::Generate(GenerateJob {
        seed,
        count: count as u16,
    }))
}

// The job of exporting what stands above a number, where the word names one.
fn export_job(from: &str) -> Option<Job>
    ensures { result ≡ export_job from.now }
{
    let from = decimal_number(from, 18_446_744_073_709_551_615)?;
    Some(Job::Export(from))
}

// The connections to serve, where the words name a port and a count.
fn serve_named(port: &str, connections: &str) -> Option<ServeJob>
    ensures { result ≡ serve_named port.now connections.now }
{
    let port = counted(port, 65_535)?;
    let connections = counted(connections, 1_000_000)?;
    Some(ServeJob {
        port: port as u16,
        connections: connections as u32,
    })
}

// The job of serving them.
fn serve_job(port: &str, connections: &str) -> Option<Job>
    ensures { result ≡ serve_job port.now connections.now }
{
    Some(Job::Serve(serve_named(port, connections)?))
}

// The job that one word asks for.
fn word_job(word: &str) -> Option<Job>
    ensures { result ≡ word_job word.now }
{
    if word == "check" {
        return Some(Job::Check);
    }
    if word == "batch" {
        return Some(Job::Batch);
    }
    if word == "follow" {
        return Some(Job::Follow);
    }
    None
}

// The job that two words ask for.
fn pair_job(word: &str, other: &str) -> Option<Job>
    ensures { result ≡ pair_job word.now other.now }
{
    if word == "text" {
        return text_job(other, Some(Reading::Force));
    }
    if word == "export" {
        return export_job(other);
    }
    None
}

// The job that three words ask for.
fn triple_job(word: &str, first: &str, second: &str) -> Option<Job>
    ensures { result ≡ triple_job word.now first.now second.now }
{
    if word == "text" {
        return text_job(first, Reading::from_name(second));
    }
    if word == "generate" {
        return generate_job(first, second);
    }
    if word == "serve" {
        return serve_job(first, second);
    }
    None
}

// The job that words other than those of a report ask for.
fn plain_job<S: AsStr>(words: &[S]) -> Option<Job>
    ensures { result ≡ plain_job (map S.text words.now) }
{
    if words.len() == 1 {
        return word_job(words[0].as_str());
    }
    if words.len() == 2 {
        return pair_job(words[0].as_str(), words[1].as_str());
    }
    if words.len() == 3 {
        return triple_job(words[0].as_str(), words[1].as_str(), words[2].as_str());
    }
    None
}

// The job of the table that the words behind `report` ask for.
fn report_job<S: AsStr>(alloc: Global, words: &[S]) -> Result<Option<Job>, Memory>
    ensures job { IfOk result
        (λ job. job ≡ option_map (λ j. jobs.Report j) (report_job (map S.text words.now))) }
    ensures asked { OnErr result (report_job (map S.text words.now) ≢ None) }
{
    match ReportJob::from_words(alloc, words)? {
        Some(job) => Ok(Some(Job::Report(job))),
        None => Ok(None),
    }
}

// The job that words ask for.
fn job_in<S: AsStr>(alloc: Global, words: &[S]) -> Result<Option<Job>, Memory>
    ensures job { IfOk result (λ job. job ≡ job_of (map S.text words.now)) }
    ensures asked { OnErr result (job_of (map S.text words.now) ≢ None) }
{
    if words.is_empty() {
        return Ok(None);
    }
    if words[0].as_str() == "report" {
        return report_job(alloc, &words[1..]);
    }
    Ok(plain_job(words))
}

// The job that the words ask for which were taken.
fn taken_job(alloc: Global, matches: &ArgMatches<'_>) -> Result<Option<Job>, Memory>
    ensures job { (words : List (List ℕ)) → words_in matches.now ≡ given words → IfOk result (λ job. job ≡ job_of words) }
    ensures asked { (words : List (List ℕ)) → words_in matches.now ≡ given words → OnErr result (job_of words ≢ None) }
{
    match matches.get_strs("words") {
        Some(words) => job_in(alloc, words),
        None => Ok(None),
    }
}

// What is told of words that could not be taken for want of memory: whether they ask for nothing.
fn untaken_job(alloc: Global, words: &[String]) -> Result<Option<Job>, Memory>
    ensures job { IfOk result (λ job. job ≡ job_of (map string_bytes words.now)) }
    ensures asked { OnErr result (job_of (map string_bytes words.now) ≢ None) }
{
    match job_in(alloc, words)? {
        Some(_) => Err(Memory),
        None => Ok(None),
    }
}

// The connections to serve, where three words ask for that.
#[tactic(auto, using(crate::proofs::Served::serve_words, crate::proofs::Served::other_word))]
fn serve_words(word: &str, port: &str, connections: &str) -> Option<ServeJob>
    ensures { result ≡ serving_of (job_of (word.now ∷ port.now ∷ connections.now ∷ [])) }
{
    if word == "serve" {
        return serve_named(port, connections);
    }
    None
}

/// The connections to serve, where words ask for that. It takes no memory.
pub fn serve_asked(words: &[String]) -> Option<ServeJob>
    ensures { result ≡ serving_of (job_of (map string_bytes words.now)) }
{
    if words.len() == 3 {
        return serve_words(words[0].as_str(), words[1].as_str(), words[2].as_str());
    }
    None
}

impl Job {
    /// The job that the words ask for, without the program's name. `None`: they are no form of the command line, as where one
    /// begins with a dash. `Err`: they are one, and there was not enough memory to take them.
    pub fn from_words(alloc: Global, words: &[String]) -> Result<Option<Job>, Memory>
        ensures job { IfOk result (λ job. job ≡ job_of (map string_bytes words.now)) }
        ensures asked { OnErr result (job_of (map string_bytes words.now) ≢ None) }
    {
        if has_dash(words) {
            return Ok(None);
        }
        match take_words(alloc, words) {
            Ok(matches) => taken_job(alloc, &matches),
            Err(_) => untaken_job(alloc, words),
        }
    }
}
