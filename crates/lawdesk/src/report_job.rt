//! Report jobs: which table the words of the command line ask for.

ghost use Rattle.std.specs.Prelude.{◌≡◌, ◌≢◌, None, map, IfOk, OnErr};
ghost use Rattle.lawdesk.specs.ReportJobs as spec;

use desk_base::{Day, Memory};
use frbr_names::{WorkName, parse_work};
use std::alloc::Global;
use std::convert::AsStr;

/// A table of what the register that is kept knows.
#[derive(Debug, PartialEq, Eq, Drop)]
pub enum ReportJob {
    /// When an act was enacted, amended and repealed.
    Lifecycle {
        /// The work of the act.
        work: WorkName,
    },
    /// Which provision of an act on one day is which on another.
    Correspondence {
        /// The work of the act.
        work: WorkName,
        /// The one day.
        first: Day,
        /// The other.
        second: Day,
    },
    /// What could not be applied on a day, of all works.
    Unapplied {
        /// The day.
        day: Day,
    },
    /// Which references dangle on a day, of all works.
    Dangling {
        /// The day.
        day: Day,
    },
}

// The work that a word names.
fn work_named(alloc: Global, word: &str) -> Result<Option<WorkName>, Memory>
    ensures work { IfOk result (λ work. work ≡ spec.work_named word.now) }
    ensures some { OnErr result (spec.work_named word.now ≢ None) }
{
    match parse_work(word) {
        Ok(work) => Ok(Some(WorkName::copy_of(alloc, &work)?)),
        Err(_) => Ok(None),
    }
}

fn lifecycle_job(alloc: Global, work: &str) -> Result<Option<ReportJob>, Memory>
    ensures job { IfOk result (λ job. job ≡ spec.lifecycle_job work.now) }
    ensures some { OnErr result (spec.lifecycle_job work.now ≢ None) }
{
    match work_named(alloc, work)? {
        Some(work) => Ok(Some(ReportJob::Lifecycle { work })),
        None => Ok(None),
    }
}

fn correspondence_job(
    alloc: Global,
    work: &str,
    first: &str,
    second: &str,
) -> Result<Option<ReportJob>, Memory>
    ensures job { IfOk result (λ job. job ≡ spec.correspondence_job work.now first.now second.now) }
    ensures some { OnErr result (spec.correspondence_job work.now first.now second.now ≢ None) }
{
    let Some(first) = Day::from_text(first) else {
        return Ok(None);
    };
    let Some(second) = Day::from_text(second) else {
        return Ok(None);
    };
    match work_named(alloc, work)? {
        Some(work) => Ok(Some(ReportJob::Correspondence {
            work,
            first,
            second,
        })),
        None => Ok(None),
    }
}

fn unapplied_job(day: &str) -> Option<ReportJob>
    ensures { result ≡ spec.unapplied_job day.now }
{
    let day = Day::from_text(day)?;
    Some(ReportJob::Unapplied { day })
}

fn dangling_job(day: &str) -> Option<ReportJob>
    ensures { result ≡ spec.dangling_job day.now }
{
    let day = Day::from_text(day)?;
    Some(ReportJob::Dangling { day })
}

// The table that two words behind `report` ask for.
fn short_job(alloc: Global, name: &str, word: &str) -> Result<Option<ReportJob>, Memory>
    ensures job { IfOk result (λ job. job ≡ spec.short_job name.now word.now) }
    ensures some { OnErr result (spec.short_job name.now word.now ≢ None) }
{
    if name == "lifecycle" {
        return lifecycle_job(alloc, word);
    }
    if name == "unapplied" {
        return Ok(unapplied_job(word));
    }
    if name == "dangling" {
        return Ok(dangling_job(word));
    }
    Ok(None)
}

// The table that four words behind `report` ask for.
fn long_job(
    alloc: Global,
    name: &str,
    work: &str,
    first: &str,
    second: &str,
) -> Result<Option<ReportJob>, Memory>
    ensures job { IfOk result (λ job. job ≡ spec.long_job name.now work.now first.now second.now) }
    ensures some { OnErr result (spec.long_job name.now work.now first.now second.now ≢ None) }
{
    if name == "correspondence" {
        return correspondence_job(alloc, work, first, second);
    }
    Ok(None)
}

impl ReportJob {
    /// The table that the words behind `report` ask for. `None`: they ask for none. `Err`: they ask for one, and there was not
    /// enough memory for it.
    pub fn from_words<S: AsStr>(alloc: Global, words: &[S]) -> Result<Option<ReportJob>, Memory>
        ensures job { IfOk result (λ job. job ≡ spec.report_job (map S.text words.now)) }
        ensures some { OnErr result (spec.report_job (map S.text words.now) ≢ None) }
    {
        if words.len() == 2 {
            return short_job(alloc, words[0].as_str(), words[1].as_str());
        }
        if words.len() == 4 {
            return long_job(
                alloc,
                words[0].as_str(),
                words[1].as_str(),
                words[2].as_str(),
                words[3].as_str(),
            );
        }
        Ok(None)
    }
}
