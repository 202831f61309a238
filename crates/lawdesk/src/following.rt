//! Following: the frames of the source are taken into what is kept.

ghost use Rattle.std.specs.Prelude.{◌≡◌, [], ◌∷◌, ◌++◌, codes, IfOk, OnOk};
ghost use Rattle.std.specs.Fmt.{decimal};
ghost use Rattle.dossier_text.specs.Views.{report_view};
ghost use Rattle.json.specs.Token.{key, number, string};
ghost use Rattle.json.specs.Tree.{json_tokens};
ghost use Rattle.lawdesk.specs.Following as spec;
ghost use Rattle.serde_json.specs.Written.{compact_text, outline};

use crate::telling::{tell, tell_unopened};
use desk_base::{Memory, Sink, Source};
use dossier_text::{Report, line};
use json::Writer;
use law_follow::{FollowFault, Followed, Refusal, follow};
use law_keeper::Keeper;
use std::alloc::Global;

// The line of a stream that was followed to its end.
fn report_followed(alloc: Global, done: Followed) -> Result<Report, Memory>
    ensures { IfOk result (λ report. report_view report ≡ spec.told_followed done) }
{
    let (length, tally) = (done.length, done.tally);
    let (added, known, gaps) = (tally.added, tally.known, tally.gaps);
    let told = format!(in alloc; "length {length} added {added} known {known} gaps {gaps}")?;
    Ok(Report {
        status: 0,
        bytes: line(told.into_bytes())?,
    })
}

// The number of a refusal.
fn refusal_number(refusal: Refusal) -> u64
    ensures { result ≡ spec.refusal_number refusal }
{
    match refusal {
        Refusal::BadFrame { .. } => 1,
        Refusal::Conflict { .. } => 2,
        Refusal::BadEntry { .. } => 3,
        Refusal::NotAccepted { .. } => 4,
    }
}

// The name of a refusal.
fn refusal_name(refusal: Refusal) -> &'static str
    ensures { result.now ≡ spec.refusal_name refusal }
{
    match refusal {
        Refusal::BadFrame { .. } => "BadFrame",
        Refusal::Conflict { .. } => "Conflict",
        Refusal::BadEntry { .. } => "BadEntry",
        Refusal::NotAccepted { .. } => "NotAccepted",
    }
}

// The place of the frame that is refused, or its number.
fn frame_number(refusal: Refusal) -> u64
    ensures { result ≡ spec.frame_number refusal }
{
    match refusal {
        Refusal::BadFrame { place } => place,
        Refusal::Conflict { number } => number,
        Refusal::BadEntry { number, .. } => number,
        Refusal::NotAccepted { number, .. } => number,
    }
}

// Prints which refusal it is.
fn put_kind(out: &mut Writer, rule: u64, name: &str) -> Result<(), Memory>
    ensures tokens { OnOk result (out.new.tokens
        ≡ out.old.tokens ++ key (codes "follow") ∷ number (decimal rule) ∷ key (codes "name") ∷ string name.now ∷ []) }
    ensures before { OnOk result (out.new.before ≡ out.old.before) }
{
    out.key("follow")?;
    out.u64(rule)?;
    out.key("name")?;
    out.string(name)?;
    Ok(())
}

// Prints a refusal.
fn put_refusal(out: &mut Writer, refusal: Refusal) -> Result<(), Memory>
    ensures tokens { OnOk result (out.new.tokens ≡ out.old.tokens ++ json_tokens (outline (spec.refusal_data refusal))) }
    ensures before { OnOk result (out.new.before ≡ out.old.before) }
{
    let (rule, name) = (refusal_number(refusal), refusal_name(refusal));
    out.begin_object()?;
    put_kind(out, rule, name)?;
    out.key("number")?;
    out.u64(frame_number(refusal))?;
    out.end_object()?;
    Ok(())
}

// The bytes of a refusal.
fn refusal_bytes(alloc: Global, refusal: Refusal) -> Result<Vec<u8>, Memory>
    ensures { IfOk result (λ bytes. bytes.items ≡ compact_text (spec.refusal_data refusal)) }
{
    let mut out = Writer::new(Vec::new(alloc));
    put_refusal(&mut out, refusal)?;
    Ok(out.into_inner())
}

// The line of a frame that is refused.
fn report_refusal(alloc: Global, refusal: Refusal) -> Result<Report, Memory>
    ensures { IfOk result (λ report. report_view report ≡ spec.told_refusal refusal) }
{
    Ok(Report {
        status: 12,
        bytes: line(refusal_bytes(alloc, refusal)?)?,
    })
}

/// Opens the register that is kept, takes the frames of the source to its end, writes how they were answered, the frame that is refused
/// or what is damaged, and gives the status to end with.
pub fn follow_source<S: Source, W: Sink, K: Keeper>(
    alloc: Global,
    source: &mut S,
    sink: &mut W,
    keeper: &mut K,
) -> u8
    ensures { spec.RanFollow S.left S.faults W.written W.faults K.holding K.faults
        source.old source.new sink.old sink.new keeper.old keeper.new result }
{
    match follow(alloc, source, keeper) {
        Ok(done) => tell(sink, report_followed(alloc, done)),
        Err(FollowFault::Open(fault)) => tell_unopened(alloc, sink, fault),
        Err(FollowFault::Refused(refusal)) => tell(sink, report_refusal(alloc, refusal)),
        Err(FollowFault::ReadFault) => 3,
        Err(FollowFault::KeeperFault) => 5,
        Err(FollowFault::Memory) => 7,
    }
}
