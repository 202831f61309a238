//! Following: the frames of a stream are taken, one behind another.

ghost use Rattle.std.specs.Prelude.{◌≡◌, ◌<◌, ◌↔◌, [], None, IfOk, IfSome, IsTrue};
ghost use Rattle.law_follow.specs.Batches.{HasHeld, StaysAhead};
ghost use Rattle.law_follow.specs.Following as spec;
ghost use Rattle.law_follow.specs.Following.{Follows, HasFollowed, IsBetween};
ghost use Rattle.law_follow.specs.Frames.{IsMessage, message_of};
ghost use Rattle.law_follow.specs.Replicas.{HoldsReplica, IsRight, payloads_of};
ghost use Rattle.law_follow.specs.Taking.{LeavesLists};

use crate::batch::Batch;
use crate::followed::{FollowFault, Followed, Refusal, Tally};
use crate::frame::{Frame, FrameFault};
use crate::gathering::{commit, commit_full, judge_payload};
use crate::reading::read_frame;
use crate::replica::Replica;
use crate::taken::{TakeFault, Taken};
use desk_base::Source;
use law_keeper::Keeper;
use law_register::laws;
use std::alloc::Global;
use std::mem::forget;

// Reads the frame at a place of the stream, if the stream goes on.
fn next_frame<S: Source>(
    alloc: Global,
    source: &mut S,
    place: u64,
) -> Result<Option<Frame>, FollowFault>
    ensures read { spec.ReadsAt place (S.left source.old) (S.left source.new) result }
    ensures message { IfOk result (λ o. IfSome o (λ f. IsMessage (message_of f))) }
    ensures room { IfOk result (λ o. IfSome o (λ f. S.room source.new < S.room source.old)) }
    ensures cause { spec.HasSourceCause (S.faults source.old) (S.faults source.new) result }
{
    match read_frame(alloc, source) {
        Ok(next) => Ok(next),
        Err(FrameFault::BadFrame) => Err(FollowFault::Refused(Refusal::BadFrame { place })),
        Err(FrameFault::ReadFault) => Err(FollowFault::ReadFault),
        Err(FrameFault::Memory) => Err(FollowFault::Memory),
    }
}

// What comes of a message of this number, by what came of its payload. `None`: it is further on, and is skipped.
fn answer_to(number: u64, taken: Result<Taken, TakeFault>) -> Result<Option<Taken>, FollowFault>
    ensures { result ≡ spec.answer_to number taken }
{
    match taken {
        Ok(answer) => Ok(Some(answer)),
        Err(TakeFault::Gap { .. }) => Ok(None),
        Err(TakeFault::Conflict { .. }) => Err(FollowFault::Refused(Refusal::Conflict { number })),
        Err(TakeFault::BadEntry(broken)) => {
            Err(FollowFault::Refused(Refusal::BadEntry { number, broken }))
        }
        Err(TakeFault::NotAccepted { rule }) => {
            Err(FollowFault::Refused(Refusal::NotAccepted { number, rule }))
        }
        Err(TakeFault::KeeperFault) => Err(FollowFault::KeeperFault),
        Err(TakeFault::Memory) => Err(FollowFault::Memory),
    }
}

// Takes the message of a frame, of which the keeper is told later.
fn judge(
    alloc: Global,
    replica: &mut Replica,
    batch: &mut Batch,
    frame: Frame,
) -> Result<Option<Taken>, FollowFault>
    requires message { IsMessage (message_of frame) }
    requires right { IsRight replica.old }
    requires settled { replica.old.pending ≡ None }
    ensures takes { spec.TakesMessage (message_of frame) (payloads_of replica.old) (payloads_of replica.new) result }
    ensures settled { replica.new.pending ≡ None }
    ensures right { IsRight replica.new }
    ensures ahead { StaysAhead replica.old replica.new batch.old batch.new }
{
    let Frame { number, payload } = frame;
    let taken = judge_payload(alloc, replica, batch, number, payload);
    answer_to(number, taken)
}

// The counts once one more frame was answered so.
fn counted(tally: Tally, answer: Option<Taken>) -> Tally
    ensures { result ≡ spec.counted tally answer }
{
    let Tally { added, known, gaps } = tally;
    match answer {
        Some(Taken::Added) => Tally {
            added: added.saturating_add(1),
            known,
            gaps,
        },
        Some(Taken::Known) => Tally {
            added,
            known: known.saturating_add(1),
            gaps,
        },
        None => Tally {
            added,
            known,
            gaps: gaps.saturating_add(1),
        },
    }
}

// Takes the frames of a stream to its end, many at a time. The keeper is not told of the last ones, which stand in the batch.
fn judge_frames<S: Source, K: Keeper>(
    alloc: Global,
    source: &mut S,
    keeper: &mut K,
    replica: &mut Replica,
    batch: &mut Batch,
) -> Result<Followed, FollowFault>
    requires right { IsRight replica.old }
    requires settled { replica.old.pending ≡ None }
    requires held { HoldsReplica (K.holding keeper.old) (K.readiness keeper.old) replica.old }
    requires none { batch.old.payloads.items ≡ [] }
    ensures follows { HasFollowed (S.left source.old) (payloads_of replica.old) (S.left source.new) (payloads_of replica.new)
        result }
    ensures tells { (K.holding keeper.old).tells ↔ (K.holding keeper.new).tells }
    ensures settled { replica.new.pending ≡ None }
    ensures right { IsRight replica.new }
    ensures held { IsTrue (spec.is_whole result)
        → HasHeld (payloads_of replica.old) (K.holding keeper.new) (K.readiness keeper.new) replica.new batch.new }
    ensures kept { (K.holding keeper.new).tells
        → IsBetween (payloads_of replica.old) (payloads_of replica.new) (K.holding keeper.new).list }
    ensures crash { LeavesLists (IsBetween (payloads_of replica.old) (payloads_of replica.new))
        (K.holding keeper.old) (K.holding keeper.new) }
    ensures source_cause { spec.HasSourceCause (S.faults source.old) (S.faults source.new) result }
    ensures keeper_cause { spec.HasKeeperCause (K.holding keeper.old) (K.faults keeper.old) (K.faults keeper.new) result }
{
    let mut tally = Tally {
        added: 0,
        known: 0,
        gaps: 0,
    };
    let mut place = 1u64;
    'frames: while let Some(frame) = next_frame(alloc, source, place)? {
        let answer = judge(alloc, replica, batch, frame)?;
        tally = counted(tally, answer);
        place = place.saturating_add(1);
        commit_full(alloc, keeper, replica, batch)?;
    }
    laws::entries_are_few(&replica.register);
    let length = replica.register.len() as u64;
    Ok(Followed { length, tally })
}

// Whether all that was read is to be taken before this is told.
fn is_whole(went: &Result<Followed, FollowFault>) -> bool
    ensures { result ≡ spec.is_whole went.now }
{
    match went {
        Ok(_) => true,
        Err(FollowFault::Refused(_)) => true,
        Err(_) => false,
    }
}

// Takes the frames of a stream to its end.
fn follow_frames<S: Source, K: Keeper>(
    alloc: Global,
    source: &mut S,
    keeper: &mut K,
    replica: &mut Replica,
) -> Result<Followed, FollowFault>
    requires right { IsRight replica.old }
    requires settled { replica.old.pending ≡ None }
    requires held { HoldsReplica (K.holding keeper.old) (K.readiness keeper.old) replica.old }
    ensures follows { HasFollowed (S.left source.old) (payloads_of replica.old) (S.left source.new) (payloads_of replica.new)
        result }
    ensures tells { (K.holding keeper.old).tells ↔ (K.holding keeper.new).tells }
    ensures right { IsRight replica.new }
    ensures kept { (K.holding keeper.new).tells
        → spec.IsKept result (payloads_of replica.old) (payloads_of replica.new) (K.holding keeper.new).list }
    ensures crash { LeavesLists (IsBetween (payloads_of replica.old) (payloads_of replica.new))
        (K.holding keeper.old) (K.holding keeper.new) }
    ensures source_cause { spec.HasSourceCause (S.faults source.old) (S.faults source.new) result }
    ensures keeper_cause { spec.HasKeeperCause (K.holding keeper.old) (K.faults keeper.old) (K.faults keeper.new) result }
{
    let mut batch = Batch::new(alloc);
    let went = judge_frames(alloc, source, keeper, replica, &mut batch);
    if !is_whole(&went) {
        return went;
    }
    match commit(alloc, keeper, replica, &mut batch) {
        Ok(()) => went,
        Err(fault) => Err(fault),
    }
}

/// Opens a keeper, and takes the frames of a stream to its end. One that is further on is counted and skipped, and the
/// first that is refused ends it: nothing behind it is read. What the keeper has then is what the step of a follower makes of
/// its list over the messages that were read, after a fault or for want of memory over the first of them; and a crash at any
/// moment leaves a list that it could leave before, or one between.
///
/// The keeper is given many payloads at a time: once 256 have come, or 1 MiB of them, and before the end is told.
///
/// A program ends with it: the register's memory goes with the program, since to free it entry by entry takes a tenth of the
/// time of an opening.
pub fn follow<S: Source, K: Keeper>(
    alloc: Global,
    source: &mut S,
    keeper: &mut K,
) -> Result<Followed, FollowFault>
    ensures follows { Follows (S.left source.old) (S.left source.new) (K.holding keeper.old) (K.holding keeper.new) result }
    ensures unread { spec.LeavesSource source.old source.new result }
    ensures source_cause { spec.HasSourceCause (S.faults source.old) (S.faults source.new) result }
    ensures keeper_cause { spec.HasKeeperCause (K.holding keeper.old) (K.faults keeper.old) (K.faults keeper.new) result }
{
    match Replica::open(alloc, keeper) {
        Ok(replica) => {
            let mut replica = replica;
            let followed = follow_frames(alloc, source, keeper, &mut replica);
            forget(replica);
            followed
        }
        Err(fault) => Err(FollowFault::Open(fault)),
    }
}
