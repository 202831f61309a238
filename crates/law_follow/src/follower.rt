//! Follower: a replica over the keeper that it is lent. A clause sees the keeper as it is, the payloads, the one of which
//! it is not known whether the keeper has it, and the name of the keeper.

ghost use Rattle.std.specs.Prelude.{◌≡◌, ◌≢◌, ◌≤◌, ◌↔◌, None, Ok, IfErr, IfOk, length};
ghost use Rattle.law_keeper.specs.Keepers.{Keeps, LeavesOldOrSame};
ghost use Rattle.law_keeper.specs.declared.readiness.Readiness.TheVariants.{Ready, Unopened};
ghost use Rattle.law_follow.specs.Followers.{LeavesBetween, standing};
ghost use Rattle.law_follow.specs.Opening.{HasRefusalCause, IsListOf, Refuses, StaysUnlessFailed, opened_of};
ghost use Rattle.law_follow.specs.Replicas.{Stands};
ghost use Rattle.law_follow.specs.Taking.{HasTakeCause, Takes};

use crate::replica::Replica;
use crate::taken::{TakeFault, Taken};
use crate::taking;
use law_keeper::Keeper;
use law_register::{OpenFault, laws};
use std::alloc::Global;
use std::marker::Model;

/// A keeper of which no follower could be opened, and why.
#[derive(Drop)]
pub struct FollowerRefused<'a, K: Keeper> {
    /// The keeper.
    pub keeper: &'a mut K,
    /// Why.
    pub fault: OpenFault,
}

/// A register that follows another: it takes that one's payloads in their order, and no others.
#[derive(Drop)]
pub struct Follower<'a, K: Keeper> {
    keeper: &'a mut K,
    replica: Replica,
}

impl<'a, K: Keeper> Model for Follower<'a, K> {
    ghost use Rattle.law_follow.specs.Followers.{FollowerState};
    ghost use Rattle.law_follow.specs.Replicas.{HoldsReplica, IsRight, payloads_of, pending_of};

    ghost Value = { FollowerState K };

    ghost view = { λ f. record {
      keeper = f.keeper.now;
      payloads = payloads_of f.replica;
      pending = pending_of f.replica.pending;
      origin = f.keeper.ghost_name;
    } };

    ghost invariant = { λ f. IsRight f.replica
        × HoldsReplica (K.holding f.keeper.now) (K.readiness f.keeper.now) f.replica };
}

impl<'a, K: Keeper> Follower<'a, K> {
    /// Opens a keeper, and the follower of what it has. A refusal gives the keeper back. No payload changes, and a crash
    /// at any moment leaves a list that it could leave before, or the list itself.
    pub fn open(alloc: Global, keeper: &'a mut K) -> Result<Follower<'a, K>, FollowerRefused<'a, K>>
        ensures opened { (K.holding keeper.old).tells
            → IfOk result (λ f. IsListOf f.payloads (K.holding keeper.old).list) }
        ensures refused { (K.holding keeper.old).tells
            → IfErr result (λ refused. Refuses refused.fault (opened_of (K.holding keeper.old).list)) }
        ensures settled { IfOk result (λ f. f.pending ≡ None) }
        ensures same { IfOk result (λ f. Keeps (K.holding keeper.old) (K.holding f.keeper)) }
        ensures crash { IfOk result (λ f. LeavesOldOrSame (K.holding keeper.old) (K.holding f.keeper)) }
        ensures faults { IfOk result (λ f. K.faults f.keeper ≡ K.faults keeper.old) }
        ensures origin { IfOk result (λ f. f.origin ≡ keeper.entry.ghost_name) }
        ensures same_refused { IfErr result (λ refused. Keeps (K.holding keeper.old) (K.holding refused.keeper.now)) }
        ensures crash_refused { IfErr result (λ refused.
            LeavesOldOrSame (K.holding keeper.old) (K.holding refused.keeper.now)) }
        ensures cause_refused { IfErr result (λ refused.
            HasRefusalCause (K.faults keeper.old) (K.faults refused.keeper.now) refused.fault) }
        ensures stays_refused { (K.holding keeper.old).tells → IfErr result (λ refused.
            StaysUnlessFailed (K.faults keeper.old) (K.faults refused.keeper.now) refused.fault) }
        ensures name_refused { IfErr result (λ refused. refused.keeper.ghost_name ≡ keeper.entry.ghost_name) }
    {
        match Replica::open(alloc, keeper) {
            Ok(replica) => Ok(Follower { keeper, replica }),
            Err(fault) => Err(FollowerRefused { keeper, fault }),
        }
    }

    /// How many payloads there are. It takes no memory.
    pub fn len(&self) -> u64
        ensures { result ≡ length self.now.payloads }
    {
        laws::entries_are_few(&self.replica.register);
        self.replica.register.len() as u64
    }

    /// Gives the follower the payload of a number, counted from 1, as a message brings it.
    ///
    /// It is added where it comes next and may stand behind the others, and known where it stands at its number already.
    /// One that is further on is a gap, another one at a number that stands a conflict, and what may not stand behind the
    /// others is refused. After a fault of the keeper it is pending, or an older one is so still: the next call first finds
    /// out whether that was kept, and its answer speaks of what stands then.
    pub fn take(&mut self, alloc: Global, number: u64, payload: &[u8]) -> Result<Taken, TakeFault>
        requires { 1 ≤ number }
        ensures takes { Takes number payload.now (standing self.old) (standing self.new)
            (K.holding self.old.keeper).tells (K.holding self.old.keeper).list (K.holding self.new.keeper).list result }
        ensures tells { (K.holding self.old.keeper).tells ↔ (K.holding self.new.keeper).tells }
        ensures crash { LeavesBetween (standing self.old) (standing self.new)
            (K.holding self.old.keeper) (K.holding self.new.keeper) }
        ensures cause { HasTakeCause (K.faults self.old.keeper) (K.faults self.new.keeper) result }
        ensures origin { self.new.origin ≡ self.old.origin }
    {
        match Vec::from_slice(alloc, payload) {
            Ok(payload) => taking::take(alloc, self.keeper, &mut self.replica, number, payload),
            Err(_) => Err(TakeFault::Memory),
        }
    }

    /// What stands between a follower and its keeper at each moment between two calls. The keeper's list is the payloads,
    /// with the one that is pending behind them or not; the keeper was opened, and is ready where none is.
    pub fn holds_payloads(&self)
        ensures list { (K.holding self.now.keeper).tells
            → Stands self.now.payloads self.now.pending (K.holding self.now.keeper).list }
        ensures ready { self.now.pending ≡ None → K.readiness self.now.keeper ≡ Ready }
        ensures opened { K.readiness self.now.keeper ≢ Unopened }
    {
        let _ = &self.replica;
    }

    /// Gives the keeper back.
    pub fn close(self) -> &'a mut K
        ensures keeper { result.now ≡ self.entry.keeper }
        ensures name { result.ghost_name ≡ self.entry.origin }
    {
        let Follower { keeper, replica } = self;
        drop(replica);
        keeper
    }
}
