//! Sharing: four hands are split off a pass, and joined into it.

ghost use Rattle.std.specs.Prelude.{◌≡◌, ◌+◌, ◌<◌, [], ◌∷◌, IfOk, OnErr, OnOk};
ghost use mathlib.Core.List.{IsPrefix};
ghost use Rattle.turn_lock.specs.Passes.{seen_by, share_of, made_by, IsPassOf, BeganAs};
ghost use Rattle.turn_lock.specs.Turned.{id_of};
ghost use Rattle.desk_serving.specs.Work.{AreNewHands, HasJoined, IsNewHand, IsRest};

use crate::hand::Hand;
use desk_base::Memory;
use law_register::Desk;
use turn_lock::{Pass, Turns};

/// Hands for four workers.
#[derive(Drop)]
pub struct Hands<D: Desk> {
    pub first: Hand<D>,
    pub second: Hand<D>,
    pub third: Hand<D>,
    pub fourth: Hand<D>,
}

// A hand with a pass for one caller.
fn split_one<D: Desk>(turns: &Turns<D>, pass: &mut Pass<D>) -> Result<Hand<D>, Memory>
    requires own { IsPassOf (id_of turns.now) pass.old }
    requires share { 1 < share_of pass.old }
    ensures hand { IfOk result (IsNewHand (id_of turns.now) (seen_by pass.old)) }
    ensures rest { OnOk result (IsRest (id_of turns.now) 1 pass.old pass.new) }
    ensures same { seen_by pass.new ≡ seen_by pass.old }
    ensures err { OnErr result (pass.new ≡ pass.old) }
{
    let pass = turns.split(pass, 1)?;
    Ok(Hand {
        pass,
        failed: false,
        wanting: false,
    })
}

/// Takes a hand in.
pub fn join_one<D: Desk>(turns: &Turns<D>, pass: &mut Pass<D>, hand: Hand<D>)
    requires own { IsPassOf (id_of turns.now) pass.old }
    requires other { IsPassOf (id_of turns.now) hand.pass }
    ensures { HasJoined (id_of turns.now) hand pass.old pass.new }
{
    let Hand {
        pass: other,
        failed: _,
        wanting: _,
    } = hand;
    turns.join(pass, other);
}

// Two hands, or none: a first one is joined back where there is no memory for a second.
fn split_two<D: Desk>(turns: &Turns<D>, pass: &mut Pass<D>) -> Result<(Hand<D>, Hand<D>), Memory>
    requires own { IsPassOf (id_of turns.now) pass.old }
    requires share { 2 < share_of pass.old }
    ensures first { IfOk result (λ r. IsNewHand (id_of turns.now) (seen_by pass.old) r.0) }
    ensures second { IfOk result (λ r. IsNewHand (id_of turns.now) (seen_by pass.old) r.1) }
    ensures rest { OnOk result (IsRest (id_of turns.now) 2 pass.old pass.new) }
    ensures same { OnOk result (seen_by pass.new ≡ seen_by pass.old) }
    ensures err { OnErr result (IsRest (id_of turns.now) 0 pass.old pass.new) }
{
    let first = split_one(turns, pass)?;
    match split_one(turns, pass) {
        Ok(second) => Ok((first, second)),
        Err(Memory) => {
            join_one(turns, pass, first);
            Err(Memory)
        }
    }
}

/// Four hands, or none: those that were split off are joined back where there is no memory for all.
pub fn split_four<D: Desk>(turns: &Turns<D>, pass: &mut Pass<D>) -> Result<Hands<D>, Memory>
    requires own { IsPassOf (id_of turns.now) pass.old }
    requires share { 4 < share_of pass.old }
    ensures hands { IfOk result (λ h. AreNewHands (id_of turns.now) (seen_by pass.old)
        (h.first ∷ h.second ∷ h.third ∷ h.fourth ∷ [])) }
    ensures same { OnOk result (seen_by pass.new ≡ seen_by pass.old) }
    ensures rest { OnOk result (IsRest (id_of turns.now) 4 pass.old pass.new) }
    ensures err { OnErr result (IsRest (id_of turns.now) 0 pass.old pass.new) }
{
    let (first, second) = split_two(turns, pass)?;
    match split_two(turns, pass) {
        Ok((third, fourth)) => Ok(Hands {
            first,
            second,
            third,
            fourth,
        }),
        Err(Memory) => {
            join_one(turns, pass, first);
            join_one(turns, pass, second);
            Err(Memory)
        }
    }
}
