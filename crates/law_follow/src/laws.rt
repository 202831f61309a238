//! Laws of frames and of followers. Each is a function that does nothing, whose clause is the law.

ghost use Rattle.std.specs.Prelude.{◌≡◌, ◌≤◌, ◌<◌, ◌++◌, ◌^◌, List, ℕ, length, true};
ghost use Rattle.std.specs.List.{AllByRecursion, list_all};
ghost use Rattle.std.specs.Prelude.{nat_lt};
ghost use Rattle.law_follow.specs.declared.frame.TheConstants as limits;
ghost use Rattle.law_follow.specs.Frames.{IsMessage, Message, frame, front_of, holds};
ghost use Rattle.law_follow.specs.Following.{CatchesUp};
ghost use Rattle.law_follow.specs.Messages.{IsSent, StandAt, frames, messages_above};
ghost use Rattle.law_follow.specs.Worlds.{Event, IsFrontOf, IsTrusting, after_all, is_register, nothing};

/// A frame is read as the message that it spells, whatever stands behind it, and bytes that are read as a message begin with
/// its frame; and frames one behind another are read as the messages that they spell.
pub fn frames_spell_messages()
    ensures spelled { (m : Message) (rest : List ℕ) → IsMessage m → m.number < 2 ^ 64
        → front_of (frame m ++ rest) ≡ holds m rest }
    ensures read { (bytes rest : List ℕ) (m : Message) → list_all (λ b. nat_lt b 256) bytes ≡ true
        → front_of bytes ≡ holds m rest → frame m ++ rest ≡ bytes }
    ensures stream { (ms : List Message) (rest : List ℕ) → AllByRecursion IsSent ms → StandAt (frames ms ++ rest) ms rest }
    ensures rules { (bytes rest : List ℕ) (m : Message) → front_of bytes ≡ holds m rest → IsMessage m }
{}

/// The head of a frame has thirteen bytes, of which the first is 0x4c.
pub fn heads_are_these()
    ensures size { limits.HEAD_SIZE ≡ 13 }
    ensures mark { limits.MARK ≡ 76 }
{}

/// Whatever is lost, repeated, late or reordered of what a leader sends: the leader's list is a register, the follower's is a
/// front of it, and the follower refuses nothing that its leader sent.
pub fn follower_holds_a_front_of_its_leader()
    ensures register { (events : List Event) → is_register (after_all events nothing).leader ≡ true }
    ensures front { (events : List Event)
        → IsFrontOf (after_all events nothing).follower (after_all events nothing).leader }
    ensures trusts { (events : List Event) → IsTrusting (after_all events nothing) }
{}

/// A follower that holds a front of a register, and is given all of it above a number of payloads that it has, refuses nothing,
/// and holds the whole then.
pub fn follower_catches_up()
    ensures { (front rest : List (List ℕ)) (from : ℕ) → is_register (front ++ rest) ≡ true → from ≤ length front
        → CatchesUp front (messages_above from (front ++ rest)) (front ++ rest) }
{}
