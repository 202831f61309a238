//! The call that the program is: what the words of the command line ask for, over the register that is kept and another.

ghost use Rattle.std.specs.Prelude.{◌≡◌, ◌↔◌, ℕ, None, Some, false, length, map, option_map, string_bytes, IsTrue, List};
ghost use Rattle.std.specs.List.{AllByRecursion};
ghost use Rattle.desk_serving.specs.Work.{IsSettled};
ghost use Rattle.lawdesk.specs.Jobs.{job_of};
ghost use Rattle.lawdesk.specs.Moving.{RanMove, for_other, is_move};
ghost use Rattle.lawdesk.specs.RunningTwo.{IsStatusOfTwo, RanOver, behind};

use crate::moving::move_register;
use crate::run::run;
use desk_base::{Clock, Sink, Source};
use desk_gates::Gate;
use law_keeper::Keeper;
use std::alloc::Global;
use std::sync::Wait;
use std::thread::Threads;

/// Whether the words ask for a move.
pub fn asks_move(words: &[String]) -> bool
    ensures { result ≡ is_move (map string_bytes words.now) }
{
    if words.len() == 1 {
        return words[0].as_str() == "move";
    }
    false
}

/// The words behind `sql`, where they begin with it.
pub fn words_for_other(words: &[String]) -> Option<&[String]>
    ensures { option_map (λ rest. map string_bytes rest.now) result ≡ for_other (map string_bytes words.now) }
{
    if words.is_empty() {
        return None;
    }
    if words[0].as_str() == "sql" {
        return Some(&words[1..]);
    }
    None
}

/// The words that a run over one register is of: those behind `sql`, or all.
pub fn words_behind(words: &[String]) -> &[String]
    ensures { map string_bytes result.now ≡ behind (map string_bytes words.now) }
{
    match words_for_other(words) {
        Some(rest) => rest,
        None => words,
    }
}

// Runs words over one register, which is all that is promised of such a run.
fn run_over<
    R: Threads + Wait + Sync,
    S: Source,
    W: Sink,
    K: Keeper + Send,
    C: Clock + Send,
    G: Gate + Send,
>(
    rt: &R,
    alloc: Global,
    words: &[String],
    source: &mut S,
    sink: &mut W,
    keeper: &mut K,
    clock: &mut C,
    gates: &mut [G],
) -> u8
where
    G::Conn: Send,
    requires four { length gates.old ≡ 4 }
    requires settled { AllByRecursion (IsSettled G.tally) gates.old }
    ensures { RanOver S.left S.room S.faults W.written W.faults K.holding K.faults C.days
        G.Conn.left G.Conn.written G.Conn.read_faults G.Conn.write_faults G.tally G.faults
        source.old source.new sink.old sink.new keeper.old keeper.new clock.old clock.new gates.old gates.new
        (map string_bytes words.now) result }
{
    run(rt, alloc, words, source, sink, keeper, clock, gates)
}

/// Does what the words of the command line ask for, of the register of a keeper, or of that of another where they begin with `sql`, or
/// moves the first to the other; and gives the status to end with.
pub fn run_two<
    R: Threads + Wait + Sync,
    S: Source,
    W: Sink,
    K: Keeper + Send,
    O: Keeper + Send,
    C: Clock + Send,
    G: Gate + Send,
>(
    rt: &R,
    alloc: Global,
    words: &[String],
    source: &mut S,
    sink: &mut W,
    keeper: &mut K,
    other: &mut O,
    clock: &mut C,
    gates: &mut [G],
) -> u8
where
    G::Conn: Send,
    requires four { length gates.old ≡ 4 }
    requires settled { AllByRecursion (IsSettled G.tally) gates.old }
    ensures status { IsStatusOfTwo result }
    ensures words { (result ≡ 2) ↔ ((is_move (map string_bytes words.now) ≡ false)
        × (job_of (behind (map string_bytes words.now)) ≡ None)) }

    // The move, which leaves the source, the clock and the gates alone.
    ensures moves { IsTrue (is_move (map string_bytes words.now))
        → RanMove K.holding K.faults O.holding O.faults W.written W.faults
        keeper.old keeper.new other.old other.new sink.old sink.new result }
    ensures move_alone { IsTrue (is_move (map string_bytes words.now))
        → (source.new ≡ source.old) × (clock.new ≡ clock.old) × (gates.new ≡ gates.old) }

    // What the words behind `sql` are a run of, over the other register; that of the keeper is left alone.
    ensures other { (rest : List (List ℕ)) → for_other (map string_bytes words.now) ≡ Some rest
        → RanOver S.left S.room S.faults W.written W.faults O.holding O.faults C.days
        G.Conn.left G.Conn.written G.Conn.read_faults G.Conn.write_faults G.tally G.faults
        source.old source.new sink.old sink.new other.old other.new clock.old clock.new gates.old gates.new rest result }
    ensures other_alone { (rest : List (List ℕ)) → for_other (map string_bytes words.now) ≡ Some rest
        → keeper.new ≡ keeper.old }

    // What all other words are a run of; the other register is left alone.
    ensures own { is_move (map string_bytes words.now) ≡ false → for_other (map string_bytes words.now) ≡ None
        → RanOver S.left S.room S.faults W.written W.faults K.holding K.faults C.days
        G.Conn.left G.Conn.written G.Conn.read_faults G.Conn.write_faults G.tally G.faults
        source.old source.new sink.old sink.new keeper.old keeper.new clock.old clock.new gates.old gates.new
        (map string_bytes words.now) result }
    ensures own_alone { is_move (map string_bytes words.now) ≡ false → for_other (map string_bytes words.now) ≡ None
        → other.new ≡ other.old }
{
    if asks_move(words) {
        return move_register(alloc, sink, keeper, other);
    }
    match words_for_other(words) {
        Some(rest) => run_over(rt, alloc, rest, source, sink, other, clock, gates),
        None => run_over(rt, alloc, words, source, sink, keeper, clock, gates),
    }
}
