//! Laws of gates, each as the contract of a function with an empty body.

ghost use Rattle.std.specs.Prelude.{◌≡◌, ℕ, List};
ghost use Rattle.desk_gates.specs.MemoryGates as spec;
ghost use Rattle.desk_gates.specs.declared.tcp_gate.TheConstants.{MOST_SILENT_SECONDS};
ghost use Rattle.desk_gates.specs.declared.tcp_link.TheConstants.{MOST_SECONDS_BEHIND, MOST_READS_BEHIND};

use desk_base::Link;

/// A peer may be silent for 30 seconds.
pub fn silence_is_limited()
    ensures { MOST_SILENT_SECONDS ≡ 30 }
{}

/// When a connection is ended, at most 16,384 reads take what its peer still sends, each within 2 seconds.
pub fn what_is_let_go_is_limited()
    ensures seconds { MOST_SECONDS_BEHIND ≡ 2 }
    ensures reads { MOST_READS_BEHIND ≡ 16384 }
{}

/// A gate in memory gives its links in their order, each once: whatever is asked of it, the links that it gave, and behind
/// them those that are still to be given, are those that it was made of.
pub fn links_are_given_in_order<L: Link>()
    ensures { (links : List L) (failing : List ℕ) (calls : List (spec.Call L))
        → spec.in_order (spec.after_all calls (spec.new_gate links failing)) ≡ links }
{}
