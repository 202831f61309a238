//! Gate: through what connections come in. A clause sees whether it listens, its tally of connections, and a count of
//! faults.

ghost use Rattle.std.specs.Prelude.{◌≡◌, ◌+◌, ℕ, Bool, true, IfOk, OnErr, OnOk};
ghost use Rattle.desk_base.specs.Streams.{HasCause};
ghost use Rattle.desk_gates.specs.Tallies.{Tally, IsTally, IsUnused, ended, with_given, with_taken};

use desk_base::{Failed, Link};

/// What gives connections, one after another, and takes them back.
pub trait Gate {
    /// A connection.
    type Conn: Link;

    /// Whether it listens.
    ghost listens: { Self → Bool };

    /// What it shows of its connections.
    ghost tally: { Self → Tally };

    /// How many calls have failed so far. The count stands still at 2^64 - 1.
    ghost faults: { Self → ℕ };

    /// Begins to listen at a port.
    fn listen(&mut self, port: u16) -> Result<(), Failed>
        ensures listens { OnOk result (listens self.new ≡ true) }
        ensures as_before { OnErr result (listens self.new ≡ listens self.old) }
        ensures tally { tally self.new ≡ tally self.old }
        ensures cause { HasCause (faults self.old) (faults self.new) result };

    /// Gives the connection that comes next, of which nothing was read or written yet. It may wait for a peer.
    fn accept(&mut self) -> Result<Self::Conn, Failed>
        requires listens { listens self.old ≡ true }
        requires settled { (tally self.old).given ≡ (tally self.old).taken }
        ensures given { IfOk result (λ conn. tally self.new ≡ with_given (Self.Conn.left conn) (tally self.old)) }
        ensures unused { IfOk result (λ conn.
            IsUnused (Self.Conn.written conn) (Self.Conn.read_faults conn) (Self.Conn.write_faults conn)) }
        ensures none { OnErr result (tally self.new ≡ tally self.old) }
        ensures listens { listens self.new ≡ listens self.old }
        ensures cause { HasCause (faults self.old) (faults self.new) result };

    /// Takes back the connection that it gave last. It takes no memory, and can't fail.
    fn done(&mut self, conn: Self::Conn)
        requires { (tally self.old).given ≡ (tally self.old).taken + 1 }
        ensures taken { tally self.new
            ≡ with_taken (ended Self.Conn.written Self.Conn.read_faults Self.Conn.write_faults conn) (tally self.old) }
        ensures listens { listens self.new ≡ listens self.old }
        ensures faults { faults self.new ≡ faults self.old };

    /// The lists that it tells have as many members as it counts.
    ghost is_tally: { (gate : Self) → IsTally (tally gate) };
}
