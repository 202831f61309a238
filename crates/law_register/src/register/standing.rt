//! Whether an id that is recorded stands.

ghost use Rattle.std.specs.Prelude.{◌≡◌};

/// Whether a modification stands, or which law entry withdrew it.
#[derive(Clone, Copy, Debug, PartialEq, Eq)]
pub enum Standing {
    /// It stands.
    Live,
    /// The law entry of this number withdrew it.
    Withdrawn(u32),
}

impl Standing {
    ghost use Rattle.law_register.specs.Register.Standings.{is_live};

    /// Whether it stands.
    pub fn is_live(self) -> bool
        ensures { result ≡ is_live self }
    {
        matches!(self, Standing::Live)
    }
}
