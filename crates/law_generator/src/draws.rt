//! Draws: numbers that a seed determines, one after another.

ghost use Rattle.std.specs.Prelude.{◌≡◌, ◌<◌};
ghost use Rattle.law_generator.specs.Draws as spec;

/// Numbers that a seed determines, one after another.
#[derive(Drop)]
pub struct Draws {
    /// What the next number is made of: at first the seed.
    pub state: u64,
}

impl Draws {
    /// The next number, one below a limit.
    #[tactic(auto, unfolding(crate::specs::Draws::next))]
    pub fn below(&mut self, limit: u64) -> u64
        requires { 0 < limit }
        ensures state { self.new.state ≡ spec.next self.old.state }
        ensures value { result ≡ spec.drawn limit self.new.state }
        ensures bound { result < limit }
    {
        self.state = self
            .state
            .wrapping_mul(6_364_136_223_846_793_005)
            .wrapping_add(1_442_695_040_888_963_407);
        self.state / 8_589_934_592 % limit
    }
}
