//! Choice: what a request asks for.

ghost use Rattle.std.specs.Prelude.{◌≡◌, ◌<◌, ◌⊎◌};
ghost use Rattle.law_generator.specs.Drawn as spec;

/// What a request asks for.
#[derive(Clone, Copy, Debug, PartialEq, Eq)]
pub enum Choice {
    /// A text of a section is substituted.
    Substitution,
    /// A section is repealed.
    Repeal,
    /// A modification is withdrawn.
    Withdrawal,
    /// A modification is corrected.
    Correction,
}

/// What a request asks for that draws a number below 8, behind so many law entries. Behind one alone there is no
/// modification yet.
#[tactic(auto, unfolding(crate::specs::Drawn::choice_of))]
pub fn choice_of(front: u32, number: u64) -> Choice
    ensures value { result ≡ spec.choice_of front number }
    ensures recorded { (result ≡ Choice.Withdrawal) ⊎ (result ≡ Choice.Correction) → 1 < front }
{
    if number < 5 {
        return Choice::Substitution;
    }
    if number == 5 {
        return Choice::Repeal;
    }
    if front <= 1 {
        return Choice::Substitution;
    }
    if number == 6 {
        return Choice::Withdrawal;
    }
    Choice::Correction
}
