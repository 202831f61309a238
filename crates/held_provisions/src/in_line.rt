//! InLine: what stands in a line of works.

ghost use Rattle.std.specs.Prelude.{◌≡◌};
ghost use Rattle.law_register.specs.declared.register.known.Known.{Known as KnownValue};

use law_register::Known;

/// What stands in a line of works: it has what is known of one.
pub trait InLine {
    /// What is known of the work.
    ghost known_of: { Self → KnownValue };

    /// What is known of the work.
    fn known(&self) -> &Known
        ensures { result.now ≡ known_of self.now };
}

impl InLine for Known {
    ghost known_of = { λ known. known };

    fn known(&self) -> &Known {
        self
    }
}
