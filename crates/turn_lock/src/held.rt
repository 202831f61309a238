//! Held: what a value under the turns shows of itself.

ghost use Rattle.std.specs.Prelude.{◌≡◌, ℕ, List, length};

/// A value with a history, a list that only grows, and an origin, which never changes.
pub trait Held {
    /// An entry of the history.
    type Item;

    // The entries so far, oldest first.
    ghost history: { Self → List Self.Item };

    // Numbers that say where the value comes from.
    ghost origin: { Self → List ℕ };

    /// The number of entries.
    fn count(&self) -> u64
        ensures { result ≡ length (history self.now) };
}
