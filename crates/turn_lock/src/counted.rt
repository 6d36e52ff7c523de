//! What a lock's value is.

ghost use Rattle.std.specs.Prelude.{◌≡◌, ℕ, List, length};

/// A value with a stored history, whose entries name their makers by numbers, and with a part that
/// no turn changes.
pub trait Counted {
    /// An entry of the history.
    type Entry;

    /// The part that no turn changes.
    type Fixed;

    ghost history: { Self → List Self.Entry };

    ghost maker: { Self.Entry → ℕ };

    ghost fixed: { Self → Self.Fixed };

    /// The number of entries of the history.
    fn count(&self) -> u64
        ensures { result ≡ length (history self.now) };
}
