//! Conflicts between pieces, as laws take them.

ghost use Rattle.std.specs.Prelude.{ℕ};

/// Which pieces conflict, by their numbers.
pub trait Conflicts {
    ghost conflict: { ℕ → ℕ → Type 0 };
}
