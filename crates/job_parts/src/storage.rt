//! The files that a job reads and writes.

ghost use Rattle.std.specs.Prelude.{ℕ, List, Option, Bool, Some, None, true, false, MatchResult};

use std::alloc::Global;

/// A file cannot be read, or cannot be written.
#[derive(Clone, Copy, Debug, PartialEq, Eq)]
pub struct Cannot;

/// Files by their names. Each implementer says what a read gives and what a write does.
pub trait Files {
    /// What a read of a name gave, between the state before and the state after: its bytes, or
    /// none.
    ghost reads: { Self → List ℕ → Option (List ℕ) → Self → Type 0 };

    /// What a write of a name was given, between those states, and whether it was taken.
    ghost writes: { Self → List ℕ → List ℕ → Bool → Self → Type 0 };

    /// The bytes of the file `name`.
    ///
    /// # Errors
    ///
    /// `Cannot` if the file cannot be read, or memory is refused.
    fn read(&mut self, alloc: Global, name: &str) -> Result<Vec<u8>, Cannot>
        ensures gave { MatchResult result
            (λ bytes. reads self.old name.now (Some bytes.items) self.new)
            (λ _. reads self.old name.now None self.new) };

    /// Makes `bytes` the content of the file `name`.
    ///
    /// # Errors
    ///
    /// `Cannot` if the file cannot be written.
    fn write(&mut self, name: &str, bytes: &[u8]) -> Result<(), Cannot>
        ensures took { MatchResult result
            (λ _. writes self.old name.now bytes.now true self.new)
            (λ _. writes self.old name.now bytes.now false self.new) };
}
