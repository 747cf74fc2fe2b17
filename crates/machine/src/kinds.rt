//! What the cells of a map are for.

/// What the cells of a map are for (a choice of this project).
#[derive(Clone, Copy, Debug, PartialEq, Eq)]
pub enum MapKind {
    /// Each cell counts the tickets that were drawn from it.
    Counter,
    /// Each cell is the greatest number that was shown to it.
    Peak,
}
