//! The two forms of a table's text.

/// The form of a table's text (a choice of this project).
#[derive(Clone, Copy, Debug, PartialEq, Eq)]
pub enum TableVersion {
    /// One rule a line, and nothing else.
    One,
    /// The first line is `.version 2`. Comments, empty lines, names of ranges and ports are allowed.
    Two,
}
