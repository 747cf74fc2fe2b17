//! Where the bytes of a command lie.

/// Where the bytes of a command lie. The extended address names a bank, or the boot window.
#[derive(Clone, Copy, Debug, PartialEq, Eq)]
pub enum Place {
    /// The bank of that number.
    Bank(u8),
    /// The port's own staging.
    Staging,
    /// The port's load result.
    LoadResult,
    /// A control write: it loads the staged image.
    Control,
}
