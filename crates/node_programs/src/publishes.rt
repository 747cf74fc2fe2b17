//! What was published.

use bver::Accepted;

/// A program, and the slot for which it was published. No value of it is made.
pub struct Publish {
    /// The slot.
    pub slot: u8,
    /// The program.
    pub program: Accepted,
}
