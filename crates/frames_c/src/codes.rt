//! What a call answers: 0, or why it did nothing. The header has the same numbers for the calls on nodes.

/// It was done.
pub const OK: u32 = 0;

/// Memory was refused.
pub const NO_MEMORY: u32 = 1;

/// The reader is not open.
pub const NO_NODE: u32 = 2;

/// The room for a packet is too small.
pub const NO_ROOM: u32 = 11;

/// The reader is open.
pub const IS_OPEN: u32 = 13;

/// The reader is not as the last call left it: a bit of memory flipped.
pub const DAMAGED: u32 = 15;
