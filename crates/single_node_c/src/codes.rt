//! What a call answers: 0, or why it did nothing.

/// It was done.
pub const OK: u32 = 0;

/// Memory was refused.
pub const NO_MEMORY: u32 = 1;

/// The node, or the reader of frames, is not open.
pub const NO_NODE: u32 = 2;

/// Ports, banks or a journal's room are outside their limits.
pub const BAD_CONFIG: u32 = 3;

/// The maps are none that a node may have.
pub const BAD_MAPS: u32 = 4;

/// The bytes are no image.
pub const BAD_IMAGE: u32 = 5;

/// The verifier refuses the program.
pub const REFUSED: u32 = 6;

/// There is no such port.
pub const NO_PORT: u32 = 7;

/// There is no such bank.
pub const NO_BANK: u32 = 8;

/// The end of the packet is neither of the two.
pub const BAD_END: u32 = 9;

/// The packet has too many bytes.
pub const TOO_LONG: u32 = 10;

/// The room is too small, or bytes lie outside the bank.
pub const NO_ROOM: u32 = 11;

/// The journal has no such entry.
pub const NO_ENTRY: u32 = 12;

/// The node, or the reader of frames, is open.
pub const IS_OPEN: u32 = 13;

/// The node has no such map or cell.
pub const NO_CELL: u32 = 14;

/// What memory holds is not what was written there: a bit of it flipped.
pub const DAMAGED: u32 = 15;

/// The number is no part of a node that is scrubbed.
pub const NO_PART: u32 = 16;

/// There is no such slot: a slot is 0 to 3.
pub const BAD_SLOT: u32 = 17;

/// No generation is left: 4,294,967,295 programs were published.
pub const NO_GENERATION: u32 = 18;
