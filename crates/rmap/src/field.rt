//! The offsets of the fields of a header, in the order of its bytes (ECSS-E-ST-50-52C, write command format, read
//! command format, read-modify-write command format). The reply address lies between the front and the tail.

/// The target logical address, in the front.
pub const TARGET: usize = 0;

/// The protocol identifier, in the front.
pub const PROTOCOL: usize = 1;

/// The instruction, in the front.
pub const INSTRUCTION: usize = 2;

/// The key, in the front.
pub const KEY: usize = 3;

/// The initiator logical address, in the tail.
pub const INITIATOR: usize = 0;

/// The transaction identifier, two bytes of the tail.
pub const TRANSACTION: usize = 1;

/// The extended address, in the tail.
pub const EXTENDED: usize = 3;

/// The address, four bytes of the tail.
pub const ADDRESS: usize = 4;

/// The data length, three bytes of the tail.
pub const LENGTH: usize = 8;

/// The header CRC, in the tail.
pub const HEADER_CRC: usize = 11;

/// How many bytes a header has without its reply address and its CRC.
pub const CHECKED: usize = 15;
