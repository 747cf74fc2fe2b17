//! A command that an initiator requests of a target.

/// A command: its code, and the fields that differ from packet to packet.
#[derive(Clone, Copy, Debug)]
pub struct Request {
    /// The command code, bits 5 to 2 of the instruction.
    pub code: u8,
    /// The transaction identifier.
    pub transaction: u16,
    /// The extended address.
    pub extended: u8,
    /// The address.
    pub address: u32,
    /// The data length, in bytes.
    pub count: u32,
}
