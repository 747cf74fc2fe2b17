//! What a frame brings.

use spw::Packet;

/// What came with the last byte of a frame.
#[derive(Debug, Drop)]
pub enum Received {
    /// A packet, which ends with the frame.
    Whole(Packet),
    /// Bytes of a packet that goes on.
    Piece,
    /// A time code.
    Time,
    /// The first byte of a frame that carries neither bytes of a packet nor a time code.
    Other(u8),
}
