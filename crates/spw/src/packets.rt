//! Packets.

ghost use Rattle.std.specs.Prelude.{◌≡◌, ◌<◌, ◌≤◌, ◌↔◌, length, vec_len, IsErrOf, IfOk, IfErr};

use crate::faults::LineFault;
use std::marker::Model;

/// How many bytes a packet has at most.
pub const MAX_PACKET: usize = 4200;

/// How a packet ends (ECSS-E-ST-50-52C, end of packet markers).
#[derive(Clone, Copy, Debug, PartialEq, Eq)]
pub enum End {
    /// The packet is whole.
    Eop,
    /// An error cut the packet off.
    Eep,
}

/// A packet as it arrives, without its path address: the first byte is the target logical
/// address. It has at most [`MAX_PACKET`] bytes.
#[derive(Debug, Drop)]
pub struct Packet {
    bytes: Vec<u8>,
    end: End,
}

impl Model for Packet {
    ghost use Rattle.std.specs.Prelude.{◌≤◌, vec_len};
    ghost use Rattle.spw.specs.Cargo.{Cargo};
    ghost use Rattle.spw.specs.declared.packets.TheConstants.{MAX_PACKET};

    ghost Value = { Cargo };

    ghost view = { λ p. record { bytes = p.bytes.items; end = p.end } };

    ghost invariant = { λ p. vec_len p.bytes ≤ MAX_PACKET };
}

impl Packet {
    /// The packet of these bytes with this marker.
    ///
    /// # Errors
    ///
    /// `TooLong` for more than [`MAX_PACKET`] bytes.
    pub fn new(bytes: Vec<u8>, end: End) -> Result<Packet, LineFault>
        ensures ok { IfOk result (λ p. p ≡ record { bytes = bytes.items; end = end }) }
        ensures too_long { IsErrOf result LineFault.TooLong ↔ (MAX_PACKET < length bytes.items) }
        ensures err { IfErr result (λ fault. fault ≡ LineFault.TooLong) }
    {
        if bytes.len() > MAX_PACKET {
            return Err(LineFault::TooLong);
        }
        Ok(Packet { bytes, end })
    }

    /// The bytes, in the order of arrival.
    pub fn bytes(&self) -> &[u8]
        ensures bytes { result.now ≡ self.now.bytes }
        ensures short { length result.now ≤ MAX_PACKET }
    {
        self.bytes.as_slice()
    }

    /// The end marker.
    pub fn end(&self) -> End
        ensures { result ≡ self.now.end }
    {
        self.end
    }
}
