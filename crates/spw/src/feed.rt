//! Packets that arrive in pieces.

ghost use Rattle.std.specs.Prelude.{◌≡◌, ◌<◌, ◌≤◌, ◌+◌, ◌↔◌, ◌++◌, [], length, take, IsErrOf, IfOk, IfErr, OnOk, OnErr};
ghost use Rattle.std.specs.Bool.{Decides};
ghost use Rattle.spw.specs.Feeding.{PacketIsJoin};

use crate::faults::LineFault;
use crate::packets::{End, MAX_PACKET, Packet};
use bytes::BytesMut;
use std::alloc::{AllocError, Global};
use std::marker::Model;

/// The bytes of a packet that has not ended yet, in the order of arrival. Making it takes room for the longest packet,
/// so that a piece needs no memory.
#[derive(Drop)]
pub struct Feed {
    held: BytesMut,
    alloc: Global,
}

impl Model for Feed {
    ghost use Rattle.std.specs.Prelude.{ℕ, List, ◌≤◌, ◌+◌, length};
    ghost use Rattle.spw.specs.declared.packets.TheConstants.{MAX_PACKET};

    ghost Value = { List ℕ };

    ghost view = { λ f. f.held.items };

    ghost invariant = { λ f. (length f.held.items ≤ MAX_PACKET) × (MAX_PACKET ≤ length f.held.items + f.held.spare) };
}

impl Feed {
    /// A feed that holds nothing.
    ///
    /// # Errors
    ///
    /// `AllocError` if memory was refused.
    pub fn new(alloc: Global) -> Result<Feed, AllocError>
        ensures { IfOk result (λ f. f ≡ []) }
    {
        let held = BytesMut::with_capacity(alloc, MAX_PACKET)?;
        Ok(Feed { held, alloc })
    }

    /// Whether nothing is held.
    pub fn is_empty(&self) -> bool
        ensures { Decides result (self.now ≡ []) }
    {
        self.held.is_empty()
    }

    /// Takes a piece: it follows what is held.
    ///
    /// # Errors
    ///
    /// `TooLong` if the two together have more than [`MAX_PACKET`] bytes. What is held stays.
    pub fn piece(&mut self, bytes: &[u8]) -> Result<(), LineFault>
        ensures ok { OnOk result (self.new ≡ self.old ++ bytes.now) }
        ensures too_long { IsErrOf result LineFault.TooLong ↔ (MAX_PACKET < length self.old + length bytes.now) }
        ensures err { IfErr result (λ fault. fault ≡ LineFault.TooLong) }
        ensures kept { OnErr result (self.new ≡ self.old) }
    {
        if bytes.len() > MAX_PACKET - self.held.len() {
            return Err(LineFault::TooLong);
        }
        if self.held.extend_from_slice(bytes).is_err() {
            unreachable!();
        }
        Ok(())
    }

    /// Takes as many of the bytes as a packet has room for after what is held, and drops the others.
    pub fn fill(&mut self, bytes: &[u8])
        ensures filled { self.new ≡ take MAX_PACKET (self.old ++ bytes.now) }
        ensures short { length self.old ≤ MAX_PACKET }
    {
        let room = MAX_PACKET - self.held.len();
        let count = room.min(bytes.len());
        if self.held.extend_from_slice(&bytes[..count]).is_err() {
            unreachable!();
        }
    }

    /// Ends the packet: gives the packet of what is held, with that marker. Nothing is held then.
    ///
    /// # Errors
    ///
    /// `AllocError` if memory was refused. What is held stays.
    pub fn close(&mut self, end: End) -> Result<Packet, AllocError>
        ensures ok { IfOk result (λ p. p ≡ record { bytes = self.old; end = end }) }
        ensures empty { OnOk result (self.new ≡ []) }
        ensures kept { OnErr result (self.new ≡ self.old) }
    {
        let held = self.held.as_slice();
        let mut bytes = Vec::with_capacity(self.alloc, held.len())?;
        bytes.extend_from_slice(held)?;
        let Ok(packet) = Packet::new(bytes, end) else {
            unreachable!();
        };
        self.held.clear();
        Ok(packet)
    }
}

/// A law and no work: a packet is the join of its pieces, however it was cut.
pub fn packet_is_join()
    ensures { PacketIsJoin }
{}
