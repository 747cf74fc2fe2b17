//! Room for a packet.

ghost use Rattle.std.specs.Prelude.{◌≡◌, ◌≤◌, [], length, IfOk};
ghost use Rattle.frames.specs.Reading.{keep};

use bytes::BytesMut;
use spw::{FIRST_LOGICAL, MAX_PACKET};
use std::alloc::{AllocError, Global};
use std::marker::Model;

/// The bytes of a packet that has not ended yet. Making it takes room for the longest packet.
#[derive(Drop)]
pub struct PacketRoom {
    held: BytesMut,
}

impl Model for PacketRoom {
    ghost use Rattle.std.specs.Prelude.{ℕ, List, ◌≤◌, ◌+◌, length};
    ghost use Rattle.spw.specs.declared.packets.TheConstants.{MAX_PACKET};

    ghost Value = { List ℕ };

    ghost view = { λ r. r.held.items };

    ghost invariant = { λ r. (length r.held.items ≤ MAX_PACKET) × (MAX_PACKET ≤ length r.held.items + r.held.spare) };
}

impl PacketRoom {
    /// Room that holds nothing.
    ///
    /// # Errors
    ///
    /// `AllocError` if memory was refused.
    pub fn new(alloc: Global) -> Result<PacketRoom, AllocError>
        ensures { IfOk result (λ r. r ≡ []) }
    {
        let held = BytesMut::with_capacity(alloc, MAX_PACKET)?;
        Ok(PacketRoom { held })
    }

    /// Puts a byte of a packet after what is held. A path address byte before the packet begins is dropped, and so is
    /// what would be past [`MAX_PACKET`] bytes.
    pub fn keep(&mut self, byte: u8)
        ensures { self.new ≡ keep self.old byte }
    {
        if self.held.len() == 0 && byte < FIRST_LOGICAL {
            return;
        }
        if self.held.len() < MAX_PACKET {
            self.held.extend_reserved(&[byte]);
        }
    }

    /// How many bytes are held.
    pub fn len(&self) -> usize
        ensures { result ≡ length self.now }
    {
        self.held.len()
    }

    /// What is held.
    pub fn bytes(&self) -> &[u8]
        ensures bytes { result.now ≡ self.now }
        ensures short { length result.now ≤ MAX_PACKET }
    {
        self.held.as_slice()
    }

    /// Holds nothing from now on.
    pub fn clear(&mut self)
        ensures { self.new ≡ [] }
    {
        self.held.clear();
    }
}
