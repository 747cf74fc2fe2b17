//! The packets that came to each port of a node.

ghost use Rattle.std.specs.Prelude.{◌≡◌, ◌<◌, ◌++◌, ◌∷◌, ◌↔◌, [], IfOk, IsTrue, OnOk, length, map, replicate, slice_index_or, slice_set};
ghost use Rattle.std.specs.Vec.{vec_items};
ghost use Rattle.job_ports.specs.Arrivals.{HasRoomToArrive};

use ports::MAX_CAPACITY;
use spw::Packet;
use std::alloc::{AllocError, Global};
use std::marker::Model;

/// The most packets of a port: its queue has room for them and for the end mark.
const MOST_PACKETS: usize = MAX_CAPACITY as usize - 1;

/// The packets that came to each port, in order, by the number of the port. Contracts see them.
#[derive(Drop)]
pub struct Arrivals {
    packets: Vec<Vec<Packet>>,
}

impl Model for Arrivals {
    ghost use Rattle.std.specs.Prelude.{List, map};
    ghost use Rattle.std.specs.Vec.{vec_items};
    ghost use Rattle.spw.specs.Cargo.{Cargo};

    ghost Value = { List (List Cargo) };

    ghost view = { λ a. map vec_items a.packets.items };
}

impl Arrivals {
    /// This many ports, to which no packet came.
    pub(crate) fn new(alloc: Global, ports: u8) -> Result<Arrivals, AllocError>
        ensures { IfOk result (λ arrivals. arrivals ≡ replicate ports []) }
    {
        let mut packets = Vec::with_capacity(alloc, usize::from(ports))?;
        for _port in 0..ports {
            packets.push(Vec::new(alloc))?;
        }
        Ok(Arrivals { packets })
    }

    /// Whether there is such a port, and fewer packets came to it than it may have.
    pub(crate) fn has_room(&self, port: u8) -> bool
        ensures { IsTrue result ↔ HasRoomToArrive port self.now }
    {
        let place = usize::from(port);
        place < self.packets.len() && self.packets[place].len() < MOST_PACKETS
    }

    /// Puts a packet after those that came to the port.
    pub(crate) fn add(&mut self, port: u8, packet: Packet) -> Result<(), AllocError>
        requires { port < length self.old }
        ensures { OnOk result
            (self.new ≡ slice_set self.old port (slice_index_or self.old port [] ++ packet ∷ [])) }
    {
        let own = &mut self.packets[usize::from(port)];
        own.push(packet)?;
        Ok(())
    }

    /// The packets of each port.
    pub fn into_packets(self) -> Vec<Vec<Packet>>
        ensures { map vec_items result.items ≡ self }
    {
        self.packets
    }
}
