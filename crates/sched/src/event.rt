//! Events, and what they come to.

ghost use Rattle.std.specs.Prelude.{◌≡◌};
ghost use Rattle.sched.specs.History.{port_of};

use crate::reply::ReplyBytes;
use rmap::{Discard, Status};
use spw::Packet;

/// One atomic step of one port of a node.
#[derive(Debug, Drop)]
pub enum Event {
    /// The port takes a packet.
    Take(u8, Packet),
    /// The port's program asks for the word of a cell.
    Count(u8),
    /// The port's program draws a ticket.
    Ticket(u8),
    /// The port's program raises the peak of a cell.
    Peak(u8),
    /// The port's judged command takes its effect, at a bank or in the port's staging.
    Effect(u8),
    /// The port's judged control write loads what the port staged.
    Publish(u8),
}

impl Event {
    /// The port of the event.
    pub fn port(&self) -> u8
        ensures { result ≡ port_of self.now }
    {
        match self {
            Event::Take(port, _)
            | Event::Count(port)
            | Event::Ticket(port)
            | Event::Peak(port)
            | Event::Effect(port)
            | Event::Publish(port) => *port,
        }
    }
}

/// What an event comes to.
#[derive(Debug, Drop)]
pub enum Outcome {
    /// It is no step of this moment, or there is no such port.
    Refused,
    /// The packet is no command, and gets no reply.
    Discarded(Discard),
    /// A check of the header holds: its status, and the reply that is due.
    Answered(Status, ReplyBytes),
    /// The port took the command, and the program of this generation judges it.
    Taken(u32),
    /// The helper answered this.
    Told(u64),
    /// The command ended with this status and this reply, and with the load result if a load was decided.
    Done(Status, ReplyBytes, Option<[u8; 8]>),
}
