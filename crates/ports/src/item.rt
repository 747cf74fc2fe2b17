//! What a port's queue holds, and what is known of it.

use spw::Packet;
use std::collections::LinkedList;

/// What a queue holds.
#[derive(Debug, Drop)]
pub enum Item {
    /// A packet, as it came in.
    Data(Packet),
    /// The end mark: the worker that takes it ends.
    Mark,
}

/// What a pass may do, what it has put and what it has taken, in order: the view of a pass, which only contracts use.
/// No value of it is made.
pub struct Log {
    pub puts: bool,
    pub takes: bool,
    pub put: LinkedList<Item>,
    pub taken: LinkedList<Item>,
}
