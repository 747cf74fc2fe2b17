//! What a worker reports on its way from packet to packet.

/// What a worker calls round each packet. The worker holds no lock meanwhile.
pub trait Gate {
    /// The worker took the packet of that number at that port, and is to judge it. Packets count from 0.
    fn before(&self, port: u8, number: u64);

    /// The worker dealt with the packet of that number at that port. If a reply was due, the worker handed it to the
    /// sink.
    fn after(&self, port: u8, number: u64);
}

/// A gate that does nothing.
#[derive(Clone, Copy, Debug)]
pub struct NoGate;

impl Gate for NoGate {
    fn before(&self, _port: u8, _number: u64) {}

    fn after(&self, _port: u8, _number: u64) {}
}
