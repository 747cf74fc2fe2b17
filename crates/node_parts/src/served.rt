//! What became of a packet.

use crate::stop::Stop;
use bank::Applied;
use rmap::Status;

/// What became of a packet.
#[derive(Clone, Copy, Debug, PartialEq, Eq)]
pub enum Served {
    /// It went no further than its header.
    Stopped(Stop),
    /// No program judged it.
    Unread,
    /// It was judged, and ended so at its bank.
    Done(Applied),
    /// It was judged, and ended with that status in the boot window.
    Window(Status),
}
