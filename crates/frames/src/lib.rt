//! Frames that carry SpaceWire packets over a stream of bytes, as the bridges between SpaceWire and Ethernet write them
//! (SSDTP2).
#![tactic(auto)]

mod faults;
mod flags;
mod heads;
mod laws;
mod reader;
mod received;
mod replies;

pub use crate::faults::FrameFault;
pub use crate::flags::Flag;
pub use crate::heads::{FrameHead, HEAD_LENGTH, take_head};
pub use crate::laws::frames_are_read;
pub use crate::reader::FrameReader;
pub use crate::received::Received;
pub use crate::replies::reply_head;
