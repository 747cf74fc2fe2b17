//! SpaceWire packets, and the lines of text that write them.
#![tactic(auto)]

mod blocks;
mod digits;
mod faults;
mod feed;
mod lines;
mod packets;
mod paths;
mod rooms;
mod text;
mod words;
mod written;

pub use crate::faults::LineFault;
pub use crate::feed::{Feed, packet_is_join};
pub use crate::lines::{PORTS, line_is_unambiguous, read_line, read_part, read_port, words_of};
pub use crate::packets::{End, MAX_PACKET, Packet};
pub use crate::paths::{FIRST_LOGICAL, without_path};
pub use crate::rooms::put_front;
pub use crate::text::{TextLines, lines_of};
pub use crate::words::first_word;
pub use crate::written::written_line_is_read;
