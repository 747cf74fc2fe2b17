//! Frames as C programs read them: `include/sandbarstove_frames.h` declares what `single_node_c` exports of this.
//!
//! A reader takes bytes of frames as they come, as the reader of `frames` does, and asks for memory only when it is
//! made. C keeps a [`FramesHandle`], which points to it. Beside the reader is what says whether memory keeps it: a
//! reader that a flipped bit changed takes no byte.
#![tactic(auto)]

mod byte_sums;
mod calls;
mod checked;
mod codes;
mod handle;
mod held;
mod laws;
mod numbers;
mod reader;
mod room;

pub use crate::calls::head;
pub use crate::handle::FramesHandle;
pub use crate::laws::{changes_are_seen, frames_are_taken};
pub use crate::numbers::ReceivedNumbers;
