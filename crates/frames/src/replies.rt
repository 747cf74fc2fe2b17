//! The frame that carries a reply.

ghost use Rattle.std.specs.Prelude.{◌≡◌, ◌<◌, ◌^◌, ◌++◌};
ghost use Rattle.frames.specs.Heads.{head_bytes};
ghost use Rattle.frames.specs.Streams.{reply_frame_of};

use crate::flags::Flag;
use crate::heads::{FrameHead, HEAD_LENGTH};
use spw::End;

/// The head of the frame of a packet that ends in EOP with it.
fn head_of(reply: &[u8]) -> FrameHead
    ensures bytes { head_bytes result ++ reply.now ≡ reply_frame_of reply.now }
    ensures few { result.length < 256 ^ 10 }
{
    FrameHead {
        flag: Flag::Last(End::Eop),
        length: reply.len() as u128,
    }
}

/// The bytes before a reply in the frame that carries it. With the reply after them, its reply path in front as it is,
/// they are a packet that ends in EOP, in one frame.
pub fn reply_head(reply: &[u8]) -> [u8; HEAD_LENGTH]
    ensures { result ++ reply.now ≡ reply_frame_of reply.now }
{
    head_of(reply).bytes()
}
