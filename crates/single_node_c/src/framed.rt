//! Packets in frames: the calls of `frames_c`, for C.

ghost use Rattle.std.specs.Prelude.{◌≡◌, ◌++◌, ℕ, List, MatchOption, length};
ghost use Rattle.std.specs.declared.option.Option.TheVariants.{None};
ghost use Rattle.frames.specs.Heads.{head_bytes};
ghost use Rattle.frames.specs.Streams.{reply_frame_of};
ghost use Rattle.frames.specs.declared.flags.Flag.TheVariants.{Last};
ghost use Rattle.frames_c.specs.Calls.{OpensFrames, TakesFrames};
ghost use Rattle.single_node_c.specs.declared.codes.TheConstants.{NO_NODE, OK};
ghost use Rattle.spw.specs.declared.packets.End.TheVariants.{Eop};

use frames_c::{FramesHandle, ReceivedNumbers};
use std::alloc::Global;

/// Opens a reader of frames, which takes all memory that it needs. A handle that holds one keeps it.
#[unsafe(no_mangle)]
pub extern "C" fn sandbar_frames_open(alloc: Global, handle: &mut FramesHandle) -> u32
    ensures { OpensFrames handle.old.kept handle.new.kept result }
{
    handle.open(alloc)
}

/// Takes bytes up to the first that ends a frame, or all of them if none does, and reports how many, and what came. The
/// bytes of a packet go to the front of the room. It asks for no memory. At any code except `OK` all that was lent is
/// as before.
#[unsafe(no_mangle)]
pub extern "C" fn sandbar_frames_take(
    alloc: Global,
    handle: &mut FramesHandle,
    bytes: &[u8],
    packet: &mut [u8],
    received: &mut ReceivedNumbers,
) -> u32
    ensures { TakesFrames bytes.now packet.old packet.new received.old received.new
        handle.old.kept handle.new.kept result }
{
    handle.take(alloc, bytes, packet, received)
}

/// Ends a reader of frames, and gives back its memory. What it held of a packet is gone.
#[unsafe(no_mangle)]
pub extern "C" fn sandbar_frames_close(alloc: Global, handle: &mut FramesHandle) -> u32
    ensures code { MatchOption handle.old.kept (result ≡ NO_NODE) (λ _. result ≡ OK) }
    ensures closed { handle.new.kept ≡ None }
{
    handle.close(alloc)
}

/// Writes the bytes that come before a reply of that many bytes in the frame that carries it.
#[unsafe(no_mangle)]
pub extern "C" fn sandbar_frames_head(reply_length: u32, head: &mut [u8; 12])
    ensures bytes { head.new ≡ head_bytes (record { flag = Last Eop; length = reply_length }) }
    ensures frame { (reply : List ℕ) → length reply ≡ reply_length
        → head.new ++ reply ≡ reply_frame_of reply }
{
    frames_c::head(reply_length, head)
}
