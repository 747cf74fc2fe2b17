//! The calls. Each answers a code: 0, or why it did nothing.

ghost use Rattle.std.specs.Prelude.{◌≡◌, ◌++◌, ℕ, List, MatchOption, IfOk, length};
ghost use Rattle.std.specs.declared.option.Option.TheVariants.{None, Some};
ghost use Rattle.frames.specs.Heads.{head_bytes};
ghost use Rattle.frames.specs.Reading.{first_reading};
ghost use Rattle.frames.specs.Streams.{reply_frame_of};
ghost use Rattle.frames.specs.declared.flags.Flag.TheVariants.{Last};
ghost use Rattle.frames_c.specs.Calls.{OpensFrames, TakesFrames};
ghost use Rattle.frames_c.specs.Whole.{checked};
ghost use Rattle.frames_c.specs.declared.codes.TheConstants.{NO_NODE, OK};
ghost use Rattle.spw.specs.declared.packets.End.TheVariants.{Eop};
ghost use Rattle.spw.specs.declared.packets.TheConstants.{MAX_PACKET};

use crate::checked::CheckedFrames;
use crate::codes::{DAMAGED, IS_OPEN, NO_MEMORY, NO_NODE, NO_ROOM, OK};
use crate::handle::FramesHandle;
use crate::held::{put_in, take_out};
use crate::numbers::ReceivedNumbers;
use frames::{Flag, FrameHead, HEAD_LENGTH};
use spw::{End, MAX_PACKET};
use std::alloc::{AllocError, Global};

/// A reader that has read nothing, in a box.
fn fresh(alloc: Global) -> Result<Box<CheckedFrames>, AllocError>
    ensures { IfOk result (λ frames. frames.value ≡ checked first_reading) }
{
    let frames = CheckedFrames::new(alloc)?;
    match Box::new(alloc, frames) {
        Ok(frames) => Ok(frames),
        Err(_) => Err(AllocError),
    }
}

/// Takes bytes, if memory kept the reader, and there is room for a packet, and gives a code.
fn take_into(
    frames: &mut CheckedFrames,
    bytes: &[u8],
    packet: &mut [u8],
    received: &mut ReceivedNumbers,
) -> u32
    ensures { TakesFrames bytes.now packet.old packet.new received.old received.new
        (Some frames.old) (Some frames.new) result }
{
    if !frames.is_whole() {
        return DAMAGED;
    }
    if packet.len() < MAX_PACKET {
        return NO_ROOM;
    }
    *received = frames.take(bytes, packet);
    OK
}

impl FramesHandle {
    /// Opens a reader, which takes all memory that it needs. A handle that holds one keeps it.
    pub fn open(&mut self, alloc: Global) -> u32
        ensures { OpensFrames self.old.kept self.new.kept result }
    {
        if let Some(frames) = take_out(alloc, self) {
            put_in(alloc, self, frames);
            return IS_OPEN;
        }
        match fresh(alloc) {
            Ok(frames) => {
                put_in(alloc, self, frames);
                OK
            }
            Err(AllocError) => NO_MEMORY,
        }
    }

    /// Takes bytes up to the first with which something came whole, or all of them if nothing does, and reports how
    /// many, and what came. The bytes of a packet go to the front of the room. It asks for no memory. At any code
    /// except `OK` all that was lent is as before.
    pub fn take(
        &mut self,
        alloc: Global,
        bytes: &[u8],
        packet: &mut [u8],
        received: &mut ReceivedNumbers,
    ) -> u32
        ensures { TakesFrames bytes.now packet.old packet.new received.old received.new
            self.old.kept self.new.kept result }
    {
        let Some(mut frames) = take_out(alloc, self) else {
            return NO_NODE;
        };
        let code = take_into(&mut frames, bytes, packet, received);
        put_in(alloc, self, frames);
        code
    }

    /// Ends a reader, and gives back its memory. What it held of a packet is gone.
    pub fn close(&mut self, alloc: Global) -> u32
        ensures code { MatchOption self.old.kept (result ≡ NO_NODE) (λ _. result ≡ OK) }
        ensures closed { self.new.kept ≡ None }
    {
        match take_out(alloc, self) {
            Some(_ended) => OK,
            None => NO_NODE,
        }
    }
}

/// The bytes before a reply of that many bytes in the frame that carries it. With the reply after them they are a
/// packet that ends in EOP, in one frame.
pub fn head(reply_length: u32, head: &mut [u8; HEAD_LENGTH])
    ensures bytes { head.new ≡ head_bytes (record { flag = Last Eop; length = reply_length }) }
    ensures frame { (reply : List ℕ) → length reply ≡ reply_length
        → head.new ++ reply ≡ reply_frame_of reply }
{
    let whole = FrameHead {
        flag: Flag::Last(End::Eop),
        length: u128::from(reply_length),
    };
    *head = whole.bytes();
}
