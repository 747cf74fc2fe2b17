//! A reader of frames beside what says whether memory keeps it.

ghost use Rattle.std.specs.Prelude.{◌≡◌, ◌≤◌, IfOk, length};
ghost use Rattle.frames.specs.Reading.{first_reading};
ghost use Rattle.frames_c.specs.Whole.{checked, complement_of_left, is_whole};
ghost use Rattle.frames_c.specs.Numbers.{received_numbers, packet_in};
ghost use Rattle.frames_c.specs.Taking.{take_whole};
ghost use Rattle.spw.specs.Rooms.{put_front};
ghost use Rattle.spw.specs.declared.packets.TheConstants.{MAX_PACKET};

use crate::numbers::ReceivedNumbers;
use crate::reader::Frames;
use std::alloc::{AllocError, Global};
use std::marker::Model;

/// A reader, with the complement of its count of bytes that are left, and a sum of the rest. No invariant says that they agree:
/// memory may change between two calls.
#[derive(Drop)]
pub struct CheckedFrames {
    frames: Frames,
    complement_of_left: u128,
    sum: u64,
}

impl Model for CheckedFrames {
    ghost use Rattle.frames_c.specs.Whole.{CheckedReading};

    ghost Value = { CheckedReading };

    ghost view = { λ c. record { reading = c.frames; complement_of_left = c.complement_of_left; sum = c.sum } };
}

/// The complement of a count.
fn complement_of_left(left: u128) -> u128
    ensures { result ≡ complement_of_left left }
{
    u128::MAX - left
}

impl CheckedFrames {
    /// A reader that has read nothing.
    ///
    /// # Errors
    ///
    /// `AllocError` if memory was refused.
    pub fn new(alloc: Global) -> Result<CheckedFrames, AllocError>
        ensures { IfOk result (λ c. c ≡ checked first_reading) }
    {
        let frames = Frames::new(alloc)?;
        let sum = frames.state_sum();
        let complement_of_left = complement_of_left(frames.left());
        Ok(CheckedFrames {
            frames,
            complement_of_left,
            sum,
        })
    }

    /// Whether the reader is as the last call left it, as far as its count beside its complement and its sum say.
    pub fn is_whole(&self) -> bool
        ensures { result ≡ is_whole self.now }
    {
        self.complement_of_left == complement_of_left(self.frames.left())
            && self.sum == self.frames.state_sum()
    }

    /// Takes bytes up to the first with which something came whole, or all of them if nothing does, and reports how
    /// many, and what came. The bytes of a packet go to the front of the room. The condition is room for the longest
    /// packet.
    pub fn take(&mut self, bytes: &[u8], room: &mut [u8]) -> ReceivedNumbers
        requires { MAX_PACKET ≤ length room.old }
        ensures reported { result
            ≡ received_numbers (take_whole self.old.reading bytes.now).count (take_whole self.old.reading bytes.now).received }
        ensures room { room.new ≡
            put_front room.old (packet_in (take_whole self.old.reading bytes.now).received) }
        ensures read { self.new ≡ checked (take_whole self.old.reading bytes.now).next }
    {
        let received = self.frames.take(bytes, room);
        self.complement_of_left = complement_of_left(self.frames.left());
        self.sum = self.frames.state_sum();
        received
    }
}
