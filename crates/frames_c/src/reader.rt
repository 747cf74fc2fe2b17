//! A reader of frames that takes memory only when it is made.

ghost use Rattle.std.specs.Prelude.{◌≡◌, ◌≢◌, ◌≤◌, [], Some, IfOk, length};
ghost use Rattle.frames.specs.Reading.{after_end, received_of, comes, first_reading, in_body, in_head, next, reading_step};
ghost use Rattle.frames.specs.declared.flags.Flag.TheVariants.{Last};
ghost use Rattle.frames_c.specs.Whole.{state_sum};
ghost use Rattle.frames_c.specs.Numbers.{received_numbers, numbers_if, packet_in};
ghost use Rattle.frames_c.specs.Taking.{take_whole, whole_in, whole_of};
ghost use Rattle.spw.specs.Rooms.{put_front};
ghost use Rattle.spw.specs.declared.packets.TheConstants.{MAX_PACKET};

use crate::byte_sums::bytes_sum;
use crate::numbers::{BRIDGE, PACKET, ReceivedNumbers, TIME};
use crate::room::PacketRoom;
use arrayvec::ArrayVec;
use frames::{Flag, HEAD_LENGTH, take_head};
use spw::{End, MAX_PACKET, put_front};
use std::alloc::{AllocError, Global};
use std::marker::Model;
use sums::after_word;

/// Reads frames from bytes as they come, and copies out the packets that they carry. It holds the head of a frame, and
/// at most 4,200 bytes of a packet, however many a frame says that it has. It holds what a frame is as its first byte:
/// each byte is one.
#[derive(Drop)]
pub struct Frames {
    head: ArrayVec<u8, HEAD_LENGTH>,
    code: u8,
    left: u128,
    held: PacketRoom,
}

impl Model for Frames {
    ghost use Rattle.std.specs.Prelude.{◌<◌, length};
    ghost use Rattle.frames.specs.Heads.{flag_of};
    ghost use Rattle.frames.specs.Reading.{Reading, reading};
    ghost use Rattle.frames.specs.declared.heads.TheConstants.{HEAD_LENGTH};

    ghost Value = { Reading };

    ghost view = { λ r. reading r.head.items (flag_of r.code) r.left r.held };

    ghost invariant = { λ r. length r.head.items < HEAD_LENGTH };
}

impl Frames {
    /// A reader that has read nothing.
    ///
    /// # Errors
    ///
    /// `AllocError` if memory was refused.
    pub fn new(alloc: Global) -> Result<Frames, AllocError>
        ensures { IfOk result (λ r. r ≡ first_reading) }
    {
        let held = PacketRoom::new(alloc)?;
        Ok(Frames {
            head: ArrayVec::new(),
            code: Flag::Part.code(),
            left: 0,
            held,
        })
    }

    /// How many bytes are left of a body.
    pub fn left(&self) -> u128
        ensures { result ≡ self.now.left }
    {
        self.left
    }

    /// The sum of all that is held, except how many bytes are left, and the bytes of a packet. Of a head no byte after
    /// its place is read, also if memory changed how many there are.
    pub fn state_sum(&self) -> u64
        ensures { result ≡ state_sum self.now }
    {
        let code = after_word(0, u64::from(self.code));
        let held = after_word(code, self.held.len() as u64);
        let head = after_word(held, self.head.len() as u64);
        if self.head.len() < HEAD_LENGTH {
            bytes_sum(head, self.head.as_slice())
        } else {
            head
        }
    }

    /// Takes a byte of a head.
    fn take_head(&mut self, byte: u8)
        requires { self.old.left ≡ 0 }
        ensures { self.new ≡ in_head self.old byte }
    {
        let mut flag = Flag::from_code(self.code);
        take_head(&mut self.head, &mut flag, &mut self.left, byte);
        self.code = flag.code();
    }

    /// Takes a byte of a body.
    fn take_body(&mut self, byte: u8)
        requires { self.old.left ≢ 0 }
        ensures { self.new ≡ in_body self.old byte }
    {
        self.left -= 1;
        if Flag::from_code(self.code).is_cargo() {
            self.held.keep(byte);
        }
    }

    /// Takes a byte.
    fn take_byte(&mut self, byte: u8)
        ensures { self.new ≡ next self.old byte }
    {
        if self.left == 0 {
            self.take_head(byte);
        } else {
            self.take_body(byte);
        }
    }

    /// Ends a packet after that many bytes. Its bytes go to the front of the room, and nothing is held.
    fn end_packet(&mut self, end: End, taken: u64, room: &mut [u8]) -> ReceivedNumbers
        requires { MAX_PACKET ≤ length room.old }
        ensures reported { result ≡ received_numbers taken (Some (received_of (Last end) self.old.held)) }
        ensures room { room.new ≡ put_front room.old self.old.held }
        ensures following { self.new
            ≡ record { head = self.old.head; flag = self.old.flag; left = self.old.left; held = [] } }
    {
        let bytes = self.held.bytes();
        put_front(room, bytes);
        let length = bytes.len() as u32;
        self.held.clear();
        ReceivedNumbers {
            taken,
            length,
            kind: PACKET,
            end: Flag::Last(end).code(),
            flag: 0,
            unused: 0,
        }
    }

    /// Ends a frame after that many bytes, and reports what is whole of what it brings, if anything is. The bytes of a
    /// packet go to the front of the room.
    fn end(&mut self, taken: u64, room: &mut [u8]) -> Option<ReceivedNumbers>
        requires { MAX_PACKET ≤ length room.old }
        ensures reported { result ≡ numbers_if taken (whole_of (received_of self.old.flag self.old.held)) }
        ensures room { room.new
            ≡ put_front room.old (packet_in (whole_of (received_of self.old.flag self.old.held))) }
        ensures following { self.new ≡ after_end self.old }
    {
        match Flag::from_code(self.code) {
            Flag::Last(end) => Some(self.end_packet(end, taken, room)),
            Flag::Part => None,
            Flag::SendTime | Flag::GotTime => Some(ReceivedNumbers {
                kind: TIME,
                ..ReceivedNumbers::nothing(taken)
            }),
            Flag::Other(flag) => Some(ReceivedNumbers {
                kind: BRIDGE,
                flag,
                ..ReceivedNumbers::nothing(taken)
            }),
        }
    }

    /// Takes a byte, the last of that many, and reports what came whole with it, if anything did. The bytes of a packet
    /// go to the front of the room.
    fn step(&mut self, byte: u8, taken: u64, room: &mut [u8]) -> Option<ReceivedNumbers>
        requires { MAX_PACKET ≤ length room.old }
        ensures reported { result ≡ numbers_if taken (whole_in (comes self.old byte)) }
        ensures room { room.new ≡ put_front room.old (packet_in (whole_in (comes self.old byte))) }
        ensures read { self.new ≡ reading_step self.old byte }
    {
        self.take_byte(byte);
        if self.left == 0 && self.head.is_empty() {
            self.end(taken, room)
        } else {
            None
        }
    }

    /// Takes bytes up to the first with which something came whole, or all of them if nothing does, and reports how
    /// many, and what came. The bytes of a packet go to the front of the room. The condition is room for the longest
    /// packet.
    pub fn take(&mut self, bytes: &[u8], room: &mut [u8]) -> ReceivedNumbers
        requires { MAX_PACKET ≤ length room.old }
        ensures reported { result
            ≡ received_numbers (take_whole self.old bytes.now).count (take_whole self.old bytes.now).received }
        ensures room { room.new ≡ put_front room.old (packet_in (take_whole self.old bytes.now).received) }
        ensures read { self.new ≡ (take_whole self.old bytes.now).next }
    {
        let mut taken = 0;
        let mut rest = bytes;
        while let [first, others @ ..] = rest {
            taken += 1;
            if let Some(received) = self.step(*first, taken, room) {
                return received;
            }
            rest = others;
        }
        ReceivedNumbers::nothing(taken)
    }
}
