//! The struct of numbers that crosses. The header has the same fields in the same order.

ghost use Rattle.std.specs.Prelude.{◌≡◌, None};
ghost use Rattle.frames_c.specs.Numbers.{received_numbers};

use frames::Flag;

/// The kind if nothing came whole.
pub const NOTHING: u8 = 0;

/// The kind of a packet.
pub const PACKET: u8 = 1;

/// The kind of a time code.
pub const TIME: u8 = 2;

/// The kind of a frame for a bridge.
pub const BRIDGE: u8 = 3;

/// What bytes brought.
#[repr(C)]
#[derive(Clone, Copy)]
pub struct ReceivedNumbers {
    pub taken: u64,
    pub length: u32,
    pub kind: u8,
    pub end: u8,
    pub flag: u8,
    pub unused: u8,
}

impl ReceivedNumbers {
    /// That many bytes were taken, and brought nothing.
    pub fn nothing(taken: u64) -> ReceivedNumbers
        ensures { result ≡ received_numbers taken None }
    {
        ReceivedNumbers {
            taken,
            length: 0,
            kind: NOTHING,
            end: 0,
            flag: 0,
            unused: 0,
        }
    }
}
