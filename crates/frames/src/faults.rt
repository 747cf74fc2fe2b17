//! What is wrong with a frame.

ghost use Rattle.std.specs.Prelude.{◌≡◌, Some, IfSome};
ghost use Rattle.frames.specs.Faults.{frame_fault_code, frame_fault_of_code};

use thiserror::Error;

const FOR_BRIDGE: &str = "\
The first byte of a frame says what it carries: 00, 01 and 02 are bytes of a packet, 30 and 31 a time code. Any
other is for a bridge between the link and a network, as its link speed and its registers. There is no bridge
here: the frame is read away by its length, and nothing is sent of it.
Send only packets and time codes, or wait for no answer to such a frame.";

const CUT_OFF: &str = "\
The input ended before a frame had as many bytes as its head says, or after pieces of a packet (02) before the
frame that ends it (00 or 01). Of such a packet nothing is served. Lines of text are this too: as a head they
say that a frame is longer than any input.
Send each frame whole, and end each packet, before the connection is closed; for lines leave `--frames` out.";

/// What is wrong with a frame.
#[derive(Clone, Copy, Debug, PartialEq, Eq, Error)]
pub enum FrameFault {
    /// It carries neither bytes of a packet nor a time code, and so is for a bridge.
    #[error("the frame is for a bridge")]
    ForBridge,
    /// The input ended within it, or it was still to come: a packet goes on with it.
    #[error("the input ended within a frame or a packet")]
    CutOff,
}

impl FrameFault {
    /// The number by which outputs name the fault, 1 and 2 in the order of the variants.
    pub fn code(self) -> u8
        ensures value { result ≡ frame_fault_code self }
        ensures back { frame_fault_of_code result ≡ Some self }
    {
        match self {
            FrameFault::ForBridge => 1,
            FrameFault::CutOff => 2,
        }
    }

    /// The fault of a number, as [`FrameFault::code`] gives it, or `None` if no fault has it.
    pub fn from_code(code: u8) -> Option<FrameFault>
        ensures value { result ≡ frame_fault_of_code code }
        ensures number { IfSome result (λ fault. frame_fault_code fault ≡ code) }
    {
        match code {
            1 => Some(FrameFault::ForBridge),
            2 => Some(FrameFault::CutOff),
            _ => None,
        }
    }

    /// What to say of the fault beside its name: when it comes, and what to do, in lines of at most 113 columns.
    pub fn advice(self) -> &'static str {
        match self {
            FrameFault::ForBridge => FOR_BRIDGE,
            FrameFault::CutOff => CUT_OFF,
        }
    }
}
