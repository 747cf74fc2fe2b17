//! Why a packet line was refused.

ghost use Rattle.std.specs.Prelude.{◌≡◌, Some, IfSome};
ghost use Rattle.spw.specs.Fault.{line_fault_code, fault_of_hex, line_fault_of_code};
ghost use Rattle.spw.specs.declared.faults.LineFault.TheVariants.{Memory};

use hex::FromHexError;
use std::alloc::AllocError;
use thiserror::Error;

const NO_PORT: &str = "\
A line begins with the number of its port, 0 to 31 in decimal digits, without a sign. In `live` a line of over
16,384 bytes that begins with no port and no `set` is this too.
Put the port before the bytes, with a space after it.";

const BAD_HEX: &str = "\
Each word between the port and the marker is an even number of hexadecimal digits, two a byte, without `0x`.
In `live` the words after `set` are two digits, eight digits, and digits two a byte.
Look for a byte that is written with one digit, or for a sign that is no digit.";

const BAD_MARKER: &str = "\
A line ends in `EOP`, `EEP` or, if the packet goes on with a later line, `PART`, in capitals. A carriage
return belongs to the word before it, so lines that end in CR LF have no marker.
End the line with a marker, and the lines of the file with a line feed only.";

const TOO_LONG: &str = "\
A packet has at most 4,200 bytes, also one that comes in pieces; in `live` a line has at most 16,384.
Send the data in shorter packets.";

const MEMORY: &str = "\
The process was refused memory while the line was read.
Give the process more memory.";

/// Why a packet line was refused. The tests are in the order `NoPort`, `BadMarker`, `BadHex`, `TooLong`.
#[derive(Clone, Copy, Debug, PartialEq, Eq, Error)]
pub enum LineFault {
    /// The first word is no port: a decimal number from 0 to 31 without a sign.
    #[error("no port")]
    NoPort,
    /// A word between port and marker is not an even number of hexadecimal digits.
    #[error("bad hexadecimal digits")]
    BadHex,
    /// The words after the port do not end in `EOP` or `EEP`.
    #[error("bad end marker")]
    BadMarker,
    /// The packet has more than [`MAX_PACKET`](crate::MAX_PACKET) bytes.
    #[error("packet too long")]
    TooLong,
    /// Memory was refused.
    #[error("no memory")]
    Memory,
}

impl LineFault {
    /// The number of the fault, 1 to 5, as programs print it.
    pub fn code(self) -> u8
        ensures value { result ≡ line_fault_code self }
        ensures back { line_fault_of_code result ≡ Some self }
    {
        match self {
            LineFault::NoPort => 1,
            LineFault::BadHex => 2,
            LineFault::BadMarker => 3,
            LineFault::TooLong => 4,
            LineFault::Memory => 5,
        }
    }

    /// The fault of a number, as [`LineFault::code`] gives it, or `None` if no fault has it.
    pub fn from_code(code: u8) -> Option<LineFault>
        ensures value { result ≡ line_fault_of_code code }
        ensures number { IfSome result (λ fault. line_fault_code fault ≡ code) }
    {
        match code {
            1 => Some(LineFault::NoPort),
            2 => Some(LineFault::BadHex),
            3 => Some(LineFault::BadMarker),
            4 => Some(LineFault::TooLong),
            5 => Some(LineFault::Memory),
            _ => None,
        }
    }

    /// What to say of the fault beside its name: when it comes, and what to do, in lines of at most 113 columns.
    pub fn advice(self) -> &'static str {
        match self {
            LineFault::NoPort => NO_PORT,
            LineFault::BadHex => BAD_HEX,
            LineFault::BadMarker => BAD_MARKER,
            LineFault::TooLong => TOO_LONG,
            LineFault::Memory => MEMORY,
        }
    }
}

impl From<AllocError> for LineFault {
    ghost from_gives = { λ _ fault. fault ≡ Memory };

    fn from(_refused: AllocError) -> LineFault {
        LineFault::Memory
    }
}

impl From<FromHexError> for LineFault {
    ghost from_gives = { λ refused fault. fault ≡ fault_of_hex refused };

    fn from(refused: FromHexError) -> LineFault {
        match refused {
            FromHexError::OutOfMemory => LineFault::Memory,
            FromHexError::InvalidHexCharacter { .. }
            | FromHexError::OddLength
            | FromHexError::InvalidStringLength => LineFault::BadHex,
        }
    }
}
