//! What is wrong with a line of a job.

ghost use Rattle.std.specs.Prelude.{◌≡◌, IfSome, Some, is_some, true};
ghost use Rattle.spw.specs.declared.faults.LineFault.TheVariants.{Memory};
ghost use Rattle.job_parts.specs.BadLines.{bad_line_number, bad_line_of_number};
ghost use Rattle.job_parts.specs.declared.bad_lines.BadLine.TheVariants.{Line};

use spw::LineFault;
use std::alloc::AllocError;
use thiserror::Error;

const NO_PORT: &str = "\
A line names a port that the node does not have: it has those below the number in `--ports` or in its file, else
one. In `sim` a line may also be empty, begin with a word that is no event, or have words too many. In `live` a
line `set` has not three words after it, or names bytes that lie outside the bank.
Give the node more ports, or compare the line with docs/COMMANDS.md.";

const NO_ROOM: &str = "\
`serve` reads all packets before it begins, at most 1,023 of each port, and the line ends one more.
Serve the file in parts.";

/// What is wrong with a line of a job: a packet line, a line of a piece of a packet, or an event line.
#[derive(Clone, Copy, Debug, PartialEq, Eq, Error)]
pub enum BadLine {
    /// Its port, its bytes or its marker are wrong, its packet is too long, or memory was refused.
    #[error("{0}")]
    Line(LineFault),
    /// The node has no such port.
    #[error("no such port, or no such event")]
    NoPort,
    /// The first word is that of no event, there is none, or there are too many words.
    #[error("no such port, or no such event")]
    NoEvent,
    /// The port has no room for the packet that the line ends.
    #[error("more packets than the port has room for")]
    NoRoom,
}

impl BadLine {
    /// The number that is printed of it: 1 to 5 as of a packet line, and 6 for a port or an event that does not exist.
    /// It is 7 for one packet too many.
    pub fn number(self) -> u8
        ensures { result ≡ bad_line_number self }
    {
        match self {
            BadLine::Line(fault) => fault.code(),
            BadLine::NoPort | BadLine::NoEvent => 6,
            BadLine::NoRoom => 7,
        }
    }

    /// What is wrong with a line if this number is printed of it; for 6 it is the port. `None` if nothing has the
    /// number.
    pub fn from_number(number: u8) -> Option<BadLine>
        ensures value { result ≡ bad_line_of_number number }
        ensures number { IfSome result (λ bad. bad_line_number bad ≡ number) }
        ensures all { (bad : BadLine) → bad_line_number bad ≡ number → is_some result ≡ true }
    {
        match number {
            6 => Some(BadLine::NoPort),
            7 => Some(BadLine::NoRoom),
            _ => Some(BadLine::Line(LineFault::from_code(number)?)),
        }
    }

    /// What it is and what is wanted, in a few words that come after its number.
    pub fn title(self) -> &'static str {
        match self {
            BadLine::Line(LineFault::NoPort) => "no port: a decimal number, 0 to 31, comes first",
            BadLine::Line(LineFault::BadHex) => {
                "bad hexadecimal digits: each byte has two, without 0x"
            }
            BadLine::Line(LineFault::BadMarker) => "no end marker: EOP, EEP or PART",
            BadLine::Line(LineFault::TooLong) => "packet too long: at most 4,200 bytes",
            BadLine::Line(LineFault::Memory) => "no memory",
            BadLine::NoPort => "no such port: the node has those below the number in --ports",
            BadLine::NoEvent => "no such event: take, count, ticket, peak, effect or publish",
            BadLine::NoRoom => {
                "more packets than the port has room for, 1,023: serve the file in parts"
            }
        }
    }

    /// When it comes, and what to do, in lines of at most 114 columns.
    pub fn advice(self) -> &'static str {
        match self {
            BadLine::Line(fault) => fault.advice(),
            BadLine::NoPort | BadLine::NoEvent => NO_PORT,
            BadLine::NoRoom => NO_ROOM,
        }
    }
}

impl From<LineFault> for BadLine {
    ghost from_gives = { λ fault bad. bad ≡ Line fault };

    fn from(fault: LineFault) -> Self {
        BadLine::Line(fault)
    }
}

impl From<AllocError> for BadLine {
    ghost from_gives = { λ _ bad. bad ≡ Line Memory };

    fn from(_refused: AllocError) -> Self {
        BadLine::Line(LineFault::Memory)
    }
}
