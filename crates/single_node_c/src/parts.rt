//! What a packet asks for, in numbers.

ghost use Rattle.std.specs.Prelude.{◌≡◌};
ghost use Rattle.rmap.specs.Command.{discard_of};
ghost use Rattle.single_node_c.specs.Parts.{command_number, discard_in, command_parts_of, served_parts};

use node_parts::{Served, Stop};
use rmap::{Command, Kind};
use spw::End;

/// The number of a packet that is no command, and of one with an unused command code.
pub const NO_COMMAND: u8 = 0;

/// The number of a read.
pub const READ: u8 = 1;

/// The number of a write.
pub const WRITE: u8 = 2;

/// The number of a read-modify-write.
pub const RMW: u8 = 3;

/// What a packet asks for: what kind of command it is, and its extended address, address and data length.
#[derive(Clone, Copy, Debug, PartialEq, Eq)]
pub struct ServedParts {
    pub command: u8,
    pub extended: u8,
    pub address: u32,
    pub length: u32,
}

/// The number of a kind of command.
fn command_number(kind: Kind) -> u8
    ensures { result ≡ command_number kind }
{
    match kind {
        Kind::Unused => NO_COMMAND,
        Kind::Read => READ,
        Kind::Write => WRITE,
        Kind::Rmw => RMW,
    }
}

/// What a command asks for.
fn command_parts_of(command: &Command) -> ServedParts
    ensures { result ≡ command_parts_of command.now }
{
    ServedParts {
        command: command_number(command.kind()),
        extended: command.extended(),
        address: command.address(),
        length: command.length(),
    }
}

impl ServedParts {
    /// What the packet of these bytes asked for, of which that became. If it was discarded, this is all zeros.
    pub fn of(served: Served, bytes: &[u8], end: End) -> ServedParts
        requires { discard_of bytes.now ≡ discard_in served }
        ensures { result ≡ served_parts (record { bytes = bytes.now; end = end }) }
    {
        match served {
            Served::Stopped(Stop::Discarded(_)) => ServedParts {
                command: NO_COMMAND,
                extended: 0,
                address: 0,
                length: 0,
            },
            Served::Stopped(Stop::Answered(_))
            | Served::Unread
            | Served::Done(_)
            | Served::Window(_) => command_parts_of(&Command::of_bytes(bytes, end)),
        }
    }
}
