//! What a check of a command's header finds.

ghost use Rattle.std.specs.Prelude.{◌≡◌};
ghost use Rattle.rmap.specs.Checks.{header_status};

use crate::instruction::Instruction;
use crate::status::Status;

/// Why the bytes of a command have no place.
#[derive(Clone, Copy, Debug, PartialEq, Eq)]
pub enum NoPlace {
    /// The extended address is that of no bank, and not that of the boot window.
    NoBank {
        /// The extended address.
        extended: u8,
    },
    /// The address is not in the bank.
    OutsideBank {
        /// The address.
        address: u32,
    },
    /// The address is in the bank, and with increment the last address is past its end.
    AfterBank {
        /// The first address.
        address: u32,
        /// How many bytes there are, with increment.
        length: u32,
    },
    /// The command is neither of the two that the load register takes: a read of its 8 bytes, and a write of 4.
    OtherAtRegister {
        /// The address, in the load register.
        address: u32,
    },
    /// The bytes are neither in the staging nor at the load register.
    OutsideBootWindow {
        /// The address.
        address: u32,
        /// The data length, in bytes.
        length: u32,
    },
}

/// The check of a command's header that stops it, with what it found (ECSS-E-ST-50-52C, error and status codes).
#[derive(Clone, Copy, Debug, PartialEq, Eq)]
pub enum HeaderFault {
    /// The packet type is reserved, or the command code is unused.
    UnusedCode {
        /// The instruction.
        instruction: Instruction,
    },
    /// The target logical address is not the node's.
    OtherNode {
        /// The target logical address.
        target: u8,
        /// The node's logical address.
        node: u8,
    },
    /// The length of a read-modify-write is not that of at most four bytes of data and a mask of as many.
    WrongRmwLength {
        /// The data length, in bytes.
        length: u32,
    },
    /// The command has more bytes to verify than the verify buffer has, [`VERIFY_BUFFER`](crate::VERIFY_BUFFER).
    TooManyToVerify {
        /// The data length, in bytes.
        length: u32,
    },
    /// The command has more bytes of data than a command may have, [`MAX_DATA`](crate::MAX_DATA).
    TooManyBytes {
        /// The data length, in bytes.
        length: u32,
    },
    /// The bytes of the command have no place.
    NoPlace(NoPlace),
}

impl HeaderFault {
    /// The status in the reply to the command.
    pub fn status(self) -> Status
        ensures { result ≡ header_status self }
    {
        match self {
            HeaderFault::UnusedCode { .. } => Status::UnusedCode,
            HeaderFault::OtherNode { .. } => Status::InvalidLogicalAddress,
            HeaderFault::WrongRmwLength { .. } => Status::RmwDataLength,
            HeaderFault::TooManyToVerify { .. } => Status::VerifyBufferOverrun,
            HeaderFault::TooManyBytes { .. } | HeaderFault::NoPlace(_) => Status::NotAuthorised,
        }
    }
}
