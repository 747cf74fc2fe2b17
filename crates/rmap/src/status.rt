//! The status of a command.

ghost use Rattle.std.specs.Prelude.{◌≡◌, Some, IfSome};
ghost use Rattle.rmap.specs.Codes.{status_code, status_of_code};

use thiserror::Error;

const SUCCESS: &str = "\
The command was authorised and carried out.
Nothing is to be done.";

const GENERAL_ERROR: &str = "\
There is no room for the command in the journal of its bank, or a load was refused, or the slot has no program,
since a scrub withdrew one that was damaged in memory.
A journal has the room that the node's file says, else 1,024 commands. `live` hands a full one out, and a C
program does so by `sandbar_rotate`. Of a load read the load result. Load a program into a slot that has none.";

const UNUSED_CODE: &str = "\
The packet type is reserved, or the four bits of command codes are none of a read, a write or a read-modify-
write.
Compare the instruction with the command codes of the standard.";

const INVALID_KEY: &str = "\
The program that judges wants another key: its verdict is 3.
Send the key that the program asks for.";

const INVALID_DATA_CRC: &str = "\
The CRC after the data is not that of the data. Nothing was written.
Compute it over only the data.";

const EARLY_END_OF_PACKET: &str = "\
The packet ends before the data that its header announces, or before their CRC.
Compare the data length with the bytes that were sent.";

const TOO_MUCH_DATA: &str = "\
Bytes follow the data and their CRC, or the header of a read.
Compare the data length with the bytes that were sent.";

const ERROR_END_OF_PACKET: &str = "\
The packet was cut off on its way: it ended in an error end of packet.
Send the command again.";

const VERIFY_BUFFER_OVERRUN: &str = "\
A write that is verified before it is written has more data than the target can hold back.
Write fewer bytes at once, or without verification.";

const NOT_AUTHORISED: &str = "\
The program says no, or the target does not do this: there is no such place, or not with this length or without
increment.
Compare address, length and increment with what the target has, then the program's rules: `rmapctl decide` prints
the rule of a table, and `rmapctl trace` the steps of a program.";

const RMW_DATA_LENGTH: &str = "\
A read-modify-write has as many bytes of data as of mask: a length of 0, 2, 4, 6 or 8 in all.
Send the data first and a mask of the same length after them.";

const INVALID_LOGICAL_ADDRESS: &str = "\
The packet came to a node with another logical address, or the program's verdict is 12.
Put the node's own logical address first: `address` of its file, FE without a file.";

/// How a command ended (ECSS-E-ST-50-52C, error and status codes).
#[derive(Clone, Copy, Debug, PartialEq, Eq, Error)]
pub enum Status {
    /// The target executed the command.
    #[error("success")]
    Success,
    /// The target could not execute the command.
    #[error("general error")]
    GeneralError,
    /// The packet type is reserved, or the command code is unused.
    #[error("unused packet type or command code")]
    UnusedCode,
    /// The key is not the one that the application wants.
    #[error("invalid key")]
    InvalidKey,
    /// The data CRC is not that of the data.
    #[error("invalid data CRC")]
    InvalidDataCrc,
    /// The packet ended before its data did.
    #[error("early EOP")]
    EarlyEndOfPacket,
    /// The packet goes on after its data.
    #[error("too much data")]
    TooMuchData,
    /// An error end of packet cut the packet off.
    #[error("EEP")]
    ErrorEndOfPacket,
    /// The command has more data than the target verifies before it writes.
    #[error("verify buffer overrun")]
    VerifyBufferOverrun,
    /// The target does not do this, or the application does not allow it.
    #[error("not implemented or not authorised")]
    NotAuthorised,
    /// The data length of a read-modify-write is not 0, 2, 4, 6 or 8.
    #[error("RMW data length error")]
    RmwDataLength,
    /// The target logical address is not the node's.
    #[error("invalid target logical address")]
    InvalidLogicalAddress,
}

impl Status {
    /// The byte of the status in a reply.
    pub fn code(self) -> u8
        ensures value { result ≡ status_code self }
        ensures back { status_of_code result ≡ Some self }
    {
        match self {
            Status::Success => 0,
            Status::GeneralError => 1,
            Status::UnusedCode => 2,
            Status::InvalidKey => 3,
            Status::InvalidDataCrc => 4,
            Status::EarlyEndOfPacket => 5,
            Status::TooMuchData => 6,
            Status::ErrorEndOfPacket => 7,
            Status::VerifyBufferOverrun => 9,
            Status::NotAuthorised => 10,
            Status::RmwDataLength => 11,
            Status::InvalidLogicalAddress => 12,
        }
    }

    /// The status of a number, as [`Status::code`] gives it, or `None` if no status has it.
    pub fn from_code(code: u8) -> Option<Status>
        ensures value { result ≡ status_of_code code }
        ensures number { IfSome result (λ status. status_code status ≡ code) }
    {
        match code {
            0 => Some(Status::Success),
            1 => Some(Status::GeneralError),
            2 => Some(Status::UnusedCode),
            3 => Some(Status::InvalidKey),
            4 => Some(Status::InvalidDataCrc),
            5 => Some(Status::EarlyEndOfPacket),
            6 => Some(Status::TooMuchData),
            7 => Some(Status::ErrorEndOfPacket),
            9 => Some(Status::VerifyBufferOverrun),
            10 => Some(Status::NotAuthorised),
            11 => Some(Status::RmwDataLength),
            12 => Some(Status::InvalidLogicalAddress),
            _ => None,
        }
    }

    /// What to say of the status beside its name: when it comes, and what to do. The lines have at most 113 columns.
    pub fn advice(self) -> &'static str {
        match self {
            Status::Success => SUCCESS,
            Status::GeneralError => GENERAL_ERROR,
            Status::UnusedCode => UNUSED_CODE,
            Status::InvalidKey => INVALID_KEY,
            Status::InvalidDataCrc => INVALID_DATA_CRC,
            Status::EarlyEndOfPacket => EARLY_END_OF_PACKET,
            Status::TooMuchData => TOO_MUCH_DATA,
            Status::ErrorEndOfPacket => ERROR_END_OF_PACKET,
            Status::VerifyBufferOverrun => VERIFY_BUFFER_OVERRUN,
            Status::NotAuthorised => NOT_AUTHORISED,
            Status::RmwDataLength => RMW_DATA_LENGTH,
            Status::InvalidLogicalAddress => INVALID_LOGICAL_ADDRESS,
        }
    }
}
