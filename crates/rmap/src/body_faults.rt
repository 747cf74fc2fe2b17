//! What a check of a command's body finds.

ghost use Rattle.std.specs.Prelude.{◌≡◌};
ghost use Rattle.rmap.specs.Checks.{body_status};

use crate::status::Status;

/// The check of a command's body that stops it, with what it found (ECSS-E-ST-50-52C, error and status codes).
#[derive(Clone, Copy, Debug, PartialEq, Eq)]
pub enum BodyFault {
    /// The packet ended in an error end of packet.
    ErrorEnd,
    /// Fewer bytes follow the header than should.
    TooFewBytes {
        /// How many follow it.
        found: usize,
        /// How many should.
        wanted: usize,
    },
    /// More bytes follow the header than should.
    TooManyBytes {
        /// How many follow it.
        found: usize,
        /// How many should follow it.
        wanted: usize,
    },
    /// The data CRC is not that of the data.
    WrongDataCrc {
        /// The data CRC.
        found: u8,
        /// The right CRC of the data.
        right: u8,
    },
}

impl BodyFault {
    /// The status in the reply to the command.
    pub fn status(self) -> Status
        ensures { result ≡ body_status self }
    {
        match self {
            BodyFault::ErrorEnd => Status::ErrorEndOfPacket,
            BodyFault::TooFewBytes { .. } => Status::EarlyEndOfPacket,
            BodyFault::TooManyBytes { .. } => Status::TooMuchData,
            BodyFault::WrongDataCrc { .. } => Status::InvalidDataCrc,
        }
    }
}
