//! Why bytes are no reply.

use rmap::Instruction;
use thiserror::Error;

/// Why bytes are no reply, with what was found there (ECSS-E-ST-50-52C, write reply format, read reply format,
/// read-modify-write reply format). The variants are in the order of the tests.
#[derive(Clone, Copy, Debug, PartialEq, Eq, Error)]
pub enum NoReply {
    /// Fewer bytes than the header has.
    #[error("the packet is shorter than its header")]
    Short,
    /// The protocol identifier is not 1, that of RMAP.
    #[error("the protocol identifier is not that of RMAP")]
    Protocol {
        /// The protocol identifier.
        found: u8,
    },
    /// The packet type is not 00: a command, or reserved.
    #[error("the packet type is not that of a reply")]
    Command {
        /// The instruction.
        instruction: Instruction,
    },
    /// The header CRC is not that of the header.
    #[error("the header CRC is wrong")]
    HeaderCrc {
        /// The header CRC.
        found: u8,
        /// The right CRC of the header.
        right: u8,
    },
    /// Another number of bytes follows the header than it announces: none in write form, else its data length and a
    /// CRC.
    #[error("the data have another length than the header says")]
    Length {
        /// How many follow it.
        found: usize,
        /// How many should follow it.
        wanted: usize,
    },
    /// The data CRC is not that of the data.
    #[error("the data CRC is wrong")]
    DataCrc {
        /// The data CRC.
        found: u8,
        /// The right CRC of the data.
        right: u8,
    },
}
