//! Why a packet is no command.

ghost use Rattle.std.specs.Prelude.{◌≡◌, Some, IfSome};
ghost use Rattle.rmap.specs.Codes.{discard_code, discard_of_code};
ghost use Rattle.rmap.specs.DiscardFaults.{discard_fault_of};
ghost use Rattle.rmap.specs.Command.{IsDiscarded};

use crate::field;
use crate::instruction::Instruction;
use rcrc::crc;
use thiserror::Error;

const SHORT: &str = "\
The packet ends before its header does: 16 bytes without a reply address, and 4 more for each 4 bytes of one.
Look at the two lowest bits of the instruction, which say how long the reply address is.";

const PROTOCOL: &str = "\
The second byte is the protocol identifier, and 01 is that of RMAP. Packets of other protocols are for others.
Put 01 after the target's logical address.";

const REPLY: &str = "\
Bits 7 and 6 of the instruction are clear, and so the packet is a reply. The types 10 and 11 are reserved:
such a command is answered with status 2.
Set bit 6: a write is 60, with the bits for verify, reply and increment added; a read is 48 or 4C.";

const HEADER_CRC: &str = "\
The last byte of the header is its CRC, over all bytes of the header before it but the path to the target.
Compute it anew after every change of the header.";

/// Why the target discards a packet without a reply. It answers no packet that is not an RMAP command with a right
/// header (ECSS-E-ST-50-52C, error and status codes).
#[derive(Clone, Copy, Debug, PartialEq, Eq, Error)]
pub enum Discard {
    /// Fewer bytes than the header has.
    #[error("the packet is shorter than its header")]
    Short,
    /// The protocol identifier is not 1, that of RMAP.
    #[error("the protocol identifier is not that of RMAP")]
    Protocol,
    /// The packet type is 00: a reply.
    #[error("the packet is a reply")]
    Reply,
    /// The header CRC is not that of the header.
    #[error("the header CRC is wrong")]
    HeaderCrc,
}

impl Discard {
    /// The number by which outputs name the reason, 1 to 4 in the order of the variants.
    pub fn code(self) -> u8
        ensures value { result ≡ discard_code self }
        ensures back { discard_of_code result ≡ Some self }
    {
        match self {
            Discard::Short => 1,
            Discard::Protocol => 2,
            Discard::Reply => 3,
            Discard::HeaderCrc => 4,
        }
    }

    /// The reason of a number, as [`Discard::code`] gives it, or `None` if no reason has it.
    pub fn from_code(code: u8) -> Option<Discard>
        ensures value { result ≡ discard_of_code code }
        ensures number { IfSome result (λ reason. discard_code reason ≡ code) }
    {
        match code {
            1 => Some(Discard::Short),
            2 => Some(Discard::Protocol),
            3 => Some(Discard::Reply),
            4 => Some(Discard::HeaderCrc),
            _ => None,
        }
    }

    /// What to say of the reason beside its name: when it comes, and what to do. The lines have at most 113 columns.
    pub fn advice(self) -> &'static str {
        match self {
            Discard::Short => SHORT,
            Discard::Protocol => PROTOCOL,
            Discard::Reply => REPLY,
            Discard::HeaderCrc => HEADER_CRC,
        }
    }
}

/// What was found in a packet that is discarded: [`Discard`], with the bytes that are wrong and the right ones.
#[derive(Clone, Copy, Debug, PartialEq, Eq)]
pub enum DiscardFault {
    /// Fewer bytes than the header has.
    TooShort,
    /// Another protocol identifier than that of RMAP.
    OtherProtocol {
        /// The protocol identifier.
        found: u8,
    },
    /// The packet type of a reply.
    IsReply,
    /// A header CRC that is not that of the header.
    WrongHeaderCrc {
        /// The header CRC.
        found: u8,
        /// The right CRC of the header.
        right: u8,
    },
}

impl DiscardFault {
    /// What was found in these bytes. The condition is that the target discards them for that reason.
    pub fn of(bytes: &[u8], reason: Discard) -> DiscardFault
        requires { IsDiscarded bytes.now reason }
        ensures { result ≡ discard_fault_of bytes.now reason }
    {
        match reason {
            Discard::Short => DiscardFault::TooShort,
            Discard::Protocol => DiscardFault::OtherProtocol {
                found: bytes[field::PROTOCOL],
            },
            Discard::Reply => DiscardFault::IsReply,
            Discard::HeaderCrc => DiscardFault::wrong_crc(bytes),
        }
    }

    fn wrong_crc(bytes: &[u8]) -> DiscardFault
        requires { IsDiscarded bytes.now Discard.HeaderCrc }
        ensures { result ≡ discard_fault_of bytes.now Discard.HeaderCrc }
    {
        let address = Instruction(bytes[field::INSTRUCTION]).reply_address_len();
        let last = field::CHECKED + address;
        DiscardFault::WrongHeaderCrc {
            found: bytes[last],
            right: crc(&bytes[..last]),
        }
    }
}
