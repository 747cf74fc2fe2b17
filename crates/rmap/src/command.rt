//! A command, as a view of a packet's bytes.

ghost use Rattle.std.specs.Prelude.{◌≡◌, length, MatchResult, IfOk, None, Some};
ghost use Rattle.rcrc.specs.Polynomial.{IsRemainder};
ghost use Rattle.rmap.specs.Command.{IsCommand, IsHeader, IsDiscarded, GivesAnyCommandOf, discard_of, header_of, header_crc_of, target_of, instruction_of, key_of, initiator_of, transaction_of, extended_of, address_of, length_of, command_kind, writes, verifies, wants_reply, increments, header_length, command_of};
ghost use Rattle.rmap.specs.Windows.{lies_inside};

use crate::discard::Discard;
use crate::field;
use crate::instruction::Instruction;
use crate::kind::Kind;
use byteorder::{BigEndian, ByteOrder};
use rcrc::crc;
use spw::{End, Packet};
use std::marker::Model;

/// The protocol identifier of RMAP (ECSS-E-ST-50-52C, protocol identifier field).
pub const PROTOCOL: u8 = 0x01;

/// A command with a right header, lent from the bytes of its packet (ECSS-E-ST-50-52C, write command format, read
/// command format, read-modify-write command format). Its body may still be wrong.
#[derive(Debug, Drop)]
pub struct Command<'a> {
    front: &'a [u8; 4],
    reply_address: &'a [u8],
    tail: &'a [u8; 12],
    body: &'a [u8],
    end: End,
}

impl<'a> Model for Command<'a> {
    ghost use Rattle.rcrc.specs.Polynomial.{IsRemainder};
    ghost use Rattle.rmap.specs.Command.{CommandValue, IsHeader};

    ghost Value = { CommandValue };

    ghost view = { λ c. record { front = c.front.now; reply_address = c.reply_address.now; tail = c.tail.now; body = c.body.now; end = c.end } };

    ghost invariant = { λ c. IsHeader (record { front = c.front.now; reply_address = c.reply_address.now; tail = c.tail.now; body = c.body.now; end = c.end }) };
}

impl<'a> Command<'a> {
    /// The command that the packet's bytes are, with the packet's end. The result is the same however the packet
    /// ended. If the bytes are a command, the result is that command.
    ///
    /// # Errors
    ///
    /// The first of these tests that fails gives the reason:
    ///
    /// 1. `Short`: the packet has at least three bytes.
    /// 2. `Protocol`: the protocol identifier is 1.
    /// 3. `Reply`: the packet type is not 00.
    /// 4. `Short`: the packet has the whole header.
    /// 5. `HeaderCrc`: the header CRC is that of the header.
    pub fn view(packet: &'a Packet) -> Result<Command<'a>, Discard>
        ensures command { MatchResult result (IsCommand packet.now.bytes)
            (IsDiscarded packet.now.bytes) }
        ensures end { MatchResult result (λ c. c.end ≡ packet.now.end) (λ _. Unit {0}) }
        ensures crc { IfOk result (λ c. IsRemainder (header_of c) (header_crc_of c)) }
        ensures kept { IfOk result (λ _. discard_of packet.now.bytes ≡ None) }
        ensures found { IfOk result (λ c. c ≡ command_of packet.now) }
        ensures only { GivesAnyCommandOf packet.now result }
    {
        let bytes = packet.bytes();
        let [_, protocol, instruction, ..] = bytes else {
            return Err(Discard::Short);
        };
        if *protocol != PROTOCOL {
            return Err(Discard::Protocol);
        }
        let instruction = Instruction(*instruction);
        if instruction.is_reply() {
            return Err(Discard::Reply);
        }
        let address = instruction.reply_address_len();
        let (front, rest) = bytes.split_first_chunk::<4>().ok_or(Discard::Short)?;
        if rest.len() < address {
            return Err(Discard::Short);
        }
        let (reply_address, rest) = rest.split_at(address);
        let (tail, body) = rest.split_first_chunk::<12>().ok_or(Discard::Short)?;
        if tail[field::HEADER_CRC] != crc(&bytes[..field::CHECKED + address]) {
            return Err(Discard::HeaderCrc);
        }
        Ok(Command {
            front,
            reply_address,
            tail,
            body,
            end: packet.end(),
        })
    }

    /// The command that the packet's bytes are. The condition is that they are one. This only cuts them by their
    /// lengths.
    pub fn again(packet: &'a Packet) -> Command<'a>
        requires { discard_of packet.now.bytes ≡ None }
        ensures { result ≡ command_of packet.now }
    {
        Command::of_bytes(packet.bytes(), packet.end())
    }

    /// The same for bytes of a packet and its end, if the packet itself is not at hand.
    pub fn of_bytes(bytes: &'a [u8], end: End) -> Command<'a>
        requires { discard_of bytes.now ≡ None }
        ensures { result ≡ command_of (record { bytes = bytes.now; end = end }) }
    {
        let address = Instruction(bytes[field::INSTRUCTION]).reply_address_len();
        let (front, rest) = bytes.split_first_chunk::<4>().unwrap();
        let (reply_address, rest) = rest.split_at(address);
        let (tail, body) = rest.split_first_chunk::<12>().unwrap();
        Command {
            front,
            reply_address,
            tail,
            body,
            end,
        }
    }

    /// The first four bytes: target logical address, protocol identifier, instruction, key.
    pub fn front(&self) -> &'a [u8; 4]
        ensures value { result.now ≡ self.now.front }
        ensures len { length result.now ≡ 4 }
    {
        self.front
    }

    /// The whole reply address: 0, 4, 8 or 12 bytes (ECSS-E-ST-50-52C, reply address field).
    pub fn reply_path(&self) -> &'a [u8]
        ensures value { result.now ≡ self.now.reply_address }
        ensures header { IsHeader self.now }
    {
        self.reply_address
    }

    /// The last twelve bytes of the header: initiator logical address to header CRC.
    pub fn tail(&self) -> &'a [u8; 12]
        ensures value { result.now ≡ self.now.tail }
        ensures len { length result.now ≡ 12 }
    {
        self.tail
    }

    /// What follows the header: data and data CRC, if the command has them.
    pub fn body(&self) -> &'a [u8]
        ensures { result.now ≡ self.now.body }
    {
        self.body
    }

    /// How the packet ended.
    pub fn end(&self) -> End
        ensures { result ≡ self.now.end }
    {
        self.end
    }

    /// The target logical address (ECSS-E-ST-50-52C, target logical address field).
    pub fn target(&self) -> u8
        ensures { result ≡ target_of self.now }
    {
        self.front[field::TARGET]
    }

    /// The instruction byte (ECSS-E-ST-50-52C, instruction field).
    pub fn instruction(&self) -> Instruction
        ensures { result.0 ≡ instruction_of self.now }
    {
        Instruction(self.front[field::INSTRUCTION])
    }

    /// The key (ECSS-E-ST-50-52C, key field).
    pub fn key(&self) -> u8
        ensures { result ≡ key_of self.now }
    {
        self.front[field::KEY]
    }

    /// The initiator logical address (ECSS-E-ST-50-52C, initiator logical address field).
    pub fn initiator(&self) -> u8
        ensures { result ≡ initiator_of self.now }
    {
        self.tail[field::INITIATOR]
    }

    /// The transaction identifier, most significant byte first (ECSS-E-ST-50-52C, transaction
    /// identifier field).
    pub fn transaction(&self) -> u16
        ensures { result ≡ transaction_of self.now }
    {
        let tail = self.tail;
        BigEndian::read_u16(&tail[field::TRANSACTION..])
    }

    /// The extended address (ECSS-E-ST-50-52C, extended address field).
    pub fn extended(&self) -> u8
        ensures { result ≡ extended_of self.now }
    {
        self.tail[field::EXTENDED]
    }

    /// The address, most significant byte first (ECSS-E-ST-50-52C, address field).
    pub fn address(&self) -> u32
        ensures { result ≡ address_of self.now }
    {
        let tail = self.tail;
        BigEndian::read_u32(&tail[field::ADDRESS..])
    }

    /// The data length, in bytes, below 2²⁴, most significant byte first (ECSS-E-ST-50-52C, data
    /// length field).
    pub fn length(&self) -> u32
        ensures value { result ≡ length_of self.now }
    {
        let tail = self.tail;
        BigEndian::read_u24(&tail[field::LENGTH..])
    }

    /// Whether the command's bytes lie in the range of that base and size. The first address must be in it, and with
    /// increment the data must not pass its end.
    pub fn lies_inside(&self, base: u32, size: u32) -> bool
        ensures { result ≡ lies_inside base size self.now }
    {
        let address = u64::from(self.address());
        let end = u64::from(base) + u64::from(size);
        u64::from(base) <= address
            && address < end
            && (!self.increments() || address + u64::from(self.length()) <= end)
    }

    /// What the command asks for. A reserved packet type is `Unused`.
    pub fn kind(&self) -> Kind
        ensures { result ≡ command_kind self.now }
    {
        self.instruction().kind()
    }

    /// Bit 5: the reply has the form of a write reply.
    pub fn writes(&self) -> bool
        ensures { result ≡ writes self.now }
    {
        self.instruction().writes()
    }

    /// Bit 4: the target checks the data before it changes memory.
    pub fn verifies(&self) -> bool
        ensures { result ≡ verifies self.now }
    {
        self.instruction().verifies()
    }

    /// Bit 3: the target sends a reply.
    pub fn wants_reply(&self) -> bool
        ensures { result ≡ wants_reply self.now }
    {
        self.instruction().wants_reply()
    }

    /// Bit 2: each byte has the next address; without it all bytes have the one address.
    pub fn increments(&self) -> bool
        ensures { result ≡ increments self.now }
    {
        self.instruction().increments()
    }
}
