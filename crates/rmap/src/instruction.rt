//! The instruction byte.

ghost use Rattle.std.specs.Prelude.{◌≡◌, ◌≤◌, ◌<◌, ◌*◌, ◌==◌};
ghost use Rattle.std.specs.Int.{bit_at};
ghost use Rattle.rmap.specs.Instruction.{packet_type, command_code, kind_of, has_write_bit, has_verify_bit, has_reply_bit, has_increment_bit, reply_address_length};
ghost use Rattle.rmap.specs.Reply.{reply_instruction};

use crate::kind::Kind;

/// The bits of an instruction that show a read: packet type, write bit, verify bit and reply bit. The increment bit
/// may be either (ECSS-E-ST-50-52C, instruction field).
pub const READ_MASK: u8 = 0b1111_1000;

/// What an instruction under [`READ_MASK`] is if and only if it is a read: packet type 01 and code 001x.
pub const READ_BITS: u8 = 0b0100_1000;

/// The bits of an instruction that show a write: packet type and write bit (ECSS-E-ST-50-52C, instruction field).
pub const WRITE_MASK: u8 = 0b1110_0000;

/// What an instruction under [`WRITE_MASK`] is if and only if it is a write: packet type 01 and code 1xxx.
pub const WRITE_BITS: u8 = 0b0110_0000;

/// The bits of an instruction that show a read-modify-write: packet type and the whole command code
/// (ECSS-E-ST-50-52C, instruction field).
pub const RMW_MASK: u8 = 0b1111_1100;

/// What an instruction under [`RMW_MASK`] is if and only if it is a read-modify-write: packet type 01 and code 0111.
pub const RMW_BITS: u8 = 0b0101_1100;

/// The increment bit of an instruction, bit 2 (ECSS-E-ST-50-52C, instruction field).
pub const INCREMENT_BIT: u8 = 0b0000_0100;

/// The instruction byte of a command or a reply (ECSS-E-ST-50-52C, instruction field).
#[derive(Clone, Copy, Debug, PartialEq, Eq)]
pub struct Instruction(pub u8);

impl Instruction {
    /// The instruction of a command with this code and a reply address of this many words of four bytes. Bits 5 to 2
    /// are the code: write, verify, reply, increment (ECSS-E-ST-50-52C, instruction field).
    pub fn command(code: u8, reply_address_words: u8) -> Instruction
        requires code { code < 16 }
        requires words { reply_address_words < 4 }
        ensures kind { packet_type result.0 ≡ 1 }
        ensures code { command_code result.0 ≡ code }
        ensures words { reply_address_length result.0 ≡ 4 * reply_address_words }
    {
        Instruction(64 + 4 * code + reply_address_words)
    }

    /// Bits 7 and 6: 0 is a reply, 1 a command, 2 and 3 are reserved.
    fn packet_type(self) -> u8
        ensures { result ≡ packet_type self.0 }
    {
        self.0 >> 6
    }

    /// Bits 5 to 2.
    pub fn code(self) -> u8
        ensures { result ≡ command_code self.0 }
    {
        self.0 >> 2 & 0b1111
    }

    fn has(self, bit: u8) -> bool
        requires { bit < 8 }
        ensures { result ≡ (bit_at self.0 bit == 1) }
    {
        self.0 >> bit & 1 == 1
    }

    /// Whether the packet is a command.
    pub fn is_command(self) -> bool
        ensures { result ≡ (packet_type self.0 == 1) }
    {
        self.packet_type() == 1
    }

    /// Whether the packet is a reply.
    pub fn is_reply(self) -> bool
        ensures { result ≡ (packet_type self.0 == 0) }
    {
        self.packet_type() == 0
    }

    /// What the instruction asks for, by packet type and command code. A reserved packet type is `Unused`.
    pub fn kind(self) -> Kind
        ensures { result ≡ kind_of self.0 }
    {
        if !self.is_command() {
            return Kind::Unused;
        }
        match self.code() {
            0b0010 | 0b0011 => Kind::Read,
            0b0111 => Kind::Rmw,
            0b1000.. => Kind::Write,
            _ => Kind::Unused,
        }
    }

    /// Bit 5: the reply has the form of a write reply.
    pub fn writes(self) -> bool
        ensures { result ≡ has_write_bit self.0 }
    {
        self.has(5)
    }

    /// Bit 4: the target checks the data before it changes memory.
    pub fn verifies(self) -> bool
        ensures { result ≡ has_verify_bit self.0 }
    {
        self.has(4)
    }

    /// Bit 3: the target sends a reply.
    pub fn wants_reply(self) -> bool
        ensures { result ≡ has_reply_bit self.0 }
    {
        self.has(3)
    }

    /// Bit 2: each byte has the next address; without it all bytes have the one address.
    pub fn increments(self) -> bool
        ensures { result ≡ has_increment_bit self.0 }
    {
        self.has(2)
    }

    /// Bits 1 and 0: how many bytes the reply address has, 0, 4, 8 or 12.
    pub fn reply_address_len(self) -> usize
        ensures value { result ≡ reply_address_length self.0 }
        ensures few { result ≤ 12 }
    {
        4 * usize::from(self.0 % 4)
    }

    /// The instruction of the reply: packet type 00, and the other bits as they are.
    pub fn of_reply(self) -> Instruction
        ensures { result.0 ≡ reply_instruction self.0 }
    {
        Instruction(self.0 % 64)
    }
}
