//! What arithmetic and jumps do, and their codes (RFC 9669, section 4).

ghost use Rattle.std.specs.Prelude.{◌≡◌, ◌+◌, ◌*◌, ◌<◌, ℤ, pos};
ghost use Rattle.std.specs.Option.{SomeIff};
ghost use Rattle.bpf_parts.specs.Codes.{arithmetic_class, jump_class, alu_code, alu_offset, condition_code, source_bit, source_field, immediate_field, extension_bits, extension_width, swap_width, swap_source, swap_bits};
ghost use Rattle.bpf_parts.specs.Operands.{IsOperand};
ghost use Rattle.bpf_parts.specs.Kinds.{alu_of, condition_of, extension_of, swap_of, swap_bits_of};

use crate::opcode;
use crate::register::Register;

/// The width of an operation. At 32 bits the upper half of the result is zero (classes ALU and JMP32). At 64 bits the
/// whole register counts (classes ALU64 and JMP).
#[derive(Clone, Copy, Debug, PartialEq, Eq)]
pub enum Width {
    Bits32,
    Bits64,
}

impl Width {
    /// The class of arithmetic at this width: ALU or ALU64 (RFC 9669, section 3).
    pub fn arithmetic_class(self) -> u8
        ensures value { result ≡ arithmetic_class self }
        ensures small { result < 8 }
    {
        match self {
            Width::Bits32 => opcode::ALU,
            Width::Bits64 => opcode::ALU64,
        }
    }

    /// The class of conditional jumps at this width: JMP32 or JMP (RFC 9669, section 3).
    pub fn jump_class(self) -> u8
        ensures value { result ≡ jump_class self }
        ensures small { result < 8 }
    {
        match self {
            Width::Bits32 => opcode::JMP32,
            Width::Bits64 => opcode::JMP,
        }
    }
}

/// An operation with two operands, of the classes ALU and ALU64 (RFC 9669, section 4.1).
#[derive(Clone, Copy, Debug, PartialEq, Eq)]
pub enum AluOp {
    Add,
    Sub,
    Mul,
    Div,
    SignedDiv,
    Or,
    And,
    Lsh,
    Rsh,
    Mod,
    SignedMod,
    Xor,
    Mov,
    Arsh,
}

impl AluOp {
    /// The code, in the high four bits of the opcode.
    pub fn code(self) -> u8
        ensures value { result ≡ alu_code self }
        ensures small { result < 16 }
    {
        match self {
            AluOp::Add => 0,
            AluOp::Sub => 1,
            AluOp::Mul => 2,
            AluOp::Div | AluOp::SignedDiv => 3,
            AluOp::Or => 4,
            AluOp::And => 5,
            AluOp::Lsh => 6,
            AluOp::Rsh => 7,
            AluOp::Mod | AluOp::SignedMod => 9,
            AluOp::Xor => 10,
            AluOp::Mov => opcode::MOV,
            AluOp::Arsh => 12,
        }
    }

    /// The offset field: 1 for the signed divisions, else 0 (RFC 9669, section 4.1).
    pub fn offset(self) -> i16
        ensures { result ≡ alu_offset self }
    {
        match self {
            AluOp::SignedDiv | AluOp::SignedMod => 1,
            _ => 0,
        }
    }

    /// The operation of this code. If two divisions have it, `signed` says whether it is the signed one. It is `None`
    /// if no operation with two operands has the code.
    pub fn from_code(code: u8, signed: bool) -> Option<AluOp>
        ensures { result ≡ alu_of code signed }
    {
        match code {
            0 => Some(AluOp::Add),
            1 => Some(AluOp::Sub),
            2 => Some(AluOp::Mul),
            3 => Some(if signed { AluOp::SignedDiv } else { AluOp::Div }),
            4 => Some(AluOp::Or),
            5 => Some(AluOp::And),
            6 => Some(AluOp::Lsh),
            7 => Some(AluOp::Rsh),
            9 => Some(if signed { AluOp::SignedMod } else { AluOp::Mod }),
            10 => Some(AluOp::Xor),
            opcode::MOV => Some(AluOp::Mov),
            12 => Some(AluOp::Arsh),
            _ => None,
        }
    }
}

/// The second operand: a register, or an immediate, which is sign-extended at 64 bits (RFC 9669, section 4).
#[derive(Clone, Copy, Debug, PartialEq, Eq)]
pub enum Operand {
    FromRegister(Register),
    Immediate(i32),
}

impl Operand {
    /// A law and no work: a register is r0 to r10, and a number fits the immediate field.
    pub fn keeps_limits(self)
        ensures { IsOperand self }
    {
        match self {
            Operand::FromRegister(_) | Operand::Immediate(_) => {}
        }
    }

    /// The source bit of the opcode: 8 for a register, 0 for an immediate (RFC 9669, section 4).
    pub fn source_bit(&self) -> u8
        ensures value { result ≡ source_bit self.now }
        ensures small { result < 9 }
    {
        match self {
            Operand::FromRegister(_) => opcode::X,
            Operand::Immediate(_) => opcode::K,
        }
    }

    /// The source register field. It is 0 for an immediate.
    pub fn source_field(&self) -> u8
        ensures value { result ≡ source_field self.now }
        ensures small { result < 16 }
    {
        match self {
            Operand::FromRegister(register) => register.number(),
            Operand::Immediate(_) => 0,
        }
    }

    /// The immediate field. It is 0 for a register.
    pub fn immediate_field(&self) -> i32
        ensures { result ≡ immediate_field self.now }
    {
        match self {
            Operand::FromRegister(_) => 0,
            Operand::Immediate(value) => *value,
        }
    }
}

/// The low bits that a sign-extending move takes, and the width to which it extends them (RFC 9669, section 4.1).
#[derive(Clone, Copy, Debug, PartialEq, Eq)]
pub enum Extension {
    ByteTo32,
    HalfTo32,
    ByteTo64,
    HalfTo64,
    WordTo64,
}

impl Extension {
    /// The width of the move.
    pub fn width(self) -> Width
        ensures { result ≡ extension_width self }
    {
        match self {
            Extension::ByteTo32 | Extension::HalfTo32 => Width::Bits32,
            Extension::ByteTo64 | Extension::HalfTo64 | Extension::WordTo64 => Width::Bits64,
        }
    }

    /// How many low bits of the source the move extends: the offset field.
    pub fn bits(self) -> i16
        ensures { result ≡ extension_bits self }
    {
        match self {
            Extension::ByteTo32 | Extension::ByteTo64 => 8,
            Extension::HalfTo32 | Extension::HalfTo64 => 16,
            Extension::WordTo64 => 32,
        }
    }

    /// The extension of `bits` bits to this width, or `None` if there is none.
    pub fn from_bits(width: Width, bits: i16) -> Option<Extension>
        ensures { result ≡ extension_of width bits }
    {
        match width {
            Width::Bits32 => match bits {
                8 => Some(Extension::ByteTo32),
                16 => Some(Extension::HalfTo32),
                _ => None,
            },
            Width::Bits64 => match bits {
                8 => Some(Extension::ByteTo64),
                16 => Some(Extension::HalfTo64),
                32 => Some(Extension::WordTo64),
                _ => None,
            },
        }
    }
}

/// How a byte swap orders bytes (RFC 9669, section 4.2).
#[derive(Clone, Copy, Debug, PartialEq, Eq)]
pub enum Swap {
    /// From the machine's order to little-endian.
    ToLittle,
    /// From the machine's order to big-endian.
    ToBig,
    /// Always the reverse order.
    Reverse,
}

impl Swap {
    /// The width whose class the instruction has: ALU for the first two, ALU64 for the last.
    pub fn width(self) -> Width
        ensures { result ≡ swap_width self }
    {
        match self {
            Swap::ToLittle | Swap::ToBig => Width::Bits32,
            Swap::Reverse => Width::Bits64,
        }
    }

    /// The source bit of the opcode: 8 for big-endian, 0 for the others.
    pub fn source_bit(self) -> u8
        ensures value { result ≡ swap_source self }
        ensures small { result < 9 }
    {
        match self {
            Swap::ToBig => opcode::X,
            Swap::ToLittle | Swap::Reverse => opcode::K,
        }
    }

    /// The order of this class and source bit, or `None` if no instruction has them.
    pub fn from_parts(width: Width, register: bool) -> Option<Swap>
        ensures { result ≡ swap_of width register }
    {
        match width {
            Width::Bits32 => Some(if register {
                Swap::ToBig
            } else {
                Swap::ToLittle
            }),
            Width::Bits64 => { if register { None } else { Some(Swap::Reverse) } }
        }
    }
}

/// How many low bits a byte swap orders. It clears those above.
#[derive(Clone, Copy, Debug, PartialEq, Eq)]
pub enum SwapBits {
    Swap16,
    Swap32,
    Swap64,
}

impl SwapBits {
    /// The number of bits: the immediate field.
    pub fn bits(self) -> i32
        ensures { result ≡ swap_bits self }
    {
        match self {
            SwapBits::Swap16 => 16,
            SwapBits::Swap32 => 32,
            SwapBits::Swap64 => 64,
        }
    }

    /// The width of `bits` bits, or `None` for any number except 16, 32 and 64.
    pub fn from_bits(bits: i32) -> Option<SwapBits>
        ensures { result ≡ swap_bits_of bits }
    {
        match bits {
            16 => Some(SwapBits::Swap16),
            32 => Some(SwapBits::Swap32),
            64 => Some(SwapBits::Swap64),
            _ => None,
        }
    }
}

/// What a conditional jump tests: whether the condition holds of `dst` and `src`. At 32 bits it tests their low
/// halves.
#[derive(Clone, Copy, Debug, PartialEq, Eq)]
pub struct Comparison {
    pub condition: Condition,
    pub width: Width,
    pub dst: Register,
    pub src: Operand,
}

/// When a jump is taken: what holds of the destination and the source (RFC 9669, section 4.3).
#[derive(Clone, Copy, Debug, PartialEq, Eq)]
pub enum Condition {
    Equal,
    Greater,
    GreaterEqual,
    /// Some bit is set in both.
    AnyBits,
    NotEqual,
    SignedGreater,
    SignedGreaterEqual,
    Less,
    LessEqual,
    SignedLess,
    SignedLessEqual,
}

impl Condition {
    /// The code, in the high four bits of the opcode.
    pub fn code(self) -> u8
        ensures value { result ≡ condition_code self }
        ensures small { result < 16 }
    {
        match self {
            Condition::Equal => 1,
            Condition::Greater => 2,
            Condition::GreaterEqual => 3,
            Condition::AnyBits => 4,
            Condition::NotEqual => 5,
            Condition::SignedGreater => 6,
            Condition::SignedGreaterEqual => 7,
            Condition::Less => 10,
            Condition::LessEqual => 11,
            Condition::SignedLess => 12,
            Condition::SignedLessEqual => 13,
        }
    }

    /// The condition of this code, or `None` if no conditional jump has it.
    pub fn from_code(code: u8) -> Option<Condition>
        ensures { result ≡ condition_of code }
    {
        match code {
            1 => Some(Condition::Equal),
            2 => Some(Condition::Greater),
            3 => Some(Condition::GreaterEqual),
            4 => Some(Condition::AnyBits),
            5 => Some(Condition::NotEqual),
            6 => Some(Condition::SignedGreater),
            7 => Some(Condition::SignedGreaterEqual),
            10 => Some(Condition::Less),
            11 => Some(Condition::LessEqual),
            12 => Some(Condition::SignedLess),
            13 => Some(Condition::SignedLessEqual),
            _ => None,
        }
    }
}
