//! The memory operands, sizes and codes of loads and stores (RFC 9669, section 5).

ghost use Rattle.std.specs.Prelude.{◌≡◌, ◌<◌, ◌≤◌};
ghost use Rattle.bpf_parts.specs.Codes.{size_code, load_code};
ghost use Rattle.bpf_parts.specs.Kinds.{size_of, load_size_of};
ghost use Rattle.bpf_parts.specs.Sizes.{is_signed, load_bytes, size_bytes};

use crate::opcode;
use crate::register::Register;

/// The memory operand of a load or store: the address `offset` bytes from the one to which the base register points.
#[derive(Clone, Copy, Debug, PartialEq, Eq)]
pub struct MemoryOperand {
    pub base: Register,
    pub offset: i16,
}

/// How many low bytes a store writes: 1, 2, 4 or 8.
#[derive(Clone, Copy, Debug, PartialEq, Eq)]
pub enum Size {
    Byte,
    Half,
    Word,
    Double,
}

impl Size {
    /// How many bytes a store of this size writes.
    pub fn bytes(self) -> usize
        ensures value { result ≡ size_bytes self }
        ensures few { result ≤ 8 }
    {
        match self {
            Size::Byte => 1,
            Size::Half => 2,
            Size::Word => 4,
            Size::Double => 8,
        }
    }

    /// The mode and size bits of a store's opcode.
    pub fn code(self) -> u8
        ensures value { result ≡ size_code self }
        ensures small { result < 0x80 }
    {
        match self {
            Size::Word => opcode::MEM_W,
            Size::Half => opcode::MEM_H,
            Size::Byte => opcode::MEM_B,
            Size::Double => opcode::MEM_DW,
        }
    }

    /// The size of these mode and size bits, or `None` if no store has them.
    pub fn from_code(code: u8) -> Option<Size>
        ensures { result ≡ size_of code }
    {
        match code {
            opcode::MEM_W => Some(Size::Word),
            opcode::MEM_H => Some(Size::Half),
            opcode::MEM_B => Some(Size::Byte),
            opcode::MEM_DW => Some(Size::Double),
            _ => None,
        }
    }
}

/// How many bytes a load reads, and whether it extends their sign: modes MEM and MEMSX.
#[derive(Clone, Copy, Debug, PartialEq, Eq)]
pub enum LoadSize {
    LoadByte,
    LoadHalf,
    LoadWord,
    LoadDouble,
    SignedByte,
    SignedHalf,
    SignedWord,
}

impl LoadSize {
    /// How many bytes a load of this size reads.
    pub fn bytes(self) -> usize
        ensures value { result ≡ load_bytes self }
        ensures few { result ≤ 8 }
    {
        match self {
            LoadSize::LoadByte | LoadSize::SignedByte => 1,
            LoadSize::LoadHalf | LoadSize::SignedHalf => 2,
            LoadSize::LoadWord | LoadSize::SignedWord => 4,
            LoadSize::LoadDouble => 8,
        }
    }

    /// Whether the load extends the sign of what it reads to 64 bits.
    pub fn is_signed(self) -> bool
        ensures { result ≡ is_signed self }
    {
        match self {
            LoadSize::SignedByte | LoadSize::SignedHalf | LoadSize::SignedWord => true,
            _ => false,
        }
    }

    /// The mode and size bits of a load's opcode.
    pub fn code(self) -> u8
        ensures value { result ≡ load_code self }
        ensures small { result < 0xa0 }
    {
        match self {
            LoadSize::LoadWord => opcode::MEM_W,
            LoadSize::LoadHalf => opcode::MEM_H,
            LoadSize::LoadByte => opcode::MEM_B,
            LoadSize::LoadDouble => opcode::MEM_DW,
            LoadSize::SignedWord => opcode::MEMSX_W,
            LoadSize::SignedHalf => opcode::MEMSX_H,
            LoadSize::SignedByte => opcode::MEMSX_B,
        }
    }

    /// The load of these mode and size bits, or `None` if no load has them.
    pub fn from_code(code: u8) -> Option<LoadSize>
        ensures { result ≡ load_size_of code }
    {
        match code {
            opcode::MEM_W => Some(LoadSize::LoadWord),
            opcode::MEM_H => Some(LoadSize::LoadHalf),
            opcode::MEM_B => Some(LoadSize::LoadByte),
            opcode::MEM_DW => Some(LoadSize::LoadDouble),
            opcode::MEMSX_W => Some(LoadSize::SignedWord),
            opcode::MEMSX_H => Some(LoadSize::SignedHalf),
            opcode::MEMSX_B => Some(LoadSize::SignedByte),
            _ => None,
        }
    }
}
