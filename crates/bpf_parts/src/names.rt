//! The text of the parts: a name, a number or a memory operand.

ghost use Rattle.std.specs.Prelude.{◌≡◌, Some};
ghost use Rattle.bpf_parts.specs.Operands.{distance_of};
ghost use Rattle.bpf_parts.specs.Text.{alu_name, callee_name, condition_name, extension_name, load_suffix, operand_text, memory_operand_text, register_text, signed_text, store_prefix, store_suffix, swap_bits_name, swap_name, width_suffix};

use crate::callee::Callee;
use crate::distance::Distance;
use crate::memory::{LoadSize, MemoryOperand, Size};
use crate::operation::{AluOp, Condition, Extension, Operand, Swap, SwapBits, Width};
use crate::register::Register;
use crate::words::{REGISTER_STORE, STORE};
use std::fmt;

impl fmt::Display for Register {
    ghost output = { λ register. Some (register_text register) };

    fn fmt<W: fmt::Write>(&self, f: &mut fmt::Formatter<W>) -> fmt::Result {
        let number = self.number();
        write!(f, "r{number}")
    }
}

impl fmt::Display for Operand {
    ghost output = { λ operand. Some (operand_text operand) };

    fn fmt<W: fmt::Write>(&self, f: &mut fmt::Formatter<W>) -> fmt::Result {
        match self {
            Operand::FromRegister(register) => write!(f, "{register}"),
            Operand::Immediate(value) => write!(f, "{value}"),
        }
    }
}

impl Operand {
    /// The beginning of the name of a store of the operand.
    pub fn store_prefix(self) -> &'static str
        ensures { result.now ≡ store_prefix self }
    {
        match self {
            Operand::FromRegister(_) => REGISTER_STORE,
            Operand::Immediate(_) => STORE,
        }
    }
}

impl fmt::Display for MemoryOperand {
    ghost output = { λ place. Some (memory_operand_text place) };

    fn fmt<W: fmt::Write>(&self, f: &mut fmt::Formatter<W>) -> fmt::Result {
        let base = self.base;
        let offset = self.offset;
        write!(f, "[{base}{offset:+}]")
    }
}

impl AluOp {
    /// The name of the operation, without its width.
    pub fn name(self) -> &'static str
        ensures { result.now ≡ alu_name self }
    {
        match self {
            AluOp::Add => "add",
            AluOp::Sub => "sub",
            AluOp::Mul => "mul",
            AluOp::Div => "div",
            AluOp::SignedDiv => "sdiv",
            AluOp::Or => "or",
            AluOp::And => "and",
            AluOp::Lsh => "lsh",
            AluOp::Rsh => "rsh",
            AluOp::Mod => "mod",
            AluOp::SignedMod => "smod",
            AluOp::Xor => "xor",
            AluOp::Mov => "mov",
            AluOp::Arsh => "arsh",
        }
    }
}

impl fmt::Display for AluOp {
    ghost output = { λ op. Some (alu_name op) };

    fn fmt<W: fmt::Write>(&self, f: &mut fmt::Formatter<W>) -> fmt::Result {
        f.write_str(self.name())
    }
}

impl Condition {
    /// The name of a jump on the condition, without its width.
    pub fn name(self) -> &'static str
        ensures { result.now ≡ condition_name self }
    {
        match self {
            Condition::Equal => "jeq",
            Condition::Greater => "jgt",
            Condition::GreaterEqual => "jge",
            Condition::AnyBits => "jset",
            Condition::NotEqual => "jne",
            Condition::SignedGreater => "jsgt",
            Condition::SignedGreaterEqual => "jsge",
            Condition::Less => "jlt",
            Condition::LessEqual => "jle",
            Condition::SignedLess => "jslt",
            Condition::SignedLessEqual => "jsle",
        }
    }
}

impl fmt::Display for Condition {
    ghost output = { λ condition. Some (condition_name condition) };

    fn fmt<W: fmt::Write>(&self, f: &mut fmt::Formatter<W>) -> fmt::Result {
        f.write_str(self.name())
    }
}

impl Width {
    /// The end of the name of an operation of this width: `32`, and nothing at 64 bits.
    pub fn suffix(self) -> &'static str
        ensures { result.now ≡ width_suffix self }
    {
        match self {
            Width::Bits32 => "32",
            Width::Bits64 => "",
        }
    }
}

impl Extension {
    /// The name of the move.
    pub fn name(self) -> &'static str
        ensures { result.now ≡ extension_name self }
    {
        match self {
            Extension::ByteTo32 => "mov32sx8",
            Extension::HalfTo32 => "mov32sx16",
            Extension::ByteTo64 => "movsx8",
            Extension::HalfTo64 => "movsx16",
            Extension::WordTo64 => "movsx32",
        }
    }
}

impl fmt::Display for Extension {
    ghost output = { λ extension. Some (extension_name extension) };

    fn fmt<W: fmt::Write>(&self, f: &mut fmt::Formatter<W>) -> fmt::Result {
        f.write_str(self.name())
    }
}

impl Swap {
    /// The name of the swap, without its bits.
    pub fn name(self) -> &'static str
        ensures { result.now ≡ swap_name self }
    {
        match self {
            Swap::ToLittle => "le",
            Swap::ToBig => "be",
            Swap::Reverse => "swap",
        }
    }
}

impl fmt::Display for Swap {
    ghost output = { λ swap. Some (swap_name swap) };

    fn fmt<W: fmt::Write>(&self, f: &mut fmt::Formatter<W>) -> fmt::Result {
        f.write_str(self.name())
    }
}

impl SwapBits {
    /// The number of bits, which comes after the name of the swap.
    pub fn name(self) -> &'static str
        ensures { result.now ≡ swap_bits_name self }
    {
        match self {
            SwapBits::Swap16 => "16",
            SwapBits::Swap32 => "32",
            SwapBits::Swap64 => "64",
        }
    }
}

impl fmt::Display for SwapBits {
    ghost output = { λ bits. Some (swap_bits_name bits) };

    fn fmt<W: fmt::Write>(&self, f: &mut fmt::Formatter<W>) -> fmt::Result {
        f.write_str(self.name())
    }
}

impl LoadSize {
    /// The letters of the size, which come after the name of the load.
    pub fn suffix(self) -> &'static str
        ensures { result.now ≡ load_suffix self }
    {
        match self {
            LoadSize::LoadByte => "b",
            LoadSize::LoadHalf => "h",
            LoadSize::LoadWord => "w",
            LoadSize::LoadDouble => "dw",
            LoadSize::SignedByte => "sb",
            LoadSize::SignedHalf => "sh",
            LoadSize::SignedWord => "sw",
        }
    }
}

impl fmt::Display for LoadSize {
    ghost output = { λ size. Some (load_suffix size) };

    fn fmt<W: fmt::Write>(&self, f: &mut fmt::Formatter<W>) -> fmt::Result {
        f.write_str(self.suffix())
    }
}

impl Size {
    /// The letters of the size, which come after the name of the store.
    pub fn suffix(self) -> &'static str
        ensures { result.now ≡ store_suffix self }
    {
        match self {
            Size::Byte => "b",
            Size::Half => "h",
            Size::Word => "w",
            Size::Double => "dw",
        }
    }
}

impl fmt::Display for Size {
    ghost output = { λ size. Some (store_suffix size) };

    fn fmt<W: fmt::Write>(&self, f: &mut fmt::Formatter<W>) -> fmt::Result {
        f.write_str(self.suffix())
    }
}

impl Callee {
    /// The name of the call.
    pub fn name(self) -> &'static str
        ensures { result.now ≡ callee_name self }
    {
        match self {
            Callee::Helper => "call",
            Callee::Local => "calllocal",
            Callee::ByTypeId => "callbtf",
        }
    }
}

impl fmt::Display for Callee {
    ghost output = { λ callee. Some (callee_name callee) };

    fn fmt<W: fmt::Write>(&self, f: &mut fmt::Formatter<W>) -> fmt::Result {
        f.write_str(self.name())
    }
}

impl fmt::Display for Distance {
    ghost output = { λ distance. Some (signed_text (distance_of distance)) };

    fn fmt<W: fmt::Write>(&self, f: &mut fmt::Formatter<W>) -> fmt::Result {
        let distance = self.slots();
        write!(f, "{distance:+}")
    }
}
