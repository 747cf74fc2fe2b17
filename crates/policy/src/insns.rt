//! The instructions of compiled tables (RFC 9669).

ghost use Rattle.std.specs.Prelude.{◌≡◌, ◌<◌, ◌≤◌, pos};
ghost use Rattle.bpf_parts.specs.declared.operation.Operand.TheVariants.{FromRegister};
ghost use Rattle.policy.specs.Code.{applied, loaded, set_to, set_to_bits, skips_if, swapped};

use bpf_insn::{
    AluOp, Comparison, Condition, Insn, LoadSize, MemoryOperand, Operand, Register, Swap, SwapBits,
    Width,
};

/// The register of this number, 0 to 10.
pub fn register(number: u8) -> Register
    requires { number ≤ 10 }
    ensures { result ≡ number }
{
    match Register::new(number) {
        Some(register) => register,
        None => unreachable!(),
    }
}

/// A register as the source of an instruction.
pub fn source(number: u8) -> Operand
    requires { number ≤ 10 }
    ensures { result ≡ FromRegister number }
{
    Operand::FromRegister(register(number))
}

/// A load from a place of the part of the header that the base register points to.
pub fn load(size: LoadSize, dst: u8, base: u8, offset: usize) -> Insn
    requires dst { dst ≤ 10 }
    requires base { base ≤ 10 }
    requires inside { offset < 12 }
    ensures { result ≡ loaded size dst base offset }
{
    let place = MemoryOperand {
        base: register(base),
        offset: offset as i16,
    };
    Insn::Load {
        size,
        dst: register(dst),
        place,
    }
}

/// An operation on the whole of a register.
pub fn apply(op: AluOp, dst: u8, src: Operand) -> Insn
    requires { dst ≤ 10 }
    ensures { result ≡ applied op dst src }
{
    Insn::Alu {
        op,
        width: Width::Bits64,
        dst: register(dst),
        src,
    }
}

/// Sets a register to a number.
pub fn set(dst: u8, value: u16) -> Insn
    requires { dst ≤ 10 }
    ensures { result ≡ set_to dst value }
{
    apply(AluOp::Mov, dst, Operand::Immediate(i32::from(value)))
}

/// Sets a register to a number of 32 bits.
pub fn set_bits(dst: u8, value: u32) -> Insn
    requires { dst ≤ 10 }
    ensures { result ≡ set_to_bits dst value }
{
    Insn::Alu {
        op: AluOp::Mov,
        width: Width::Bits32,
        dst: register(dst),
        src: Operand::Immediate(value.cast_signed()),
    }
}

/// Reverses the order of a register's low four bytes.
pub fn swap(dst: u8) -> Insn
    requires { dst ≤ 10 }
    ensures { result ≡ swapped dst }
{
    Insn::ByteSwap {
        swap: Swap::ToBig,
        bits: SwapBits::Swap32,
        dst: register(dst),
    }
}

/// A jump over `skipped` slots, if the condition holds of two words.
pub fn skip_if(condition: Condition, dst: u8, src: Operand, skipped: u8) -> Insn
    requires { dst ≤ 10 }
    ensures { result ≡ skips_if condition dst src skipped }
{
    let comparison = Comparison {
        condition,
        width: Width::Bits64,
        dst: register(dst),
        src,
    };
    Insn::Jump {
        comparison,
        offset: i16::from(skipped),
    }
}
